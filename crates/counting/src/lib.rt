// Counting (document 01: T): the table of T by length, and *Count*.
#![tactic(auto)]

pub mod count;
pub mod letters;
pub mod needs;
pub mod prepare;
pub mod tallies;
