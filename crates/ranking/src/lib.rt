// Ranking (document 01: Give and Number): from a derivation number to its sentence and back.
#![tactic(auto)]

pub mod rank;
pub mod unrank;
