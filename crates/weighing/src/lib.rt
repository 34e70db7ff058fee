// *Draw* by the words' weights (document 02, U7): each unheard derivation owns as many tickets as it weighs.
#![tactic(auto)]

pub mod draw;
pub mod prepare;
pub mod sums;
pub mod weights;
