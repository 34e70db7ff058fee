// What a call answers, for the contracts of the crates above.
#![tactic(auto)]

pub mod refusal;
