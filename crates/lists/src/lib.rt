// Definitions and laws of plain lists, for the proofs of the crates above. No code.
#![tactic(auto)]
