// The history of played sentences (document 01: diary): whether the bytes are accepted, the reading of one record, the reader along its
// chain, and *Log*.
#![tactic(auto)]

pub mod append;
pub mod checks;
pub mod reader;
pub mod records;
