// The reader of grammars (document 01: bank): whether the bytes are accepted, the walk along a nonterminal's chain, and the table of
// the rules by kind with the links between them.
#![tactic(auto)]

pub mod checks;
pub mod cursor;
pub mod entries;
pub mod fields;
mod kinds;
pub mod links;
pub mod rules;
