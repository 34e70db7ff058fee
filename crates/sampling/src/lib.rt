// *Left* and *Draw* (document 01): sampling without the sentences that a patient has heard.
#![tactic(auto)]

pub mod draw;
pub mod heard;
pub mod pattern;
pub mod prepare;
pub mod question;
pub mod remaining;
pub mod skip;
