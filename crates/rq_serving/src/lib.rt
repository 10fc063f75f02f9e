//! Sessions over a store: what a session asks is called through a step interface, and its reply handed to the session.
#![tactic(auto)]

pub mod asking;
pub mod laws;
pub mod serving;
