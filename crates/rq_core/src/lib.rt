//! A store to which anything may happen: the headline, as the contract of a run.
#![tactic(auto)]

pub mod happening;
pub mod laws;
pub mod world;
