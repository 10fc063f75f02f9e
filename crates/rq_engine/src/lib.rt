//! The engine: one call is one atomic event. It turns calls into records of the log and writes of slots.
#![tactic(auto)]

mod aborts;
mod apply;
mod checkpoint;
mod closes;
pub mod engine;
pub mod event;
mod last;
mod looking;
mod marks;
mod migration;
mod moves;
mod operations;
mod page_numbers;
mod pages;
mod receives;
mod sends;
mod starts;
mod undoing;
