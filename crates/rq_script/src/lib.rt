//! Scripts: a store over memory devices, driven by one command a line.
#![tactic(auto)]

mod calls;
mod command;
mod command_result;
mod log;
mod machine;
mod script;
mod store;

pub use script::{run_script, sets_wanted};
