//! What a log holds, as text: a line for each record, and a report of what they come to.
#![tactic(auto)]

mod inspecting;
mod keys;
mod lines;
mod reporting;

pub use inspecting::{Stop, inspect};
pub use lines::line;
pub use reporting::Report;
