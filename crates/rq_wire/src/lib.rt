//! The frames of a connection: requests from bytes in whatever pieces they come, and answers to bytes.
#![tactic(auto)]

mod answers;
mod frames;
pub mod laws;
mod look;
mod request;
mod writing;

pub use answers::Answer;
pub use frames::{Fed, Frames};
pub use request::{Request, SendBody};
pub use writing::answer;
