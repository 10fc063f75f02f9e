//! The engine with an audit of every call, as it is kept under one lock.
#![tactic(auto)]

mod count;
pub mod guarded;
pub mod kept;
pub mod mark;
mod same;
pub mod shared;
pub mod sharing;
pub mod tied;
