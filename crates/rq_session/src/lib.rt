//! One connection's requests as calls of the engine, one after the other, and its answers. A session is a value:
//! it makes no call and waits for nobody, it says what is to be done next.
#![tactic(auto)]

pub mod actions;
mod first_calls;
pub mod laws;
mod session;
mod stage;
mod turns;

pub use session::Session;
