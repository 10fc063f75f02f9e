//! The server: workers that each serve many connections in rounds over one store. Beside them one thread forces what
//! nobody waits for, one writes pages, and one makes checkpoints.
//!
//! It makes no promise of its own beyond safety. What a client can rely on is said of what it stands on. `rq_wire` says
//! it of frames, `rq_session` and `rq_serving` of sessions. `rq_workers` says it of the step interface and its loops,
//! and `rq_shared` of the shared engine with its mark.
#![tactic(auto)]

mod calls;
mod connection;
mod door;
mod gates;
mod length;
mod notices;
mod noting;
mod rounds;
mod server;
mod steps;
mod stopped;
mod turns;

pub use crate::length::LogLength;
pub use crate::server::{Plan, serve};
pub use crate::stopped::Stopped;
