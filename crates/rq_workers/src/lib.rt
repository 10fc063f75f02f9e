//! Workers: the loops that threads run over a store. They go by a step interface and by a gate alone.
#![tactic(auto)]

pub mod acts;
pub mod gate;
pub mod kept;
pub mod operation;
pub mod shared;
pub mod steps;
pub mod worker;
pub mod writers;
