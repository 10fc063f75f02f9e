//! What the queue is: its words, its history, its log and what they come to, apart from any code.
#![tactic(auto)]

pub mod in_place;
pub mod laws;
pub mod limits;
pub mod message;
pub mod record;
pub mod refusal;
pub mod txn;
