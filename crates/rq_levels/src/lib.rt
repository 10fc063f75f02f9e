//! The levels of a store, as one type: that of single slots, that of chains, and that of tags.
//!
//! A program may hand in any levels. This crate has them without a box, for `rqm`, tests and programs that count.
#![tactic(auto, unfolding(rq_level::specs::Meaning::meaning_of))]

mod store_level;

pub use store_level::{StoreLevel, levels_of_store, sets_of_levels};
