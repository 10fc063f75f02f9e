//! The level of single slots.
#![tactic(auto, unfolding(rq_level::specs::Meaning::meaning_of))]

mod page_level;

pub use page_level::PageLevel;
