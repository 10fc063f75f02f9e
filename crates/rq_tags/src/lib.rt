//! Marks of clients' tags, each as one slot write.
#![tactic(auto, unfolding(rq_level::specs::Meaning::meaning_of))]

mod doing;
mod marks;
mod slots;
mod tags;

pub use tags::TagLevel;
