//! How a store has an operation planned by a level: the slots that the level wants are gathered, each as it is, and it plans
//! from these, on pages that nobody has latched.
//!
//! The cell of each plan is given back at once, and a level that is told a store knows its cells.
#![tactic(auto, unfolding(rq_level::specs::Meaning::meaning_of))]

mod gathering;
mod handed;
mod page_undos;
mod planner;
mod planning;
mod telling;

pub use handed::StoreLevels;
pub use planner::Planner;
