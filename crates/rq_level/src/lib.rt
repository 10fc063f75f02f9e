//! Levels of recovery: what an operation wants to see, what is planned of it, and what a level keeps of the store.
//!
//! A level is known by its number alone: `Meaning` says what the level of each number does, `IsLawful` the laws that all
//! of them keep. `rq_planner` drives them for the engine and for restarts.
#![tactic(auto)]

mod level;
mod levels;
mod op;
mod slots;
mod writes;

pub use level::{
    Level, Want, applied_twice_is_once, levels_are_lawful, redo_page, what_is_kept_is_read_anew,
};
pub use levels::Levels;
pub use op::Op;
pub use slots::{Given, PageSet, Slots};
pub use writes::{
    CHAIN_RECORDS, Gist, ONE_SLOT_RECORDS, Outcome, Plan, Replies, SlotWrite, put_only,
};
