//! Operations on the chain of a sender's cells, as lists of slot writes.
//!
//! A sender's messages stand in cells that are linked both ways; its directory slot names the first and the
//! last. An operation is planned whole from the slots as they are, and its writes are made one at a time.
#![tactic(auto, unfolding(rq_level::specs::Meaning::meaning_of))]

mod answers;
mod cells;
mod common;
mod doing;
mod given;
mod level;
mod plans;
mod spans;
mod wants;
mod writes;

pub use common::{slot_wanted, take_back, told_layout};
pub use level::ChainLevel;
pub use plans::{append, put_back, set_closed, unlink_head, unlink_tail};
use rq_model::record::Slot;
use rq_page::addr::Addr;
use rq_page::directory::Directory;

/// A used cell that was given: where it stands, and the bytes of its slot.
#[derive(Clone, Copy)]
pub struct CellEntry<'a> {
    pub at: Addr,
    pub bytes: &'a Slot,
}

/// A sender's directory slot: where it stands, whose it is, and what it says.
#[derive(Clone, Copy)]
pub struct DirectoryEntry {
    pub at: Addr,
    pub sender: u32,
    pub directory: Directory,
}
