//! Writes of slots, and plans of them.
ghost use Rattle.std.specs.Prelude.{◌≡◌, ◌<◌, ◌^◌, ◌/◌, ◌%◌, [], ◌∷◌, OnOk};
ghost use Rattle.rq_level.specs.Gists.{counted};

use rq_model::message::Message;
use rq_model::record::{DeedBytes, Slot};
use rq_model::refusal::NoMemory;
use rq_page::addr::Addr;
use std::alloc::Global;

/// A write of a slot: where, what stands there before it and what after it.
#[derive(Clone, Copy)]
pub struct SlotWrite {
    pub at: Addr,
    pub before: Slot,
    pub after: Slot,
    ghost page: { at / 16 < 2 ^ 32 },
    ghost slot: { 0 < at % 16 },
}

/// What a finished operation did.
#[derive(Clone, Copy, PartialEq, Eq)]
pub enum Outcome {
    /// A message was sent.
    Sent,
    /// This message was received.
    Message(Message),
    /// A group was closed.
    Closed,
    /// A client's tag was marked.
    Marked,
    /// An earlier operation was undone.
    Undone,
}

/// What a send, a receive or the inverse of one is counted as where it starts: three slots and an end.
pub const CHAIN_RECORDS: u64 = 4;

/// What a close, a mark, or the inverse of one, is counted as where it starts: one slot and an end.
pub const ONE_SLOT_RECORDS: u64 = 2;

/// What is counted of a deed: its kind, its group or client, and its tag.
#[derive(Clone, Copy)]
pub enum Gist {
    /// A message was sent.
    Append { sender: u32, tag: u64 },
    /// A message was taken.
    UnlinkHead { sender: u32 },
    /// A group was closed.
    Close { sender: u32 },
    /// A client's tag was marked.
    Mark { client: u32, tag: u64 },
}

/// What the end of a planned operation replies.
#[derive(Clone, Copy)]
pub enum Replies {
    /// Nothing: the operation has no end.
    Nothing,
    /// What its deed tells: that a message was sent, which one was received, that a group was closed or a tag marked. It has what is
    /// counted of that.
    Deed(Gist),
    /// That an earlier operation was undone.
    Undone,
}

impl Replies {
    /// What is counted of the deed that the end tells; none where it tells none.
    pub fn gist(&self) -> Option<Gist>
        ensures { result ≡ counted self.now }
    {
        match self {
            Replies::Deed(gist) => Some(*gist),
            _ => None,
        }
    }
}

/// The writes of an operation, in order, the deed that its end tells, and what that replies.
#[derive(Drop)]
pub struct Plan {
    pub writes: Vec<SlotWrite>,
    pub deed: DeedBytes,
    pub reply: Replies,
}

impl Plan {
    /// A plan of nothing.
    #[inline(always)]
    pub fn new(alloc: Global) -> Self
        ensures { result.writes.items ≡ [] }
    {
        Plan {
            writes: Vec::new(alloc),
            deed: DeedBytes::empty(),
            reply: Replies::Nothing,
        }
    }
}

/// Puts a write into a vector, in place of what stands there.
#[inline(always)]
pub fn put_only(writes: &mut Vec<SlotWrite>, write: SlotWrite) -> Result<(), NoMemory>
    ensures { OnOk result (writes.new.items ≡ write ∷ []) }
{
    writes.clear();
    match writes.push(write) {
        Ok(()) => Ok(()),
        Err(_) => Err(NoMemory),
    }
}
