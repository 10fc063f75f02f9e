//! What the log says.
use crate::in_place::InPlace;
use crate::message::Body;
use crate::txn::Txn;

/// The bytes of a slot of a page.
pub const SLOT_BYTES: usize = 256;

/// The image of a slot.
pub type Slot = [u8; SLOT_BYTES];

/// The longest deed, in bytes.
pub const DEED_LIMIT: usize = 256;

/// What an operation's end says was done, as bytes that its level alone reads: 1 to 256 of them in a record, none in a
/// plan whose operation ends with no deed.
pub type DeedBytes = InPlace<DEED_LIMIT>;

/// A record of the log.
#[derive(Clone, Copy, PartialEq, Eq)]
pub enum Record {
    /// An operation wrote a slot.
    PageOp {
        txn: Txn,
        operation: u64,
        page: u32,
        slot: u8,
        before: Slot,
        after: Slot,
    },
    /// A slot write, named by its LSN, was undone: the slot holds `after` again.
    PageUndo {
        txn: Txn,
        operation: u64,
        undone: u64,
        page: u32,
        slot: u8,
        after: Slot,
    },
    /// An operation is finished.
    OpEnd {
        txn: Txn,
        operation: u64,
        level: u8,
        deed: DeedBytes,
    },
    /// An operation never was: all its slot writes are undone.
    OpVoid {
        txn: Txn,
        operation: u64,
    },
    /// A compensation is finished: the operation whose OpEnd stands at `undone` is undone.
    CompEnd {
        txn: Txn,
        operation: u64,
        undone: u64,
    },
    /// The transaction is committed.
    Commit {
        txn: Txn,
    },
    /// A new incarnation of the store begins.
    Restart {
        incarnation: u64,
    },
    /// The transaction is aborted, and all that it did is undone.
    AbortEnd {
        txn: Txn,
    },
    /// So many records stood before it, the last ones of this incarnation. All that they began had ended, and the pages
    /// hold it.
    Base {
        records: u64,
        incarnation: u64,
    },
}

/// What an operation did: a mark at the level of tags, any other at that of chains.
#[derive(Clone, Copy, PartialEq, Eq)]
pub enum Deed {
    /// A message was put at the end of its sender's group. `previous` is the last tag before it.
    Append {
        sender: u32,
        sequence: u64,
        tag: u64,
        previous: u64,
        body: Body,
    },
    /// The first message of a group was taken.
    UnlinkHead {
        sender: u32,
        sequence: u64,
        tag: u64,
        body: Body,
    },
    /// A group was closed.
    Close {
        sender: u32,
    },
    /// A client's tag was marked. `previous` is the one before it.
    Mark {
        client: u32,
        tag: u64,
        previous: u64,
    },
}
