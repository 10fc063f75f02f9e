//! What the reference keeps: its transactions as rows of plain lists.
ghost use Rattle.std.specs.Prelude.{◌≡◌, ◌↔◌, true};
ghost use Rattle.rq_model.specs.Ledger.{runs};
ghost use Rattle.rq_model.specs.Ledger.Phase.{Shut};
ghost use Rattle.rq_reference.specs.Plain.{phase_of};
ghost use Rattle.rq_model.specs.Vocabulary.{client_group};

use rq_model::message::Message;
use rq_model::txn::{Lsn, Txn};
use std::marker::Model;

/// Whether a reference is open.
#[derive(Clone, Copy, PartialEq, Eq)]
pub enum State {
    /// It is, and answers calls.
    Running,
    /// A migration to so many tag pages was answered, and it answers nothing more.
    Stopped(u32),
    /// It is not.
    Shut,
}

impl State {
    /// Whether it answers calls.
    pub fn is_running(self) -> bool
        ensures { result ≡ runs (phase_of self) }
    {
        match self {
            State::Running => true,
            State::Stopped(_) => false,
            State::Shut => false,
        }
    }

    /// Whether it is not open.
    pub fn is_shut(self) -> bool
        ensures { (result ≡ true) ↔ (phase_of self ≡ Shut) }
    {
        match self {
            State::Running => false,
            State::Stopped(_) => false,
            State::Shut => true,
        }
    }
}

/// What a finished operation of a transaction did.
#[derive(Clone, Copy, PartialEq, Eq)]
pub enum Act {
    /// A message was sent.
    Sent(Message),
    /// A message was received.
    Taken(Message),
    /// The sender's group was closed.
    Closed(u32),
    /// The tag was marked for the client.
    Marked { client: u32, tag: u64 },
}

/// What the operation under way is to do.
#[derive(Clone, Copy, PartialEq, Eq)]
pub enum Work {
    /// To send a message.
    Sending(Message),
    /// To receive from the sender's group.
    Taking(u32),
    /// To close the sender's group.
    Closing(u32),
    /// To mark the tag for the client.
    Marking { client: u32, tag: u64 },
    /// To undo what its transaction did last and has not undone.
    Undoing,
}

// The number of the first client's group. No sender has it.
const CLIENT_GROUPS: u64 = 1 << 32;

/// The number of the client's group.
pub fn client_group(client: u32) -> u64
    ensures { result ≡ client_group client }
{
    CLIENT_GROUPS + u64::from(client)
}

/// A transaction that has not ended.
#[derive(Drop)]
pub struct OpenTxn {
    /// Its number.
    pub txn: Txn,
    /// Whether it is aborting.
    pub aborting: bool,
    /// What its finished operations did and no compensation undid, in order.
    pub acts: Vec<Act>,
    /// The groups whose sending end it holds: those of senders, and those of clients.
    pub sending: Vec<u64>,
    /// The groups whose receiving end it holds.
    pub receiving: Vec<u64>,
    /// The number of its newest operation; 0 before the first.
    pub number: u64,
    /// The operation under way.
    pub work: Option<Work>,
    /// How many slot writes of the operation under way are not made.
    pub left: u8,
}

/// A committed transaction.
#[derive(Drop)]
pub struct CommittedTxn {
    /// Its number.
    pub txn: Txn,
    /// The LSN of its Commit record.
    pub lsn: Lsn,
    /// What it did, in order.
    pub acts: Vec<Act>,
}

/// The committed content of a sender's group. Contracts see the group.
#[derive(Drop)]
pub struct GroupContent {
    /// How many messages were sent.
    pub sent: u64,
    /// The tag of the last message sent; 0 before the first.
    pub last_tag: u64,
    /// How many messages were received.
    pub received: u64,
    /// Whether the group is closed.
    pub closed: bool,
    /// The messages sent and not received, in order.
    pub rest: Vec<Message>,
}

impl Model for GroupContent {
    ghost use Rattle.rq_model.specs.History.{Group};

    ghost Value = { Group };

    ghost view = { λ g. record {
      sent = g.sent;
      last_tag = g.last_tag;
      received = g.received;
      closed = g.closed;
      rest = g.rest.items;
    } };
}
