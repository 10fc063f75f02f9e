//! What a connection is answered.
use rq_model::message::Message;
use rq_model::refusal::Refusal;
use rq_model::txn::{Lsn, Txn};

/// The answer to one request.
#[derive(Clone, Copy, PartialEq, Eq)]
pub enum Answer {
    /// The transaction that was begun.
    Begun(Txn),
    /// The message was sent.
    Sent,
    /// This message was received.
    Message(Message),
    /// There is no message to receive.
    NoMessage,
    /// The group was closed.
    Closed,
    /// The client's tag was marked.
    Marked,
    /// The transaction is committed, and its Commit record, with this LSN, is forced.
    Committed(Lsn),
    /// The transaction is undone.
    Aborted,
    /// How many committed messages a sender has sent, and the tag of the last one; 0 where there is none.
    LastTag { sent: u64, tag: u64 },
    /// How many tags are marked for a client by committed transactions, and the last one; 0 where there is none.
    ClientTag { count: u64, tag: u64 },
    /// The request was refused.
    Refused(Refusal),
}
