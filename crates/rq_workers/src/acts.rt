//! What a worker does.
ghost use Rattle.std.specs.Prelude.{◌≡◌};
ghost use Rattle.rq_workers.specs.Hearing.{heard_of, ended_of, part_event};

use rq_engine::event::{Event, Outcome, Progress, Reply};
use rq_model::refusal::Refusal;
use rq_model::txn::{Lsn, Sub};
use rq_shared::kept::Stamped;
use std::snapshot::Snapshot;

/// One thing that a worker did.
#[derive(Drop)]
pub enum Act {
    /// It asked its gate at this point, and was told whether to go on.
    Asked(u32, bool),
    /// It asked the step interface for a copy of what it was to call, and memory was wanting for it.
    Lacked,
    /// It made a call, which this stamp answered, and handed the stamp on.
    Made(Snapshot<Stamped>),
    /// It forced by the step interface's own force, which this stamp answered, and handed the stamp on.
    Forced(Snapshot<Stamped>),
}

/// What a call of an operation was answered, without a stamp.
#[derive(Clone, Copy, PartialEq, Eq)]
pub enum Heard {
    /// The operation was started.
    Started(Sub),
    /// There is no message to receive.
    NoMessage,
    /// Nothing is left to undo.
    NothingLeft,
    /// A slot was written, by the record of this LSN.
    Done(Lsn),
    /// All slots are written.
    Ready,
    /// The operation was finished, and did this.
    Finished(Outcome),
    /// The call was refused.
    Refused(Refusal),
    /// The answer of a call that is none of an operation's.
    Other,
}

/// What came of an operation.
#[derive(Clone, Copy, PartialEq, Eq)]
pub enum RunEnd {
    /// It was finished, and did this.
    Finished(Outcome),
    /// There is no message to receive: nothing was started.
    NoMessage,
    /// Nothing is left to undo: nothing was started.
    NothingLeft,
    /// A call of it was refused. Where that was its start, nothing was started.
    Refused(Refusal),
    /// What was to start it is no start, so that no call was made; or a call was answered as none of its kind is.
    Other,
}

/// What a reply says to an operation.
pub(crate) fn heard_in(reply: &Reply) -> Heard
    ensures { result ≡ heard_of reply.now }
{
    match reply {
        Reply::Begun(_) => Heard::Other,
        Reply::Started(sub) => Heard::Started(*sub),
        Reply::NoMessage => Heard::NoMessage,
        Reply::Stepped(Progress::Done(lsn)) => Heard::Done(*lsn),
        Reply::Stepped(Progress::Ready) => Heard::Ready,
        Reply::Finished(outcome) => Heard::Finished(*outcome),
        Reply::Committed(_) => Heard::Other,
        Reply::Aborting => Heard::Other,
        Reply::NothingLeft => Heard::NothingLeft,
        Reply::Aborted => Heard::Other,
        Reply::Acknowledged(_) => Heard::Other,
        Reply::HandedOver => Heard::Other,
        Reply::Forced(_) => Heard::Other,
        Reply::Checkpointed(_) => Heard::Other,
        Reply::Migrated(_) => Heard::Other,
        Reply::Written(_) => Heard::Other,
        Reply::LastTag(_) => Heard::Other,
        Reply::ClientTag(_) => Heard::Other,
        Reply::Content(_) => Heard::Other,
        Reply::Refused(refusal) => Heard::Refused(*refusal),
    }
}

/// What the last answer says of an operation.
pub(crate) fn end_by(last: Heard) -> RunEnd
    ensures { result ≡ ended_of last }
{
    match last {
        Heard::Started(_) => RunEnd::Other,
        Heard::NoMessage => RunEnd::NoMessage,
        Heard::NothingLeft => RunEnd::NothingLeft,
        Heard::Done(_) => RunEnd::Other,
        Heard::Ready => RunEnd::Other,
        Heard::Finished(outcome) => RunEnd::Finished(outcome),
        Heard::Refused(refusal) => RunEnd::Refused(refusal),
        Heard::Other => RunEnd::Other,
    }
}

/// What is called of an operation that was started.
#[derive(Clone, Copy, PartialEq, Eq)]
pub(crate) enum Part {
    Step,
    Finish,
}

impl Part {
    pub(crate) fn event(self, sub: Sub) -> Event
        ensures { result ≡ part_event self sub }
    {
        match self {
            Part::Step => Event::Step(sub),
            Part::Finish => Event::Finish(sub),
        }
    }
}

/// How the steps of an operation go on.
#[derive(Clone, Copy, PartialEq, Eq)]
pub(crate) enum AfterStep {
    /// There is another step.
    Again,
    /// All slots are written.
    Ready,
    /// That was the last answer.
    Last(Heard),
}
