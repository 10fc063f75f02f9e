//! What may happen to a store, and what is answered.
use rq_engine::event::{Event, Reply};
use rq_model::refusal::Refusal;
use rq_restart::restart::Report;

/// What outlives a crash.
#[derive(Drop)]
pub struct Choice {
    /// So many of the records that are not forced, or all where there are fewer.
    pub keep: u64,
    /// So many bytes of the record behind those, at most all but one; none where there is no such record.
    pub bytes: u64,
    /// Of each page, by number, the place of its image among the synced one, which is 0, and those written
    /// since. A place that is too large is the newest, and so is one that is missing.
    pub pages: Vec<u64>,
}

/// What may happen to a store. A number of device calls counts from 1, and 0 means none.
///
/// A call of a store that is not open is answered `Failed`, and a crash there leaves all that its devices hold,
/// whatever was chosen. A restart of a store that was opened, and has not crashed since, is answered `Running`, also
/// where it has failed.
#[derive(Drop)]
pub enum Happening {
    /// A call.
    Call(Event),
    /// `Acknowledged` of the commit that the nth happening answered, counted from 1.
    Ack(u64),
    /// The nth device call from now fails, once. One failure is armed at a time: a second takes the place of the
    /// first, and 0 takes it back.
    Fail(u64),
    /// The power fails.
    Crash(Choice),
    /// The power fails at the nth device call of a call. That device call is made where it is an append or a page
    /// write, and not made otherwise. Where the call makes fewer, it is the call itself. What was not handed over then
    /// is gone.
    StopIn(Event, u64, Choice),
    /// The store is opened.
    Restart,
    /// The power fails at the nth device call of a restart, as in a call.
    RestartStop(u64, Choice),
}

/// What a happening came to.
#[derive(Drop)]
pub enum Entry {
    /// The answer to a call.
    Answered(Reply),
    /// The last LSN that is left.
    Crashed(u64),
    /// The store is open.
    Restarted(Report),
    /// The store was not opened.
    Refused(Refusal),
    /// The store was open already.
    Running,
    /// Nothing happened: a failure is to come, or no commit was answered there.
    Nothing,
}
