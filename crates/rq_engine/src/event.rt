//! What is asked of the engine, and what it answers.
ghost use Rattle.std.specs.Prelude.{◌≡◌, true, IfSome, IfNone};
ghost use Rattle.rq_engine.specs.Says.{call_of, has_body};

pub use rq_content::GroupContent;
pub use rq_groups::LastTag;
pub use rq_level::Outcome;
use rq_model::refusal::Refusal;
use rq_model::txn::{Lsn, Sub, Txn};
pub use rq_pool::Written;

/// The number of a commit: its transaction, and the LSN of its Commit record. Only `commit` makes one.
#[derive(Clone, Copy, PartialEq, Eq)]
pub struct CommitNo {
    txn: Txn,
    lsn: Lsn,
}

impl CommitNo {
    pub(crate) fn new(txn: Txn, lsn: Lsn) -> Self
        ensures txn { result.txn ≡ txn }
        ensures lsn { result.lsn ≡ lsn }
    {
        CommitNo { txn, lsn }
    }

    /// The transaction that was committed.
    pub fn txn(&self) -> Txn
        ensures { result ≡ self.now.txn }
    {
        self.txn
    }

    /// The LSN of its Commit record.
    pub fn lsn(&self) -> Lsn
        ensures { result ≡ self.now.lsn }
    {
        self.lsn
    }
}

/// That a commit is durable. Only `acknowledged` makes one.
#[derive(Clone, Copy, PartialEq, Eq)]
pub struct Receipt {
    number: CommitNo,
}

impl Receipt {
    pub(crate) fn new(number: CommitNo) -> Self
        ensures { result.number ≡ number }
    {
        Receipt { number }
    }

    /// The commit that is durable.
    pub fn number(&self) -> CommitNo
        ensures { result ≡ self.now.number }
    {
        self.number
    }
}

/// What a step of an operation did.
#[derive(Clone, Copy, PartialEq, Eq)]
pub enum Progress {
    /// One slot was written; its record has this LSN.
    Done(Lsn),
    /// All slots are written: the operation may be finished.
    Ready,
}

/// What a client's committed marks come to.
#[derive(Clone, Copy, PartialEq, Eq)]
pub struct ClientTag {
    /// How often it was marked.
    pub count: u64,
    /// The last tag, 0 where there is none.
    pub tag: u64,
}

/// One call of the engine.
#[derive(Drop)]
pub enum Event {
    Begin,
    StartSend {
        txn: Txn,
        sender: u32,
        tag: u64,
        body: Vec<u8>,
    },
    StartReceive(Txn),
    StartReceiveFrom {
        txn: Txn,
        sender: u32,
    },
    StartClose {
        txn: Txn,
        sender: u32,
    },
    StartMark {
        txn: Txn,
        client: u32,
        tag: u64,
    },
    Step(Sub),
    Finish(Sub),
    Commit(Txn),
    StartAbort(Txn),
    UndoNext(Txn),
    EndAbort(Txn),
    Acknowledged(CommitNo),
    HandOver,
    Force,
    Checkpoint,
    Migrate(u32),
    WritePage(u32),
    LastTag(u32),
    ClientTag(u32),
    Content,
}

impl Event {
    /// The same event; None where it has a body, and there is no memory for that.
    pub fn copied(&self) -> Option<Event>
        ensures same { IfSome result (λ copy. call_of copy ≡ call_of self.now) }
        ensures body { IfNone result (has_body (call_of self.now) ≡ true) }
    {
        match self {
            Event::Begin => Some(Event::Begin),
            Event::StartSend {
                txn,
                sender,
                tag,
                body,
            } => match body.clone() {
                Ok(body) => Some(Event::StartSend {
                    txn: *txn,
                    sender: *sender,
                    tag: *tag,
                    body,
                }),
                Err(_) => None,
            },
            Event::StartReceive(txn) => Some(Event::StartReceive(*txn)),
            Event::StartReceiveFrom { txn, sender } => Some(Event::StartReceiveFrom {
                txn: *txn,
                sender: *sender,
            }),
            Event::StartClose { txn, sender } => Some(Event::StartClose {
                txn: *txn,
                sender: *sender,
            }),
            Event::StartMark { txn, client, tag } => Some(Event::StartMark {
                txn: *txn,
                client: *client,
                tag: *tag,
            }),
            Event::Step(sub) => Some(Event::Step(*sub)),
            Event::Finish(sub) => Some(Event::Finish(*sub)),
            Event::Commit(txn) => Some(Event::Commit(*txn)),
            Event::StartAbort(txn) => Some(Event::StartAbort(*txn)),
            Event::UndoNext(txn) => Some(Event::UndoNext(*txn)),
            Event::EndAbort(txn) => Some(Event::EndAbort(*txn)),
            Event::Acknowledged(number) => Some(Event::Acknowledged(*number)),
            Event::HandOver => Some(Event::HandOver),
            Event::Force => Some(Event::Force),
            Event::Checkpoint => Some(Event::Checkpoint),
            Event::Migrate(pages) => Some(Event::Migrate(*pages)),
            Event::WritePage(page) => Some(Event::WritePage(*page)),
            Event::LastTag(sender) => Some(Event::LastTag(*sender)),
            Event::ClientTag(client) => Some(Event::ClientTag(*client)),
            Event::Content => Some(Event::Content),
        }
    }
}

/// The answer to an event.
#[derive(Drop)]
pub enum Reply {
    /// The transaction that was begun.
    Begun(Txn),
    /// The operation that was started.
    Started(Sub),
    /// There is no message to receive.
    NoMessage,
    /// What a step did.
    Stepped(Progress),
    /// What the finished operation did.
    Finished(Outcome),
    /// The number of the commit.
    Committed(CommitNo),
    /// The transaction is aborting.
    Aborting,
    /// Nothing is left to undo.
    NothingLeft,
    /// The abort was ended.
    Aborted,
    /// The receipt, where the commit is durable.
    Acknowledged(Option<Receipt>),
    /// The buffered records were handed over.
    HandedOver,
    /// Every record up to this LSN is forced.
    Forced(Lsn),
    /// The log is one record, with this LSN.
    Checkpointed(Lsn),
    /// The store got its tag pages; the log is one record, with this LSN.
    Migrated(Lsn),
    /// What was done for the page.
    Written(Written),
    /// What the sender's committed sends come to.
    LastTag(LastTag),
    /// What the client's committed marks come to.
    ClientTag(ClientTag),
    /// The committed content, by sender.
    Content(Vec<GroupContent>),
    /// The call was refused.
    Refused(Refusal),
}
