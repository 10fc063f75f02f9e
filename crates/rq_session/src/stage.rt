//! Where a session stands.
use crate::actions::Action;
use rq_engine::event::CommitNo;
use rq_model::txn::{Sub, Txn};

/// The transaction of a session between two requests.
#[derive(Clone, Copy, PartialEq, Eq)]
pub(crate) enum OwnTxn {
    // none
    Free,
    // it is open, with no operation under way
    Open(Txn),
    // it is open; this operation was refused a step or its finish and is still under way
    Left(Sub),
    // it is aborting, with no compensation under way
    Aborting(Txn),
    // it is aborting; this compensation was refused a step or its finish and is still under way
    Undoing(Sub),
}

/// For what an operation is carried out.
#[derive(Clone, Copy, PartialEq, Eq)]
pub(crate) enum Purpose {
    // a request
    Request,
    // an abort, which has to finish what was left under way
    Clearing,
    // an abort, which undoes an earlier operation
    Undoing,
}

/// Which call a session asked for last.
#[derive(Clone, Copy, PartialEq, Eq)]
pub(crate) enum Stage {
    // none: it may be handed a request
    Rest(OwnTxn),
    Begin,
    LastTag(OwnTxn),
    ClientTag(OwnTxn),
    // the start of a send, a receive, a close or a mark
    Start(OwnTxn),
    Step(Sub, Purpose),
    Finish(Sub, Purpose),
    Commit(OwnTxn),
    // none: it waits for the receipt of a commit
    Await(CommitNo),
    StartAbort(Txn),
    UndoNext(Txn),
    EndAbort(Txn),
    // none, and it has ended
    Ended,
}

/// What is to be done, and where the session stands then.
#[derive(Drop)]
pub(crate) struct Next {
    pub(crate) action: Action,
    pub(crate) stage: Stage,
}
