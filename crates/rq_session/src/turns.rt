//! What is to be done at a reply.
ghost use Rattle.std.specs.Prelude.{◌≡◌};
ghost use Rattle.rq_model.specs.Vocabulary.{same_txn};
ghost use Rattle.rq_session.specs.Rules.{after_begin, after_last_tag, after_client_tag, after_start, work_refused, after_step, after_finish, after_commit, after_await, after_start_abort, after_undo_next, after_end_abort, after_reply, after_loss, done, undone, is_commit, is_commit_of, started as first_step, cleared as cleared_purpose};

use crate::actions::Action;
use crate::first_calls::{abort_on, answer_with, call, end, refuse, stop_abort, txn_of};
use crate::stage::{Next, OwnTxn, Purpose, Stage};
use rq_engine::event::{CommitNo, Event, Outcome, Progress, Reply};
use rq_model::refusal::Refusal;
use rq_model::txn::{Sub, Txn};
use rq_wire::Answer;

// What is to be done at the reply to the call that was asked for last.
pub(crate) fn turn(lost: bool, stage: Stage, reply: &Reply) -> Next
    ensures { result ≡ after_reply lost stage reply.now }
{
    match stage {
        Stage::Rest(_) | Stage::Ended => end(),
        Stage::Begin => begun(reply),
        Stage::LastTag(held) => last_tag_told(held, reply),
        Stage::ClientTag(held) => client_tag_told(held, reply),
        Stage::Start(held) => started(held, reply),
        Stage::Step(sub, purpose) => stepped(lost, sub, purpose, reply),
        Stage::Finish(sub, purpose) => finished(lost, sub, purpose, reply),
        Stage::Commit(held) => committed(held, reply),
        Stage::Await(commit) => awaited(commit, reply),
        Stage::StartAbort(txn) => abort_started(lost, txn, reply),
        Stage::UndoNext(txn) => undo_started(lost, txn, reply),
        Stage::EndAbort(txn) => abort_ended(lost, txn, reply),
    }
}

fn begun(reply: &Reply) -> Next
    ensures { result ≡ after_begin reply.now }
{
    match reply {
        Reply::Begun(txn) => answer_with(Answer::Begun(*txn), OwnTxn::Open(*txn)),
        Reply::Refused(refusal) => refuse(*refusal, OwnTxn::Free),
        _ => end(),
    }
}

fn last_tag_told(held: OwnTxn, reply: &Reply) -> Next
    ensures { result ≡ after_last_tag held reply.now }
{
    match reply {
        Reply::LastTag(last) => answer_with(
            Answer::LastTag {
                sent: last.sent,
                tag: last.tag,
            },
            held,
        ),
        Reply::Refused(refusal) => refuse(*refusal, held),
        _ => end(),
    }
}

fn client_tag_told(held: OwnTxn, reply: &Reply) -> Next
    ensures { result ≡ after_client_tag held reply.now }
{
    match reply {
        Reply::ClientTag(last) => answer_with(
            Answer::ClientTag {
                count: last.count,
                tag: last.tag,
            },
            held,
        ),
        Reply::Refused(refusal) => refuse(*refusal, held),
        _ => end(),
    }
}

fn started(held: OwnTxn, reply: &Reply) -> Next
    ensures { result ≡ after_start held reply.now }
{
    match (reply, txn_of(held)) {
        (Reply::Started(sub), Some(txn)) => step_of(txn, sub.number, Purpose::Request),
        (Reply::NoMessage, _) => answer_with(Answer::NoMessage, held),
        (Reply::Refused(refusal), _) => refuse(*refusal, held),
        _ => end(),
    }
}

// The first step of an operation of this transaction.
fn step_of(txn: Txn, number: u64, purpose: Purpose) -> Next
    ensures { result ≡ first_step (Some txn) number purpose }
{
    let sub = Sub { txn, number };
    call(Event::Step(sub), Stage::Step(sub, purpose))
}

// An operation under way was refused; `again` is the same call once more.
fn stop_work(lost: bool, sub: Sub, purpose: Purpose, refusal: Refusal, again: Next) -> Next
    ensures { result ≡ work_refused lost sub purpose refusal again }
{
    match (refusal, purpose) {
        (Refusal::NoMemory, _) => again,
        (_, Purpose::Request) => refuse(refusal, OwnTxn::Left(sub)),
        (_, Purpose::Clearing) => stop_abort(lost, refusal, OwnTxn::Left(sub)),
        (_, Purpose::Undoing) => stop_abort(lost, refusal, OwnTxn::Undoing(sub)),
    }
}

// A call once more.
fn again(event: Event, stage: Stage) -> Next
    ensures { result ≡ record { action = Action.Again event; stage = stage } }
{
    Next {
        action: Action::Again(event),
        stage,
    }
}

fn stepped(lost: bool, sub: Sub, purpose: Purpose, reply: &Reply) -> Next
    ensures { result ≡ after_step lost sub purpose reply.now }
{
    match reply {
        Reply::Stepped(Progress::Done(_)) => call(Event::Step(sub), Stage::Step(sub, purpose)),
        Reply::Stepped(Progress::Ready) => call(Event::Finish(sub), Stage::Finish(sub, purpose)),
        Reply::Refused(refusal) => {
            let once_more = again(Event::Step(sub), Stage::Step(sub, purpose));
            stop_work(lost, sub, purpose, *refusal, once_more)
        }
        _ => end(),
    }
}

// An operation that a request asked for is done.
fn request_done(sub: Sub, purpose: Purpose, answer: Answer) -> Next
    ensures { result ≡ done sub purpose answer }
{
    match purpose {
        Purpose::Request => answer_with(answer, OwnTxn::Open(sub.txn)),
        Purpose::Clearing => abort_on(OwnTxn::Open(sub.txn)),
        Purpose::Undoing => end(),
    }
}

// A compensation is done.
fn undo_done(sub: Sub, purpose: Purpose) -> Next
    ensures { result ≡ undone sub purpose }
{
    match purpose {
        Purpose::Undoing => abort_on(OwnTxn::Aborting(sub.txn)),
        _ => end(),
    }
}

fn finished(lost: bool, sub: Sub, purpose: Purpose, reply: &Reply) -> Next
    ensures { result ≡ after_finish lost sub purpose reply.now }
{
    match reply {
        Reply::Finished(Outcome::Sent) => request_done(sub, purpose, Answer::Sent),
        Reply::Finished(Outcome::Message(message)) => request_done(
            sub,
            purpose,
            Answer::Message(*message),
        ),
        Reply::Finished(Outcome::Closed) => request_done(sub, purpose, Answer::Closed),
        Reply::Finished(Outcome::Marked) => request_done(sub, purpose, Answer::Marked),
        Reply::Finished(Outcome::Undone) => undo_done(sub, purpose),
        Reply::Refused(refusal) => {
            let once_more = again(Event::Finish(sub), Stage::Finish(sub, purpose));
            stop_work(lost, sub, purpose, *refusal, once_more)
        }
        _ => end(),
    }
}

// The wait for a receipt.
fn wait_for(commit: CommitNo) -> Next
    ensures { result ≡ record { action = Action.Await commit; stage = Stage.Await commit } }
{
    Next {
        action: Action::Await(commit),
        stage: Stage::Await(commit),
    }
}

fn committed(held: OwnTxn, reply: &Reply) -> Next
    ensures { result ≡ after_commit held reply.now }
{
    match reply {
        Reply::Committed(commit) => {
            if is_own(txn_of(held), commit) {
                wait_for(*commit)
            } else {
                end()
            }
        }
        Reply::Refused(refusal) => refuse(*refusal, held),
        _ => end(),
    }
}

// Whether the commit is that of this transaction.
fn is_own(own: Option<Txn>, commit: &CommitNo) -> bool
    ensures { result ≡ is_commit_of own commit.now }
{
    match own {
        Some(txn) => is_same_txn(txn, commit.txn()),
        None => false,
    }
}

fn awaited(commit: CommitNo, reply: &Reply) -> Next
    ensures { result ≡ after_await commit reply.now }
{
    match reply {
        Reply::Acknowledged(Some(receipt)) => {
            if is_same(&receipt.number(), &commit) {
                answer_with(Answer::Committed(commit.lsn()), OwnTxn::Free)
            } else {
                wait_for(commit)
            }
        }
        Reply::Refused(Refusal::Failed) => refuse(Refusal::Failed, OwnTxn::Free),
        Reply::Acknowledged(None) | Reply::Refused(_) => wait_for(commit),
        _ => end(),
    }
}

fn is_same(a: &CommitNo, b: &CommitNo) -> bool
    ensures { result ≡ is_commit a.now b.now }
{
    a.lsn() == b.lsn() && is_same_txn(a.txn(), b.txn())
}

fn is_same_txn(a: Txn, b: Txn) -> bool
    ensures { result ≡ same_txn a b }
{
    a.incarnation == b.incarnation && a.count == b.count
}

fn abort_started(lost: bool, txn: Txn, reply: &Reply) -> Next
    ensures { result ≡ after_start_abort lost txn reply.now }
{
    match reply {
        Reply::Aborting => abort_on(OwnTxn::Aborting(txn)),
        Reply::Refused(Refusal::NoMemory) => again(Event::StartAbort(txn), Stage::StartAbort(txn)),
        Reply::Refused(refusal) => stop_abort(lost, *refusal, OwnTxn::Open(txn)),
        _ => end(),
    }
}

fn undo_started(lost: bool, txn: Txn, reply: &Reply) -> Next
    ensures { result ≡ after_undo_next lost txn reply.now }
{
    match reply {
        Reply::Started(sub) => step_of(txn, sub.number, Purpose::Undoing),
        Reply::NothingLeft => call(Event::EndAbort(txn), Stage::EndAbort(txn)),
        Reply::Refused(Refusal::NoMemory | Refusal::Latched | Refusal::PoolFull) => {
            again(Event::UndoNext(txn), Stage::UndoNext(txn))
        }
        Reply::Refused(refusal) => stop_abort(lost, *refusal, OwnTxn::Aborting(txn)),
        _ => end(),
    }
}

fn abort_ended(lost: bool, txn: Txn, reply: &Reply) -> Next
    ensures { result ≡ after_end_abort lost txn reply.now }
{
    match reply {
        Reply::Aborted if lost => end(),
        Reply::Aborted => answer_with(Answer::Aborted, OwnTxn::Free),
        Reply::Refused(Refusal::NoMemory) => again(Event::EndAbort(txn), Stage::EndAbort(txn)),
        Reply::Refused(refusal) => stop_abort(lost, *refusal, OwnTxn::Aborting(txn)),
        _ => end(),
    }
}

// What is to be done once the connection is lost, where the call that was asked for last has not been made.
pub(crate) fn turn_at_loss(stage: Stage) -> Next
    ensures { result ≡ after_loss stage }
{
    match stage {
        Stage::Rest(held) | Stage::LastTag(held) | Stage::ClientTag(held) => abort_on(held),
        Stage::Start(held) | Stage::Commit(held) => abort_on(held),
        Stage::Step(sub, purpose) => call(Event::Step(sub), Stage::Step(sub, cleared(purpose))),
        Stage::Finish(sub, purpose) => call(
            Event::Finish(sub),
            Stage::Finish(sub, cleared(purpose)),
        ),
        Stage::StartAbort(txn) => call(Event::StartAbort(txn), Stage::StartAbort(txn)),
        Stage::UndoNext(txn) => call(Event::UndoNext(txn), Stage::UndoNext(txn)),
        Stage::EndAbort(txn) => call(Event::EndAbort(txn), Stage::EndAbort(txn)),
        Stage::Begin | Stage::Await(_) | Stage::Ended => end(),
    }
}

// For what an operation is carried out once the connection is lost.
fn cleared(purpose: Purpose) -> Purpose
    ensures { result ≡ cleared_purpose purpose }
{
    match purpose {
        Purpose::Request => Purpose::Clearing,
        other => other,
    }
}
