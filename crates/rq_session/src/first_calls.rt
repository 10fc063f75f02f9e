//! What an abort and a request ask first, by the transaction that the session has.
ghost use Rattle.std.specs.Prelude.{◌≡◌, option_map};
ghost use Rattle.rq_engine.specs.Says.{call_of};
ghost use Rattle.rq_session.specs.Stages.{txn_held};
ghost use Rattle.rq_session.specs.Rules.{abort, abort_refused, after_request, answer_in, answered, call_in, ended};

use crate::actions::Action;
use crate::stage::{Next, OwnTxn, Purpose, Stage};
use rq_engine::event::Event;
use rq_model::refusal::Refusal;
use rq_model::txn::Txn;
use rq_wire::{Answer, Request};

// The transaction.
pub(crate) fn txn_of(held: OwnTxn) -> Option<Txn>
    ensures { result ≡ txn_held held }
{
    match held {
        OwnTxn::Free => None,
        OwnTxn::Open(txn) | OwnTxn::Aborting(txn) => Some(txn),
        OwnTxn::Left(sub) | OwnTxn::Undoing(sub) => Some(sub.txn),
    }
}

// The answer to the request under way, with this transaction kept.
pub(crate) fn answer_with(answer: Answer, held: OwnTxn) -> Next
    ensures { result ≡ answered answer held }
{
    Next {
        action: Action::Answer(answer),
        stage: Stage::Rest(held),
    }
}

pub(crate) fn refuse(refusal: Refusal, held: OwnTxn) -> Next
    ensures { result ≡ answered (Answer.Refused refusal) held }
{
    answer_with(Answer::Refused(refusal), held)
}

pub(crate) fn end() -> Next
    ensures { result ≡ ended }
{
    Next {
        action: Action::End,
        stage: Stage::Ended,
    }
}

// A call, with the stage that waits for its reply.
pub(crate) fn call(event: Event, stage: Stage) -> Next
    ensures { result ≡ record { action = Action.Do event; stage = stage } }
{
    Next {
        action: Action::Do(event),
        stage,
    }
}

// How an abort begins, or goes on.
pub(crate) fn abort_on(held: OwnTxn) -> Next
    ensures { result ≡ abort held }
{
    match held {
        OwnTxn::Free => end(),
        OwnTxn::Open(txn) => call(Event::StartAbort(txn), Stage::StartAbort(txn)),
        OwnTxn::Left(sub) => call(Event::Step(sub), Stage::Step(sub, Purpose::Clearing)),
        OwnTxn::Aborting(txn) => call(Event::UndoNext(txn), Stage::UndoNext(txn)),
        OwnTxn::Undoing(sub) => call(Event::Step(sub), Stage::Step(sub, Purpose::Undoing)),
    }
}

// An abort that was refused: the answer, or the end of a session that is lost.
pub(crate) fn stop_abort(lost: bool, refusal: Refusal, held: OwnTxn) -> Next
    ensures { result ≡ abort_refused lost refusal held }
{
    if lost { end() } else { refuse(refusal, held) }
}

// What a request asks first.
pub(crate) fn first(held: OwnTxn, request: Request) -> Next
    ensures call { option_map call_of (call_in result.action) ≡ (after_request held request).call }
    ensures answer { answer_in result.action ≡ (after_request held request).answer }
    ensures stage { result.stage ≡ (after_request held request).stage }
{
    match (request, txn_of(held)) {
        (Request::Begin, None) => call(Event::Begin, Stage::Begin),
        (Request::Begin, Some(_)) => refuse(Refusal::TooManyTransactions, held),
        (Request::LastTag(sender), _) => call(Event::LastTag(sender), Stage::LastTag(held)),
        (Request::ClientTag(client), _) => call(Event::ClientTag(client), Stage::ClientTag(held)),
        (_, None) => refuse(Refusal::UnknownTransaction, held),
        (Request::Send { sender, tag, body }, Some(txn)) => call(
            Event::StartSend {
                txn,
                sender,
                tag,
                body: body.into_vec(),
            },
            Stage::Start(held),
        ),
        (Request::Receive, Some(txn)) => call(Event::StartReceive(txn), Stage::Start(held)),
        (Request::ReceiveFrom(sender), Some(txn)) => {
            call(Event::StartReceiveFrom { txn, sender }, Stage::Start(held))
        }
        (Request::Close(sender), Some(txn)) => {
            call(Event::StartClose { txn, sender }, Stage::Start(held))
        }
        (Request::Mark { client, tag }, Some(txn)) => {
            call(Event::StartMark { txn, client, tag }, Stage::Start(held))
        }
        (Request::Commit, Some(txn)) => call(Event::Commit(txn), Stage::Commit(held)),
        (Request::Abort, Some(_)) => abort_on(held),
    }
}
