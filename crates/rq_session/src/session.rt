//! The session of one connection.
ghost use Rattle.std.specs.Prelude.{◌≡◌, option_map, false, true};
ghost use Rattle.rq_engine.specs.Says.{call_of};
ghost use Rattle.rq_session.specs.Laws.{awaited};
ghost use Rattle.rq_session.specs.Rules.{taken, after_reply, after_loss};

use crate::actions::Action;
use crate::first_calls::first;
use crate::stage::{OwnTxn, Stage};
use crate::turns::{turn, turn_at_loss};
use rq_engine::event::{CommitNo, Event, Reply};
use rq_wire::{Answer, Request};

/// The session of one connection. It has at most one transaction, and takes a request once the one before it is
/// answered. It says each call that is to be made for it.
///
/// A request is carried out so: `input` says the first call, or leaves its answer in `answer`. Each reply goes to
/// `reply`, which says what is to be done next. That goes on until there is an answer or the session's end.
#[derive(Drop)]
pub struct Session {
    stage: Stage,
    lost: bool,
    answer: Option<Answer>,
}

impl Session {
    /// A session that has no transaction.
    pub fn new() -> Session
        ensures { result ≡ record { stage = Stage.Rest OwnTxn.Free; lost = false; answer = None } }
    {
        Session {
            stage: Stage::Rest(OwnTxn::Free),
            lost: false,
            answer: None,
        }
    }

    /// The first call that a request asks for. None where it is answered with no call: its answer is then in
    /// `answer`. While a request is under way, and once the session has ended, no further one is taken: there
    /// is no call and no answer.
    pub fn input(&mut self, request: Request) -> Option<Event>
        ensures call { option_map call_of result ≡ (taken self.old.stage request).call }
        ensures answer { self.new.answer ≡ (taken self.old.stage request).answer }
        ensures stage { self.new.stage ≡ (taken self.old.stage request).stage }
        ensures lost { self.new.lost ≡ self.old.lost }
    {
        self.answer = None;
        let Stage::Rest(held) = self.stage else {
            return None;
        };
        let next = first(held, request);
        self.stage = next.stage;
        match next.action {
            Action::Do(event) => Some(event),
            Action::Answer(answer) => {
                self.answer = Some(answer);
                None
            }
            _ => None,
        }
    }

    /// The answer to a request that needed no call.
    pub fn answer(&self) -> Option<Answer>
        ensures { result ≡ self.now.answer }
    {
        self.answer
    }

    /// The commit whose receipt is awaited.
    pub fn awaited(&self) -> Option<CommitNo>
        ensures { result ≡ awaited self.now.stage }
    {
        match self.stage {
            Stage::Await(commit) => Some(commit),
            _ => None,
        }
    }

    /// What is to be done next, once the call that was asked for last has this reply. A reply that no call of its
    /// kind has ends the session.
    pub fn reply(&mut self, reply: &Reply) -> Action
        ensures action { result ≡ (after_reply self.old.lost self.old.stage reply.now).action }
        ensures stage { self.new ≡ record self.old {
          stage =
              (after_reply self.old.lost self.old.stage reply.now).stage;
        } }
    {
        let next = turn(self.lost, self.stage, reply);
        self.stage = next.stage;
        next.action
    }

    /// What is to be done next, once the connection has ended or was at fault. The call that was asked for last is then
    /// not to be made. The operation under way is finished, the transaction undone, and the session ends.
    pub fn lost(&mut self) -> Action
        ensures action { result ≡ (after_loss self.old.stage).action }
        ensures lost { self.new ≡ record self.old { stage = (after_loss self.old.stage).stage; lost = true } }
    {
        self.lost = true;
        let next = turn_at_loss(self.stage);
        self.stage = next.stage;
        next.action
    }
}
