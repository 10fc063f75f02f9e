//! A session that is served: its calls are made through a step interface, and a gate is asked where others may go on.
ghost use Rattle.std.specs.Prelude.{◌≡◌, ◌∷◌, ◌||◌, IfOk, IfErr, IfSome, IfNone, None, true, false, not};
ghost use Rattle.rq_session.specs.declared.actions.Action.TheVariants.{Again};
ghost use Rattle.rq_session.specs.declared.stage.OwnTxn.TheVariants.{Free};
ghost use Rattle.rq_session.specs.declared.stage.Stage.TheVariants.{Rest};
ghost use Rattle.rq_session.specs.Laws.{awaited};
ghost use Rattle.rq_serving.specs.Asking.{Asks};
ghost use Rattle.rq_serving.specs.Held.{IsHeldAt, IsHeldAt-prop};
ghost use Rattle.rq_serving.specs.Carried.{IsAsked, IsAskedFor, IsCall, IsCarried, IsCome, IsForce, IsLost, IsServed, is_again, may_call, was_written};

use crate::asking::Asking;
use rq_engine::event::{CommitNo, Event, Progress, Reply};
use rq_model::txn::Lsn;
use rq_session::Session;
use rq_session::actions::Action;
use rq_wire::{Answer, Request};
use rq_workers::gate::{BEFORE_AGAIN, BEFORE_FORCE, BETWEEN_STEPS, Gate};
use rq_workers::steps::Steps;
use std::sync::Wait;

/// What came of serving a session.
#[derive(Clone, Copy, PartialEq, Eq)]
pub enum Served {
    /// The answer to the request.
    Answered(Answer),
    /// The commit with this LSN waits for its receipt, and with it the request for its answer.
    Waits(Lsn),
    /// A call was refused that passes by itself: it is held, to be made again (`go_on`).
    Held,
    /// The session has ended, or the gate has said no and the next call would be none of an operation under way. Or
    /// there was nothing to be done, in one of three cases. A request came while a commit waits or a call is held. A
    /// receipt was asked for where no commit waits. The session was to go on with no call held.
    Ended,
}

/// A session with the gate through which it is served. The step interface is lent to each call, so that many sessions
/// have one. The gate is asked between two steps of an operation, and before a call is made again. Once it has said no,
/// an operation under way is finished. No other call is made then for a request or a connection that is lost.
#[derive(Drop)]
pub struct ServedSession<G: Gate> {
    gate: Asking<G>,
    session: Session,
    // the call that is to be made again
    held: Option<Event>,
    // it is the one that the session asked for last, one of an operation or an abort under way
    ghost held_at: { IsHeldAt session.stage held } by { IsHeldAt-prop held-code session.stage held },
}

impl<G: Gate> ServedSession<G> {
    /// A new session.
    pub fn new(gate: G) -> Self
        ensures given { (result.gate.gate ≡ gate) × (result.held ≡ None) }
        ensures goes_on { result.gate.stopped ≡ false }
        ensures session { (result.session.stage ≡ Rest Free) × (result.session.lost ≡ false) }
    {
        ServedSession {
            gate: Asking::new(gate),
            session: Session::new(),
            held: None,
        }
    }

    /// Whether the gate has not said no so far.
    pub fn goes_on(&self) -> bool
        ensures { result ≡ not self.now.gate.stopped }
    {
        !self.gate.has_stopped()
    }

    /// Carries a request out: makes the calls that the session asks for, one after the other. It goes on until there is
    /// an answer, a commit waits for its receipt, a call is held, or the session ends. It also ends where the gate has
    /// said no and no operation is under way.
    pub fn request<S: Steps, R: Wait>(&mut self, rt: &R, steps: &mut S, request: Request) -> Served
        ensures { IsServed G.answers S.made S.told self.old.gate self.new.gate steps.old steps.new self.old.session self.old.held request self.new.session self.new.held result }
    {
        if let Some(event) = self.session.input(request) {
            return self.carried(rt, steps, Action::Do(event));
        }
        match self.session.answer() {
            Some(answer) => Served::Answered(answer),
            None => Served::Ended,
        }
    }

    /// Asks whether the commit that waits is durable, also where the gate has said no. The caller waits before it asks
    /// again. Where none waits there is nothing to ask.
    pub fn ask_receipt<S: Steps, R: Wait>(&mut self, rt: &R, steps: &mut S) -> Served
        ensures some { IfSome (awaited self.old.session.stage) (λ number. (self.old.held ≡ None)
            × IsAskedFor G.answers S.made S.told self.old.gate self.new.gate steps.old steps.new number self.old.session
            self.new.session self.new.held result) }
        ensures none { IfNone (awaited self.old.session.stage) ((result ≡ Served.Ended) × (self.new ≡ self.old)
            × (steps.new ≡ steps.old)) }
    {
        match self.session.awaited() {
            Some(number) => self.asked_for(rt, steps, number),
            None => Served::Ended,
        }
    }

    /// Makes the call again that is held, and carries the session on with what that told. The caller lets others go on before.
    /// Where none is held there is nothing to be done.
    pub fn go_on<S: Steps, R: Wait>(&mut self, rt: &R, steps: &mut S) -> Served
        ensures some { IfSome self.old.held (λ event. IsCarried G.answers S.made S.told self.old.gate self.new.gate
            steps.old steps.new self.old.session (Again event) self.new.session self.new.held result) }
        ensures none { IfNone self.old.held ((result ≡ Served.Ended) × (self.new ≡ self.old) × (steps.new ≡ steps.old)) }
    {
        match self.held.take() {
            Some(event) => self.carried(rt, steps, Action::Again(event)),
            None => Served::Ended,
        }
    }

    /// Finishes the operation under way and aborts the transaction, once the connection has ended or was at fault. A call that is
    /// held stays so, and `go_on` goes on with it. Where the gate has said no the transaction stays as it is then.
    pub fn lose<S: Steps, R: Wait>(&mut self, rt: &R, steps: &mut S) -> Served
        ensures { IsLost G.answers S.made S.told self.old.gate self.new.gate steps.old steps.new self.old.session self.old.held self.new.session self.new.held result }
    {
        let action = self.session.lost();
        if self.held.is_some() {
            return Served::Held;
        }
        self.carried(rt, steps, action)
    }

    /// Forces where the gate lets it through, and hands the stamp on: whether it did. That is no call of the session's, which
    /// is as before.
    pub fn force<S: Steps>(&mut self, steps: &mut S) -> bool
        ensures asked { G.answers self.new.gate.gate ≡ (1, result) ∷ G.answers self.old.gate.gate }
        ensures stopped { self.new.gate.stopped ≡ (not result || self.old.gate.stopped) }
        ensures force { result ≡ true → IsForce S.made S.forced S.told steps.old steps.new }
        ensures none { result ≡ false → steps.new ≡ steps.old }
        ensures same { (self.new.session ≡ self.old.session) × (self.new.held ≡ self.old.held) }
    {
        if !self.gate.asks(BEFORE_FORCE) {
            return false;
        }
        let stamped = steps.force();
        steps.seen(stamped);
        true
    }

    /// The gate.
    pub fn into_gate(self) -> G
        ensures { result ≡ self.gate.gate }
    {
        let ServedSession {
            gate,
            session: _,
            held: _,
        } = self;
        gate.into_gate()
    }

    // Asks once for the receipt of a commit, and goes on with what that told.
    fn asked_for<S: Steps, R: Wait>(&mut self, rt: &R, steps: &mut S, number: CommitNo) -> Served
        ensures { IsAskedFor G.answers S.made S.told self.old.gate self.new.gate steps.old steps.new number self.old.session self.new.session self.new.held result }
    {
        let action = self.called(steps, Event::Acknowledged(number));
        self.carried(rt, steps, action)
    }

    // Does what is to be done, until the session asks for nothing more, or for a call to be made again.
    fn carried<S: Steps, R: Wait>(&mut self, rt: &R, steps: &mut S, first: Action) -> Served
        ensures { IsCarried G.answers S.made S.told self.old.gate self.new.gate steps.old steps.new self.old.session first self.new.session self.new.held result }
    {
        self.held = None;
        let mut event = match self.asked(first) {
            Ok(event) => event,
            Err(came) => return came,
        };
        for _ in rt.forever() {
            event = match self.called(steps, event) {
                Action::Do(event) => {
                    if may_be_made(&event, self.gate.has_stopped()) {
                        event
                    } else {
                        return Served::Ended;
                    }
                }
                Action::Again(event) => {
                    self.held = Some(event);
                    return Served::Held;
                }
                Action::Await(commit) => return Served::Waits(commit.lsn()),
                Action::Answer(answer) => return Served::Answered(answer),
                Action::End => return Served::Ended,
            };
        }
        unreachable!()
    }

    // The call that is to be made, or what came where there is none, or it may not be made. Before one that is made again
    // the gate is asked.
    fn asked(&mut self, action: Action) -> Result<Event, Served>
        ensures asks { IfOk result (λ event. IsAsked action event × (may_call self.new.gate.stopped event ≡ true)) }
        ensures came { IfErr result (λ came. IsCome self.new.gate.stopped action came) }
        ensures gate { Asks G.answers self.old.gate self.new.gate (is_again action) 4 }
        ensures same { (self.new.session ≡ self.old.session) × (self.new.held ≡ self.old.held) }
    {
        self.gate.asks_where(is_to_be_again(&action), BEFORE_AGAIN);
        to_be_made(action, self.gate.has_stopped())
    }

    // Makes a call, none being held any more, and hands its reply to the session: what is to be done next. Behind a slot that
    // was written the gate is asked.
    fn called<S: Steps>(&mut self, steps: &mut S, event: Event) -> Action
        ensures call { IsCall G.answers S.made S.told self.old.gate self.new.gate steps.old steps.new event
            self.old.session result self.new.session }
        ensures held { self.new.held ≡ None }
    {
        self.held = None;
        let stamped = steps.call(event);
        let written = is_written(stamped.reply());
        let action = self.session.reply(stamped.reply());
        steps.seen(stamped);
        self.gate.asks_where(written, BETWEEN_STEPS);
        action
    }
}

// The call that is to be made, or what came where there is none. Where the gate has said no, none is made but one of an
// operation that is under way.
fn to_be_made(action: Action, has_stopped: bool) -> Result<Event, Served>
    ensures asks { IfOk result (λ event. IsAsked action event × (may_call has_stopped event ≡ true)) }
    ensures came { IfErr result (λ came. IsCome has_stopped action came) }
{
    match action {
        Action::Do(event) => {
            if may_be_made(&event, has_stopped) {
                Ok(event)
            } else {
                Err(Served::Ended)
            }
        }
        Action::Again(event) => {
            if may_be_made(&event, has_stopped) {
                Ok(event)
            } else {
                Err(Served::Ended)
            }
        }
        Action::Await(commit) => Err(Served::Waits(commit.lsn())),
        Action::Answer(answer) => Err(Served::Answered(answer)),
        Action::End => Err(Served::Ended),
    }
}

// Whether a call may be made.
fn may_be_made(event: &Event, has_stopped: bool) -> bool
    ensures { result ≡ may_call has_stopped event.now }
{
    !has_stopped || matches!(event, Event::Step(_) | Event::Finish(_))
}

// Whether a call is to be made again.
fn is_to_be_again(action: &Action) -> bool
    ensures { result ≡ is_again action.now }
{
    matches!(action, Action::Again(_))
}

// Whether a slot was written.
fn is_written(reply: &Reply) -> bool
    ensures { result ≡ was_written reply.now }
{
    matches!(reply, Reply::Stepped(Progress::Done(_)))
}
