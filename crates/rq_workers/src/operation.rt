//! The runner of operations.
ghost use Rattle.std.specs.Prelude.{◌≡◌, true, false};
ghost use Rattle.rq_engine.specs.Says.{call_of};
ghost use Rattle.rq_model.specs.History.{Call};
ghost use Rattle.rq_model.specs.Causes.{starts_one};
ghost use Rattle.rq_workers.specs.Hearing.{may_try_again, wants_memory, operation_of, turn_of};
ghost use Rattle.rq_workers.specs.Operations.{Carries, GoesThrough, IsTried, once_answered, started_stage, stepped_stage};
ghost use Rattle.rq_workers.specs.Operations.Stage.{Starting, Due, Over};
ghost use Rattle.rq_workers.specs.declared.acts.Part.TheVariants.{Step as Step_part};

use crate::acts::{AfterStep, Heard, Part, RunEnd, end_by};
use crate::gate::{BEFORE_AGAIN, BETWEEN_STEPS, Gate};
use crate::steps::Steps;
use crate::worker::Worker;
use rq_engine::event::Event;
use rq_model::refusal::Refusal;
use rq_model::txn::Sub;
use std::sync::Wait;

impl<G: Gate + Drop, S: Steps> Worker<G, S> {
    /// Goes through the operation that this call starts: the start, its steps until all slots are written, its finish.
    /// A start that is refused as Latched or NoMemory, and a step or a finish that is refused as NoMemory, is tried
    /// again. An operation that was started is gone through whatever the gate says, until it is finished or refused for
    /// something else. A call that starts no operation is not made.
    pub fn run<R: Wait>(&mut self, rt: &R, start: &Event) -> RunEnd
        ensures starts { starts_one (call_of start.now) ≡ true
            → GoesThrough (call_of start.now) self.old self.new result }
        ensures starts_none { starts_one (call_of start.now) ≡ false → (self.new ≡ self.old) × (result ≡ RunEnd.Other) }
    {
        if !is_start(start) {
            return RunEnd::Other;
        }
        match self.started(rt, start) {
            Ok(sub) => end_by(self.gone_through(rt, sub)),
            Err(last) => end_by(last),
        }
    }

    // Calls the start until it is answered for good, or the gate says no.
    fn started<R: Wait>(&mut self, rt: &R, start: &Event) -> Result<Sub, Heard>
        requires { starts_one (call_of start.now) ≡ true }
        ensures { Carries (call_of start.now) Starting self.old (started_stage result) self.new }
    {
        for _ in rt.forever() {
            let heard = self.tried(start);
            if !may_be_tried_again(&heard) {
                return operation(heard);
            }
            if !self.asks(BEFORE_AGAIN) {
                return Err(heard);
            }
        }
        unreachable!()
    }

    // Calls the start, where there is memory for a copy of it.
    fn tried(&mut self, start: &Event) -> Heard
        requires { starts_one (call_of start.now) ≡ true }
        ensures { IsTried (call_of start.now) self.old result self.new }
    {
        match self.copies(start) {
            Some(event) => self.calls(event),
            None => Heard::Refused(Refusal::NoMemory),
        }
    }

    // Makes the steps of an operation, and finishes it: the last answer.
    fn gone_through<R: Wait>(&mut self, rt: &R, sub: Sub) -> Heard
        ensures { (c : Call) → Carries c (Due Step_part sub) self.old (Over result) self.new }
    {
        match self.stepped(rt, sub) {
            Some(last) => last,
            None => self.answered(rt, Part::Finish, sub),
        }
    }

    // Makes the steps of an operation until all its slots are written: None, or the last answer.
    fn stepped<R: Wait>(&mut self, rt: &R, sub: Sub) -> Option<Heard>
        ensures { (c : Call) → Carries c (Due Step_part sub) self.old (stepped_stage sub result) self.new }
    {
        for _ in rt.forever() {
            match after_step(self.answered(rt, Part::Step, sub)) {
                AfterStep::Again => self.asks(BETWEEN_STEPS),
                AfterStep::Ready => return None,
                AfterStep::Last(last) => return Some(last),
            };
        }
        unreachable!()
    }

    // Calls a part of an operation until memory is not what is wanting.
    fn answered<R: Wait>(&mut self, rt: &R, part: Part, sub: Sub) -> Heard
        ensures { (c : Call) → Carries c (Due part sub) self.old (once_answered part sub result) self.new }
    {
        for _ in rt.forever() {
            let heard = self.calls(part.event(sub));
            if !is_no_memory(&heard) {
                return heard;
            }
            self.asks(BEFORE_AGAIN);
        }
        unreachable!()
    }
}

// Whether the call starts an operation.
fn is_start(event: &Event) -> bool
    ensures { result ≡ starts_one (call_of event.now) }
{
    match event {
        Event::StartSend { .. } => true,
        Event::StartReceive(_) => true,
        Event::StartReceiveFrom { .. } => true,
        Event::StartClose { .. } => true,
        Event::StartMark { .. } => true,
        Event::UndoNext(_) => true,
        Event::Begin => false,
        Event::Step(_) => false,
        Event::Finish(_) => false,
        Event::Commit(_) => false,
        Event::StartAbort(_) => false,
        Event::EndAbort(_) => false,
        Event::Acknowledged(_) => false,
        Event::HandOver => false,
        Event::Force => false,
        Event::Checkpoint => false,
        Event::Migrate(_) => false,
        Event::WritePage(_) => false,
        Event::LastTag(_) => false,
        Event::ClientTag(_) => false,
        Event::Content => false,
    }
}

// Whether a start that was answered so may be tried again.
fn may_be_tried_again(heard: &Heard) -> bool
    ensures { result ≡ may_try_again heard.now }
{
    match heard {
        Heard::Refused(Refusal::NoMemory) => true,
        Heard::Refused(Refusal::Latched) => true,
        _ => false,
    }
}

fn is_no_memory(heard: &Heard) -> bool
    ensures { result ≡ wants_memory heard.now }
{
    match heard {
        Heard::Refused(Refusal::NoMemory) => true,
        _ => false,
    }
}

// The operation that was started, or the answer.
fn operation(heard: Heard) -> Result<Sub, Heard>
    ensures { result ≡ operation_of heard }
{
    match heard {
        Heard::Started(sub) => Ok(sub),
        Heard::NoMessage => Err(heard),
        Heard::NothingLeft => Err(heard),
        Heard::Done(_) => Err(heard),
        Heard::Ready => Err(heard),
        Heard::Finished(_) => Err(heard),
        Heard::Refused(_) => Err(heard),
        Heard::Other => Err(heard),
    }
}

// How an operation goes on once a step was answered so.
fn after_step(heard: Heard) -> AfterStep
    ensures { result ≡ turn_of heard }
{
    match heard {
        Heard::Started(_) => AfterStep::Last(heard),
        Heard::NoMessage => AfterStep::Last(heard),
        Heard::NothingLeft => AfterStep::Last(heard),
        Heard::Done(_) => AfterStep::Again,
        Heard::Ready => AfterStep::Ready,
        Heard::Finished(_) => AfterStep::Last(heard),
        Heard::Refused(_) => AfterStep::Last(heard),
        Heard::Other => AfterStep::Last(heard),
    }
}
