//! A worker: a gate and a step interface, and what was done through them.
ghost use Rattle.std.specs.Prelude.{◌≡◌, ◌≤◌, ◌+◌, [], ◌++◌, true, not, IfSome, IfNone};
ghost use Rattle.rq_engine.specs.Says.{call_of, has_body};
ghost use Rattle.rq_workers.specs.Acts.{asked_in, stamps_in, forced_in, lacked_in, was_stopped, passed_at, may_call, KeepsRule, DidOne, IsCalled, IsForced};
ghost use Rattle.rq_workers.specs.Forcing.{most_forced};
ghost use Rattle.rq_workers.specs.Keeping.{counts_left};

use crate::acts::{Act, Heard, heard_in};
use crate::gate::Gate;
use crate::steps::Steps;
use rq_bytes::GhostList;
use rq_engine::event::Event;
use std::marker::Model;
use std::snapshot::Snapshot;

/// A gate and a step interface, through which a worker does all that it does. Contracts see its acts, the newest first,
/// and the gate and the step interface as the worker took them.
#[derive(Drop)]
pub struct Worker<G: Gate, S: Steps> {
    gate: G,
    steps: S,
    // the gate said no
    stopped: bool,
    done: Snapshot<GhostList<Act>>,
    opened: Snapshot<G>,
    begun: Snapshot<S>,
}

impl<G: Gate, S: Steps> Model for Worker<G, S> {
    ghost use Rattle.rq_workers.specs.Acts.{Work, IsWork};

    ghost Value = { Work (G × S) };

    ghost view = { λ w. record { done = w.done.value; begun = (w.opened.value, w.begun.value) } };

    ghost invariant = { λ w. IsWork G.answers S.made S.forced S.told S.lacked S.counted S.shown w.gate w.steps
        (w.opened.value, w.begun.value) w.done.value w.stopped };
}

impl<G: Gate + Drop, S: Steps> Worker<G, S> {
    /// Takes a gate and a step interface, and has done nothing.
    pub fn new(gate: G, steps: S) -> Self
        ensures { result ≡ record { done = []; begun = (gate, steps) } }
    {
        let opened = Snapshot::of(&gate);
        let begun = Snapshot::of(&steps);
        Worker {
            gate,
            steps,
            stopped: false,
            done: GhostList::empty(),
            opened,
            begun,
        }
    }

    /// Whether the gate has not said no so far.
    pub fn goes_on(&self) -> bool
        ensures { result ≡ not (was_stopped self.now.done) }
    {
        !self.stopped
    }

    // Asks the gate.
    pub(crate) fn asks(&mut self, point: u32) -> bool
        ensures { DidOne (Act.Asked point result) self.old self.new }
    {
        let passed = self.gate.pass(point);
        if !passed {
            self.stopped = true;
        }
        GhostList::push(&mut self.done, &Act::Asked(point, passed));
        passed
    }

    // A copy of what is to be called, where there is memory for the body that it has.
    pub(crate) fn copies(&mut self, event: &Event) -> Option<Event>
        ensures copy { IfSome result (λ copy. (call_of copy ≡ call_of event.now) × (self.new ≡ self.old)) }
        ensures lacked { IfNone result (DidOne Act.Lacked self.old self.new) }
        ensures body { IfNone result (has_body (call_of event.now) ≡ true) }
    {
        let copy = self.steps.copy(event);
        if copy.is_none() {
            GhostList::push(&mut self.done, &Act::Lacked);
        }
        copy
    }

    // Makes a call, and hands its stamp on.
    pub(crate) fn calls(&mut self, event: Event) -> Heard
        requires { may_call self.old.done (call_of event) ≡ true }
        ensures { IsCalled self.old event result self.new }
    {
        let stamped = self.steps.call(event);
        let answer = heard_in(stamped.reply());
        GhostList::push(&mut self.done, &Act::Made(Snapshot::of(&stamped)));
        self.steps.seen(stamped);
        answer
    }

    // Forces by the interface's own force, and hands the stamp on.
    pub(crate) fn forces(&mut self) -> Heard
        requires { passed_at 1 self.old.done ≡ true }
        ensures { IsForced self.old result self.new }
    {
        let stamped = self.steps.force();
        let answer = heard_in(stamped.reply());
        GhostList::push(&mut self.done, &Act::Forced(Snapshot::of(&stamped)));
        self.steps.seen(stamped);
        answer
    }

    /// The gate and the step interface. What the gate was asked and answered since the worker took it is what the
    /// worker did. So is what was called through the step interface, forced by its own force, and handed on. What
    /// `shown` says is at least what was forced. Each force came directly behind a gate that was passed for it, and so
    /// did each page's write and each checkpoint. Every other call was one of an operation.
    pub fn into_parts(self) -> (G, S)
        ensures asked { G.answers result.0 ≡ asked_in self.done ++ G.answers self.begun.0 }
        ensures made { S.made result.1 ≡ stamps_in self.done ++ S.made self.begun.1 }
        ensures forced { S.forced result.1 ≡ forced_in self.done ++ S.forced self.begun.1 }
        ensures told { S.told result.1 ≡ stamps_in self.done ++ S.told self.begun.1 }
        ensures lacked { S.lacked result.1 ≡ lacked_in self.done + S.lacked self.begun.1 }
        ensures counted { S.counted result.1 ≡ counts_left (stamps_in self.done) + S.counted self.begun.1 }
        ensures shown { most_forced (forced_in self.done) ≤ S.shown result.1 }
        ensures ruled { KeepsRule self.done }
    {
        let Worker {
            gate,
            steps,
            stopped: _,
            done: _,
            opened: _,
            begun: _,
        } = self;
        (gate, steps)
    }

    /// The step interface, as `into_parts` answers it.
    pub fn into_steps(self) -> S
        ensures made { S.made result ≡ stamps_in self.done ++ S.made self.begun.1 }
        ensures forced { S.forced result ≡ forced_in self.done ++ S.forced self.begun.1 }
        ensures told { S.told result ≡ stamps_in self.done ++ S.told self.begun.1 }
        ensures counted { S.counted result ≡ counts_left (stamps_in self.done) + S.counted self.begun.1 }
        ensures shown { most_forced (forced_in self.done) ≤ S.shown result }
        ensures ruled { KeepsRule self.done }
    {
        let (_, steps) = self.into_parts();
        steps
    }
}
