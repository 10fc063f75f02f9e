//! The step interface over a shared engine, for one thread.
ghost use Rattle.std.specs.Prelude.{◌≡◌, ◌≤◌, ◌+◌, List, [], ◌∷◌, true, length, IfSome, IfNone};
ghost use Rattle.rq_engine.specs.Says.{call_of, has_body};
ghost use Rattle.rq_shared.specs.declared.kept.Stamped.{Stamped as Stamp};
ghost use Rattle.rq_workers.specs.Forcing.{lsn_forced};
ghost use Rattle.rq_workers.specs.Keeping.{count_left};
ghost use Rattle.rq_shared.specs.Calls.{CountsTaken, IsCalled, IsForced, IsTaken};

use crate::steps::Steps;
use rq_bytes::GhostList;
use rq_disk::{LogDevice, PageDevice};
use rq_engine::event::Event;
use rq_level::Level;
use rq_shared::guarded::Pass;
use rq_shared::kept::{Stamped, Taken};
use rq_shared::mark::{Mark, MarkPass};
use rq_shared::shared::EngineLock;
use rq_shared::sharing::Sharing;
use std::snapshot::Snapshot;
use std::sync::Wait;

/// Where the stamps of a thread's calls go, once they were read.
pub trait StampSink {
    /// The stamps that it was handed, the newest first.
    ghost handed: { Self → List Stamp };

    /// Takes a stamp.
    fn keep(&mut self, stamped: Stamped)
        ensures { handed self.new ≡ stamped ∷ handed self.old };
}

/// Stamps are dropped.
#[derive(Drop)]
pub struct DropStamps {
    handed: Snapshot<GhostList<Stamped>>,
}

impl DropStamps {
    /// No stamp was handed over yet.
    pub fn new() -> Self
        ensures { result.handed.value ≡ [] }
    {
        DropStamps {
            handed: GhostList::empty(),
        }
    }
}

impl StampSink for DropStamps {
    ghost handed = { λ k. k.handed.value };

    fn keep(&mut self, stamped: Stamped) {
        GhostList::push(&mut self.handed, &stamped);
    }
}

/// Calls under a pass. A force also publishes to a mark.
#[derive(Drop)]
pub struct SharedSteps<
    'a,
    P: PageDevice,
    L: LogDevice,
    B: Level,
    G: Sharing,
    R: Wait,
    K: StampSink,
> {
    rt: &'a R,
    lock: &'a EngineLock<P, L, B, G>,
    pass: Pass<G>,
    mark: &'a Mark,
    seat: MarkPass,
    sink: K,
    made: Snapshot<GhostList<Stamped>>,
    forced: Snapshot<GhostList<Stamped>>,
    lacked: Snapshot<GhostList<()>>,
    ghost of_mark: { seat.table ≡ mark.now },
}

impl<
    'a,
    P: PageDevice + Drop,
    L: LogDevice + Drop,
    B: Level,
    G: Sharing,
    R: Wait,
    K: StampSink,
> SharedSteps<'a, P, L, B, G, R, K> {
    /// Calls under this pass, publishes by this seat of the mark, and hands stamps on to this sink. Nothing was called yet.
    pub fn new(
        rt: &'a R,
        lock: &'a EngineLock<P, L, B, G>,
        pass: Pass<G>,
        mark: &'a Mark,
        seat: MarkPass,
        sink: K,
    ) -> Self
        requires { seat.table ≡ mark.now }
        ensures given { (result.pass ≡ pass) × (result.seat ≡ seat) × (result.sink ≡ sink) }
        ensures none { (result.made.value ≡ []) × (result.forced.value ≡ []) × (result.lacked.value ≡ []) }
    {
        SharedSteps {
            rt,
            lock,
            pass,
            mark,
            seat,
            sink,
            made: GhostList::empty(),
            forced: GhostList::empty(),
            lacked: GhostList::empty(),
        }
    }

    /// The entries since the audit was last taken, those of other passes too, as `EngineLock::take_audit` answers them. The pass
    /// counts them.
    pub fn take_audit(&mut self) -> Taken<P, L, B>
        ensures taken { IsTaken P.PageDevice L.LogDevice G.premise result }
        ensures counted { CountsTaken self.old.pass (length result.audit) self.new.pass }
        ensures calls { (self.new.made.value ≡ self.old.made.value) × (self.new.forced.value ≡ self.old.forced.value) }
        ensures lacked { self.new.lacked.value ≡ self.old.lacked.value }
        ensures seat { self.new.seat ≡ self.old.seat }
        ensures told { K.handed self.new.sink ≡ K.handed self.old.sink }
    {
        self.lock.take_audit(self.rt, &mut self.pass)
    }

    /// The pass, the seat and what keeps the stamps.
    pub fn into_parts(self) -> (Pass<G>, MarkPass, K)
        ensures { (result.0 ≡ self.entry.pass) × (result.1 ≡ self.entry.seat) × (result.2 ≡ self.entry.sink) }
    {
        let SharedSteps {
            rt: _,
            lock: _,
            pass,
            mark: _,
            seat,
            sink,
            made: _,
            forced: _,
            lacked: _,
        } = self;
        (pass, seat, sink)
    }
}

impl<
    'a,
    P: PageDevice + Drop,
    L: LogDevice + Drop,
    B: Level,
    G: Sharing,
    R: Wait,
    K: StampSink,
> Steps for SharedSteps<'a, P, L, B, G, R, K> {
    ghost made = { λ s. s.made.value };

    ghost forced = { λ s. s.forced.value };

    ghost told = { λ s. K.handed s.sink };

    ghost lacked = { λ s. length s.lacked.value };

    ghost counted = { λ s. s.pass.calls };

    ghost shown = { λ s. s.seat.saw };

    fn call(&mut self, event: Event) -> Stamped
        ensures event { result.event ≡ event }
        ensures made { self.new.made.value ≡ result ∷ self.old.made.value }
        ensures forced { self.new.forced.value ≡ self.old.forced.value }
        ensures told { K.handed self.new.sink ≡ K.handed self.old.sink }
        ensures lacked { length self.new.lacked.value ≡ length self.old.lacked.value }
        ensures counted { self.new.pass.calls ≡ count_left result + self.old.pass.calls }
        ensures shown { self.old.seat.saw ≤ self.new.seat.saw }
        ensures called { IsCalled self.old.pass event result self.new.pass }
        ensures seat { self.new.seat ≡ self.old.seat }
    {
        let stamped = self.lock.call(self.rt, &mut self.pass, event);
        GhostList::push(&mut self.made, &stamped);
        stamped
    }

    /// Forces, and publishes how many records are forced to whoever reads the mark: what is read of it from then on is no
    /// less.
    fn force(&mut self) -> Stamped
        ensures event { result.event ≡ Event.Force }
        ensures made { self.new.made.value ≡ result ∷ self.old.made.value }
        ensures forced { self.new.forced.value ≡ result ∷ self.old.forced.value }
        ensures told { K.handed self.new.sink ≡ K.handed self.old.sink }
        ensures lacked { length self.new.lacked.value ≡ length self.old.lacked.value }
        ensures counted { self.new.pass.calls ≡ count_left result + self.old.pass.calls }
        ensures shown { (self.old.seat.saw ≤ self.new.seat.saw) × (lsn_forced result.reply ≤ self.new.seat.saw) }
        ensures published { IsForced self.old.pass self.old.seat result self.new.pass self.new.seat }
    {
        let stamped = self
            .lock
            .force(self.rt, &mut self.pass, self.mark, &mut self.seat);
        GhostList::push(&mut self.made, &stamped);
        GhostList::push(&mut self.forced, &stamped);
        stamped
    }

    fn seen(&mut self, stamped: Stamped)
        ensures made { self.new.made.value ≡ self.old.made.value }
        ensures forced { self.new.forced.value ≡ self.old.forced.value }
        ensures told { K.handed self.new.sink ≡ stamped ∷ K.handed self.old.sink }
        ensures lacked { length self.new.lacked.value ≡ length self.old.lacked.value }
        ensures counted { self.new.pass.calls ≡ self.old.pass.calls }
        ensures shown { self.old.seat.saw ≤ self.new.seat.saw }
        ensures pass { (self.new.pass ≡ self.old.pass) × (self.new.seat ≡ self.old.seat) }
    {
        self.sink.keep(stamped);
    }

    fn copy(&mut self, event: &Event) -> Option<Event>
        ensures copy { IfSome result (λ copy. (call_of copy ≡ call_of event.now)
            × (length self.new.lacked.value ≡ length self.old.lacked.value)) }
        ensures lacked { IfNone result (length self.new.lacked.value ≡ length self.old.lacked.value + 1) }
        ensures body { IfNone result (has_body (call_of event.now) ≡ true) }
        ensures made { self.new.made.value ≡ self.old.made.value }
        ensures forced { self.new.forced.value ≡ self.old.forced.value }
        ensures told { K.handed self.new.sink ≡ K.handed self.old.sink }
        ensures counted { self.new.pass.calls ≡ self.old.pass.calls }
        ensures shown { self.old.seat.saw ≤ self.new.seat.saw }
        ensures pass { (self.new.pass ≡ self.old.pass) × (self.new.seat ≡ self.old.seat) }
    {
        let copy = event.copied();
        if copy.is_none() {
            GhostList::push(&mut self.lacked, &());
        }
        copy
    }
}
