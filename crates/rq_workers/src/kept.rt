//! The step interface over a kept engine of one thread.
ghost use Rattle.std.specs.Prelude.{◌≡◌, ◌≤◌, ◌+◌, ◌∷◌, ◌++◌, true, length, IfSome, IfNone};
ghost use Rattle.rq_engine.specs.Says.{call_of, has_body};
ghost use Rattle.rq_shared.specs.Calls.{IsStepOf};
ghost use Rattle.rq_workers.specs.Forcing.{lsn_forced, most_forced};
ghost use Rattle.rq_workers.specs.Keeping.{count_left, entries_left};

use crate::steps::Steps;
use rq_bytes::GhostList;
use rq_disk::{LogDevice, PageDevice};
use rq_engine::event::Event;
use rq_level::Level;
use rq_shared::kept::{Kept, Stamped};
use std::snapshot::Snapshot;

/// A kept engine that is called under this pass number. Stamps handed on are dropped; there is nobody else to be told what
/// is forced. Its audit is that of the engine which was given, with an entry for each call behind it.
#[derive(Drop)]
pub struct KeptSteps<P: PageDevice, L: LogDevice, B: Level> {
    kept: Kept<P, L, B>,
    pass: u64,
    made: Snapshot<GhostList<Stamped>>,
    forced: Snapshot<GhostList<Stamped>>,
    told: Snapshot<GhostList<Stamped>>,
    lacked: Snapshot<GhostList<()>>,
    // as it was given
    begun: Snapshot<Kept<P, L, B>>,
    ghost audit: { kept.audit ≡ begun.value.audit ++ entries_left made.value },
    ghost base: { (kept.base ≡ begun.value.base) × (kept.taken ≡ begun.value.taken) },
}

impl<P: PageDevice + Drop, L: LogDevice + Drop, B: Level> KeptSteps<P, L, B> {
    /// Calls this engine under this number.
    pub fn new(kept: Kept<P, L, B>, pass: u64) -> Self
        ensures begun { (result.kept ≡ kept) × (result.begun.value ≡ kept) × (result.pass ≡ pass) }
    {
        let begun = Snapshot::of(&kept);
        KeptSteps {
            kept,
            pass,
            made: GhostList::empty(),
            forced: GhostList::empty(),
            told: GhostList::empty(),
            lacked: GhostList::empty(),
            begun,
        }
    }

    /// The engine: its audit is that of the one which was given, with the entries behind it that the calls since left.
    pub fn into_kept(self) -> Kept<P, L, B>
        ensures kept { result ≡ self.kept }
        ensures audit { result.audit ≡ self.begun.value.audit ++ entries_left self.made.value }
        ensures base { (result.base ≡ self.begun.value.base) × (result.taken ≡ self.begun.value.taken) }
    {
        let KeptSteps {
            kept,
            pass: _,
            made: _,
            forced: _,
            told: _,
            lacked: _,
            begun: _,
        } = self;
        kept
    }
}

impl<P: PageDevice + Drop, L: LogDevice + Drop, B: Level> Steps for KeptSteps<P, L, B> {
    ghost made = { λ s. s.made.value };

    ghost forced = { λ s. s.forced.value };

    ghost told = { λ s. s.told.value };

    ghost lacked = { λ s. length s.lacked.value };

    ghost counted = { λ s. length s.kept.audit };

    ghost shown = { λ s. most_forced s.forced.value };

    fn call(&mut self, event: Event) -> Stamped
        ensures event { result.event ≡ event }
        ensures made { self.new.made.value ≡ result ∷ self.old.made.value }
        ensures forced { self.new.forced.value ≡ self.old.forced.value }
        ensures told { self.new.told.value ≡ self.old.told.value }
        ensures lacked { length self.new.lacked.value ≡ length self.old.lacked.value }
        ensures counted { length self.new.kept.audit ≡ count_left result + length self.old.kept.audit }
        ensures shown { most_forced self.old.forced.value ≤ most_forced self.new.forced.value }
        ensures stepped { IsStepOf P.PageDevice L.LogDevice self.old.kept self.old.pass event result self.new.kept }
        ensures given { (self.new.pass ≡ self.old.pass) × (self.new.begun.value ≡ self.old.begun.value) }
    {
        let stamped = self.kept.step(self.pass, event);
        GhostList::push(&mut self.made, &stamped);
        stamped
    }

    fn force(&mut self) -> Stamped
        ensures event { result.event ≡ Event.Force }
        ensures made { self.new.made.value ≡ result ∷ self.old.made.value }
        ensures forced { self.new.forced.value ≡ result ∷ self.old.forced.value }
        ensures told { self.new.told.value ≡ self.old.told.value }
        ensures lacked { length self.new.lacked.value ≡ length self.old.lacked.value }
        ensures counted { length self.new.kept.audit ≡ count_left result + length self.old.kept.audit }
        ensures shown { (most_forced self.old.forced.value ≤ most_forced self.new.forced.value)
            × (lsn_forced result.reply ≤ most_forced self.new.forced.value) }
        ensures stepped { IsStepOf P.PageDevice L.LogDevice self.old.kept self.old.pass Event.Force result self.new.kept }
        ensures given { (self.new.pass ≡ self.old.pass) × (self.new.begun.value ≡ self.old.begun.value) }
    {
        let stamped = self.call(Event::Force);
        GhostList::push(&mut self.forced, &stamped);
        stamped
    }

    fn seen(&mut self, stamped: Stamped)
        ensures made { self.new.made.value ≡ self.old.made.value }
        ensures forced { self.new.forced.value ≡ self.old.forced.value }
        ensures told { self.new.told.value ≡ stamped ∷ self.old.told.value }
        ensures lacked { length self.new.lacked.value ≡ length self.old.lacked.value }
        ensures counted { length self.new.kept.audit ≡ length self.old.kept.audit }
        ensures shown { most_forced self.old.forced.value ≤ most_forced self.new.forced.value }
        ensures kept { (self.new.kept ≡ self.old.kept) × (self.new.pass ≡ self.old.pass)
            × (self.new.begun.value ≡ self.old.begun.value) }
    {
        GhostList::push(&mut self.told, &stamped);
    }

    fn copy(&mut self, event: &Event) -> Option<Event>
        ensures copy { IfSome result (λ copy. (call_of copy ≡ call_of event.now)
            × (length self.new.lacked.value ≡ length self.old.lacked.value)) }
        ensures lacked { IfNone result (length self.new.lacked.value ≡ length self.old.lacked.value + 1) }
        ensures body { IfNone result (has_body (call_of event.now) ≡ true) }
        ensures made { self.new.made.value ≡ self.old.made.value }
        ensures forced { self.new.forced.value ≡ self.old.forced.value }
        ensures told { self.new.told.value ≡ self.old.told.value }
        ensures counted { length self.new.kept.audit ≡ length self.old.kept.audit }
        ensures shown { most_forced self.old.forced.value ≤ most_forced self.new.forced.value }
        ensures kept { (self.new.kept ≡ self.old.kept) × (self.new.pass ≡ self.old.pass)
            × (self.new.begun.value ≡ self.old.begun.value) }
    {
        let copy = event.copied();
        if copy.is_none() {
            GhostList::push(&mut self.lacked, &());
        }
        copy
    }
}
