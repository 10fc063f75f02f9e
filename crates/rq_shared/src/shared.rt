//! The kept engine under one lock.
ghost use Rattle.std.specs.Prelude.{◌≡◌, ◌+◌, List, length, sum_by, IfSome, IfNone};
ghost use Rattle.rq_shared.specs.Calls.{CountsTaken, IsCalled, IsForced, IsTaken};
ghost use Rattle.rq_shared.specs.Begun.{BeginsFrom};
ghost use Rattle.rq_shared.specs.Entries.{BeginsSound, Follows, WasSound};
ghost use Rattle.rq_shared.specs.Receipts.{IsReceiptOf, IsDurable};
ghost use Rattle.rq_model.specs.Vocabulary.{In};
ghost use Rattle.rq_model.specs.declared.record.Record.{Record};
ghost use Rattle.rq_sound.specs.Sound.{IsSound};
ghost use Rattle.rq_engine.specs.Earlier.{IsEarlier, on};
ghost use Rattle.rq_engine.specs.Opened.{AreHonest};
ghost use Rattle.rq_engine.specs.Says.{commit_number};
ghost use Rattle.rq_engine.specs.declared.event.Receipt.{Receipt as GivenReceipt};

use crate::guarded::{Guarded, Pass, gather, give_pass};
use crate::kept::{Kept, Stamped, Taken};
use crate::mark::{Mark, MarkPass};
use crate::sharing::{Sharing, Taking};
use rq_disk::{LogDevice, PageDevice};
use rq_engine::engine::Engine;
use rq_engine::event::{Event, Receipt};
use rq_level::Level;
use std::alloc::Global;
use std::marker::Model;
use std::sync::ledger::{Blank, Share};
use std::sync::{Mutex, Wait};

/// The most passes of one engine.
pub const PASS_LIMIT: u64 = 1024;

/// A kept engine that threads call, each under a pass. Contracts see how many passes were given; the shares that were
/// not given out stand beside the lock.
#[derive(Drop)]
pub struct Shared<P: PageDevice, L: LogDevice, B: Level, G: Sharing> {
    lock: EngineLock<P, L, B, G>,
    rest: Share<G>,
    rest_taken: Share<Taking<G>>,
    given: u64,
}

impl<P: PageDevice, L: LogDevice, B: Level, G: Sharing> Model for Shared<P, L, B, G> {
    ghost use Rattle.std.specs.Prelude.{◌≡◌, ℕ, ◌+◌};

    ghost Value = { ℕ };

    ghost view = { λ s. s.given };

    ghost invariant = { λ s. (s.rest.parts + s.given ≡ 1024) × (s.rest.amount ≡ 0)
        × (s.rest_taken.parts + s.given ≡ 1024) × (s.rest_taken.amount ≡ 0) };
}

/// The lock, which threads borrow.
#[derive(Drop)]
pub struct EngineLock<P: PageDevice, L: LogDevice, B: Level, G: Sharing> {
    guarded: Mutex<Guarded<P, L, B, G>>,
}

/// What is left once all passes are back.
#[derive(Drop)]
pub struct Closed<P: PageDevice, L: LogDevice, B: Level> {
    pub kept: Kept<P, L, B>,
}

impl<P: PageDevice + Drop, L: LogDevice + Drop, B: Level, G: Sharing> Shared<P, L, B, G> {
    /// Shares an engine, which under the premise of the sharing is sound, where its devices were honest, and with which the
    /// sharing begins. No pass is given out, and the audit is empty. The second ledger counts the entries that are taken.
    pub fn new(alloc: Global, engine: Engine<P, L, B>, blank: Blank, taking: Blank) -> Self
        requires name { (blank.name ≡ G.name) × (taking.name ≡ G.taking) }
        requires parts { (blank.parts ≡ G.parts) × (blank.parts ≡ 1024) × (taking.parts ≡ 1024) }
        requires sound { WasSound P.PageDevice L.LogDevice G.premise engine }
        requires begins { engine.state ≡ G.begins }
        ensures { result ≡ 0 }
    {
        let (calls, rest) = blank.open::<G>();
        let (taken, rest_taken) = taking.open::<Taking<G>>();
        Shared {
            lock: EngineLock {
                guarded: Mutex::new(Guarded::new(Kept::new(alloc, engine), calls, taken)),
            },
            rest,
            rest_taken,
            given: 0,
        }
    }

    /// The next pass: its number is one more than the passes given before, and it has counted no call and no entry. None
    /// where `PASS_LIMIT` were given.
    pub fn pass(&mut self) -> Option<Pass<G>>
        ensures some { IfSome result (λ p. (p.number ≡ self.new) × (p.calls ≡ 0) × (p.taken ≡ 0)
            × (self.new ≡ self.old + 1)) }
        ensures none { IfNone result ((self.old ≡ 1024) × (self.new ≡ self.old)) }
    {
        if self.given >= PASS_LIMIT {
            return None;
        }
        self.given += 1;
        let share = self.rest.split_off(1, 0);
        let taken = self.rest_taken.split_off(1, 0);
        Some(give_pass(self.given, share, taken))
    }

    /// The lock, for threads to share.
    pub fn engine_lock(&self) -> &EngineLock<P, L, B, G> {
        &self.lock
    }

    /// Makes the call that the event stands for, once the lock is free, and answers its stamp. The pass counts it, but
    /// where it is answered `NoMemory`.
    pub fn call<R: Wait>(&self, rt: &R, pass: &mut Pass<G>, event: Event) -> Stamped
        ensures { IsCalled pass.old event result pass.new }
    {
        self.lock.call(rt, pass, event)
    }

    /// Forces, and under the same lock publishes how many records are forced.
    pub fn force<R: Wait>(
        &self,
        rt: &R,
        pass: &mut Pass<G>,
        mark: &Mark,
        seat: &mut MarkPass,
    ) -> Stamped
        requires { seat.old.table ≡ mark.now }
        ensures { IsForced pass.old seat.old result pass.new seat.new }
    {
        self.lock.force(rt, pass, mark, seat)
    }

    /// The entries since the audit was last taken, once the lock is free, as `Kept::take` answers them. They replay
    /// from the engine as it was then. Where the devices were honest, that engine was sound under the premise of the
    /// sharing. Then nothing is in the audit. The pass counts the entries.
    pub fn take_audit<R: Wait>(&self, rt: &R, pass: &mut Pass<G>) -> Taken<P, L, B>
        ensures taken { IsTaken P.PageDevice L.LogDevice G.premise result }
        ensures counted { CountsTaken pass.old (length result.audit) pass.new }
    {
        self.lock.take_audit(rt, pass)
    }

    /// Ends the sharing, once all passes are back. With the entries that were taken, the audit has as many as the passes
    /// counted calls; as many were taken as they counted. Over honest devices as many calls as were taken led from the engine
    /// that was shared to that with which the audit begins. Both were sound under the premise of the sharing. A receipt that is
    /// handed in then names a commit that no crash takes any more, where the audit has that commit and its acknowledgement.
    /// All this is said whatever stood before a Base.
    pub fn close(self, passes: Vec<Pass<G>>, receipts: &[Receipt]) -> Closed<P, L, B>
        requires parts { G.parts ≡ 1024 }
        requires all { length passes.items ≡ self }
        ensures count { result.kept.taken + length result.kept.audit ≡ sum_by (λ p. p.calls) passes.items }
        ensures taken { result.kept.taken ≡ sum_by (λ p. p.taken) passes.items }
        ensures replays { Follows P.PageDevice L.LogDevice result.kept.base result.kept.audit result.kept.engine }
        ensures sound { BeginsSound P.PageDevice L.LogDevice G.premise result.kept }
        ensures begun { BeginsFrom P.PageDevice L.LogDevice G.premise G.begins result.kept }
        ensures receipts { AreHonest P.PageDevice L.LogDevice result.kept.engine → (earlier : List Record)
            → IsEarlier earlier result.kept.base.state → IsSound (on earlier result.kept.base.state)
            → (r : GivenReceipt) → In r receipts.now → IsReceiptOf result.kept.audit (commit_number r.number)
            → IsDurable L.LogDevice earlier result.kept.engine (commit_number r.number) }
    {
        let Shared {
            lock,
            rest,
            rest_taken,
            given: _,
        } = self;
        let EngineLock { guarded } = lock;
        let (mut all, mut all_taken) = gather(rest, rest_taken, passes);
        let kept = guarded.into_inner().close(&mut all, &mut all_taken);
        kept.shows_kept();
        Closed { kept }
    }
}

impl<P: PageDevice + Drop, L: LogDevice + Drop, B: Level, G: Sharing> EngineLock<P, L, B, G> {
    /// Makes the call that the event stands for, once the lock is free, and answers its stamp. The pass counts it, but
    /// where it is answered `NoMemory`.
    pub fn call<R: Wait>(&self, rt: &R, pass: &mut Pass<G>, event: Event) -> Stamped
        ensures { IsCalled pass.old event result pass.new }
    {
        self.guarded.lock(rt).call(pass, event)
    }

    /// Forces, and under the same lock publishes how many records are forced.
    pub fn force<R: Wait>(
        &self,
        rt: &R,
        pass: &mut Pass<G>,
        mark: &Mark,
        seat: &mut MarkPass,
    ) -> Stamped
        requires { seat.old.table ≡ mark.now }
        ensures { IsForced pass.old seat.old result pass.new seat.new }
    {
        self.guarded.lock(rt).force(pass, mark, seat)
    }

    /// The entries since the audit was last taken, once the lock is free, as `Kept::take` answers them. They replay
    /// from the engine as it was then. Where the devices were honest, that engine was sound under the premise of the
    /// sharing. Then nothing is in the audit. The pass counts the entries.
    pub fn take_audit<R: Wait>(&self, rt: &R, pass: &mut Pass<G>) -> Taken<P, L, B>
        ensures taken { IsTaken P.PageDevice L.LogDevice G.premise result }
        ensures counted { CountsTaken pass.old (length result.audit) pass.new }
    {
        self.guarded.lock(rt).take(pass)
    }
}
