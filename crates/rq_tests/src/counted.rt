//! Levels that count what they are asked.
ghost use Rattle.std.specs.Prelude.{◌≡◌, IfOk};

use rq_level::{Level, Op, Outcome, PageSet, Plan, Slots, Want, redo_page};
use rq_model::record::{Record, Slot};
use rq_model::refusal::{Damage, Refusal};
use rq_model::txn::Lsn;
use rq_page::addr::Addr;
use rq_page::page::Page;
use std::alloc::{AllocError, Global};
use std::sync::Arc;
use std::sync::atomic::{AtomicU64, Ordering};

/// How often levels were asked to plan, to take back, to redo and to note something, what an end answers, whether they read a deed,
/// and what they want; and how often they were dropped.
#[derive(Drop)]
pub struct Asks {
    plans: AtomicU64,
    undos: AtomicU64,
    redos: AtomicU64,
    notes: AtomicU64,
    outcomes: AtomicU64,
    reads: AtomicU64,
    wants: AtomicU64,
    drops: AtomicU64,
}

/// How often that was. How often a level is asked what it wants is its own affair, so that is whether it was.
#[derive(Clone, Copy, PartialEq, Eq)]
pub struct Counts {
    pub plans: u64,
    pub undos: u64,
    pub redos: u64,
    pub notes: u64,
    pub outcomes: u64,
    pub reads: u64,
    pub wants: bool,
    pub drops: u64,
}

impl Asks {
    pub fn new() -> Asks {
        Asks {
            plans: AtomicU64::new(0),
            undos: AtomicU64::new(0),
            redos: AtomicU64::new(0),
            notes: AtomicU64::new(0),
            outcomes: AtomicU64::new(0),
            reads: AtomicU64::new(0),
            wants: AtomicU64::new(0),
            drops: AtomicU64::new(0),
        }
    }

    pub fn counts(&self) -> Counts {
        Counts {
            plans: self.plans.load(Ordering::SeqCst),
            undos: self.undos.load(Ordering::SeqCst),
            redos: self.redos.load(Ordering::SeqCst),
            notes: self.notes.load(Ordering::SeqCst),
            outcomes: self.outcomes.load(Ordering::SeqCst),
            reads: self.reads.load(Ordering::SeqCst),
            wants: self.wants.load(Ordering::SeqCst) > 0,
            drops: self.drops.load(Ordering::SeqCst),
        }
    }
}

/// A level, and what it was asked.
pub struct Counted<L: Level> {
    pub level: L,
    pub asks: Arc<Asks, Global>,
}

impl<L: Level> Counted<L> {
    /// The level, which was asked nothing here.
    pub fn new(level: L, asks: &Arc<Asks, Global>) -> Result<Counted<L>, AllocError>
        ensures { IfOk result (λ c. c.level ≡ level) }
    {
        match Arc::try_clone(asks) {
            Ok(asks) => Ok(Counted { level, asks }),
            Err(_) => Err(AllocError),
        }
    }
}

impl<L: Level> Drop for Counted<L> {
    fn drop(self) {
        let Self { level: _, asks } = self;
        asks.drops.fetch_add(1, Ordering::SeqCst);
    }
}

impl<L: Level> Level for Counted<L> {
    ghost level = { λ c. L.level c.level };

    ghost kept = { λ c. L.kept c.level };

    fn number(&self) -> u8 {
        self.level.number()
    }

    fn reads(&self, deed: &[u8]) -> bool {
        self.asks.reads.fetch_add(1, Ordering::SeqCst);
        self.level.reads(deed)
    }

    fn outcome(&self, deed: &[u8]) -> Option<Outcome> {
        self.asks.outcomes.fetch_add(1, Ordering::SeqCst);
        self.level.outcome(deed)
    }

    fn keeps(&self) -> bool {
        self.level.keeps()
    }

    fn want(&self, op: &Op, given: &Slots) -> Want {
        self.asks.wants.fetch_add(1, Ordering::SeqCst);
        self.level.want(op, given)
    }

    fn plan(
        &mut self,
        op: &Op,
        given: &Slots,
        latched: &PageSet,
        plan: &mut Plan,
    ) -> Result<(), Refusal> {
        self.asks.plans.fetch_add(1, Ordering::SeqCst);
        self.level.plan(op, given, latched, plan)
    }

    fn undo(
        &mut self,
        record: &Record,
        given: &Slots,
        latched: &PageSet,
        plan: &mut Plan,
    ) -> Result<(), Refusal> {
        self.asks.undos.fetch_add(1, Ordering::SeqCst);
        self.level.undo(record, given, latched, plan)
    }

    fn redo(&mut self, page: &mut Page, lsn: Lsn, record: &Record) -> bool {
        self.asks.redos.fetch_add(1, Ordering::SeqCst);
        self.level.redo(page, lsn, record)
    }

    fn noted(&mut self, at: Addr, bytes: &Slot) {
        self.asks.notes.fetch_add(1, Ordering::SeqCst);
        self.level.noted(at, bytes);
    }
}

/// A level behind those of a store. The table gives it no meaning, so it refuses what it is asked. It says that it keeps what it is
/// told, and so it is told all.
pub struct Bystander {
    pub asks: Arc<Asks, Global>,
}

impl Bystander {
    pub fn new(asks: &Arc<Asks, Global>) -> Result<Bystander, AllocError> {
        match Arc::try_clone(asks) {
            Ok(asks) => Ok(Bystander { asks }),
            Err(_) => Err(AllocError),
        }
    }
}

impl Drop for Bystander {
    fn drop(self) {
        let Self { asks } = self;
        asks.drops.fetch_add(1, Ordering::SeqCst);
    }
}

impl Level for Bystander {
    ghost use Rattle.rq_level.specs.LevelState.{nothing_kept};

    ghost level = { λ _. 3 };

    ghost kept = { λ _. nothing_kept };

    fn number(&self) -> u8 {
        3
    }

    fn reads(&self, _deed: &[u8]) -> bool {
        self.asks.reads.fetch_add(1, Ordering::SeqCst);
        false
    }

    fn outcome(&self, _deed: &[u8]) -> Option<Outcome> {
        self.asks.outcomes.fetch_add(1, Ordering::SeqCst);
        None
    }

    fn keeps(&self) -> bool {
        true
    }

    fn want(&self, _op: &Op, _given: &Slots) -> Want {
        self.asks.wants.fetch_add(1, Ordering::SeqCst);
        Want::Ready
    }

    fn plan(
        &mut self,
        _op: &Op,
        _given: &Slots,
        _latched: &PageSet,
        _plan: &mut Plan,
    ) -> Result<(), Refusal> {
        self.asks.plans.fetch_add(1, Ordering::SeqCst);
        Err(Refusal::Damaged(Damage::Page(0)))
    }

    fn undo(
        &mut self,
        _record: &Record,
        _given: &Slots,
        _latched: &PageSet,
        _plan: &mut Plan,
    ) -> Result<(), Refusal> {
        self.asks.undos.fetch_add(1, Ordering::SeqCst);
        Err(Refusal::Damaged(Damage::Page(0)))
    }

    fn redo(&mut self, page: &mut Page, lsn: Lsn, record: &Record) -> bool {
        self.asks.redos.fetch_add(1, Ordering::SeqCst);
        redo_page(page, lsn, record)
    }

    fn noted(&mut self, _at: Addr, _bytes: &Slot) {
        self.asks.notes.fetch_add(1, Ordering::SeqCst);
    }
}
