//! The turns that workers take at the store, and the force that several of them share.
ghost use Rattle.std.specs.Prelude.{◌≡◌, ◌↔◌, ◌<◌, ◌≤◌, ◌+◌, ◌-◌, ◌&&◌, MatchOption, cond, max, nat_lt, not, true};

use rq_model::txn::Lsn;
use std::sync::atomic::{AtomicU64, Ordering};
use std::sync::{Mutex, MutexGuard, Wait};

/// Workers take turns: one that has its turn meets no operation of another under way, but one that is held or was refused midway.
/// Where others wait for theirs, it leaves the force of its commits to them.
#[derive(Drop)]
pub(crate) struct Turns {
    pub(crate) turn: Mutex<Owed>,
    // one worker forces at a time: who waits for that finds what was forced
    pub(crate) forcing: Mutex<()>,
    // how many workers wait for their turn
    waiting: AtomicU64,
    // how often in a row a force may be left to others: once less than there are workers
    most_left: u32,
}

/// What is left to be forced. Who has the turn has it.
#[derive(Drop)]
pub(crate) struct Owed {
    // the log is to be forced up to this LSN
    lsn: Lsn,
    // how often in a row that was left to others
    left: u32,
}

impl Turns {
    /// Of so many workers.
    pub(crate) fn new(workers: u32) -> Self
        ensures { result.most_left ≡ workers - 1 }
    {
        Turns {
            turn: Mutex::new(Owed { lsn: 0, left: 0 }),
            forcing: Mutex::new(()),
            waiting: AtomicU64::new(0),
            most_left: workers.saturating_sub(1),
        }
    }

    /// Waits for the turn. Others see meanwhile that somebody waits, and leave what they owe to that one.
    pub(crate) fn take<'t, R: Wait>(&'t self, rt: &R) -> MutexGuard<'t, Owed> {
        self.waiting.fetch_add(1, Ordering::SeqCst);
        let owed = self.turn.lock(rt);
        self.waiting.fetch_sub(1, Ordering::SeqCst);
        owed
    }

    /// Whether others wait for their turn.
    pub(crate) fn is_awaited(&self) -> bool {
        self.waiting.load(Ordering::SeqCst) != 0
    }

    /// Whether a turn is to force at its end. It is where what is owed is not forced yet, and not left to others. It is left to others
    /// where they wait for their turn, less than so many times in a row. The log is forced up to `forced`, and the turn's own commits
    /// wait up to `awaited`.
    pub(crate) fn is_due(
        &self,
        owed: &mut Owed,
        forced: Lsn,
        awaited: Option<Lsn>,
        others_wait: bool,
    ) -> bool
        ensures owed { MatchOption awaited (owed.new.lsn ≡ owed.old.lsn) (λ lsn. owed.new.lsn ≡ max owed.old.lsn lsn) }
        ensures due { (result ≡ true) ↔ (forced < owed.new.lsn) × (others_wait ≡ true → self.now.most_left ≤ owed.old.left) }
        ensures left { owed.new.left ≡ cond (nat_lt forced owed.new.lsn && not result) (owed.old.left + 1) 0 }
    {
        if let Some(lsn) = awaited {
            owed.lsn = owed.lsn.max(lsn);
        }
        let is_owed = owed.lsn > forced;
        if is_owed && others_wait && owed.left < self.most_left {
            owed.left += 1;
            return false;
        }
        owed.left = 0;
        is_owed
    }
}

impl Owed {
    /// The log is to be forced as far as this.
    pub(crate) fn lsn(&self) -> Lsn
        ensures { result ≡ self.now.lsn }
    {
        self.lsn
    }
}
