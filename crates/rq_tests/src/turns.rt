//! Two threads that take turns: how far they have come, and gates that hold one of them until the other has come further.
use rq_bytes::GhostList;
use rq_workers::gate::Gate;
use std::snapshot::Snapshot;
use std::sync::atomic::{AtomicU64, Ordering};
use std::thread;

// How often a thread looks whether the other has brought them to a stage, at most.
const LIMIT: u64 = 10_000_000;

/// How far two threads have come together, stage by stage.
#[derive(Drop)]
pub struct Turns {
    reached: AtomicU64,
    // whether one thread takes all turns, so that it need not let another go on
    is_alone: bool,
    // 1 once a thread has met that limit
    late: AtomicU64,
}

impl Turns {
    /// They stand at stage 0.
    pub fn new(is_alone: bool) -> Self {
        Turns {
            reached: AtomicU64::new(0),
            is_alone,
            late: AtomicU64::new(0),
        }
    }

    /// Brings them to a stage.
    pub fn reach(&self, stage: u64) {
        self.reached.fetch_max(stage, Ordering::SeqCst);
    }

    /// Waits until they have come to a stage: whether they do within the limit.
    pub fn comes(&self, stage: u64) -> bool {
        for _ in 0..LIMIT {
            if self.reached.load(Ordering::SeqCst) >= stage {
                return true;
            }
            if !self.is_alone {
                thread::yield_now();
            }
        }
        self.late.store(1, Ordering::SeqCst);
        false
    }

    /// Whether a thread has met the limit.
    pub fn is_late(&self) -> bool {
        self.late.load(Ordering::SeqCst) != 0
    }
}

/// Holds its thread at one point: it brings both to a stage there, and waits for the next one. It lets through so often there, and
/// then says no. Elsewhere it lets through.
#[derive(Drop)]
pub struct Held<'a> {
    turns: &'a Turns,
    point: u32,
    stage: u64,
    left: u32,
    answers: Snapshot<GhostList<(u32, bool)>>,
}

impl<'a> Held<'a> {
    pub fn new(turns: &'a Turns, point: u32, stage: u64, times: u32) -> Self {
        Held {
            turns,
            point,
            stage,
            left: times,
            answers: GhostList::empty(),
        }
    }

    fn is_let_go(&self) -> bool {
        self.turns.reach(self.stage);
        self.turns.comes(self.stage.saturating_add(1))
    }
}

impl Gate for Held<'_> {
    ghost answers = { λ gate. gate.answers.value };

    fn pass(&mut self, point: u32) -> bool {
        let passed = point != self.point || self.left > 0 && self.is_let_go();
        if point == self.point {
            self.left = self.left.saturating_sub(1);
        }
        GhostList::push(&mut self.answers, &(point, passed));
        passed
    }
}
