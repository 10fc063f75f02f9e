//! The gates of the server's threads.
ghost use Rattle.std.specs.Prelude.{◌≡◌};

use crate::length::LogLength;
use crate::notices::Notices;
use rq_bytes::GhostList;
use rq_workers::gate::Gate;
use std::snapshot::Snapshot;
use std::sync::Wait;

/// How many milliseconds lie between two forces of what nobody waits for, two rounds of page writes, or two looks at the length of a
/// log.
const ROUND_MILLIS: u64 = 1000;

/// In how many parts a round of page writes is made, with a pause between them.
const PARTS: u32 = 100;

/// How many milliseconds lie between two parts of a round of page writes.
const PART_MILLIS: u64 = 10;

/// How many milliseconds lie at least between two tries of a checkpoint.
const AGAIN_MILLIS: u64 = 10;

/// The least length, in bytes, of a log that is long: one more than a Base takes.
const LEAST_LONG: u64 = 22;

/// Lets a session through.
#[derive(Drop)]
pub(crate) struct Open {
    answers: Snapshot<GhostList<(u32, bool)>>,
}

impl Open {
    pub(crate) fn new() -> Self {
        Open {
            answers: GhostList::empty(),
        }
    }
}

impl Gate for Open {
    ghost answers = { λ gate. gate.answers.value };

    fn pass(&mut self, point: u32) -> bool {
        GhostList::push(&mut self.answers, &(point, true));
        true
    }
}

/// Holds the log writer until rounds were made since it last forced: they may have called what nobody waits for. It says no once
/// the server ends.
#[derive(Drop)]
pub(crate) struct LogPace<'a, R: Wait> {
    rt: &'a R,
    notices: &'a Notices,
    // how many rounds were made before the last force
    seen: u64,
    answers: Snapshot<GhostList<(u32, bool)>>,
}

impl<'a, R: Wait> LogPace<'a, R> {
    pub(crate) fn new(rt: &'a R, notices: &'a Notices) -> Self {
        LogPace {
            rt,
            notices,
            seen: 0,
            answers: GhostList::empty(),
        }
    }

    // Until a round was made since the last force, or the server ends.
    fn rest(&self) {
        for _ in self.rt.forever() {
            self.notices.pause(self.rt, ROUND_MILLIS);
            if self.notices.has_ended() || self.notices.rounds() != self.seen {
                return;
            }
        }
        unreachable!()
    }
}

impl<R: Wait> Gate for LogPace<'_, R> {
    ghost answers = { λ gate. gate.answers.value };

    fn pass(&mut self, point: u32) -> bool {
        self.rest();
        self.seen = self.notices.rounds();
        let passed = !self.notices.has_ended();
        GhostList::push(&mut self.answers, &(point, passed));
        passed
    }
}

/// Holds the page writer until something was forced, and between the parts of a round over all pages. It says no once the
/// server ends.
#[derive(Drop)]
pub(crate) struct PagePace<'a, R: Wait> {
    rt: &'a R,
    notices: &'a Notices,
    pages: u32,
    // how many pages of the round are left, and of its part
    left: u32,
    left_in_part: u32,
    // how many forces were made before the round; None before the first
    seen: Option<u64>,
    answers: Snapshot<GhostList<(u32, bool)>>,
}

impl<'a, R: Wait> PagePace<'a, R> {
    /// For a store of so many pages.
    pub(crate) fn new(rt: &'a R, notices: &'a Notices, pages: u32) -> Self {
        PagePace {
            rt,
            notices,
            pages,
            left: 0,
            left_in_part: 0,
            seen: None,
            answers: GhostList::empty(),
        }
    }

    // Until something was forced since the last round began, or the server ends.
    fn rest(&self) {
        for _ in self.rt.forever() {
            self.notices.pause(self.rt, ROUND_MILLIS);
            if self.notices.has_ended() || self.seen != Some(self.notices.forces()) {
                return;
            }
        }
        unreachable!()
    }

    // Before the first page of a round, and of a part of it.
    fn hold(&mut self)
        ensures { self.new.answers ≡ self.old.answers }
    {
        if self.left == 0 {
            self.rest();
            self.seen = Some(self.notices.forces());
            self.left = self.pages;
            self.left_in_part = (self.pages / PARTS).saturating_add(1);
        } else if self.left_in_part == 0 {
            self.notices.pause(self.rt, PART_MILLIS);
            self.left_in_part = (self.pages / PARTS).saturating_add(1);
        }
        self.left = self.left.saturating_sub(1);
        self.left_in_part = self.left_in_part.saturating_sub(1);
    }
}

impl<R: Wait> Gate for PagePace<'_, R> {
    ghost answers = { λ gate. gate.answers.value };

    fn pass(&mut self, point: u32) -> bool {
        self.hold();
        let passed = !self.notices.has_ended();
        GhostList::push(&mut self.answers, &(point, passed));
        passed
    }
}

/// Holds who makes checkpoints until the log is long and something was forced since the last try. What ends a
/// transaction is forced within a second or two. It says no once the server ends.
#[derive(Drop)]
pub(crate) struct CheckpointPace<'a, K: LogLength, R: Wait> {
    rt: &'a R,
    notices: &'a Notices,
    log: &'a K,
    // from how many bytes on the log is long
    long: u64,
    // how many forces were made before the last try; None before the first
    seen: Option<u64>,
    answers: Snapshot<GhostList<(u32, bool)>>,
}

impl<'a, K: LogLength, R: Wait> CheckpointPace<'a, K, R> {
    /// For a log that is long from so many bytes on, and from one more than that of a Base alone.
    pub(crate) fn new(rt: &'a R, notices: &'a Notices, log: &'a K, long: u64) -> Self {
        CheckpointPace {
            rt,
            notices,
            log,
            long: std::cmp::max(long, LEAST_LONG),
            seen: None,
            answers: GhostList::empty(),
        }
    }

    // Until the log is long and something was forced since the last try, or the server ends: how many forces were made then.
    fn rest(&self) -> u64 {
        for _ in self.rt.forever() {
            let forces = self.notices.forces();
            if self.notices.has_ended() || (self.seen != Some(forces) && self.is_long()) {
                return forces;
            }
            self.notices.pause(self.rt, ROUND_MILLIS);
        }
        unreachable!()
    }

    // False where the length cannot be told.
    fn is_long(&self) -> bool {
        matches!(self.log.bytes(), Some(bytes) if bytes >= self.long)
    }
}

impl<K: LogLength, R: Wait> Gate for CheckpointPace<'_, K, R> {
    ghost answers = { λ gate. gate.answers.value };

    fn pass(&mut self, point: u32) -> bool {
        self.notices.pause(self.rt, AGAIN_MILLIS);
        self.seen = Some(self.rest());
        let passed = !self.notices.has_ended();
        GhostList::push(&mut self.answers, &(point, passed));
        passed
    }
}
