//! What the threads of a server tell one another beside the mark. Nothing is claimed of it: it only lets them sleep.
use std::io::Error;
use std::sync::Wait;
use std::sync::atomic::{AtomicU64, Ordering};
use std::time::Duration;

/// The system's numbers where no more files may be opened: by it, and by a process.
const NO_MORE_FILES: [i32; 2] = [23, 24];

/// How many milliseconds a thread sleeps at most that waits for others to be ready.
const START_MILLIS: u64 = 10;

/// How many milliseconds a worker sleeps at most that waits for the force of another.
const FORCE_MILLIS: u64 = 5;

/// How many numbers 32 bits tell, of which a thread that sleeps on a count is woken.
const LOW_HALVES: u64 = 0x1_0000_0000;

/// Counts that all threads of a server share.
#[derive(Drop)]
pub(crate) struct Notices {
    // how many rounds were made, a long one counted more than once
    rounds: AtomicU64,
    // how many forces were made or refused
    forces: AtomicU64,
    // how often the store refused a force
    failures: AtomicU64,
    // how often no connection could be taken, for want of a file and for anything else
    without_files: AtomicU64,
    refusals: AtomicU64,
    // how many workers are ready
    ready: AtomicU64,
    // 1 once all are
    opened: AtomicU64,
    // 1 once the server ends
    ended: AtomicU64,
}

impl Notices {
    pub(crate) fn new() -> Self {
        Notices {
            rounds: AtomicU64::new(0),
            forces: AtomicU64::new(0),
            failures: AtomicU64::new(0),
            without_files: AtomicU64::new(0),
            refusals: AtomicU64::new(0),
            ready: AtomicU64::new(0),
            opened: AtomicU64::new(0),
            ended: AtomicU64::new(0),
        }
    }

    /// A round was made, or a part of one that calls much.
    pub(crate) fn note_round(&self) {
        self.rounds.fetch_add(1, Ordering::SeqCst);
    }

    /// How many rounds were made.
    pub(crate) fn rounds(&self) -> u64 {
        self.rounds.load(Ordering::SeqCst)
    }

    /// A force was made, or refused: who waits for one is woken.
    pub(crate) fn note_force(&self) {
        self.forces.fetch_add(1, Ordering::SeqCst);
        self.forces.wake_all();
    }

    /// Sleeps until another force is made, where so many were, but not for long. It may wake early.
    pub(crate) fn await_force<R: Wait>(&self, rt: &R, seen: u64) {
        let low_half = (seen % LOW_HALVES) as u32;
        self.forces
            .park_timeout(rt, low_half, Duration::from_millis(FORCE_MILLIS));
    }

    /// How many forces were made, or refused.
    pub(crate) fn forces(&self) -> u64 {
        self.forces.load(Ordering::SeqCst)
    }

    /// The store has failed. Who runs the server is told once.
    pub(crate) fn tell_failure<R: Eprint>(&self, rt: &R) {
        if self.failures.fetch_add(1, Ordering::SeqCst) == 0 {
            let _ = eprintln!(rt;
                "the store has failed: it refuses all calls until it is opened again"
            );
        }
    }

    /// No connection can be taken. Who runs the server is told once that no more files may be opened, and once of anything else.
    pub(crate) fn tell_no_room<R: Eprint>(&self, rt: &R, error: &Error) {
        if is_of_files(error) {
            if self.without_files.fetch_add(1, Ordering::SeqCst) == 0 {
                let _ = eprintln!(rt;
                    "no more files may be opened: connections wait until others end"
                );
            }
        } else if self.refusals.fetch_add(1, Ordering::SeqCst) == 0 {
            let _ = eprintln!(rt; "no connection can be taken just now: {error}");
        }
    }

    /// The system reports nothing more to a worker. Who runs the server is told.
    pub(crate) fn tell_deaf<R: Eprint>(&self, rt: &R, error: &Error) {
        let _ = eprintln!(rt; "a worker ends, and its connections are lost: {error}");
    }

    /// A worker is ready.
    pub(crate) fn note_ready(&self) {
        self.ready.fetch_add(1, Ordering::SeqCst);
        self.ready.wake_all();
    }

    /// Waits until so many workers are ready. False where the server ends before that.
    pub(crate) fn are_ready<R: Wait>(&self, rt: &R, workers: u32) -> bool {
        for _ in rt.forever() {
            let ready = self.ready.load(Ordering::SeqCst);
            if self.has_ended() {
                return false;
            }
            if ready >= u64::from(workers) {
                return true;
            }
            let seen = u32::try_from(ready).unwrap_or(u32::MAX);
            self.ready
                .park_timeout(rt, seen, Duration::from_millis(START_MILLIS));
        }
        unreachable!()
    }

    /// All workers are ready: they serve from now on.
    pub(crate) fn open(&self) {
        self.opened.store(1, Ordering::SeqCst);
        self.opened.wake_all();
    }

    /// Waits until all workers are ready. False where the server ends before that.
    pub(crate) fn opens<R: Wait>(&self, rt: &R) -> bool {
        for _ in rt.forever() {
            if self.has_ended() {
                return false;
            }
            if self.opened.load(Ordering::SeqCst) != 0 {
                return true;
            }
            self.opened
                .park_timeout(rt, 0, Duration::from_millis(START_MILLIS));
        }
        unreachable!()
    }

    /// The server ends: whoever pauses is woken.
    pub(crate) fn end(&self) {
        self.ended.store(1, Ordering::SeqCst);
        self.ended.wake_all();
    }

    pub(crate) fn has_ended(&self) -> bool {
        self.ended.load(Ordering::SeqCst) != 0
    }

    /// Sleeps for so many milliseconds, but no longer than the server goes on. It may wake early.
    pub(crate) fn pause<R: Wait>(&self, rt: &R, millis: u64) {
        self.ended
            .park_timeout(rt, 0, Duration::from_millis(millis));
    }
}

// Whether no more files may be opened.
fn is_of_files(error: &Error) -> bool {
    match error.raw_os_error() {
        Some(number) => NO_MORE_FILES.contains(&number),
        None => false,
    }
}
