//! A switch by which a test or a script makes device calls fail. Nothing is claimed of it: the devices are
//! honest whatever it answers.
use std::alloc::{AllocError, Global};
use std::sync::Arc;
use std::sync::atomic::{AtomicU64, Ordering};

/// What sort of device call.
#[derive(Clone, Copy, PartialEq, Eq)]
pub enum CallKind {
    /// A read of a page or of the log.
    Read,
    /// A write of a page, or an append.
    Write,
    /// A sync or a force.
    Force,
}

/// What happens to the call that meets it.
#[derive(Clone, Copy, PartialEq, Eq)]
pub enum Mishap {
    /// The call fails, and has done nothing. Later calls are as before.
    Fail,
    /// The machine stops in the call: a page write or an append is made, any other call is not. That call
    /// fails, and so does each later one, until the switch is reset. A device that has made the call in which
    /// the machine stopped fails until it is left by a crash.
    Stop,
}

#[derive(Drop)]
struct Armed {
    // device calls so far, modulo 2^64
    calls: AtomicU64,
    // the number of the call that fails or stops; 0: none
    failing: AtomicU64,
    stopping: AtomicU64,
    // what the next call of each kind meets; 0: nothing, 1: a failure, 2: a stop
    read: AtomicU64,
    write: AtomicU64,
    force: AtomicU64,
    // 1: stopped
    stopped: AtomicU64,
    // 1: suspended
    suspended: AtomicU64,
}

/// Makes device calls fail. It is shared by two devices and their holder, and counts the calls of both.
#[derive(Drop)]
pub struct Switch {
    armed: Arc<Armed, Global>,
}

impl Switch {
    /// A switch that lets every call pass.
    pub fn new(alloc: Global) -> Result<Self, AllocError> {
        Ok(Switch {
            armed: Arc::new(
                alloc,
                Armed {
                    calls: AtomicU64::new(0),
                    failing: AtomicU64::new(0),
                    stopping: AtomicU64::new(0),
                    read: AtomicU64::new(0),
                    write: AtomicU64::new(0),
                    force: AtomicU64::new(0),
                    stopped: AtomicU64::new(0),
                    suspended: AtomicU64::new(0),
                },
            )?,
        })
    }

    /// Another hold of the same switch.
    pub fn share(&self) -> Result<Self, AllocError> {
        Ok(Switch {
            armed: Arc::try_clone(&self.armed)?,
        })
    }

    /// How many device calls were made so far, failed ones too, modulo 2^64.
    pub fn calls(&self) -> u64 {
        self.armed.calls.load(Ordering::SeqCst)
    }

    /// The nth device call from now meets `mishap`, once; with 0, none does. A failure and a stop are armed
    /// each by itself; where both meet one call, it stops.
    pub fn arm_call(&self, n: u64, mishap: Mishap) {
        let call = if n == 0 {
            0
        } else {
            self.calls().wrapping_add(n)
        };
        match mishap {
            Mishap::Fail => self.armed.failing.store(call, Ordering::SeqCst),
            Mishap::Stop => self.armed.stopping.store(call, Ordering::SeqCst),
        }
    }

    /// The next device call of this kind meets `mishap`, once. Each kind is armed by itself.
    pub fn arm_kind(&self, kind: CallKind, mishap: Mishap) {
        let code = match mishap {
            Mishap::Fail => 1,
            Mishap::Stop => 2,
        };
        self.next_of(kind).store(code, Ordering::SeqCst);
    }

    /// Whether the next device call of this kind meets what was armed for its kind.
    pub fn is_armed(&self, kind: CallKind) -> bool {
        self.next_of(kind).load(Ordering::SeqCst) != 0
    }

    /// Whether a call has met a stop since the last reset.
    pub fn is_stopped(&self) -> bool {
        self.armed.stopped.load(Ordering::SeqCst) != 0
    }

    /// Ends a stop. What is armed stays armed.
    pub fn reset(&self) {
        self.armed.stopped.store(0, Ordering::SeqCst);
    }

    /// Lets every call pass until `resume`: none is counted, and none meets what is armed.
    pub fn suspend(&self) {
        self.armed.suspended.store(1, Ordering::SeqCst);
    }

    /// Ends a suspension. What was armed before is armed still.
    pub fn resume(&self) {
        self.armed.suspended.store(0, Ordering::SeqCst);
    }

    fn is_suspended(&self) -> bool {
        self.armed.suspended.load(Ordering::SeqCst) != 0
    }

    // What the next call of a kind meets.
    fn next_of(&self, kind: CallKind) -> &AtomicU64 {
        match kind {
            CallKind::Read => &self.armed.read,
            CallKind::Write => &self.armed.write,
            CallKind::Force => &self.armed.force,
        }
    }

    // Counts a call, and answers its number; None where calls are not counted.
    fn count(&self) -> Option<u64> {
        if self.is_suspended() {
            return None;
        }
        let before = self.armed.calls.fetch_add(1, Ordering::SeqCst);
        Some(before.wrapping_add(1))
    }

    // Counts a call, and answers whether it fails before its work. A write that meets a stop is made first:
    // it fails after its work, where `cuts_off` says so.
    pub(crate) fn fails(&self, kind: CallKind) -> bool {
        let Some(call) = self.count() else {
            return false;
        };
        if self.is_stopped() {
            return true;
        }
        let armed = self.next_of(kind).swap(0, Ordering::SeqCst);
        let stops = armed == 2 || call == self.armed.stopping.load(Ordering::SeqCst);
        let fails = armed == 1 || call == self.armed.failing.load(Ordering::SeqCst);
        if stops {
            self.armed.stopped.store(1, Ordering::SeqCst);
            return kind != CallKind::Write;
        }
        fails
    }

    // The same of a call that is of no kind.
    pub(crate) fn fails_any(&self) -> bool {
        let Some(call) = self.count() else {
            return false;
        };
        if self.is_stopped() {
            return true;
        }
        if call == self.armed.stopping.load(Ordering::SeqCst) {
            self.armed.stopped.store(1, Ordering::SeqCst);
            return true;
        }
        call == self.armed.failing.load(Ordering::SeqCst)
    }

    // Whether the call that has just done its work is the one that the machine stopped in.
    pub(crate) fn cuts_off(&self) -> bool {
        self.is_stopped() && !self.is_suspended()
    }
}
