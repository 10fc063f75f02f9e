//! A log in memory. It keeps what it was at first and each call since, so that its past is real data.
ghost use Rattle.std.specs.Prelude.{⊤, ◌≡◌, ◌≤◌, ◌+◌, ◌-◌, ◌++◌, ◌∷◌, [], ℕ, length, take, drop, min, OnOk, OnErr, true, false};
ghost use Rattle.rq_disk.specs.Records.{AreRecords, some_records-prop};
ghost use Rattle.rq_disk.specs.Memory.{log_after};

use crate::device::{DeviceFailed, LogDevice};
use crate::framing::{first_records, torn_size};
use crate::switch::{CallKind, Switch};
use std::alloc::{AllocError, Global};
use std::snapshot::Snapshot;

/// A call that changed a log in memory.
#[derive(Drop)]
pub enum LogCall {
    Append(Vec<u8>),
    Force,
    Cut(u64),
    Replace(Vec<u8>),
}

/// A log in memory.
#[derive(Drop)]
pub struct MemLog {
    alloc: Global,
    // what reads give
    bytes: Vec<u8>,
    // what it was at first
    start: Snapshot<Vec<u8>>,
    // how many of the bytes are forced
    forced: usize,
    calls: Vec<LogCall>,
    failures: u64,
    // the machine stopped in an append, which was made
    stopped: bool,
    switch: Switch,
    ghost within: { forced ≤ length bytes.items },
    ghost forced_bytes: { take forced bytes.items ≡ (log_after start.value.items calls.items).forced },
    ghost handed_bytes: { drop forced bytes.items ≡ (log_after start.value.items calls.items).handed },
    ghost whole: { (n : ℕ) × AreRecords n (drop forced bytes.items) } by { some_records-prop
        (drop forced bytes.items) },
}

impl LogDevice for MemLog {
    ghost use Rattle.rq_disk.specs.Shown.{log_of, log_moment, log_faults};
    ghost use Rattle.rq_disk.specs.Memory.{log_reads, MayLeave, LogSince, log_seen, log_count, log_only};

    ghost seen = { λ m. log_reads (log_of m) };

    ghost honest = { λ m. ⊤ };

    ghost may_leave = { λ m. MayLeave (log_of m) };

    ghost stopped = { λ m. m.stopped ≡ true };

    ghost moment = { λ m. log_moment m };

    ghost left_since = { λ m. LogSince m.start.value.items m.calls.items };

    ghost faults = { λ m. log_faults m };

    ghost seen_may_be_left = { λ m. log_seen (log_of m) };

    ghost counts_now = { λ m. log_count m.start.value.items m.calls.items };

    ghost only_now = { λ m. log_only m.start.value.items m.calls.items };

    fn failures(&self) -> u64 {
        self.failures
    }

    fn read(&mut self, at: u64, into: &mut [u8]) -> Result<usize, DeviceFailed> {
        if self.switch.fails(CallKind::Read) || self.stopped {
            self.failures = self.failures.wrapping_add(1);
            return Err(DeviceFailed);
        }
        Ok(copied(&self.bytes, at, into))
    }

    fn append(&mut self, bytes: &[u8]) -> Result<(), DeviceFailed> {
        if self.switch.fails(CallKind::Write) || self.stopped {
            self.failures = self.failures.wrapping_add(1);
            return Err(DeviceFailed);
        }
        match add_run(self.alloc, &mut self.calls, &mut self.bytes, bytes) {
            Ok(()) => {
                if self.switch.cuts_off() {
                    self.stopped = true;
                    self.failures = self.failures.wrapping_add(1);
                    return Err(DeviceFailed);
                }
                Ok(())
            }
            Err(_) => {
                self.failures = self.failures.wrapping_add(1);
                Err(DeviceFailed)
            }
        }
    }

    fn force(&mut self) -> Result<(), DeviceFailed> {
        if self.switch.fails(CallKind::Force) || self.stopped {
            self.failures = self.failures.wrapping_add(1);
            return Err(DeviceFailed);
        }
        match add_force(&mut self.calls) {
            Ok(()) => {
                self.forced = self.bytes.len();
                Ok(())
            }
            Err(_) => {
                self.failures = self.failures.wrapping_add(1);
                Err(DeviceFailed)
            }
        }
    }

    fn cut(&mut self, len: u64) -> Result<(), DeviceFailed> {
        if self.switch.fails_any() || self.stopped {
            self.failures = self.failures.wrapping_add(1);
            return Err(DeviceFailed);
        }
        match add_cut(&mut self.calls, len) {
            Ok(()) => {
                keep_first(&mut self.bytes, len);
                self.forced = self.bytes.len();
                Ok(())
            }
            Err(_) => {
                self.failures = self.failures.wrapping_add(1);
                Err(DeviceFailed)
            }
        }
    }

    fn replace(&mut self, bytes: &[u8]) -> Result<(), DeviceFailed> {
        if self.switch.fails_any() || self.stopped {
            self.failures = self.failures.wrapping_add(1);
            return Err(DeviceFailed);
        }
        match put_run(self.alloc, &mut self.calls, &mut self.bytes, bytes) {
            Ok(()) => {
                self.forced = self.bytes.len();
                Ok(())
            }
            Err(_) => {
                self.failures = self.failures.wrapping_add(1);
                Err(DeviceFailed)
            }
        }
    }
}

// Notes a cut, or nothing.
fn add_cut(calls: &mut Vec<LogCall>, len: u64) -> Result<(), AllocError>
    ensures ok { OnOk result (calls.new.items ≡ calls.old.items ++ LogCall.Cut len ∷ []) }
    ensures err { OnErr result (calls.new.items ≡ calls.old.items) }
{
    calls.push(LogCall::Cut(len))?;
    Ok(())
}

// Drops what is behind the first bytes.
fn keep_first(bytes: &mut Vec<u8>, len: u64)
    ensures { bytes.new.items ≡ take len bytes.old.items }
{
    if len < bytes.len() as u64 {
        bytes.truncate(len as usize);
    }
}

fn add_force(calls: &mut Vec<LogCall>) -> Result<(), AllocError>
    ensures ok { OnOk result (calls.new.items ≡ calls.old.items ++ LogCall.Force ∷ []) }
    ensures err { OnErr result (calls.new.items ≡ calls.old.items) }
{
    calls.push(LogCall::Force)?;
    Ok(())
}

// Adds a run to both, or to neither.
fn add_run(
    alloc: Global,
    calls: &mut Vec<LogCall>,
    all: &mut Vec<u8>,
    run: &[u8],
) -> Result<(), AllocError>
    ensures ok { OnOk result ((v : _) × (v.items ≡ run.now)
        × (calls.new.items ≡ calls.old.items ++ LogCall.Append v ∷ []) × (all.new.items ≡ all.old.items ++ run.now)) }
    ensures err { OnErr result ((calls.new.items ≡ calls.old.items) × (all.new.items ≡ all.old.items)) }
{
    let copy = run.to_vec(alloc)?;
    calls.try_reserve(1)?;
    all.extend_from_slice(run)?;
    calls.push(LogCall::Append(copy))?;
    Ok(())
}

// Puts a run in the place of all and notes it, or neither.
fn put_run(
    alloc: Global,
    calls: &mut Vec<LogCall>,
    all: &mut Vec<u8>,
    run: &[u8],
) -> Result<(), AllocError>
    ensures ok { OnOk result ((v : _) × (v.items ≡ run.now)
        × (calls.new.items ≡ calls.old.items ++ LogCall.Replace v ∷ []) × (all.new.items ≡ run.now)) }
    ensures err { OnErr result ((calls.new.items ≡ calls.old.items) × (all.new.items ≡ all.old.items)) }
{
    let copy = run.to_vec(alloc)?;
    let fresh = run.to_vec(alloc)?;
    calls.push(LogCall::Replace(copy))?;
    *all = fresh;
    Ok(())
}

// Copies the bytes from a place on, as many as there are and fit.
fn copied(bytes: &[u8], at: u64, into: &mut [u8]) -> usize
    ensures count { result ≡ min (length into.old) (length bytes.now - at) }
    ensures bytes { into.new ≡ take result (drop at bytes.now) ++ drop result into.old }
{
    if at >= bytes.len() as u64 {
        return 0;
    }
    let from = &bytes[at as usize..];
    let count = std::cmp::min(into.len(), from.len());
    into[..count].copy_from_slice(&from[..count]);
    count
}

impl MemLog {
    ghost use Rattle.rq_disk.specs.Shown.{log_of, log_moment, log_faults, log_stopped, log_switch};
    ghost use Rattle.rq_disk.specs.Memory.{log_reads, fresh_log, MayLeave, crashed_log};
    ghost use Rattle.rq_disk.specs.Records.{HoldsRecords};

    /// A log of these bytes, all of them forced. It runs.
    pub fn new(alloc: Global, bytes: Vec<u8>, switch: Switch) -> Self
        ensures log { log_of result ≡ fresh_log bytes.items }
        ensures moment { log_moment result ≡ 0 }
        ensures failures { log_faults result ≡ 0 }
        ensures runs { log_stopped result ≡ false }
        ensures switch { log_switch result ≡ switch }
    {
        let len = bytes.len();
        let start = Snapshot::of(&bytes);
        MemLog {
            alloc,
            bytes,
            start,
            forced: len,
            calls: Vec::new(alloc),
            failures: 0,
            stopped: false,
            switch,
        }
    }

    /// What it reads as, forced or not.
    pub fn bytes(&self) -> &[u8]
        ensures { result.now ≡ log_reads (log_of self.now) }
    {
        &self.bytes
    }

    /// How many bytes stand behind its whole records.
    pub fn left(&self) -> usize
        ensures { (n : ℕ) × (records : HoldsRecords (log_reads (log_of self.now)) n)
            × (records.end + result ≡ length (log_reads (log_of self.now))) }
    {
        let (end, _) = first_records(&self.bytes, u64::MAX);
        self.bytes.len() - end
    }

    /// What a crash leaves. Of the records that are not forced the first `keep` outlive it, or all where there are
    /// fewer. Of the record behind them the first `torn` bytes outlive it, at most all but one. All that is left counts
    /// as forced from then on, and the log runs. The count of failures and the switch stay.
    pub fn crash(self, keep: u64, torn: u64) -> MemLog
        ensures log { log_of result ≡ fresh_log (crashed_log keep torn (log_of self)) }
        ensures may_leave { MayLeave (log_of self) (log_reads (log_of result)) }
        ensures moment { log_moment result ≡ 0 }
        ensures failures { log_faults result ≡ log_faults self }
        ensures runs { log_stopped result ≡ false }
        ensures switch { log_switch result ≡ log_switch self }
    {
        let MemLog {
            alloc,
            mut bytes,
            start: _,
            forced,
            calls: _,
            failures,
            stopped: _,
            switch,
        } = self;
        let (end, _) = first_records(&bytes[forced..], keep);
        let end = forced + end;
        let tail = torn_size(&bytes[end..], torn);
        bytes.truncate(end + tail);
        let len = bytes.len();
        let start = Snapshot::of(&bytes);
        MemLog {
            alloc,
            bytes,
            start,
            forced: len,
            calls: Vec::new(alloc),
            failures,
            stopped: false,
            switch,
        }
    }
}
