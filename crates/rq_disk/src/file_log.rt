//! A log in a file. What a read gives is believed, and noted: the device is honest where its notes agree.
ghost use Rattle.std.specs.Prelude.{◌≡◌, ◌-◌, ◌↔◌, [], length, min, IfOk, true, false};
ghost use Rattle.rq_disk.specs.FileCalls.{has_failed};
ghost use Rattle.rq_disk.specs.LogFile.{end_of, writes_at_end};
ghost use Rattle.rq_disk.specs.Device.{Only};

use crate::contents::FileContents;
use crate::device::{DeviceFailed, LogDevice};
use crate::storage::{Exchange, NotedFile, Storage};
use std::fs::File;
use std::io;
use std::marker::PhantomData;

/// A log in a file that held what `S` says when it was opened. Once a call other than a read has failed, every call fails, until
/// the file is opened again.
#[derive(Drop)]
pub struct FileLog<S: FileContents, F: Storage = NotedFile> {
    file: F,
    // its length when it was opened
    first: u64,
    // its length, where the next append goes
    end: u64,
    // a call other than a read has failed
    broken: bool,
    failures: u64,
    held: PhantomData<S>,
    ghost length: { end ≡ end_of first (F.Storage.calls file) },
    ghost at_end: { writes_at_end first (F.Storage.calls file) ≡ true },
    ghost stops: { broken ≡ has_failed (F.Storage.calls file) },
}

impl<S: FileContents, F: Storage> LogDevice for FileLog<S, F> {
    ghost use Rattle.std.specs.Prelude.{◌≤◌, ◌+◌, ◌^◌, true, length};
    ghost use Rattle.rq_disk.specs.LogFile.{log_bytes, log_may_leave, LogAgrees, LogErred, LogLeftSince, log_all};
    ghost use Rattle.rq_disk.specs.Since.{since_counts_now, since_only_now};

    ghost seen = { λ d. log_bytes S.bytes (F.calls d.file) };

    ghost honest = { λ d. LogAgrees S.bytes d.first (F.calls d.file) };

    ghost may_leave = { λ d. log_may_leave S.bytes (F.calls d.file) };

    ghost stopped = { λ d. has_failed (F.calls d.file) ≡ true };

    ghost moment = { λ d. length (F.calls d.file) };

    ghost left_since = { λ d. LogLeftSince S.bytes (F.calls d.file) };

    ghost faults = { λ d. d.failures };

    ghost excuse = { λ call old new. LogErred old.end call (F.calls old.file) (F.calls new.file) };

    ghost seen_may_be_left = { λ d. log_all S.bytes (F.calls d.file) };

    ghost counts_now = { λ d. since_counts_now (log_may_leave S.bytes) (F.calls d.file) };

    ghost only_now = { λ d. since_only_now (log_may_leave S.bytes) (F.calls d.file) };

    fn failures(&self) -> u64 {
        self.failures
    }

    fn read(&mut self, at: u64, into: &mut [u8]) -> Result<usize, DeviceFailed> {
        let count = bytes_between(at, self.end, into.len());
        if self.broken {
            self.failures = self.failures.wrapping_add(1);
            return Err(DeviceFailed);
        }
        if self.file.fill(&mut into[..count], at).is_err() {
            self.failures = self.failures.wrapping_add(1);
            return Err(DeviceFailed);
        }
        Ok(count)
    }

    fn append(&mut self, bytes: &[u8]) -> Result<(), DeviceFailed> {
        let at = self.end;
        let Some(end) = at.checked_add(bytes.len() as u64) else {
            self.failures = self.failures.wrapping_add(1);
            return Err(DeviceFailed);
        };
        if self.broken {
            self.failures = self.failures.wrapping_add(1);
            return Err(DeviceFailed);
        }
        if self.file.put(bytes, at).is_err() {
            self.broken = true;
            self.failures = self.failures.wrapping_add(1);
            return Err(DeviceFailed);
        }
        self.end = end;
        Ok(())
    }

    fn force(&mut self) -> Result<(), DeviceFailed> {
        if self.broken {
            self.failures = self.failures.wrapping_add(1);
            return Err(DeviceFailed);
        }
        if self.file.sync().is_err() {
            self.broken = true;
            self.failures = self.failures.wrapping_add(1);
            return Err(DeviceFailed);
        }
        Ok(())
    }

    fn cut(&mut self, len: u64) -> Result<(), DeviceFailed> {
        if self.broken {
            self.failures = self.failures.wrapping_add(1);
            return Err(DeviceFailed);
        }
        if self.file.shorten(len).is_err() {
            self.broken = true;
            self.failures = self.failures.wrapping_add(1);
            return Err(DeviceFailed);
        }
        self.end = std::cmp::min(len, self.end);
        if self.file.sync().is_err() {
            self.broken = true;
            self.failures = self.failures.wrapping_add(1);
            return Err(DeviceFailed);
        }
        Ok(())
    }

    fn replace(&mut self, bytes: &[u8]) -> Result<(), DeviceFailed> {
        if self.broken {
            self.failures = self.failures.wrapping_add(1);
            return Err(DeviceFailed);
        }
        if self.file.exchange(bytes).is_err() {
            self.broken = true;
            self.failures = self.failures.wrapping_add(1);
            return Err(DeviceFailed);
        }
        self.end = bytes.len() as u64;
        Ok(())
    }
}

// How many bytes there are from `at` on, before `end`, and at most `most`.
fn bytes_between(at: u64, end: u64, most: usize) -> usize
    ensures { result ≡ min most (end - at) }
{
    std::cmp::min(most as u64, end.saturating_sub(at)) as usize
}

impl<S: FileContents, F: Storage> FileLog<S, F> {
    /// The log in a file of `len` bytes of which nothing was asked so far, and which held what `S` says. It is honest
    /// where that was so long.
    pub fn new(file: F, len: u64) -> FileLog<S, F>
        requires unasked { F.calls file ≡ [] }
        requires long { F.opened file ≡ len }
        ensures seen { ⟦<FileLog<S, F> as LogDevice>⟧.seen result ≡ S.bytes }
        ensures durable { Only S.bytes (⟦<FileLog<S, F> as LogDevice>⟧.may_leave result) }
        ensures honest { ⟦<FileLog<S, F> as LogDevice>⟧.honest result ↔ (length S.bytes ≡ len) }
        ensures runs { ⟦<FileLog<S, F> as LogDevice>⟧.stopped result → ⊥ }
        ensures moment { ⟦<FileLog<S, F> as LogDevice>⟧.moment result ≡ 0 }
        ensures failures { ⟦<FileLog<S, F> as LogDevice>⟧.faults result ≡ 0 }
    {
        FileLog {
            file,
            first: len,
            end: len,
            broken: false,
            failures: 0,
            held: PhantomData,
        }
    }
}

impl<S: FileContents, X: Exchange> FileLog<S, NotedFile<X>> {
    ghost use Rattle.rq_disk.specs.Stored.{first_len};

    /// The log in a file, which is locked and forced first. `by` puts another in its place.
    ///
    /// # Errors
    /// `WouldBlock` where another opening has the file; those of the system.
    pub fn open(file: File, by: X) -> io::Result<FileLog<S, NotedFile<X>>>
        ensures seen { IfOk result (λ d. ⟦<FileLog<S, NotedFile<X>> as LogDevice>⟧.seen d ≡ S.bytes) }
        ensures durable { IfOk result (λ d. Only S.bytes (⟦<FileLog<S, NotedFile<X>> as LogDevice>⟧.may_leave d)) }
        ensures honest { IfOk result (λ d. ⟦<FileLog<S, NotedFile<X>> as LogDevice>⟧.honest d ↔ (length S.bytes ≡ first_len d)) }
        ensures runs { IfOk result (λ d. ⟦<FileLog<S, NotedFile<X>> as LogDevice>⟧.stopped d → ⊥) }
        ensures moment { IfOk result (λ d. ⟦<FileLog<S, NotedFile<X>> as LogDevice>⟧.moment d ≡ 0) }
        ensures failures { IfOk result (λ d. ⟦<FileLog<S, NotedFile<X>> as LogDevice>⟧.faults d ≡ 0) }
    {
        let (file, len) = NotedFile::open(file, by)?;
        Ok(FileLog::new(file, len))
    }
}
