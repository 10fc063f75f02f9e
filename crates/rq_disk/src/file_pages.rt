//! Pages in a file. What a read gives is believed, and noted: the device is honest where its notes agree.
ghost use Rattle.std.specs.Prelude.{◌≡◌, ◌≤◌, ◌*◌, ◌/◌, ℕ, [], IfOk, true, false};
ghost use Rattle.rq_disk.specs.Device.{Only};
ghost use Rattle.rq_disk.specs.FileCalls.{has_failed};
ghost use Rattle.rq_disk.specs.PageFile.{are_whole};

use crate::contents::FileContents;
use crate::device::{DeviceFailed, PAGE, PageDevice};
use crate::storage::{Fixed, NotedFile, Storage};
use std::fs::File;
use std::io;
use std::marker::PhantomData;

/// Pages in a file that held what `S` says when it was opened. There are as many as it had then: a read or a write past
/// the last one fails. After a write or a sync that failed every call fails, until the file is opened again.
#[derive(Drop)]
pub struct FilePages<S: FileContents, F: Storage = NotedFile> {
    file: F,
    // how many pages there are
    count: u32,
    // a write or a sync has failed
    broken: bool,
    failures: u64,
    held: PhantomData<S>,
    ghost stops: { broken ≡ has_failed (F.Storage.calls file) },
    ghost whole: { are_whole (F.Storage.calls file) ≡ true },
}

impl<S: FileContents, F: Storage> PageDevice for FilePages<S, F> {
    ghost use Rattle.std.specs.Prelude.{true, length};
    ghost use Rattle.rq_disk.specs.Device.{Leaves};
    ghost use Rattle.rq_disk.specs.PageFile.{images_now, page_may_be, PageErred, PagesAgree, PagesLeftSince, page_seen};
    ghost use Rattle.rq_disk.specs.Since.{since_counts_now, since_only_now};

    ghost seen = { λ d. images_now S.pages (F.calls d.file) };

    ghost honest = { λ d. PagesAgree S.pages (F.calls d.file) };

    ghost may_be = { λ d. page_may_be S.pages (F.calls d.file) };

    ghost stopped = { λ d. has_failed (F.calls d.file) ≡ true };

    ghost moment = { λ d. length (F.calls d.file) };

    ghost left_since = { λ d. PagesLeftSince S.pages (F.calls d.file) };

    ghost faults = { λ d. d.failures };

    ghost excuse = { λ call old new. PageErred old.count call (F.calls old.file) (F.calls new.file) };

    ghost seen_may_be = { λ d. page_seen S.pages (F.calls d.file) };

    ghost counts_now = { λ d. since_counts_now (λ calls. Leaves (page_may_be S.pages calls)) (F.calls d.file) };

    ghost only_now = { λ d. since_only_now (λ calls. Leaves (page_may_be S.pages calls)) (F.calls d.file) };

    fn failures(&self) -> u64 {
        self.failures
    }

    fn read(&mut self, page: u32, into: &mut [u8; PAGE]) -> Result<(), DeviceFailed> {
        if self.broken || page >= self.count {
            self.failures = self.failures.wrapping_add(1);
            return Err(DeviceFailed);
        }
        if self.file.fill(into, place_of(page)).is_err() {
            self.failures = self.failures.wrapping_add(1);
            return Err(DeviceFailed);
        }
        Ok(())
    }

    fn write(&mut self, page: u32, image: &[u8; PAGE]) -> Result<(), DeviceFailed> {
        if self.broken || page >= self.count {
            self.failures = self.failures.wrapping_add(1);
            return Err(DeviceFailed);
        }
        if self.file.put(image, place_of(page)).is_err() {
            self.broken = true;
            self.failures = self.failures.wrapping_add(1);
            return Err(DeviceFailed);
        }
        Ok(())
    }

    fn sync(&mut self) -> Result<(), DeviceFailed> {
        if self.broken {
            self.failures = self.failures.wrapping_add(1);
            return Err(DeviceFailed);
        }
        if self.file.sync().is_err() {
            self.broken = true;
            self.failures = self.failures.wrapping_add(1);
            return Err(DeviceFailed);
        }
        Ok(())
    }
}

// Where a page begins in the file.
fn place_of(page: u32) -> u64
    ensures { result ≡ page * 4096 }
{
    u64::from(page) * PAGE as u64
}

impl<S: FileContents, F: Storage> FilePages<S, F> {
    ghost use Rattle.rq_disk.specs.Stored.{file_page_count};

    /// The first `count` pages of a file of which nothing was asked so far, and which held what `S` says.
    pub fn new(file: F, count: u32) -> FilePages<S, F>
        requires unasked { F.calls file ≡ [] }
        requires within { count * 4096 ≤ F.opened file }
        ensures seen { ⟦<FilePages<S, F> as PageDevice>⟧.seen result ≡ S.pages }
        ensures durable { (p : ℕ) → Only (S.pages p) (⟦<FilePages<S, F> as PageDevice>⟧.may_be result p) }
        ensures honest { ⟦<FilePages<S, F> as PageDevice>⟧.honest result }
        ensures runs { ⟦<FilePages<S, F> as PageDevice>⟧.stopped result → ⊥ }
        ensures moment { ⟦<FilePages<S, F> as PageDevice>⟧.moment result ≡ 0 }
        ensures failures { ⟦<FilePages<S, F> as PageDevice>⟧.faults result ≡ 0 }
        ensures count { file_page_count result ≡ count }
        ensures opened { F.opened result.file ≡ F.opened file }
    {
        FilePages {
            file,
            count,
            broken: false,
            failures: 0,
            held: PhantomData,
        }
    }
}

impl<S: FileContents> FilePages<S> {
    ghost use Rattle.std.specs.Prelude.{◌-◌, ◌^◌, min};
    ghost use Rattle.rq_disk.specs.Stored.{file_page_count, opened_len};

    /// The pages in a file, which is locked and synced first. Bytes behind the last whole page are left out.
    ///
    /// # Errors
    /// `WouldBlock` where another opening has the file; those of the system.
    pub fn open(file: File) -> io::Result<FilePages<S>>
        ensures seen { IfOk result (λ d. ⟦<FilePages<S> as PageDevice>⟧.seen d ≡ S.pages) }
        ensures durable { IfOk result (λ d. (p : ℕ) → Only (S.pages p) (⟦<FilePages<S> as PageDevice>⟧.may_be d p)) }
        ensures honest { IfOk result (λ d. ⟦<FilePages<S> as PageDevice>⟧.honest d) }
        ensures runs { IfOk result (λ d. ⟦<FilePages<S> as PageDevice>⟧.stopped d → ⊥) }
        ensures moment { IfOk result (λ d. ⟦<FilePages<S> as PageDevice>⟧.moment d ≡ 0) }
        ensures failures { IfOk result (λ d. ⟦<FilePages<S> as PageDevice>⟧.faults d ≡ 0) }
        ensures count { IfOk result (λ d. file_page_count d ≡ min (opened_len d.file / 4096) (2 ^ 32 - 1)) }
    {
        let (file, len) = NotedFile::open(file, Fixed)?;
        let count = std::cmp::min(len / PAGE as u64, u64::from(u32::MAX)) as u32;
        Ok(FilePages::new(file, count))
    }
}
