//! A store that is looked at, and not opened.
ghost use Rattle.std.specs.Prelude.{◌≡◌, ◌↔◌, [], IfOk, length};
ghost use Rattle.rq_disk.specs.Device.{Only};
ghost use Rattle.rq_disk.specs.Stored.{first_len};

use crate::fault::Fault;
use crate::folder::{log_path, open_file, pages_path};
use rq_disk::{Calls, FileContents, FileLog, LogDevice, Storage};
use rq_model::refusal::{Damage, Refusal};
use rq_page::layout::Layout;
use rq_page::page::{PAGE_BYTES, Page};
use std::fs::{File, Files, OpenOptions};
use std::io;
use std::io::ErrorKind;
use std::os::unix::fs::FileExt;

/// A file of the system that is read alone, as far as it went when it was opened. It is not locked: another opening may have
/// it, and write behind that.
#[derive(Drop)]
pub struct ReadFile {
    file: File,
    // its length when it was opened
    len: u64,
    calls: Calls,
}

impl Storage for ReadFile {
    ghost calls = { λ f. f.calls };

    ghost opened = { λ f. f.len };

    fn fill(&mut self, into: &mut [u8], at: u64) -> io::Result<()> {
        if let Err(error) = self.file.read_exact_at(into, at) {
            self.calls.denied(at);
            return Err(error);
        }
        self.calls.gave(at, into);
        Ok(())
    }

    fn put(&mut self, bytes: &[u8], at: u64) -> io::Result<()> {
        self.calls.tried(at, bytes);
        Err(ErrorKind::PermissionDenied.into())
    }

    fn shorten(&mut self, len: u64) -> io::Result<()> {
        self.calls.uncut(len);
        Err(ErrorKind::PermissionDenied.into())
    }

    fn exchange(&mut self, bytes: &[u8]) -> io::Result<()> {
        self.calls.unreplaced(bytes);
        Err(ErrorKind::PermissionDenied.into())
    }

    fn sync(&mut self) -> io::Result<()> {
        self.calls.missed();
        Err(ErrorKind::PermissionDenied.into())
    }
}

/// Opens the log of the store in a folder, and nothing else there, to be read alone. `S` stands for what it holds, as in
/// `open_folder`.
///
/// # Errors
/// `Open` where it is no file that can be read; `Refused` with `NoMemory` where its path cannot be made.
pub fn look_at_log<S: FileContents, R: Files<File = File> + AllocGlobal>(
    rt: &R,
    folder: &str,
    _held: S,
) -> Result<FileLog<S, ReadFile>, Fault>
    ensures log { IfOk result (λ d. ⟦<FileLog<S, ReadFile> as LogDevice>⟧.seen d ≡ S.bytes) }
    ensures durable { IfOk result (λ d. Only S.bytes (⟦<FileLog<S, ReadFile> as LogDevice>⟧.may_leave d)) }
    ensures honest { IfOk result (λ d. ⟦<FileLog<S, ReadFile> as LogDevice>⟧.honest d
        ↔ (length S.bytes ≡ first_len d)) }
    ensures runs { IfOk result (λ d. ⟦<FileLog<S, ReadFile> as LogDevice>⟧.stopped d → ⊥) }
    ensures moment { IfOk result (λ d. ⟦<FileLog<S, ReadFile> as LogDevice>⟧.moment d ≡ 0) }
    ensures failures { IfOk result (λ d. ⟦<FileLog<S, ReadFile> as LogDevice>⟧.faults d ≡ 0) }
{
    let path = log_path(rt, folder)?;
    let Ok(file) = open_file(rt, &path, OpenOptions::new().read(true)) else {
        return Err(Fault::Open);
    };
    match file.metadata() {
        Ok(metadata) if metadata.is_file() => Ok(log_in(file, metadata.len())),
        _ => Err(Fault::Open),
    }
}

// The log in a file that is so long.
fn log_in<S: FileContents>(file: File, len: u64) -> FileLog<S, ReadFile>
    ensures log { ⟦<FileLog<S, ReadFile> as LogDevice>⟧.seen result ≡ S.bytes }
    ensures durable { Only S.bytes (⟦<FileLog<S, ReadFile> as LogDevice>⟧.may_leave result) }
    ensures honest { ⟦<FileLog<S, ReadFile> as LogDevice>⟧.honest result ↔ (length S.bytes ≡ first_len result) }
    ensures runs { ⟦<FileLog<S, ReadFile> as LogDevice>⟧.stopped result → ⊥ }
    ensures moment { ⟦<FileLog<S, ReadFile> as LogDevice>⟧.moment result ≡ 0 }
    ensures failures { ⟦<FileLog<S, ReadFile> as LogDevice>⟧.faults result ≡ 0 }
{
    let calls = Calls::none();
    FileLog::new(ReadFile { file, len, calls }, len)
}

/// How large the store in a folder is, as the first of its pages tells. The file of pages may be longer.
///
/// # Errors
/// `Open` where it is no file that can be read. `Refused` with `NoMemory` where its path cannot be made. `Refused` with
/// `DiskRead` where that page cannot be read, and with `Damaged` where it tells nothing.
pub fn look_at_layout<R: Files<File = File> + AllocGlobal>(
    rt: &R,
    folder: &str,
) -> Result<Layout, Fault> {
    let path = pages_path(rt, folder)?;
    let Ok(file) = open_file(rt, &path, OpenOptions::new().read(true)) else {
        return Err(Fault::Open);
    };
    layout_in(&file)
}

/// How large the store in a file of pages is, as the first of them tells.
pub(crate) fn layout_in(file: &File) -> Result<Layout, Fault> {
    let mut first = [0; PAGE_BYTES];
    if file.read_exact_at(&mut first, 0).is_err() {
        return Err(Fault::Refused(Refusal::DiskRead));
    }
    match Layout::check_superblock(&Page::from_image(&first)) {
        Some(layout) => Ok(layout),
        None => Err(Fault::Refused(Refusal::Damaged(Damage::Page(0)))),
    }
}
