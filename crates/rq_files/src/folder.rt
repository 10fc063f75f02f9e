//! The files of a store, made in a folder or opened there.
ghost use Rattle.std.specs.Prelude.{◌≡◌, ◌↔◌, ◌≤◌, ℕ, IfOk, IsOk, length};
ghost use Rattle.rq_disk.specs.Device.{Only};
ghost use Rattle.rq_disk.specs.Stored.{first_len};

use crate::fault::{Fault, NotOpened};
use crate::looking::layout_in;
use crate::renaming::{FolderLog, InFolder, LogPaths, Renames};
use rq_disk::{FileContents, FileLog, FilePages, LogDevice, PAGE, PageDevice, Unknown};
use rq_model::refusal::Refusal;
use rq_page::layout::Layout;
use rq_restart::format::format;
use std::fs::{File, Files, OpenOptions};
use std::io::{ErrorKind, Write};
use std::path::{Path, PathBuf};
use std::{fs, io};

/// The file of a store's pages.
const PAGES: &str = "pages";

/// The file of a store's log.
pub(crate) const LOG: &str = "log";

/// Makes the files of an empty store in a folder and prints so, or why not. Answers the exit status: 0, or 1 after a
/// fault.
pub fn run_format<R: Files<File = File> + AllocGlobal, W: Write>(
    rt: &R,
    writer: &mut W,
    folder: &str,
    layout: &Layout,
) -> u8
    ensures status { result ≤ 1 }
{
    let made = format_folder(rt, folder, layout);
    let printed = match &made {
        Ok(()) => print_formatted(writer, layout),
        Err(fault) => writeln!(writer, "fault {fault}"),
    };
    exit_status(&made, &printed)
}

// 0 exactly where the store was made, and that was printed.
fn exit_status(made: &Result<(), Fault>, printed: &io::Result<()>) -> u8
    ensures done { (result ≡ 0) ↔ (IsOk made.now × IsOk printed.now) }
    ensures fault { result ≤ 1 }
{
    match (made, printed) {
        (Ok(()), Ok(())) => 0,
        _ => 1,
    }
}

fn print_formatted<W: Write>(writer: &mut W, layout: &Layout) -> io::Result<()> {
    let directory = layout.directory();
    let cells = layout.cells();
    let tags = layout.tags();
    if tags == 0 {
        writeln!(writer, "formatted {directory} {cells}")
    } else {
        writeln!(writer, "formatted {directory} {cells} {tags}")
    }
}

/// Makes the pages and the empty log of a store in a folder, which is there. All of it is durable then, the names of
/// both files too. What else is there stays, as a `log.new` that a crash left.
///
/// # Errors
/// `Exists` where either name is taken. `Open` where a file or its lock, or the folder, cannot be had, as where no
/// folder is named. `Refused` with `NoMemory` where a path cannot be made, and with `DiskWrite` where a file or the
/// folder fails. Unless both files could be made none is left (but the pages, where removing them fails); after that
/// what was made is left.
pub fn format_folder<R: Files<File = File> + AllocGlobal>(
    rt: &R,
    folder: &str,
    layout: &Layout,
) -> Result<(), Fault> {
    if folder.is_empty() {
        return Err(Fault::Open);
    }
    let pages = path_of(rt, folder, PAGES)?;
    let log = path_of(rt, folder, LOG)?;
    if is_taken(rt, &pages)? || is_taken(rt, &log)? {
        return Err(Fault::Exists);
    }
    let (pages, log) = both_made(rt, &pages, &log)?;
    format_pages(pages, layout)?;
    log.sync_all().map_err(write_failed)?;
    sync_folder(rt, folder)
}

/// Opens the files of the store in a folder, each locked for this opening alone, and synced. `S` stands for what they
/// hold; its value is used up, so that code over any `S` opens one store.
///
/// Where the store has no tag pages, its file of pages is first made long enough for `room` of them, if a store may have so
/// many. A file that is longer, or too short for its store, stays as it is. So does any file where `room` is 0.
///
/// # Errors
/// `Open` where a file or its lock cannot be had, `Refused` with `DiskWrite` where it cannot be made longer or synced, and with
/// `NoMemory`.
pub fn open_folder<'a, S: FileContents, R: Files<File = File> + AllocGlobal + Renames>(
    rt: &'a R,
    folder: &str,
    room: u32,
    _held: S,
) -> Result<(FilePages<S>, FolderLog<'a, S, R>), NotOpened>
    ensures pages { IfOk result (λ d. ⟦<FilePages<S> as PageDevice>⟧.seen d.0 ≡ S.pages) }
    ensures pages_durable { IfOk result (λ d. (p : ℕ)
        → Only (S.pages p) (⟦<FilePages<S> as PageDevice>⟧.may_be d.0 p)) }
    ensures pages_honest { IfOk result (λ d. ⟦<FilePages<S> as PageDevice>⟧.honest d.0) }
    ensures pages_run { IfOk result (λ d. ⟦<FilePages<S> as PageDevice>⟧.stopped d.0 → ⊥) }
    ensures pages_moment { IfOk result (λ d. ⟦<FilePages<S> as PageDevice>⟧.moment d.0 ≡ 0) }
    ensures pages_failures { IfOk result (λ d. ⟦<FilePages<S> as PageDevice>⟧.faults d.0 ≡ 0) }
    ensures log { IfOk result (λ d. ⟦<FolderLog<'a, S, R> as LogDevice>⟧.seen d.1 ≡ S.bytes) }
    ensures log_durable { IfOk result (λ d. Only S.bytes (⟦<FolderLog<'a, S, R> as LogDevice>⟧.may_leave d.1)) }
    ensures log_honest { IfOk result (λ d. ⟦<FolderLog<'a, S, R> as LogDevice>⟧.honest d.1
        ↔ (length S.bytes ≡ first_len d.1)) }
    ensures log_runs { IfOk result (λ d. ⟦<FolderLog<'a, S, R> as LogDevice>⟧.stopped d.1 → ⊥) }
    ensures log_moment { IfOk result (λ d. ⟦<FolderLog<'a, S, R> as LogDevice>⟧.moment d.1 ≡ 0) }
    ensures log_failures { IfOk result (λ d. ⟦<FolderLog<'a, S, R> as LogDevice>⟧.faults d.1 ≡ 0) }
{
    let pages = opened(rt, &path_of(rt, folder, PAGES).map_err(no_memory)?)?;
    if room > 0 {
        make_room(&pages, room).map_err(not_synced)?;
    }
    let pages = FilePages::open(pages).map_err(not_synced)?;
    // behind the lock of the pages: whoever has that one may put another file in the place of the log
    let paths = LogPaths::of(rt, folder).map_err(no_memory)?;
    let log = opened(rt, &paths.log)?;
    match FileLog::open(log, InFolder::new(rt, paths)) {
        Ok(log) => Ok((pages, log)),
        Err(error) => Err(not_synced(error)),
    }
}

fn opened<R: Files<File = File>>(rt: &R, path: &PathBuf) -> Result<File, NotOpened> {
    match open_file(rt, path, OpenOptions::new().read(true).write(true)) {
        Ok(file) => Ok(file),
        Err(error) => Err(NotOpened {
            fault: Fault::Open,
            error,
        }),
    }
}

// Locks a file of pages, and makes it as long as its store is with so many tag pages, where it has none.
fn make_room(file: &File, tags: u32) -> io::Result<()> {
    file.try_lock()?;
    let Ok(layout) = layout_in(file) else {
        return Ok(());
    };
    let Some(grown) = Layout::new(layout.directory(), layout.cells(), tags) else {
        return Ok(());
    };
    let length = file.metadata()?.len();
    if layout.tags() == 0 && length_of(&layout) <= length && length < length_of(&grown) {
        file.set_len(length_of(&grown))?;
    }
    Ok(())
}

// Of a path that could not be made.
fn no_memory(fault: Fault) -> NotOpened {
    NotOpened {
        fault,
        error: ErrorKind::OutOfMemory.into(),
    }
}

/// Opens the file at a path. Anything else that stands there is `Unsupported`, and is not opened. A pipe would have its
/// opener wait, and what is written to a device is lost.
pub(crate) fn open_file<R: Files<File = File>>(
    rt: &R,
    path: &PathBuf,
    how: &OpenOptions,
) -> io::Result<File> {
    if fs::metadata(rt, path)?.is_file() {
        how.open(rt, path)
    } else {
        Err(ErrorKind::Unsupported.into())
    }
}

// Why a file that is there was not locked, made longer and synced.
fn not_synced(error: io::Error) -> NotOpened {
    let fault = if error.kind() == ErrorKind::WouldBlock {
        Fault::Open
    } else {
        Fault::Refused(Refusal::DiskWrite)
    };
    NotOpened { fault, error }
}

/// Where the log of the store in a folder is.
pub(crate) fn log_path<R: AllocGlobal>(rt: &R, folder: &str) -> Result<PathBuf, Fault> {
    path_of(rt, folder, LOG)
}

/// Where its pages are.
pub(crate) fn pages_path<R: AllocGlobal>(rt: &R, folder: &str) -> Result<PathBuf, Fault> {
    path_of(rt, folder, PAGES)
}

pub(crate) fn path_of<R: AllocGlobal>(rt: &R, folder: &str, name: &str) -> Result<PathBuf, Fault> {
    match Path::new(folder).join(rt.alloc(), name) {
        Ok(path) => Ok(path),
        Err(_) => Err(Fault::Refused(Refusal::NoMemory)),
    }
}

// Whether anything has that name, a link that leads nowhere too.
fn is_taken<R: Files>(rt: &R, path: &PathBuf) -> Result<bool, Fault> {
    match fs::symlink_metadata(rt, path) {
        Ok(_) => Ok(true),
        Err(error) if error.kind() == ErrorKind::NotFound => Ok(false),
        Err(_) => Err(Fault::Open),
    }
}

// Makes both files. Where the log cannot be made the pages are removed again.
fn both_made<R: Files<File = File>>(
    rt: &R,
    pages: &PathBuf,
    log: &PathBuf,
) -> Result<(File, File), Fault> {
    let pages_file = made(rt, pages)?;
    match made(rt, log) {
        Ok(log_file) => Ok((pages_file, log_file)),
        Err(fault) => {
            let _ = fs::remove_file(rt, pages);
            Err(fault)
        }
    }
}

fn made<R: Files<File = File>>(rt: &R, path: &PathBuf) -> Result<File, Fault> {
    let file = OpenOptions::new()
        .read(true)
        .write(true)
        .create_new(true)
        .open(rt, path);
    match file {
        Ok(file) => Ok(file),
        Err(error) if error.kind() == ErrorKind::AlreadyExists => Err(Fault::Exists),
        Err(_) => Err(Fault::Open),
    }
}

fn format_pages(file: File, layout: &Layout) -> Result<(), Fault> {
    // locked here, so that what fails at the opening is no lock
    if file.try_lock().is_err() {
        return Err(Fault::Open);
    }
    file.set_len(length_of(layout)).map_err(write_failed)?;
    let mut pages = FilePages::<Unknown>::open(file).map_err(write_failed)?;
    format(&mut pages, layout).map_err(Fault::Refused)
}

/// How many bytes the pages of a store are.
pub(crate) fn length_of(layout: &Layout) -> u64 {
    u64::from(layout.pages()) * PAGE as u64
}

// Makes the names in a folder durable.
fn sync_folder<R: Files<File = File>>(rt: &R, folder: &str) -> Result<(), Fault> {
    let Ok(folder) = File::open(rt, folder) else {
        return Err(Fault::Open);
    };
    folder.sync_all().map_err(write_failed)
}

fn write_failed(_error: io::Error) -> Fault {
    Fault::Refused(Refusal::DiskWrite)
}
