//! The log of a store in its folder, where another file can take its place.
use crate::fault::Fault;
use crate::folder::{LOG, path_of};
use rq_disk::{Exchange, FileLog, NotedFile};
use std::fs::{File, Files, OpenOptions};
use std::io::ErrorKind;
use std::os::unix::fs::{FileExt, MetadataExt, OpenOptionsExt, fchown};
use std::path::PathBuf;
use std::{fs, io};

/// The name of a file that is to be the log. A crash may leave it: it is made anew each time, and nothing else reads it.
const FRESH: &str = "log.new";

/// The log of a store in a folder. It held what `S` says when it was opened.
pub type FolderLog<'a, S, R> = FileLog<S, NotedFile<InFolder<'a, R>>>;

/// Puts another file in the place of the log in a folder.
#[derive(Drop)]
pub struct InFolder<'a, R: Renames> {
    rt: &'a R,
    paths: LogPaths,
}

/// Where the log of a store is, and where a file is made that is to be the log.
#[derive(Drop)]
pub struct LogPaths {
    folder: PathBuf,
    pub(crate) log: PathBuf,
    fresh: PathBuf,
}

/// A runtime that puts one file in the place of another: each that has files. It is a trait of its own since a store goes to
/// other threads: of what `Files` says of its types nothing is known there.
pub trait Renames {
    /// Puts a file that has these bytes alone in the place of a log, and answers it, locked. All of that is durable. Where it
    /// errs, the old log stands there, or the new one if that was renamed.
    ///
    /// The new one has the owner, group and mode of the old one. It errs where this process may not give it away like that.
    /// What stands where it is made is removed, and neither opened nor followed; a folder there is an error.
    ///
    /// The old log's lock ends with it, and whoever had opened it before could take it then. Nobody has: a store's pages are
    /// locked before its log is opened, and stay so.
    fn rename_over(&self, paths: &LogPaths, old: &File, bytes: &[u8]) -> io::Result<File>;
}

impl<R: Files<File = File>> Renames for R {
    fn rename_over(&self, paths: &LogPaths, old: &File, bytes: &[u8]) -> io::Result<File> {
        let folder = File::open(self, &paths.folder)?;
        check_stands(self, &paths.log, old)?;
        let file = written(self, &paths.fresh, old, bytes)?;
        fs::rename(self, &paths.fresh, &paths.log)?;
        folder.sync_all()?;
        Ok(file)
    }
}

impl<'a, R: Renames> Exchange for InFolder<'a, R> {
    fn exchange(&self, old: &File, bytes: &[u8]) -> io::Result<File> {
        self.rt.rename_over(&self.paths, old, bytes)
    }
}

impl<'a, R: Renames> InFolder<'a, R> {
    pub(crate) fn new(rt: &'a R, paths: LogPaths) -> InFolder<'a, R> {
        InFolder { rt, paths }
    }
}

impl LogPaths {
    // A folder without a name is the one in which the program runs.
    pub(crate) fn of<R: AllocGlobal>(rt: &R, folder: &str) -> Result<LogPaths, Fault> {
        Ok(LogPaths {
            folder: path_of(rt, folder, ".")?,
            log: path_of(rt, folder, LOG)?,
            fresh: path_of(rt, folder, FRESH)?,
        })
    }
}

// Errs where the file has that name no more: the folder may be another one by now, with a log of its own.
fn check_stands<R: Files>(rt: &R, path: &PathBuf, file: &File) -> io::Result<()> {
    let held = file.metadata()?;
    let named = fs::metadata(rt, path)?;
    if held.dev() == named.dev() && held.ino() == named.ino() {
        Ok(())
    } else {
        Err(ErrorKind::NotFound.into())
    }
}

// A new file with these bytes alone, durable and locked. Whoever may open the old one may open it.
fn written<R: Files<File = File>>(
    rt: &R,
    path: &PathBuf,
    old: &File,
    bytes: &[u8],
) -> io::Result<File> {
    remove(rt, path)?;
    let file = OpenOptions::new()
        .read(true)
        .write(true)
        .create_new(true)
        .mode(0o600)
        .open(rt, path)?;
    file.try_lock()?;
    give_away(&file, old)?;
    file.write_all_at(bytes, 0)?;
    file.sync_all()?;
    Ok(file)
}

// Removes what has that name, if anything does.
fn remove<R: Files>(rt: &R, path: &PathBuf) -> io::Result<()> {
    match fs::remove_file(rt, path) {
        Err(error) if error.kind() != ErrorKind::NotFound => Err(error),
        _ => Ok(()),
    }
}

// Gives a file the owner and group of another, where they differ, and then its mode, which a change of those may cut.
fn give_away(file: &File, other: &File) -> io::Result<()> {
    let (made, wanted) = (file.metadata()?, other.metadata()?);
    if made.uid() != wanted.uid() || made.gid() != wanted.gid() {
        fchown(file, Some(wanted.uid()), Some(wanted.gid()))?;
    }
    file.set_permissions(wanted.permissions())
}
