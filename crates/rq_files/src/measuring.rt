//! How long files are, and how much was read of them.
use crate::folder::{length_of, log_path};
use crate::looking::look_at_layout;
use std::fs::{File, Files};
use std::io::Read;
use std::{fs, str};

/// Where the system tells what this process has done to files. The first line is `rchar: ` and how many bytes it has read.
const DONE: &str = "/proc/self/io";

/// How many bytes of that are looked at, at most.
const FRONT: usize = 64;

/// A runtime that tells how long a store's files are, and how much was read: each that has files. It is a trait of its own, as
/// `Renames` is.
pub trait Measures {
    /// The length of the log in a folder, in bytes. None where the system does not tell it, or memory is wanting for its path.
    fn log_bytes(&self, folder: &str) -> Option<u64>;

    /// How many bytes an opening of the store in a folder reads: those of its pages and its log. None where either is not told.
    fn store_bytes(&self, folder: &str) -> Option<u64>;

    /// How many bytes this process has read so far, of any file. None where the system does not tell it.
    fn bytes_read(&self) -> Option<u64>;
}

impl<R: Files<File = File> + AllocGlobal> Measures for R {
    fn log_bytes(&self, folder: &str) -> Option<u64> {
        let path = log_path(self, folder).ok()?;
        let metadata = fs::metadata(self, &path).ok()?;
        Some(metadata.len())
    }

    fn store_bytes(&self, folder: &str) -> Option<u64> {
        let layout = look_at_layout(self, folder).ok()?;
        length_of(&layout).checked_add(self.log_bytes(folder)?)
    }

    fn bytes_read(&self) -> Option<u64> {
        let mut front = [0; FRONT];
        let count = File::open(self, DONE).ok()?.read(&mut front).ok()?;
        let text = str::from_utf8(&front[..count]).ok()?;
        text.lines()
            .next()?
            .strip_prefix("rchar: ")?
            .parse::<u64>()
            .ok()
    }
}
