//! A file that is read and written by places. What it keeps is claimed by nobody: its calls are noted, and contracts
//! see the notes.
ghost use Rattle.std.specs.Prelude.{◌≡◌, [], ◌∷◌, ℕ, List, IfOk, OnOk, OnErr};
ghost use Rattle.rq_disk.specs.FileCalls.{FileCall};
ghost use Rattle.rq_disk.specs.FileCalls.FileCall.{Gave, Denied, Took, Tried, Cut, Uncut, Replaced, Unreplaced, Synced, Missed};

use crate::noted::Calls;
use std::fs::File;
use std::io;
use std::io::ErrorKind;
use std::os::unix::fs::FileExt;

/// A file that is read and written by places.
pub trait Storage {
    /// Its calls so far, the newest first: each that is noted was made, and each that was made is noted.
    ghost calls: { Self → List FileCall };

    /// How many bytes it was told to have when it was opened.
    ghost opened: { Self → ℕ };

    /// Fills `into` with the bytes from the place `at` on. It errs where there are fewer.
    fn fill(&mut self, into: &mut [u8], at: u64) -> io::Result<()>
        ensures gave { OnOk result (calls self.new ≡ Gave at into.new ∷ calls self.old) }
        ensures denied { OnErr result (calls self.new ≡ Denied at ∷ calls self.old) }
        ensures opened { opened self.new ≡ opened self.old };

    /// Writes all of `bytes`, from the place `at` on. Where it errs, any of them may have been written.
    fn put(&mut self, bytes: &[u8], at: u64) -> io::Result<()>
        ensures took { OnOk result (calls self.new ≡ Took at bytes.now ∷ calls self.old) }
        ensures tried { OnErr result (calls self.new ≡ Tried at bytes.now ∷ calls self.old) }
        ensures opened { opened self.new ≡ opened self.old };

    /// Loses what is behind its first `len` bytes, if there is more. Where it errs, it may have lost that.
    fn shorten(&mut self, len: u64) -> io::Result<()>
        ensures cut { OnOk result (calls self.new ≡ Cut len ∷ calls self.old) }
        ensures uncut { OnErr result (calls self.new ≡ Uncut len ∷ calls self.old) }
        ensures opened { opened self.new ≡ opened self.old };

    /// Goes on with another file in its place, which has these bytes alone, all durable. Where it errs, a later opening may find
    /// either.
    fn exchange(&mut self, bytes: &[u8]) -> io::Result<()>
        ensures replaced { OnOk result (calls self.new ≡ Replaced bytes.now ∷ calls self.old) }
        ensures unreplaced { OnErr result (calls self.new ≡ Unreplaced bytes.now ∷ calls self.old) }
        ensures opened { opened self.new ≡ opened self.old };

    /// Makes all that was written durable.
    fn sync(&mut self) -> io::Result<()>
        ensures synced { OnOk result (calls self.new ≡ Synced ∷ calls self.old) }
        ensures missed { OnErr result (calls self.new ≡ Missed ∷ calls self.old) }
        ensures opened { opened self.new ≡ opened self.old };
}

/// What puts another file in the place of one.
pub trait Exchange: Drop {
    /// Puts a file that has these bytes alone where `old` stands, and answers it, locked. All of that is durable. Where it errs,
    /// either file may stand there.
    fn exchange(&self, old: &File, bytes: &[u8]) -> io::Result<File>;
}

/// Puts none there.
#[derive(Drop)]
pub struct Fixed;

impl Exchange for Fixed {
    fn exchange(&self, _old: &File, _bytes: &[u8]) -> io::Result<File> {
        Err(ErrorKind::Unsupported.into())
    }
}

/// A file of the system, locked for this opening alone. `X` puts another in its place.
#[derive(Drop)]
pub struct NotedFile<X: Exchange = Fixed> {
    file: File,
    by: X,
    // its length when it was opened
    len: u64,
    calls: Calls,
}

impl<X: Exchange> Storage for NotedFile<X> {
    ghost calls = { λ f. f.calls };

    ghost opened = { λ f. f.len };

    fn fill(&mut self, into: &mut [u8], at: u64) -> io::Result<()> {
        let done = self.file.read_exact_at(into, at);
        match done {
            Ok(()) => self.calls.gave(at, into),
            Err(_) => self.calls.denied(at),
        }
        done
    }

    fn put(&mut self, bytes: &[u8], at: u64) -> io::Result<()> {
        let done = self.file.write_all_at(bytes, at);
        match done {
            Ok(()) => self.calls.took(at, bytes),
            Err(_) => self.calls.tried(at, bytes),
        }
        done
    }

    fn shorten(&mut self, len: u64) -> io::Result<()> {
        let done = shorten(&self.file, len);
        match done {
            Ok(()) => self.calls.cut(len),
            Err(_) => self.calls.uncut(len),
        }
        done
    }

    fn exchange(&mut self, bytes: &[u8]) -> io::Result<()> {
        match self.by.exchange(&self.file, bytes) {
            Ok(file) => {
                self.file = file;
                self.calls.replaced(bytes);
                Ok(())
            }
            Err(error) => {
                self.calls.unreplaced(bytes);
                Err(error)
            }
        }
    }

    fn sync(&mut self) -> io::Result<()> {
        let done = self.file.sync_data();
        match done {
            Ok(()) => self.calls.synced(),
            Err(_) => self.calls.missed(),
        }
        done
    }
}

// Sets the length of a file that is longer.
fn shorten(file: &File, len: u64) -> io::Result<()> {
    if file.metadata()?.len() > len {
        file.set_len(len)?;
    }
    Ok(())
}

impl<X: Exchange> NotedFile<X> {
    ghost use Rattle.rq_disk.specs.Stored.{file_calls, opened_len};

    /// Locks a file and syncs it; beside it, its length in bytes. The lock is the system's advisory one: it ends with
    /// the value.
    ///
    /// # Errors
    /// `WouldBlock` where another opening holds the lock; those of the system.
    pub fn open(file: File, by: X) -> io::Result<(NotedFile<X>, u64)>
        ensures calls { IfOk result (λ opened. file_calls opened.0 ≡ []) }
        ensures len { IfOk result (λ opened. opened_len opened.0 ≡ opened.1) }
    {
        file.try_lock()?;
        file.sync_all()?;
        let len = file.metadata()?.len();
        let calls = Calls::none();
        Ok((
            NotedFile {
                file,
                by,
                len,
                calls,
            },
            len,
        ))
    }
}
