//! How far an opening is, for who waits for it.
ghost use Rattle.std.specs.Thread.{IsSync};

use rq_files::Measures;
use std::sync::Wait;
use std::sync::atomic::{AtomicU64, Ordering};
use std::thread::Threads;
use std::time::Duration;
use std::{cmp, thread};

/// How many milliseconds lie before the first line, and between two.
const LINE_MILLIS: u64 = 1000;

/// How many bytes a megabyte has.
const MEGABYTE: u64 = 1_000_000;

/// An opening, of which another thread tells until it is over.
#[derive(Drop)]
pub(crate) struct Opening {
    // 1 once it is over
    over: AtomicU64,
}

/// Does this work, which begins with an opening of the store of a folder. Until that is over standard error is told how much of it was
/// read, about once a second. Where the system has no thread for that, or does not tell what was read, nothing is printed.
pub(crate) fn while_told<T, F: FnOnce() -> T, R: Measures + Wait + Threads + Eprint + Sync>(
    rt: &R,
    folder: &str,
    opening: &Opening,
    work: F,
) -> T
    requires { F.pre work }
{
    thread::scope(
        thread::scope_env(),
        rt,
        move |scope| -> T
            requires { F.pre work × IsSync R.row }
        {
            let teller = scope.spawn(move || opening.tell(rt, folder));
            let done = work();
            opening.end();
            if let Ok(thread) = teller {
                thread.join(rt);
            }
            done
        },
    )
}

impl Opening {
    /// One that is not over.
    pub(crate) fn new() -> Self {
        Opening {
            over: AtomicU64::new(0),
        }
    }

    /// It is over: nothing more is told of it.
    pub(crate) fn end(&self) {
        self.over.store(1, Ordering::SeqCst);
        self.over.wake_all();
    }

    // Tells of it until it is over. Where no more was read, nothing is printed.
    fn tell<R: Measures + Wait + Eprint>(&self, rt: &R, folder: &str) {
        let mut told = None;
        for _ in rt.forever() {
            self.over
                .park_timeout(rt, 0, Duration::from_millis(LINE_MILLIS));
            if self.over.load(Ordering::SeqCst) != 0 {
                return;
            }
            if let Some((read, whole)) = megabytes_read(rt, folder) {
                if told != Some(read) {
                    let _ = eprintln!(rt; "opening: {read} of {whole} MB read");
                }
                told = Some(read);
            }
        }
        unreachable!()
    }
}

// How many megabytes of a store were read, and how many it has: all that this process has read is counted, which is little else.
fn megabytes_read<R: Measures>(rt: &R, folder: &str) -> Option<(u64, u64)> {
    let whole = rt.store_bytes(folder)?;
    let read = cmp::min(rt.bytes_read()?, whole);
    Some((read / MEGABYTE, whole.div_ceil(MEGABYTE)))
}
