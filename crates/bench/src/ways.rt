//! The same calls through a kept engine on one thread, or through a shared one on four.
use crate::rounds::{CALLERS, batch, sender_of};
use crate::store::{Store, new_engine};
use crate::tally::Tally;
use crate::threads::share;
use crate::words::number;
use rq_disk::{LogDevice, MemLog, MemPages, PageDevice};
use rq_levels::StoreLevel;
use rq_page::layout::Layout;
use rq_shared::kept::Kept;
use rq_workers::kept::KeptSteps;
use rq_workers::steps::Steps;
use std::alloc::Global;
use std::io;
use std::io::Write;
use std::marker::Brand;
use std::sync::Wait;
use std::sync::ledger::Blank;
use std::thread::Threads;

/// Makes the calls of so many batches of rounds for each of four senders, by 1 or 4 threads. Prints how many were
/// answered. How many starts were Latched goes to standard error.
pub fn run<R: Print + Eprint + AllocGlobal + Threads + Wait + Sync>(
    rt: &R,
    words: &[String],
) -> io::Result<()> {
    let batches = number(words, 2).unwrap_or(0);
    let counted = match number(words, 1) {
        Some(1) => by_one(rt, rt.alloc(), batches),
        Some(4) => by_four(rt, rt.alloc(), batches),
        _ => None,
    };
    let Some(Tally { answered, latched }) = counted else {
        return Err(io::ErrorKind::Other.into());
    };
    eprintln!(rt; "{latched} latched")?;
    let mut writer = io::writer(rt);
    writeln!(writer, "{answered} calls")
}

// A store with a directory page and a cell page for each caller.
fn small_engine(alloc: Global) -> Option<Store> {
    new_engine(alloc, Layout::new(CALLERS, CALLERS, 0)?)
}

/// Calls of a store under an audit.
trait Audited {
    /// What the calls come to whose entries are in the audit, which is taken.
    fn counted(self) -> (Self, Tally);
}

impl<P: PageDevice + Drop, L: LogDevice + Drop> Audited for KeptSteps<P, L, StoreLevel> {
    fn counted(self) -> (Self, Tally) {
        let mut kept = self.into_kept();
        let tally = Tally::of(kept.take().entries());
        (KeptSteps::new(kept, 1), tally)
    }
}

// All calls through a kept engine.
fn by_one<R: Wait>(rt: &R, alloc: Global, batches: u32) -> Option<Tally> {
    let kept = Kept::new(alloc, small_engine(alloc)?);
    all_of(rt, alloc, KeptSteps::new(kept, 1), batches)
}

// All calls, one caller after the other.
fn all_of<S: Steps + Audited + Drop, R: Wait>(
    rt: &R,
    alloc: Global,
    steps: S,
    batches: u32,
) -> Option<Tally> {
    let mut steps = steps;
    let mut tally = Tally::none();
    for caller in 0..CALLERS {
        let (after, of_sender) = batches_of(rt, alloc, steps, sender_of(caller), batches)?;
        steps = after;
        tally = tally.and(of_sender);
    }
    Some(tally)
}

// The batches of a sender. The audit is taken after each.
fn batches_of<S: Steps + Audited + Drop, R: Wait>(
    rt: &R,
    alloc: Global,
    steps: S,
    sender: u32,
    batches: u32,
) -> Option<(S, Tally)> {
    let mut steps = steps;
    let mut tally = Tally::none();
    for _ in 0..batches {
        let (after, of_batch) = batch(rt, alloc, steps, sender)?.counted();
        steps = after;
        tally = tally.and(of_batch);
    }
    Some((steps, tally))
}

// All calls through a shared engine, each sender on a thread of its own.
fn by_four<R: Threads + Wait + Sync>(rt: &R, alloc: Global, batches: u32) -> Option<Tally> {
    let engine = small_engine(alloc)?;
    let taking = Blank::new(1024);
    share::<MemPages, MemLog, Brand, R>(rt, alloc, engine, Blank::new(1024), taking, batches)
}
