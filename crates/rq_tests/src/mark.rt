//! The log writer over a shared engine.
ghost use Rattle.std.specs.Prelude.{◌≡◌};
ghost use Rattle.rq_shared.specs.Entries.{WasSound};

use crate::connection::Often;
use crate::stores::{KeepStamps, begun, committed, small_engine};
use rq_disk::{LogDevice, MemLog, MemPages, PageDevice};
use rq_engine::engine::Engine;
use rq_engine::event::Reply;
use rq_level::Level;
use rq_levels::StoreLevel;
use rq_shared::kept::Stamped;
use rq_shared::mark::{Mark, MarkPass};
use rq_shared::shared::Shared;
use rq_shared::sharing::Sharing;
use rq_workers::shared::SharedSteps;
use rq_workers::steps::Steps;
use rq_workers::worker::Worker;
use std::alloc::Global;
use std::marker::Brand;
use std::sync::Wait;
use std::sync::ledger::Blank;
use std::test::Fail;

// What the mark tells a pass.
fn told(mark: &Mark, reader: &mut MarkPass) -> u64
    requires { reader.old.table ≡ mark.now }
    ensures { reader.new.table ≡ mark.now }
{
    mark.read(reader)
}

// The mark as another pass reads it, before and after a log writer whose gate lets it through once; and what its force
// answered.
fn marked<P: PageDevice + Drop, L: LogDevice + Drop, B: Level, G: Sharing, R: Wait>(
    rt: &R,
    alloc: Global,
    engine: Engine<P, L, B>,
    blank: Blank,
    taking: Blank,
) -> Option<(u64, u64, u64)>
    requires name { (blank.name ≡ G.name) × (taking.name ≡ G.taking) }
    requires parts { (blank.parts ≡ G.parts) × (blank.parts ≡ 1024) × (taking.parts ≡ 1024) }
    requires sound { WasSound P.PageDevice L.LogDevice G.premise engine }
    requires begins { engine.state ≡ G.begins }
{
    let mut shared = Shared::<P, L, B, G>::new(alloc, engine, blank, taking);
    let writer = shared.pass()?;
    let (mark, mut seat) = Mark::new(alloc).ok()?;
    let mut reader = mark.split(&mut seat);
    let stamps = KeepStamps::new(alloc);
    let mut steps = SharedSteps::new(rt, shared.engine_lock(), writer, &mark, seat, stamps);
    let done = commits_one(&mut steps);
    let before = told(&mark, &mut reader);
    let steps = written_once(rt, steps);
    let (_, _, kept) = steps.into_parts();
    let after = told(&mark, &mut reader);
    if done {
        Some((before, after, forced_last(&kept.stamps)))
    } else {
        None
    }
}

// A transaction that does nothing, committed.
fn commits_one<S: Steps>(steps: &mut S) -> bool {
    match begun(steps) {
        Some(txn) => committed(steps, txn).is_some(),
        None => false,
    }
}

// Has a log writer at work whose gate lets it through once.
fn written_once<S: Steps, R: Wait>(rt: &R, steps: S) -> S {
    let mut worker = Worker::new(Often::new(1), steps);
    worker.write_log(rt);
    worker.into_steps()
}

// What the last of these answered to a force; else 0.
fn forced_last(stamps: &[Stamped]) -> u64 {
    match stamps.last() {
        Some(stamped) => match stamped.reply() {
            Reply::Forced(lsn) => *lsn,
            _ => 0,
        },
        None => 0,
    }
}

fn mark_of<R: Wait>(rt: &R, alloc: Global) -> Option<(u64, u64, u64)> {
    let engine = small_engine(alloc).ok()?;
    let taking = Blank::new(1024);
    marked::<MemPages, MemLog, StoreLevel, Brand, R>(rt, alloc, engine, Blank::new(1024), taking)
}

#[test]
fn a_log_writer_leaves_the_mark_at_its_lsn(rt: HostRuntime) -> Result<(), Fail> {
    let seen = mark_of(&rt, rt.alloc()).ok_or("a force")?;
    assert!(rt; seen == (0, 2, 2), "the records are Restart and Commit");
    Ok(())
}
