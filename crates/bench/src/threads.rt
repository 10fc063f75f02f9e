//! Four threads that share an engine.
ghost use Rattle.std.specs.Prelude.{◌≡◌, ◌<◌, IfSome};
ghost use Rattle.rq_shared.specs.Entries.{WasSound};

use crate::rounds::{batch, sender_of};
use crate::tally::Tally;
use rq_disk::{LogDevice, PageDevice};
use rq_engine::engine::Engine;
use rq_levels::StoreLevel;
use rq_shared::guarded::Pass;
use rq_shared::mark::{Mark, MarkPass};
use rq_shared::shared::{EngineLock, Shared};
use rq_shared::sharing::Sharing;
use rq_workers::shared::{DropStamps, SharedSteps};
use std::alloc::Global;
use std::sync::Wait;
use std::sync::ledger::Blank;
use std::thread::{Threads, join};

/// What the threads share beside the engine: the mark, and how many batches each goes through.
#[derive(Drop)]
struct Common {
    mark: Mark,
    batches: u32,
}

/// What a thread has of its own: its pass, its seat at the mark, and the sender for which it calls.
#[derive(Drop)]
struct Own<G: Sharing> {
    pass: Pass<G>,
    seat: MarkPass,
    sender: u32,
}

/// What two threads counted.
type Both = (Option<Tally>, Option<Tally>);

// The batches of one thread. It takes the audit after each, which has the calls of all threads.
fn work<P: PageDevice + Drop, L: LogDevice + Drop, G: Sharing, R: Wait>(
    rt: &R,
    alloc: Global,
    lock: &EngineLock<P, L, StoreLevel, G>,
    own: Own<G>,
    common: &Common,
) -> Option<Tally>
    requires { own.seat.table ≡ common.now.mark }
{
    let Own { pass, seat, sender } = own;
    let mut steps = SharedSteps::new(rt, lock, pass, &common.mark, seat, DropStamps::new());
    let mut tally = Tally::none();
    for _ in 0..common.batches {
        steps = batch(rt, alloc, steps, sender)?;
        tally = tally.and(Tally::of(steps.take_audit().entries()));
    }
    Some(tally)
}

// Two threads at work.
fn two<
    P: PageDevice + Drop + Send,
    L: LogDevice + Drop + Send,
    G: Sharing + Send + Sync,
    R: Threads + Wait + Sync,
>(
    rt: &R,
    alloc: Global,
    lock: &EngineLock<P, L, StoreLevel, G>,
    one: Own<G>,
    other: Own<G>,
    common: &Common,
) -> Both
    requires { (one.seat.table ≡ common.now.mark) × (other.seat.table ≡ common.now.mark) }
{
    join(
        rt,
        move || -> Option<Tally>
            requires { one.seat.table ≡ common.now.mark }
        { work(rt, alloc, lock, one, common) },
        move || -> Option<Tally>
            requires { other.seat.table ≡ common.now.mark }
        { work(rt, alloc, lock, other, common) },
    )
}

/// What two threads have of their own.
#[derive(Drop)]
struct Pair<G: Sharing> {
    one: Own<G>,
    other: Own<G>,
}

// Four threads at work.
fn four<
    P: PageDevice + Drop + Send,
    L: LogDevice + Drop + Send,
    G: Sharing + Send + Sync,
    R: Threads + Wait + Sync,
>(
    rt: &R,
    alloc: Global,
    lock: &EngineLock<P, L, StoreLevel, G>,
    first: Pair<G>,
    second: Pair<G>,
    common: &Common,
) -> (Both, Both)
    requires first { (first.one.seat.table ≡ common.now.mark) × (first.other.seat.table ≡ common.now.mark) }
    requires second { (second.one.seat.table ≡ common.now.mark) × (second.other.seat.table ≡ common.now.mark) }
{
    join(
        rt,
        move || -> Both
            requires { (first.one.seat.table ≡ common.now.mark) × (first.other.seat.table ≡ common.now.mark) }
        { two(rt, alloc, lock, first.one, first.other, common) },
        move || -> Both
            requires { (second.one.seat.table ≡ common.now.mark) × (second.other.seat.table ≡ common.now.mark) }
        { two(rt, alloc, lock, second.one, second.other, common) },
    )
}

/// Shares an engine among four threads, and counts the calls in the audits that they took.
pub fn share<
    P: PageDevice + Drop + Send,
    L: LogDevice + Drop + Send,
    G: Sharing + Send + Sync,
    R: Threads + Wait + Sync,
>(
    rt: &R,
    alloc: Global,
    engine: Engine<P, L, StoreLevel>,
    blank: Blank,
    taking: Blank,
    batches: u32,
) -> Option<Tally>
    requires name { (blank.name ≡ G.name) × (taking.name ≡ G.taking) }
    requires parts { (blank.parts ≡ G.parts) × (blank.parts ≡ 1024) × (taking.parts ≡ 1024) }
    requires sound { WasSound P.PageDevice L.LogDevice G.premise engine }
    requires begins { engine.state ≡ G.begins }
{
    let mut shared = Shared::<P, L, StoreLevel, G>::new(alloc, engine, blank, taking);
    let counted = counted(rt, alloc, &mut shared, batches);
    drop(shared);
    counted
}

// Four threads over an engine that is shared, and what they counted.
fn counted<
    P: PageDevice + Drop + Send,
    L: LogDevice + Drop + Send,
    G: Sharing + Send + Sync,
    R: Threads + Wait + Sync,
>(rt: &R, alloc: Global, shared: &mut Shared<P, L, StoreLevel, G>, batches: u32) -> Option<Tally> {
    let (mark, mut seat) = Mark::new(alloc).ok()?;
    let first = pair_of(shared, &mark, &mut seat, 0)?;
    let second = pair_of(shared, &mark, &mut seat, 2)?;
    let common = Common { mark, batches };
    let ((a, b), (c, d)) = four(rt, alloc, shared.engine_lock(), first, second, &common);
    Some(a?.and(b?).and(c?).and(d?))
}

// What this thread and the next have of their own.
fn pair_of<P: PageDevice + Drop, L: LogDevice + Drop, G: Sharing>(
    shared: &mut Shared<P, L, StoreLevel, G>,
    mark: &Mark,
    seat: &mut MarkPass,
    thread: u32,
) -> Option<Pair<G>>
    requires seat { seat.old.table ≡ mark.now }
    requires few { thread < 4 }
    ensures { IfSome result (λ pair. (pair.one.seat.table ≡ mark.now) × (pair.other.seat.table ≡ mark.now))
        × (seat.new.table ≡ mark.now) }
{
    let one = own_of(shared, mark, seat, sender_of(thread))?;
    let other = own_of(shared, mark, seat, sender_of(thread + 1))?;
    Some(Pair { one, other })
}

// A pass, a seat at the mark, and a sender.
fn own_of<P: PageDevice + Drop, L: LogDevice + Drop, G: Sharing>(
    shared: &mut Shared<P, L, StoreLevel, G>,
    mark: &Mark,
    seat: &mut MarkPass,
    sender: u32,
) -> Option<Own<G>>
    requires { seat.old.table ≡ mark.now }
    ensures { IfSome result (λ own. own.seat.table ≡ mark.now) × (seat.new.table ≡ mark.now) }
{
    let pass = shared.pass()?;
    Some(Own {
        pass,
        seat: mark.split(seat),
        sender,
    })
}
