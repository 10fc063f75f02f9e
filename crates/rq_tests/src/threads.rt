//! Two threads that share an engine.
ghost use Rattle.std.specs.Prelude.{◌≡◌};
ghost use Rattle.rq_shared.specs.Entries.{WasSound};

use crate::gates::{Case, Done, first, second};
use crate::stores::{
    KeepStamps, crashed, has_sent, opened, receipt, senders_of, small_engine, wide_engine,
};
use crate::turns::Turns;
use rq_disk::{LogDevice, MemLog, MemPages, PageDevice};
use rq_engine::engine::Engine;
use rq_engine::event::{CommitNo, Event, Receipt, Reply};
use rq_level::Level;
use rq_levels::StoreLevel;
use rq_model::refusal::Refusal;
use rq_pool::Written;
use rq_shared::guarded::Pass;
use rq_shared::kept::{AuditEntry, Stamped};
use rq_shared::mark::{Mark, MarkPass};
use rq_shared::shared::{Closed, EngineLock, Shared};
use rq_shared::sharing::Sharing;
use rq_shared::tied::tied;
use rq_workers::shared::SharedSteps;
use std::alloc::{AllocError, Global};
use std::marker::Brand;
use std::sync::Wait;
use std::sync::ledger::Blank;
use std::test::Fail;
use std::thread::{Threads, join};

/// What two threads are to do, and how.
#[derive(Clone, Copy)]
struct Plan {
    case: Case,
    /// Whether the audit is taken before the end.
    takes: bool,
    /// Whether one thread does both, one behind the other.
    is_alone: bool,
}

impl Plan {
    fn new(case: Case) -> Self {
        Plan {
            case,
            takes: false,
            is_alone: false,
        }
    }
}

/// What two threads share beside the engine.
#[derive(Drop)]
struct Common {
    mark: Mark,
    turns: Turns,
    case: Case,
}

/// What a thread has of its own.
#[derive(Drop)]
struct Own<G: Sharing> {
    pass: Pass<G>,
    seat: MarkPass,
}

/// What a thread gives back: its pass, its stamps, and what it did.
type Worked<G> = (Pass<G>, Vec<Stamped>, Done);

// What the first thread does.
fn work_first<P: PageDevice + Drop, L: LogDevice + Drop, B: Level, G: Sharing, R: Wait>(
    rt: &R,
    alloc: Global,
    lock: &EngineLock<P, L, B, G>,
    own: Own<G>,
    common: &Common,
) -> Worked<G>
    requires { own.seat.table ≡ common.now.mark }
{
    let Own { pass, seat } = own;
    let stamps = KeepStamps::new(alloc);
    let steps = SharedSteps::new(rt, lock, pass, &common.mark, seat, stamps);
    let (done, steps) = first(rt, alloc, steps, &common.turns, common.case);
    let (pass, _, kept) = steps.into_parts();
    (pass, kept.stamps, done)
}

// What the second does.
fn work_second<P: PageDevice + Drop, L: LogDevice + Drop, B: Level, G: Sharing, R: Wait>(
    rt: &R,
    alloc: Global,
    lock: &EngineLock<P, L, B, G>,
    own: Own<G>,
    common: &Common,
) -> Worked<G>
    requires { own.seat.table ≡ common.now.mark }
{
    let Own { pass, seat } = own;
    let stamps = KeepStamps::new(alloc);
    let steps = SharedSteps::new(rt, lock, pass, &common.mark, seat, stamps);
    let (done, steps) = second(rt, alloc, steps, &common.turns, common.case);
    let (pass, _, kept) = steps.into_parts();
    (pass, kept.stamps, done)
}

/// Whether a taken audit is tied to the stamps of both threads.
#[derive(Drop)]
struct Tie {
    entries: usize,
    is_tied: bool,
    is_tied_to_the_other: bool,
    is_tied_when_changed_about: bool,
}

/// What is seen of two threads once both have ended.
#[derive(Drop)]
struct Seen {
    // whether each came to a stage in time for the other, and did all that it was to do
    is_in_time: bool,
    are_done: bool,
    // the calls of the first: what was done for each page, how many were refused for a latch, and whether one ended an abort
    calls: usize,
    written: Vec<Written>,
    latched: usize,
    has_aborted: bool,
    tie: Option<Tie>,
    receipts: usize,
}

// What these calls did for each page that they were to write.
fn written_by(alloc: Global, stamps: &[Stamped]) -> Result<Vec<Written>, AllocError> {
    let mut written = Vec::new(alloc);
    for stamped in stamps {
        if let Reply::Written(done) = stamped.reply() {
            written.push(*done)?;
        }
    }
    Ok(written)
}

// How many of these calls were refused for a latch.
fn latched_in(stamps: &[Stamped]) -> usize {
    let mut latched = 0usize;
    for stamped in stamps {
        if matches!(stamped.reply(), Reply::Refused(Refusal::Latched)) {
            latched = latched.saturating_add(1);
        }
    }
    latched
}

// Whether one of these calls ended an abort.
fn has_aborted(stamps: &[Stamped]) -> bool {
    for stamped in stamps {
        if matches!(stamped.reply(), Reply::Aborted) {
            return true;
        }
    }
    false
}

// The stamps of seven calls, the first two changed about.
fn changed_about(stamps: Vec<Stamped>) -> Vec<Stamped> {
    let mut stamps = stamps;
    if stamps.len() == 7 {
        stamps.swap(0, 1);
    }
    stamps
}

// Whether the entries are those of both passes' stamps; whether a pass's are the other's stamps, or its own once the
// first two are changed about.
fn tie_of(audit: &[AuditEntry], stamps: Vec<Stamped>, others: Vec<Stamped>) -> Tie {
    let is_tied = tied(audit, 1, &stamps) && tied(audit, 2, &others);
    let is_tied_to_the_other = tied(audit, 1, &others) || tied(audit, 2, &stamps);
    let stamps = changed_about(stamps);
    let others = changed_about(others);
    Tie {
        entries: audit.len(),
        is_tied,
        is_tied_to_the_other,
        is_tied_when_changed_about: tied(audit, 1, &stamps) || tied(audit, 2, &others),
    }
}

// Takes the audit, where that is wanted, and looks whether it is tied.
fn tie_taken<P: PageDevice + Drop, L: LogDevice + Drop, B: Level, G: Sharing, R: Wait>(
    rt: &R,
    shared: &Shared<P, L, B, G>,
    pass: &mut Pass<G>,
    takes: bool,
    stamps: Vec<Stamped>,
    others: Vec<Stamped>,
) -> Option<Tie> {
    if !takes {
        return None;
    }
    let taken = shared.take_audit(rt, pass);
    Some(tie_of(taken.entries(), stamps, others))
}

// Two threads at work.
fn both<
    P: PageDevice + Drop + Send,
    L: LogDevice + Drop + Send,
    B: Level + Send,
    G: Sharing + Send + Sync,
    R: Threads + Wait + Sync,
>(
    rt: &R,
    alloc: Global,
    lock: &EngineLock<P, L, B, G>,
    one: Own<G>,
    two: Own<G>,
    common: &Common,
) -> (Worked<G>, Worked<G>)
    requires { (one.seat.table ≡ common.now.mark) × (two.seat.table ≡ common.now.mark) }
{
    join(
        rt,
        move || -> Worked<G>
            requires { one.seat.table ≡ common.now.mark }
        { work_first(rt, alloc, lock, one, common) },
        move || -> Worked<G>
            requires { two.seat.table ≡ common.now.mark }
        { work_second(rt, alloc, lock, two, common) },
    )
}

// What two threads do, done by one.
fn alone<P: PageDevice + Drop, L: LogDevice + Drop, B: Level, G: Sharing, R: Wait>(
    rt: &R,
    alloc: Global,
    lock: &EngineLock<P, L, B, G>,
    one: Own<G>,
    two: Own<G>,
    common: &Common,
) -> (Worked<G>, Worked<G>)
    requires { (one.seat.table ≡ common.now.mark) × (two.seat.table ≡ common.now.mark) }
{
    let first = work_first(rt, alloc, lock, one, common);
    (first, work_second(rt, alloc, lock, two, common))
}

// A force, and then the receipt of each commit.
fn receipts<P: PageDevice + Drop, L: LogDevice + Drop, B: Level, G: Sharing, R: Wait>(
    rt: &R,
    alloc: Global,
    lock: &EngineLock<P, L, B, G>,
    pass: &mut Pass<G>,
    numbers: &[Option<CommitNo>],
) -> Result<Vec<Receipt>, AllocError> {
    let mut given = Vec::new(alloc);
    drop(lock.call(rt, pass, Event::Force));
    for number in numbers.iter().flatten() {
        let stamped = lock.call(rt, pass, Event::Acknowledged(*number));
        if let Some(receipt) = receipt(&stamped) {
            given.push(receipt)?;
        }
    }
    Ok(given)
}

// The passes back, and the sharing at its end.
fn ended<P: PageDevice + Drop, L: LogDevice + Drop, B: Level, G: Sharing>(
    alloc: Global,
    shared: Shared<P, L, B, G>,
    one: Pass<G>,
    two: Pass<G>,
    three: Pass<G>,
    given: &[Receipt],
) -> Result<Closed<P, L, B>, AllocError>
    requires parts { G.parts ≡ 1024 }
    requires all { shared ≡ 3 }
{
    let mut passes = Vec::with_capacity(alloc, 3)?;
    passes.push(one)?;
    passes.push(two)?;
    passes.push(three)?;
    Ok(shared.close(passes, given))
}

// What two threads did under a pass each, and whether each came to a stage in time for the other.
fn taken_turns<
    P: PageDevice + Drop + Send,
    L: LogDevice + Drop + Send,
    B: Level + Send,
    G: Sharing + Send + Sync,
    R: Threads + Wait + Sync,
>(
    rt: &R,
    alloc: Global,
    lock: &EngineLock<P, L, B, G>,
    pass: Pass<G>,
    other: Pass<G>,
    plan: Plan,
) -> Option<((Worked<G>, Worked<G>), bool)> {
    let (mark, mut seat) = Mark::new(alloc).ok()?;
    let other_seat = mark.split(&mut seat);
    let common = Common {
        mark,
        turns: Turns::new(plan.is_alone),
        case: plan.case,
    };
    let one = Own { pass, seat };
    let two = Own {
        pass: other,
        seat: other_seat,
    };
    let worked = if plan.is_alone {
        alone(rt, alloc, lock, one, two, &common)
    } else {
        both(rt, alloc, lock, one, two, &common)
    };
    Some((worked, !common.turns.is_late()))
}

// Two threads under a pass each, and a third pass that forces and asks for receipts. The audit is taken before that, or
// left to the end. Gives what is left then, too.
fn share<
    P: PageDevice + Drop + Send,
    L: LogDevice + Drop + Send,
    B: Level + Send,
    G: Sharing + Send + Sync,
    R: Threads + Wait + Sync,
>(
    rt: &R,
    alloc: Global,
    engine: Engine<P, L, B>,
    blank: Blank,
    taking: Blank,
    plan: Plan,
) -> Option<(Seen, Closed<P, L, B>)>
    requires name { (blank.name ≡ G.name) × (taking.name ≡ G.taking) }
    requires parts { (blank.parts ≡ G.parts) × (blank.parts ≡ 1024) × (taking.parts ≡ 1024) }
    requires sound { WasSound P.PageDevice L.LogDevice G.premise engine }
    requires begins { engine.state ≡ G.begins }
{
    let mut shared = Shared::<P, L, B, G>::new(alloc, engine, blank, taking);
    let pass = shared.pass()?;
    let other = shared.pass()?;
    let mut three = shared.pass()?;
    let (worked, is_in_time) = taken_turns(rt, alloc, shared.engine_lock(), pass, other, plan)?;
    let ((one, stamps, done), (two, others, other_done)) = worked;
    let calls = stamps.len();
    let written = written_by(alloc, &stamps).ok()?;
    let latched = latched_in(&stamps);
    let has_aborted = has_aborted(&stamps);
    let tie = tie_taken(rt, &shared, &mut three, plan.takes, stamps, others);
    let numbers = [done.number, other_done.number];
    let given = receipts(rt, alloc, shared.engine_lock(), &mut three, &numbers).ok()?;
    let receipts = given.len();
    let closed = ended(alloc, shared, one, two, three, &given).ok()?;
    let seen = Seen {
        is_in_time,
        are_done: done.is_done && other_done.is_done,
        calls,
        written,
        latched,
        has_aborted,
        tie,
        receipts,
    };
    Some((seen, closed))
}

fn look<R: Threads + Wait + Sync>(
    rt: &R,
    alloc: Global,
    plan: Plan,
) -> Option<(Seen, Closed<MemPages, MemLog, StoreLevel>)> {
    let engine = engine_for(alloc, plan.case).ok()?;
    let taking = Blank::new(1024);
    share::<MemPages, MemLog, StoreLevel, Brand, R>(
        rt,
        alloc,
        engine,
        Blank::new(1024),
        taking,
        plan,
    )
}

// A store for two threads: that of an abort has one cell page, so that both send into it.
fn engine_for(
    alloc: Global,
    case: Case,
) -> Result<Engine<MemPages, MemLog, StoreLevel>, &'static str> {
    match case {
        Case::Abort | Case::GiveUp => small_engine(alloc),
        _ => wide_engine(alloc),
    }
}

#[test]
fn an_audit_holds_the_calls_of_both_threads(rt: HostRuntime) -> Result<(), Fail> {
    let plan = Plan {
        takes: true,
        ..Plan::new(Case::Send)
    };
    let (seen, closed) = look(&rt, rt.alloc(), plan).ok_or("memory")?;
    let left = entries_left(closed);
    assert!(rt;
        seen.is_in_time && seen.are_done,
        "both threads send and commit"
    );
    let tie = seen.tie.ok_or("the audit was taken")?;
    assert!(rt;
        tie.entries == 14 && tie.is_tied,
        "all calls are there, and each thread's are its own"
    );
    assert!(rt;
        !tie.is_tied_to_the_other && !tie.is_tied_when_changed_about,
        "neither thread's are the other's, nor its own in another order"
    );
    assert!(rt; left == 3, "a force and two acknowledgements came after it");
    Ok(())
}

// How many entries are left at the end.
fn entries_of<P: PageDevice + Drop, L: LogDevice + Drop, B: Level>(
    closed: &Closed<P, L, B>,
) -> usize {
    closed.kept.entries().len()
}

// The same, and the store is closed for good.
fn entries_left(closed: Closed<MemPages, MemLog, StoreLevel>) -> usize {
    entries_of(&closed)
}

// Whether both messages outlive a crash, each as it was sent.
fn outlives(
    alloc: Global,
    closed: Closed<MemPages, MemLog, StoreLevel>,
) -> Result<bool, &'static str> {
    let (pages, log) = crashed(closed.kept);
    let mut engine = opened(alloc, pages, log)?;
    have_sent(&mut engine)
}

fn have_sent<P: PageDevice + Drop, L: LogDevice + Drop>(
    engine: &mut Engine<P, L, StoreLevel>,
) -> Result<bool, &'static str> {
    Ok(has_sent(engine, 0, b'x')? && has_sent(engine, 15, b'y')?)
}

#[test]
fn what_receipts_name_outlives_a_crash(rt: HostRuntime) -> Result<(), Fail> {
    let (seen, closed) = look(&rt, rt.alloc(), Plan::new(Case::Send)).ok_or("memory")?;
    let left = entries_of(&closed);
    let outlive = outlives(rt.alloc(), closed)?;
    assert!(rt;
        seen.is_in_time && seen.are_done,
        "both threads send and commit"
    );
    assert!(rt; seen.receipts == 2, "both commits are forced");
    assert!(rt; left == 17, "no entry was taken");
    assert!(rt; outlive, "both messages are there");
    Ok(())
}

// Whether the second thread's message is all that an engine has.
fn has_only_the_seconds<P: PageDevice + Drop, L: LogDevice + Drop>(
    engine: &mut Engine<P, L, StoreLevel>,
    case: Case,
) -> Result<bool, &'static str> {
    Ok(has_sent(engine, case.sender() as usize, b'y')? && senders_of(engine)? == 1)
}

// Whether it is all that is left at the end.
fn leaves_only_the_seconds(
    closed: Closed<MemPages, MemLog, StoreLevel>,
    case: Case,
) -> Result<bool, &'static str> {
    let mut engine = closed.kept.give_back();
    has_only_the_seconds(&mut engine, case)
}

// What the first thread's calls were, of which so many were refused for a latch; both did all that they were to do, in time.
fn is_seen(seen: &Seen, latched: usize) -> bool {
    seen.is_in_time && seen.are_done && seen.latched == latched && seen.receipts == 1
}

#[test]
fn loops_that_are_held_hold_up_nobody(rt: HostRuntime) -> Result<(), Fail> {
    let pages = [Written::Nothing, Written::Nothing, Written::Done];
    for (case, written) in [(Case::WritePages, pages.as_slice()), (Case::WriteLog, &[])] {
        let (seen, closed) = look(&rt, rt.alloc(), Plan::new(case)).ok_or("memory")?;
        let is_left = leaves_only_the_seconds(closed, case)?;
        assert!(rt;
            is_seen(&seen, 0) && seen.calls == written.len().max(1),
            "a loop is held once, and then goes on"
        );
        assert!(rt;
            seen.written.as_slice() == written,
            "the page of the second's sender is written"
        );
        assert!(rt; is_left, "what the second sent is left, and nothing else");
    }
    Ok(())
}

#[test]
fn an_abort_that_meets_latches_goes_on_or_is_given_up(rt: HostRuntime) -> Result<(), Fail> {
    for case in [Case::Abort, Case::GiveUp] {
        let (seen, closed) = look(&rt, rt.alloc(), Plan::new(case)).ok_or("memory")?;
        let is_left = leaves_only_the_seconds(closed, case)?;
        assert!(rt; is_seen(&seen, 1), "once it meets them");
        assert!(rt;
            seen.has_aborted == matches!(case, Case::Abort),
            "what is given up is not ended"
        );
        assert!(rt; is_left, "what the second sent is left, and nothing else");
    }
    Ok(())
}

#[test]
fn one_thread_alone_meets_the_limit(rt: HostRuntime) -> Result<(), Fail> {
    for case in [Case::WritePages, Case::Abort] {
        let plan = Plan {
            is_alone: true,
            ..Plan::new(case)
        };
        let (seen, closed) = look(&rt, rt.alloc(), plan).ok_or("memory")?;
        drop(closed);
        assert!(rt; !seen.is_in_time && seen.latched == 0);
    }
    Ok(())
}
