//! The threads of a server.
ghost use Rattle.std.specs.Prelude.{◌≡◌, [], IfOk};
ghost use Rattle.std.specs.Thread.{IsSend, IsSync};

use crate::calls::{Calls, MarkReader};
use crate::door::Door;
use crate::gates::{CheckpointPace, LogPace, PagePace};
use crate::length::LogLength;
use crate::notices::Notices;
use crate::rounds::{Connections, Ears, hears_input, poll_at};
use crate::steps::ServerSteps;
use crate::stopped::Stopped;
use crate::turns::Turns;
use mio::Poll;
use mio::net::TcpListener as Listener;
use rq_disk::{LogDevice, PageDevice};
use rq_engine::event::{Event, Reply};
use rq_level::Level;
use rq_model::refusal::{NoMemory, Refusal};
use rq_shared::guarded::Pass;
use rq_shared::mark::{Mark, MarkPass};
use rq_shared::shared::{EngineLock, Shared};
use rq_shared::sharing::Sharing;
use rq_workers::shared::{DropStamps, SharedSteps};
use rq_workers::worker::Worker;
use std::alloc::{AllocError, Global};
use std::net::{Net, SocketAddr, TcpListener};
use std::sync::{Mutex, Wait};
use std::thread;
use std::thread::Threads;
use std::time::Clock;

/// How a server works.
#[derive(Clone, Copy)]
pub struct Plan {
    /// How many threads serve connections.
    pub workers: u32,
    /// After how many sessions it ends; 0 for no end.
    pub sessions: u64,
    /// Whether it ends once nobody can write to standard input any more.
    pub ends_with_input: bool,
    /// How many pages the store has.
    pub pages: u32,
    /// From how many bytes on of its log a checkpoint is made; 0 for never.
    pub checkpoint_after: u64,
}

/// What the threads share beside the engine.
#[derive(Drop)]
struct Common {
    mark: Mark,
    turns: Turns,
    notices: Notices,
    door: Mutex<Door>,
    plan: Plan,
}

/// What a thread calls the store by: its pass, and the seat by which it publishes what it forced, with what all share.
#[derive(Drop)]
struct Caller<'a, G: Sharing> {
    common: &'a Common,
    pass: Pass<G>,
    seat: MarkPass,
    ghost of_mark: { seat.table ≡ common.now.mark },
}

/// What a worker is given: where it waits, where it reads the mark, and what it calls the store by.
#[derive(Drop)]
struct Post<'a, G: Sharing> {
    poll: Poll,
    reader: MarkReader<'a>,
    caller: Caller<'a, G>,
}

/// What all threads are given.
#[derive(Drop)]
struct Posts<'a, G: Sharing> {
    log_writer: Caller<'a, G>,
    page_writer: Caller<'a, G>,
    // None where none are made
    checkpointer: Option<Caller<'a, G>>,
    workers: Vec<Post<'a, G>>,
}

/// Serves connections over a store, and answers how many sessions there were. Once all threads are ready, it prints where it
/// listens. When it answers, they have ended, and the log is forced. `log` tells when a checkpoint is due.
///
/// # Errors
/// Where a thread could not start, nothing is printed and nobody served. Where a worker could not go on, or the last force was
/// refused, all threads have ended too.
pub fn serve<
    P: PageDevice + Drop + Send,
    L: LogDevice + Drop + Send,
    B: Level + Send,
    G: Sharing + Send + Sync,
    K: LogLength + Sync,
    R: Threads + Wait + Clock + Net + Print + Eprint + Sync,
>(
    rt: &R,
    alloc: Global,
    listener: TcpListener,
    shared: Shared<P, L, B, G>,
    log: &K,
    plan: Plan,
) -> Result<u64, Stopped> {
    let mut shared = shared;
    let address = match listener.local_addr() {
        Ok(address) => address,
        Err(error) => return Err(Stopped::NotTold(error)),
    };
    let Some(last) = shared.pass() else {
        return Err(Stopped::NotStarted);
    };
    let Ok((common, seat, polls)) = common_of(rt, alloc, listener, plan) else {
        return Err(Stopped::NotStarted);
    };
    if plan.ends_with_input && !is_input_heard(&polls) {
        return Err(Stopped::NoInput);
    }
    let mut seat = seat;
    let Ok(posts) = posts_of(alloc, &mut shared, &common, &mut seat, polls) else {
        return Err(Stopped::NotStarted);
    };
    let served = run(
        rt,
        alloc,
        shared.engine_lock(),
        log,
        &common,
        address,
        posts,
    );
    let refused = force_last(rt, &shared, last);
    match (served, refused) {
        (Ok(_) | Err(Stopped::Deaf), Some(refusal)) => Err(Stopped::NotForced(refusal)),
        (served, _) => served,
    }
}

// The force behind all threads: why it was refused, where it was.
fn force_last<P: PageDevice + Drop, L: LogDevice + Drop, B: Level, G: Sharing, R: Wait>(
    rt: &R,
    shared: &Shared<P, L, B, G>,
    pass: Pass<G>,
) -> Option<Refusal> {
    let mut pass = pass;
    let stamped = shared.call(rt, &mut pass, Event::Force);
    match stamped.reply() {
        Reply::Refused(refusal) => Some(*refusal),
        _ => None,
    }
}

// What all threads share, with a seat of its mark, and where each worker waits.
fn common_of<R: Net>(
    rt: &R,
    alloc: Global,
    listener: TcpListener,
    plan: Plan,
) -> Result<(Common, MarkPass, Vec<Poll>), NoMemory>
    ensures { IfOk result (λ c. c.1.table ≡ c.0.mark) }
{
    if listener.set_nonblocking(true).is_err() {
        return Err(NoMemory);
    }
    let mut listener = Listener::from_std(listener);
    let polls = polls_at(rt, alloc, &mut listener, plan.workers)?;
    let Ok((mark, seat)) = Mark::new(alloc) else {
        return Err(NoMemory);
    };
    let common = Common {
        mark,
        turns: Turns::new(plan.workers),
        notices: Notices::new(),
        door: Mutex::new(Door::new(listener, plan.sessions)),
        plan,
    };
    Ok((common, seat, polls))
}

// Whether each worker waits for the end of standard input too.
fn is_input_heard(polls: &[Poll]) -> bool {
    for poll in polls {
        if !hears_input(poll) {
            return false;
        }
    }
    true
}

// Where each worker waits.
fn polls_at<R: Net>(
    rt: &R,
    alloc: Global,
    listener: &mut Listener,
    workers: u32,
) -> Result<Vec<Poll>, NoMemory> {
    let mut polls = Vec::new(alloc);
    for _ in 0..workers {
        let Ok(poll) = poll_at(rt, listener) else {
            return Err(NoMemory);
        };
        if polls.push(poll).is_err() {
            return Err(NoMemory);
        }
    }
    Ok(polls)
}

fn posts_of<'a, P: PageDevice + Drop, L: LogDevice + Drop, B: Level, G: Sharing>(
    alloc: Global,
    shared: &mut Shared<P, L, B, G>,
    common: &'a Common,
    seat: &mut MarkPass,
    polls: Vec<Poll>,
) -> Result<Posts<'a, G>, NoMemory>
    requires { seat.old.table ≡ common.now.mark }
{
    let log_writer = caller_of(shared, common, seat)?;
    let page_writer = caller_of(shared, common, seat)?;
    let checkpointer = checkpointer_of(shared, common, seat)?;
    Ok(Posts {
        log_writer,
        page_writer,
        checkpointer,
        workers: workers_of(alloc, shared, common, seat, polls)?,
    })
}

// Who makes checkpoints, where any are made.
fn checkpointer_of<'a, P: PageDevice + Drop, L: LogDevice + Drop, B: Level, G: Sharing>(
    shared: &mut Shared<P, L, B, G>,
    common: &'a Common,
    seat: &mut MarkPass,
) -> Result<Option<Caller<'a, G>>, NoMemory>
    requires { seat.old.table ≡ common.now.mark }
    ensures { seat.new.table ≡ seat.old.table }
{
    if common.plan.checkpoint_after == 0 {
        return Ok(None);
    }
    match caller_of(shared, common, seat) {
        Ok(caller) => Ok(Some(caller)),
        Err(error) => Err(error),
    }
}

fn workers_of<'a, P: PageDevice + Drop, L: LogDevice + Drop, B: Level, G: Sharing>(
    alloc: Global,
    shared: &mut Shared<P, L, B, G>,
    common: &'a Common,
    seat: &mut MarkPass,
    polls: Vec<Poll>,
) -> Result<Vec<Post<'a, G>>, NoMemory>
    requires { seat.old.table ≡ common.now.mark }
{
    let mut workers = Vec::new(alloc);
    for poll in polls {
        let reader = MarkReader::new(&common.mark, common.mark.split(seat));
        let caller = caller_of(shared, common, seat)?;
        let post = Post {
            poll,
            reader,
            caller,
        };
        if workers.push(post).is_err() {
            return Err(NoMemory);
        }
    }
    Ok(workers)
}

fn caller_of<'a, P: PageDevice + Drop, L: LogDevice + Drop, B: Level, G: Sharing>(
    shared: &mut Shared<P, L, B, G>,
    common: &'a Common,
    seat: &mut MarkPass,
) -> Result<Caller<'a, G>, NoMemory>
    requires { seat.old.table ≡ common.now.mark }
    ensures { seat.new.table ≡ seat.old.table }
{
    let Some(pass) = shared.pass() else {
        return Err(NoMemory);
    };
    Ok(Caller {
        common,
        pass,
        seat: common.mark.split(seat),
    })
}

// All threads, until no session may begin any more and all have ended. How many sessions were served.
fn run<
    'a,
    P: PageDevice + Drop + Send,
    L: LogDevice + Drop + Send,
    B: Level + Send,
    G: Sharing + Send + Sync,
    K: LogLength + Sync,
    R: Threads + Wait + Clock + Print + Eprint + Sync,
>(
    rt: &'a R,
    alloc: Global,
    lock: &'a EngineLock<P, L, B, G>,
    log: &'a K,
    common: &'a Common,
    address: SocketAddr,
    posts: Posts<'a, G>,
) -> Result<u64, Stopped> {
    let Posts {
        log_writer,
        page_writer,
        checkpointer,
        workers,
    } = posts;
    thread::scope(
        thread::scope_env(),
        rt,
        move |scope| -> Result<u64, Stopped>
            requires { IsSync R.row × IsSend P.row × IsSend L.row × IsSend B.row × IsSync K.row }
        {
            let log_writer = scope.spawn(move || write_log(rt, lock, log_writer));
            let page_writer = scope.spawn(move || write_pages(rt, lock, page_writer));
            let checkpointer = match checkpointer {
                Some(caller) => scope
                    .spawn(move || make_checkpoints(rt, lock, log, caller))
                    .ok(),
                None => None,
            };
            let mut threads = Vec::new(alloc);
            for post in workers {
                if let Ok(thread) = scope.spawn(move || work(rt, alloc, lock, post)) {
                    let _ = threads.push(thread);
                }
            }
            let are_there = matches!(log_writer, Ok(_))
                && matches!(page_writer, Ok(_))
                && checkpointer.is_some() == (common.plan.checkpoint_after != 0)
                && threads.len() == common.plan.workers as usize;
            let began = begin(rt, common, address, are_there);
            let mut served = Some(0);
            for thread in threads {
                served = both(served, thread.join(rt));
            }
            common.notices.end();
            if let Ok(thread) = log_writer {
                thread.join(rt);
            }
            if let Ok(thread) = page_writer {
                thread.join(rt);
            }
            if let Some(thread) = checkpointer {
                thread.join(rt);
            }
            match began {
                Ok(()) => served.ok_or(Stopped::Deaf),
                Err(stopped) => Err(stopped),
            }
        },
    )
}

// Prints where the server listens and has the workers serve, once all threads are ready. Where one is not, all end.
fn begin<R: Wait + Print>(
    rt: &R,
    common: &Common,
    address: SocketAddr,
    are_there: bool,
) -> Result<(), Stopped> {
    let began = if are_there && common.notices.are_ready(rt, common.plan.workers) {
        tell_listening(rt, address)
    } else {
        Err(Stopped::NotStarted)
    };
    match &began {
        Ok(()) => common.notices.open(),
        Err(_) => common.notices.end(),
    }
    began
}

fn tell_listening<R: Print>(rt: &R, address: SocketAddr) -> Result<(), Stopped> {
    match println!(rt; "listening {address}") {
        Ok(()) => Ok(()),
        Err(error) => Err(Stopped::NotTold(error)),
    }
}

// The sum, where there are both.
fn both(served: Option<u64>, more: Option<u64>) -> Option<u64> {
    Some(served?.saturating_add(more?))
}

// The steps of a caller, by which nothing was called yet.
fn steps_of<'a, P: PageDevice + Drop, L: LogDevice + Drop, B: Level, G: Sharing, R: Wait>(
    rt: &'a R,
    lock: &'a EngineLock<P, L, B, G>,
    caller: Caller<'a, G>,
) -> ServerSteps<'a, P, L, B, G, R>
    ensures { result.inner.made.value ≡ [] }
{
    let Caller { common, pass, seat } = caller;
    let steps = SharedSteps::new(rt, lock, pass, &common.mark, seat, DropStamps::new());
    ServerSteps::new(steps, rt, &common.notices)
}

// Forces what no round has forced, until the server ends.
fn write_log<'a, P: PageDevice + Drop, L: LogDevice + Drop, B: Level, G: Sharing, R: Wait + Eprint>(
    rt: &'a R,
    lock: &'a EngineLock<P, L, B, G>,
    caller: Caller<'a, G>,
) {
    let common = caller.common;
    let gate = LogPace::new(rt, &common.notices);
    let mut worker = Worker::new(gate, steps_of(rt, lock, caller));
    worker.write_log(rt);
}

// Writes pages whose changes are forced, until the server ends.
fn write_pages<
    'a,
    P: PageDevice + Drop,
    L: LogDevice + Drop,
    B: Level,
    G: Sharing,
    R: Wait + Eprint,
>(rt: &'a R, lock: &'a EngineLock<P, L, B, G>, caller: Caller<'a, G>) {
    let common = caller.common;
    let pages = common.plan.pages;
    let gate = PagePace::new(rt, &common.notices, pages);
    let mut worker = Worker::new(gate, steps_of(rt, lock, caller));
    worker.write_pages(rt, pages);
}

// Makes checkpoints whenever the log is long, once all workers are ready and until the server ends.
fn make_checkpoints<
    'a,
    P: PageDevice + Drop,
    L: LogDevice + Drop,
    B: Level,
    G: Sharing,
    K: LogLength,
    R: Wait + Eprint,
>(rt: &'a R, lock: &'a EngineLock<P, L, B, G>, log: &'a K, caller: Caller<'a, G>) {
    let common = caller.common;
    if !common.notices.opens(rt) {
        return;
    }
    let gate = CheckpointPace::new(rt, &common.notices, log, common.plan.checkpoint_after);
    let mut worker = Worker::new(gate, steps_of(rt, lock, caller));
    worker.make_checkpoints(rt);
}

// Serves connections, once all workers are ready. How many it served; None where it could not go on.
fn work<
    'a,
    P: PageDevice + Drop,
    L: LogDevice + Drop,
    B: Level,
    G: Sharing,
    R: Wait + Clock + Eprint,
>(rt: &'a R, alloc: Global, lock: &'a EngineLock<P, L, B, G>, post: Post<'a, G>) -> Option<u64> {
    let Post {
        poll,
        reader,
        caller,
    } = post;
    let common = caller.common;
    let Ok((ears, connections)) = made_ready(alloc, poll, common) else {
        common.notices.end();
        return None;
    };
    common.notices.note_ready();
    if !common.notices.opens(rt) {
        return None;
    }
    let mut connections = connections;
    let steps = steps_of(rt, lock, caller);
    let mut calls = Calls::new(steps, reader, &common.turns, &common.notices);
    connections.serve(rt, alloc, ears, &common.door, &mut calls)
}

// What a worker takes memory for before it serves.
fn made_ready(
    alloc: Global,
    poll: Poll,
    common: &Common,
) -> Result<(Ears, Connections), AllocError> {
    let ears = Ears::new(alloc, poll)?;
    let is_limited = common.plan.sessions != 0 || common.plan.ends_with_input;
    let connections = Connections::new(alloc, is_limited)?;
    Ok((ears, connections))
}
