//! The server over a store of files.
ghost use Rattle.std.specs.Prelude.{◌≡◌, ◌+◌, IfOk, length, min};
ghost use Rattle.rq_page.specs.Sizes.{page_count};
ghost use Rattle.rq_shared.specs.Entries.{WasSound};
ghost use Rattle.rqm.specs.Holding.{HoldStore};

use crate::args::Serve;
use crate::progress::{Opening, while_told};
use rq_disk::{FileContents, FilePages, LogDevice, PageDevice, Unknown};
use rq_engine::engine::Engine;
use rq_files::{Fault, FolderLog, Measures, NotOpened, Renames, look_at_layout, open_folder};
use rq_levels::{StoreLevel, levels_of_store};
use rq_model::refusal::Refusal;
use rq_pool::frame_count::FrameCount;
use rq_restart::restart::{Report, restart};
use rq_server::{LogLength, Plan, Stopped, serve};
use rq_shared::shared::Shared;
use rq_shared::sharing::Sharing;
use std::alloc::Global;
use std::fs::{File, Files};
use std::io::{self, ErrorKind};
use std::marker::Brand;
use std::net::{Ipv4Addr, Net, SocketAddr, TcpListener, TcpStream};
use std::sync::Wait;
use std::sync::ledger::Blank;
use std::thread::Threads;
use std::time::{Clock, Instant};

/// A store in files that held `S` as they were opened.
type Store<'a, S, R> = Engine<FilePages<S>, FolderLog<'a, S, R>, StoreLevel>;

/// The log of the store in a folder, which tells how long it is.
#[derive(Drop)]
struct LogIn<'a, R: Measures> {
    rt: &'a R,
    folder: &'a str,
}

impl<R: Measures> LogLength for LogIn<'_, R> {
    fn bytes(&self) -> Option<u64> {
        self.rt.log_bytes(self.folder)
    }
}

/// Opens the store of a folder and serves it, and prints where and how many sessions there were, or why not. Answers the exit
/// status: 0, or 1 after a fault.
///
/// # Errors
/// Where a line cannot be printed.
pub fn run_serve<
    R: AllocGlobal
        + Print
        + Eprint
        + Clock
        + Files<File = File>
        + Net<Listener = TcpListener, Stream = TcpStream>
        + Renames
        + Measures
        + Wait
        + Threads
        + Sync,
>(rt: &R, asked: &Serve) -> io::Result<u8> {
    let opening = Opening::new();
    let opening = &opening;
    let folder = asked.folder.as_str();
    while_told(
        rt,
        folder,
        opening,
        move || match opened_and_bound(rt, asked, Unknown, opening) {
            Ok((engine, listener, plan)) => served(
                rt,
                engine,
                listener,
                &LogIn { rt, folder },
                plan,
            ),
            Err(fault) => tell_fault(rt, fault),
        },
    )
}

/// Prints a fault. The exit status.
pub fn tell_fault<R: Print>(rt: &R, fault: Fault) -> io::Result<u8> {
    println!(rt; "fault {fault}")?;
    Ok(1)
}

// The faults come in this order: those of the folder and its files, of the restart, of the port.
fn opened_and_bound<
    'a,
    S: FileContents,
    R: AllocGlobal
        + Eprint
        + Clock
        + Files<File = File>
        + Net<Listener = TcpListener, Stream = TcpStream>
        + Renames,
>(
    rt: &'a R,
    asked: &Serve,
    held: S,
    opening: &Opening,
) -> Result<(Store<'a, S, R>, TcpListener, Plan), Fault>
    ensures { IfOk result (λ o. WasSound ⟦<FilePages<S> as PageDevice>⟧ ⟦<FolderLog<'a, S, R> as LogDevice>⟧
        (HoldStore S.pages S.bytes) o.0) }
{
    let began = Instant::now(rt);
    match opened(rt, asked.folder.as_str(), 0, asked.frames, held) {
        Ok((engine, report)) => {
            opening.end();
            tell_opened(rt, &report, millis_since(rt, began));
            match listening(rt, asked) {
                Ok((listener, plan)) => Ok((engine, listener, plan)),
                Err(fault) => {
                    drop(engine);
                    Err(fault)
                }
            }
        }
        Err(fault) => Err(fault),
    }
}

// Where the store of a folder, which is open, is served, and how.
fn listening<
    R: AllocGlobal + Eprint + Files<File = File> + Net<Listener = TcpListener, Stream = TcpStream>,
>(rt: &R, asked: &Serve) -> Result<(TcpListener, Plan), Fault> {
    let plan = Plan {
        workers: asked.workers,
        sessions: asked.sessions,
        ends_with_input: asked.until_input_ends,
        pages: look_at_layout(rt, asked.folder.as_str())?.pages(),
        checkpoint_after: asked.checkpoint_after,
    };
    match bound(rt, asked.port) {
        Ok(listener) => Ok((listener, plan)),
        Err(fault) => Err(fault),
    }
}

/// The store of a folder, opened in so many frames. Where it has no tag pages there is room for so many.
///
/// # Errors
/// Why it is not.
pub fn opened<'a, S: FileContents, R: AllocGlobal + Eprint + Files<File = File> + Renames>(
    rt: &'a R,
    folder: &str,
    room: u32,
    frames: FrameCount,
    held: S,
) -> Result<(Store<'a, S, R>, Report), Fault>
    ensures sound { IfOk result (λ o. WasSound ⟦<FilePages<S> as PageDevice>⟧ ⟦<FolderLog<'a, S, R> as LogDevice>⟧
        (HoldStore S.pages S.bytes) o.0) }
    ensures frames { IfOk result (λ o. length o.0.frames ≡ min (page_count o.0.state.sizes) (frames.count + 1)) }
{
    let (pages, log) = match open_folder(rt, folder, room, held) {
        Ok(files) => files,
        Err(NotOpened { fault, error }) => {
            tell_not_opened(rt, &error);
            return Err(fault);
        }
    };
    let Ok(levels) = levels_of_store(rt.alloc()) else {
        drop(log);
        drop(pages);
        return Err(Fault::Refused(Refusal::NoMemory));
    };
    match restart(rt.alloc(), pages, log, levels, frames) {
        Ok(opened) => Ok(opened),
        Err(stopped) => Err(Fault::Refused(stopped.refusal)),
    }
}

// Tells who runs the server why the store was not opened.
fn tell_not_opened<R: Eprint>(rt: &R, error: &io::Error) {
    let _ = match error.kind() {
        ErrorKind::WouldBlock => eprintln!(rt; "another program has the store open"),
        ErrorKind::Unsupported => eprintln!(rt;
            "the store cannot be opened: its pages or its log are no file"
        ),
        _ => eprintln!(rt; "the store cannot be opened: {error}"),
    };
}

// 0 where the clock does not say.
fn millis_since<R: Clock>(rt: &R, began: io::Result<Instant>) -> u128 {
    match began.and_then(|began| began.elapsed(rt)) {
        Ok(passed) => passed.as_millis(),
        Err(_) => 0,
    }
}

// Tells who runs the server what the restart found.
fn tell_opened<R: Eprint>(rt: &R, report: &Report, millis: u128) {
    let Report {
        incarnation,
        unfinished,
        lost,
        records,
    } = *report;
    let _ = eprintln!(rt;
        "opened in {millis} ms: incarnation {incarnation}, unfinished {unfinished}, lost {lost}, records {records}"
    );
}

fn bound<R: Eprint + Net<Listener = TcpListener, Stream = TcpStream>>(
    rt: &R,
    port: u16,
) -> Result<TcpListener, Fault> {
    match TcpListener::bind(rt, SocketAddr::from((Ipv4Addr::LOCALHOST, port))) {
        Ok(listener) => Ok(listener),
        Err(error) => {
            let _ = eprintln!(rt; "port {port} cannot be had: {error}");
            Err(Fault::Open)
        }
    }
}

// Serves an engine, and prints where and how many sessions there were.
fn served<
    'a,
    S: FileContents + Send,
    R: AllocGlobal
        + Print
        + Eprint
        + Clock
        + Net<Listener = TcpListener, Stream = TcpStream>
        + Renames
        + Measures
        + Wait
        + Threads
        + Sync,
>(
    rt: &'a R,
    engine: Store<'a, S, R>,
    listener: TcpListener,
    log: &LogIn<'_, R>,
    plan: Plan,
) -> io::Result<u8>
    requires { WasSound ⟦<FilePages<S> as PageDevice>⟧ ⟦<FolderLog<'a, S, R> as LogDevice>⟧ (HoldStore S.pages S.bytes) engine }
{
    let served = shared_by_brand(rt, rt.alloc(), engine, listener, log, plan);
    print_served(rt, served)
}

// Prints how many sessions there were, or why not. The exit status.
fn print_served<R: Print>(rt: &R, served: Result<u64, Stopped>) -> io::Result<u8> {
    match served {
        Ok(sessions) => {
            println!(rt; "served {sessions}")?;
            Ok(0)
        }
        Err(Stopped::NotStarted) => tell_fault(rt, Fault::Refused(Refusal::NoMemory)),
        Err(Stopped::NotTold(error)) => Err(error),
        Err(Stopped::NoInput) => {
            println!(rt; "fault input")?;
            Ok(1)
        }
        Err(Stopped::Deaf) => tell_fault(rt, Fault::Open),
        Err(Stopped::NotForced(refusal)) => tell_fault(rt, Fault::Refused(refusal)),
    }
}

// Shares an engine under a name of its own.
fn shared_by_brand<
    'a,
    S: FileContents + Send,
    R: Wait + Threads + Clock + Net + Print + Eprint + Renames + Measures + Sync,
>(
    rt: &'a R,
    alloc: Global,
    engine: Store<'a, S, R>,
    listener: TcpListener,
    log: &LogIn<'_, R>,
    plan: Plan,
) -> Result<u64, Stopped>
    requires { WasSound ⟦<FilePages<S> as PageDevice>⟧ ⟦<FolderLog<'a, S, R> as LogDevice>⟧ (HoldStore S.pages S.bytes) engine }
{
    let taking = Blank::new(1024);
    share::<FilePages<S>, FolderLog<'a, S, R>, Brand, LogIn<'_, R>, R>(
        rt,
        alloc,
        engine,
        Blank::new(1024),
        taking,
        listener,
        log,
        plan,
    )
}

// Shares an engine among the threads of a server.
fn share<
    P: PageDevice + Drop + Send,
    L: LogDevice + Drop + Send,
    G: Sharing + Send + Sync,
    K: LogLength + Sync,
    R: Wait + Threads + Clock + Net + Print + Eprint + Sync,
>(
    rt: &R,
    alloc: Global,
    engine: Engine<P, L, StoreLevel>,
    blank: Blank,
    taking: Blank,
    listener: TcpListener,
    log: &K,
    plan: Plan,
) -> Result<u64, Stopped>
    requires name { (blank.name ≡ G.name) × (taking.name ≡ G.taking) }
    requires parts { (blank.parts ≡ G.parts) × (blank.parts ≡ 1024) × (taking.parts ≡ 1024) }
    requires sound { WasSound P.PageDevice L.LogDevice G.premise engine }
    requires begins { engine.state ≡ G.begins }
{
    let shared = Shared::<P, L, StoreLevel, G>::new(alloc, engine, blank, taking);
    serve(rt, alloc, listener, shared, log, plan)
}
