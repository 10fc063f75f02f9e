//! A store in a folder: made with a log of messages, opened, and given a log of one record.
ghost use Rattle.std.specs.Prelude.{◌≤◌};

use crate::transactions::Queue;
use crate::words::{frames_at, number, sizes};
use rq_disk::{FilePages, Unknown};
use rq_engine::engine::Engine;
use rq_files::{Fault, FolderLog, format_folder, open_folder};
use rq_levels::{StoreLevel, levels_of_store};
use rq_model::refusal::{Damage, Refusal};
use rq_page::layout::Layout;
use rq_pool::frame_count::FrameCount;
use rq_restart::restart::{Report, restart};
use std::fs::File;
use std::io;
use std::io::Write;
use std::rt::Files;
use std::time::{Clock, Instant};

/// An engine over files.
type Store<'a, R> = Engine<FilePages<Unknown>, FolderLog<'a, Unknown, R>, StoreLevel>;

/// How many messages go from one force to the next, where there are frames enough.
const MESSAGES_A_FORCE: u32 = 256;

/// How many pages change at most where a message is sent and one is received.
const PAGES_A_MESSAGE: u32 = 6;

/// How many senders there are at least in a store.
const SENDERS: u32 = 15;

/// What a store goes through that is made.
#[derive(Drop)]
struct Course {
    layout: Layout,
    // How many messages are sent first, and stay.
    waiting: u32,
    // How many are sent behind these. As often one is received.
    messages: u32,
    // In how many frames the store is open meanwhile.
    frames: FrameCount,
}

/// Makes a store whose log has so many messages, sent and received, each by a transaction of its own, behind others that are only
/// sent. They are forced as often as the frames want it. With a frame for each page, the store's pages are as they were formatted. In
/// fewer they are as they were when they last gave way. Prints how many messages there are.
pub fn make<R: Print + AllocGlobal + Files<File = File>>(
    rt: &R,
    words: &[String],
) -> io::Result<()> {
    let (Some(folder), Some(course)) = (words.get(1), course_of(words)) else {
        return Err(io::ErrorKind::InvalidInput.into());
    };
    if format_folder(rt, folder.as_str(), &course.layout).is_err() {
        return Err(io::ErrorKind::Other.into());
    }
    if filled(rt, folder.as_str(), &course).is_none() {
        return Err(io::ErrorKind::Other.into());
    }
    let mut writer = io::writer(rt);
    writeln!(writer, "{} messages", course.messages)
}

// What the words behind the folder say that a store goes through; none where they don't.
fn course_of(words: &[String]) -> Option<Course> {
    let waiting = if words.len() < 7 {
        0
    } else {
        number(words, 6)?
    };
    Some(Course {
        layout: sizes(words, 2)?,
        waiting,
        messages: number(words, 4)?,
        frames: frames_at(words, 5)?,
    })
}

// Opens the store, and has the messages go through it.
fn filled<R: AllocGlobal + Files<File = File>>(
    rt: &R,
    folder: &str,
    course: &Course,
) -> Option<()> {
    let (mut engine, _) = opened(rt, folder, course.frames).ok()?;
    let done = exchange(&mut engine, course);
    drop(engine);
    done
}

/// Opens the store, in so many frames, or in as many as there may be. Prints a report, or why it was not opened.
pub fn open<R: Print + AllocGlobal + Files<File = File>>(
    rt: &R,
    words: &[String],
) -> io::Result<()> {
    let (Some(folder), Some(frames)) = (words.get(1), frames_at(words, 2)) else {
        return Err(io::ErrorKind::InvalidInput.into());
    };
    let mut writer = io::writer(rt);
    match report_of(rt, folder.as_str(), frames) {
        Ok(report) => writeln!(
            writer,
            "restarted {} unfinished {} lost {}, {} records",
            report.incarnation, report.unfinished, report.lost, report.records
        ),
        Err(fault) => {
            print_fault(&mut writer, fault)?;
            Err(io::ErrorKind::InvalidData.into())
        }
    }
}

/// Opens the store, sends so many messages by the first senders in turn, receives so many of the first, and makes its log one record.
/// Prints the LSN of that, and to standard error how many microseconds it took alone.
pub fn checkpoint<R: Print + Eprint + AllocGlobal + Clock + Files<File = File>>(
    rt: &R,
    words: &[String],
) -> io::Result<()> {
    let (Some(folder), Some(sent), Some(received)) = (
        words.get(1),
        number(words, 2),
        number(words, 3),
    ) else {
        return Err(io::ErrorKind::InvalidInput.into());
    };
    match opened(rt, folder.as_str(), FrameCount::most()) {
        Ok((mut engine, _)) => {
            let done = timed(rt, &mut engine, sent, received);
            drop(engine);
            done
        }
        Err(_) => Err(io::ErrorKind::InvalidData.into()),
    }
}

// The same of a store that is open. It is lent here, since what owns one over many exits takes minutes to prove.
fn timed<Q: Queue, R: Print + Eprint + Clock>(
    rt: &R,
    queue: &mut Q,
    sent: u32,
    received: u32,
) -> io::Result<()> {
    if changed(queue, sent, received).is_none() {
        return Err(io::ErrorKind::Other.into());
    }
    let began = Instant::now(rt)?;
    let Some(lsn) = queue.checkpoint() else {
        return Err(io::ErrorKind::Other.into());
    };
    let passed = began.elapsed(rt)?;
    eprintln!(rt; "{} microseconds", passed.as_micros())?;
    println!(rt; "checkpoint {lsn}")
}

// Sends and receives so many messages, each by a transaction of its own, and forces them.
fn changed<Q: Queue>(queue: &mut Q, sent: u32, received: u32) -> Option<()> {
    for n in 0..sent {
        send_one(queue, n % SENDERS)?;
        force_at(queue, n, MESSAGES_A_FORCE)?;
    }
    for n in 0..received {
        receive_one(queue, 0)?;
        force_at(queue, n, MESSAGES_A_FORCE)?;
    }
    queue.force()
}

// Forces what so many messages came to, behind the last of each run of them.
fn force_at<Q: Queue>(queue: &mut Q, n: u32, run: u32) -> Option<()>
    requires { 1 ≤ run }
{
    if n % run == run - 1 {
        queue.force()?;
    }
    Some(())
}

// How many messages go from one force to the next, so that the pages that they change stand in the frames.
fn messages_a_force(frames: FrameCount) -> u32
    ensures { 1 ≤ result }
{
    (frames.count / PAGES_A_MESSAGE).min(MESSAGES_A_FORCE)
}

fn print_fault<W: Write>(writer: &mut W, fault: Fault) -> io::Result<()> {
    match fault {
        Fault::Refused(Refusal::Damaged(Damage::Record(lsn))) => {
            writeln!(writer, "damaged record {lsn}")
        }
        Fault::Refused(Refusal::Damaged(Damage::Page(number))) => {
            writeln!(writer, "damaged page {number}")
        }
        fault => writeln!(writer, "fault {fault}"),
    }
}

fn report_of<R: AllocGlobal + Files<File = File>>(
    rt: &R,
    folder: &str,
    frames: FrameCount,
) -> Result<Report, Fault> {
    match opened(rt, folder, frames) {
        Ok((engine, report)) => {
            drop(engine);
            Ok(report)
        }
        Err(fault) => Err(fault),
    }
}

// Opens the store of a folder in so many frames.
fn opened<'a, R: AllocGlobal + Files<File = File>>(
    rt: &'a R,
    folder: &str,
    frames: FrameCount,
) -> Result<(Store<'a, R>, Report), Fault> {
    let (pages, log) = match open_folder(rt, folder, 0, Unknown) {
        Ok(files) => files,
        Err(not_opened) => return Err(not_opened.fault),
    };
    let Ok(levels) = levels_of_store(rt.alloc()) else {
        return Err(Fault::Refused(Refusal::NoMemory));
    };
    match restart(rt.alloc(), pages, log, levels, frames) {
        Ok(opened) => Ok(opened),
        Err(stopped) => Err(Fault::Refused(stopped.refusal)),
    }
}

// Sends messages that stay, by all senders in turn. Then it sends and receives others, by one sender as many as wait of it, and then by
// the next. Each of these stands on another page than the one before, where there are senders for a page. Each message is sent and
// received by a transaction of its own, and forced.
fn exchange<Q: Queue>(queue: &mut Q, course: &Course) -> Option<()> {
    let senders = course.layout.senders();
    let run = messages_a_force(course.frames);
    for n in 0..course.waiting {
        send_one(queue, n.checked_rem(senders)?)?;
        force_at(queue, n, run)?;
    }
    queue.force()?;
    let in_turn = course.waiting.checked_div(senders)?.max(1);
    for n in 0..course.messages {
        let sender = n.checked_div(in_turn)?.checked_rem(senders)?;
        send_one(queue, sender)?;
        receive_one(queue, sender)?;
        force_at(queue, n, run)?;
    }
    queue.force()
}

fn send_one<Q: Queue>(queue: &mut Q, sender: u32) -> Option<()> {
    let txn = queue.begin()?;
    queue.send(txn, sender, &[120; 200])?;
    queue.commit(txn)
}

fn receive_one<Q: Queue>(queue: &mut Q, sender: u32) -> Option<()> {
    let txn = queue.begin()?;
    queue.receive_from(txn, sender)?;
    queue.commit(txn)
}
