//! A list of happenings, one a line: a name and numbers, with one blank between two words. A transaction is written
//! `2.1`, an operation `2.1 3`. What a crash keeps is two words. The first is how many unforced records, and perhaps
//! how many bytes of the next, `3+20`. The second is of each page the place of its image, `0,2,1`, or `-` where none is
//! said.
//!
//! Calls of a transaction: `begin`, `start-send TXN SENDER TAG BODY` (the body is the rest of the line), `commit TXN`.
//! Its receives and closes: `start-receive TXN`, `start-receive-from TXN SENDER`, `start-close TXN SENDER`.
//! Its marks: `start-mark TXN CLIENT TAG`.
//! Calls of an operation: `step OPERATION`, `finish OPERATION`.
//! Calls of an abort: `start-abort TXN`, `undo-next TXN`, `end-abort TXN`.
//! Calls of the store: `hand-over`, `force`, `checkpoint`, `migrate PAGES`, `write PAGE`, `last SENDER`,
//! `tag CLIENT`, `content`.
//! The others: `ack N`, `fail N`, `crash KEPT`, `stop-in N KEPT CALL`, `restart`, `restart-stop N KEPT`.
use crate::happenings::line::Line;
use rq_core::happening::{Choice, Happening};
use rq_engine::event::Event;
use rq_page::layout::TAGS_LIMIT;
use std::alloc::{AllocError, Global};

/// What was read.
#[derive(Drop)]
pub struct List {
    pub happenings: Vec<Happening>,
    /// How many of them restart.
    pub restarts: usize,
    /// For how many pages more the store's device has room.
    pub room: u32,
    /// The number of the first line that is no happening, from 1; 0 where each is one.
    pub fault: u64,
}

/// A name.
#[derive(Clone, Copy)]
enum Name {
    Begin,
    StartSend,
    StartReceive,
    StartReceiveFrom,
    StartClose,
    StartMark,
    Step,
    Finish,
    Commit,
    StartAbort,
    UndoNext,
    EndAbort,
    HandOver,
    Force,
    Checkpoint,
    Migrate,
    Write,
    Last,
    Tag,
    Content,
    Ack,
    Fail,
    Crash,
    StopIn,
    Restart,
    RestartStop,
    Unknown,
}

const NAMES: [(&[u8], Name); 26] = [
    (b"begin", Name::Begin),
    (b"start-send", Name::StartSend),
    (b"start-receive", Name::StartReceive),
    (b"start-receive-from", Name::StartReceiveFrom),
    (b"start-close", Name::StartClose),
    (b"start-mark", Name::StartMark),
    (b"step", Name::Step),
    (b"finish", Name::Finish),
    (b"commit", Name::Commit),
    (b"start-abort", Name::StartAbort),
    (b"undo-next", Name::UndoNext),
    (b"end-abort", Name::EndAbort),
    (b"hand-over", Name::HandOver),
    (b"force", Name::Force),
    (b"checkpoint", Name::Checkpoint),
    (b"migrate", Name::Migrate),
    (b"write", Name::Write),
    (b"last", Name::Last),
    (b"tag", Name::Tag),
    (b"content", Name::Content),
    (b"ack", Name::Ack),
    (b"fail", Name::Fail),
    (b"crash", Name::Crash),
    (b"stop-in", Name::StopIn),
    (b"restart", Name::Restart),
    (b"restart-stop", Name::RestartStop),
];

/// Reads a list, to its last line.
pub fn read_list(alloc: Global, input: &[u8]) -> Result<List, AllocError> {
    let mut list = List {
        happenings: Vec::new(alloc),
        restarts: 0,
        room: 0,
        fault: 0,
    };
    read_lines(alloc, input, &mut list)?;
    Ok(list)
}

fn read_lines(alloc: Global, input: &[u8], list: &mut List) -> Result<(), AllocError> {
    let mut lines = Line::new(input);
    for number in 1..u64::MAX {
        if lines.rest().is_empty() {
            break;
        }
        read_line(alloc, lines.until(b'\n'), number, list)?;
    }
    Ok(())
}

fn read_line(alloc: Global, text: &[u8], number: u64, list: &mut List) -> Result<(), AllocError> {
    if is_migration(text) {
        list.room = TAGS_LIMIT;
    }
    let mut line = Line::new(text);
    let happening = happening_of(alloc, &mut line)?;
    if let Happening::Restart | Happening::RestartStop(..) = happening {
        list.restarts = list.restarts.saturating_add(1);
    }
    if line.is_bad() && list.fault == 0 {
        list.fault = number;
    }
    list.happenings.push(happening)?;
    Ok(())
}

// Whether a line may have the store be given tag pages, as many as a store may have.
fn is_migration(text: &[u8]) -> bool {
    for word in text.split(|byte| *byte == b' ') {
        if word == b"migrate".as_slice() {
            return true;
        }
    }
    false
}

fn happening_of(alloc: Global, line: &mut Line) -> Result<Happening, AllocError> {
    let name = name_of(line.until(b' '));
    match name {
        Name::Ack => Ok(Happening::Ack(line.number())),
        Name::Fail => Ok(Happening::Fail(line.number())),
        Name::Crash => Ok(Happening::Crash(choice_of(alloc, line)?)),
        Name::StopIn => stop_of(alloc, line),
        Name::Restart => Ok(Happening::Restart),
        Name::RestartStop => {
            let n = line.number();
            Ok(Happening::RestartStop(n, choice_of(alloc, line)?))
        }
        _ => Ok(Happening::Call(call_of(alloc, name, line)?)),
    }
}

fn name_of(word: &[u8]) -> Name {
    for (text, name) in &NAMES {
        if *text == word {
            return *name;
        }
    }
    Name::Unknown
}

fn stop_of(alloc: Global, line: &mut Line) -> Result<Happening, AllocError> {
    let n = line.number();
    let choice = choice_of(alloc, line)?;
    let name = name_of(line.until(b' '));
    let event = call_of(alloc, name, line)?;
    Ok(Happening::StopIn(event, n, choice))
}

fn choice_of(alloc: Global, line: &mut Line) -> Result<Choice, AllocError> {
    let (keep, bytes) = line.sum();
    let mut pages = Vec::new(alloc);
    let word = line.until(b' ');
    if word != b"-".as_slice() {
        for place in word.split(|byte| *byte == b',') {
            pages.push(line.value(place))?;
        }
    }
    Ok(Choice { keep, bytes, pages })
}

// The call of this name.
fn call_of(alloc: Global, name: Name, line: &mut Line) -> Result<Event, AllocError> {
    if let Name::StartSend = name {
        return send_of(alloc, line);
    }
    Ok(match name {
        Name::Begin => Event::Begin,
        Name::StartReceive => Event::StartReceive(line.txn()),
        Name::StartReceiveFrom => receive_of(line),
        Name::StartClose => close_of(line),
        Name::StartMark => mark_of(line),
        Name::Step => Event::Step(line.sub()),
        Name::Finish => Event::Finish(line.sub()),
        Name::Commit => Event::Commit(line.txn()),
        Name::StartAbort => Event::StartAbort(line.txn()),
        Name::UndoNext => Event::UndoNext(line.txn()),
        Name::EndAbort => Event::EndAbort(line.txn()),
        Name::HandOver => Event::HandOver,
        Name::Force => Event::Force,
        Name::Checkpoint => Event::Checkpoint,
        Name::Migrate => Event::Migrate(line.short()),
        Name::Write => Event::WritePage(line.short()),
        Name::Last => Event::LastTag(line.short()),
        Name::Tag => Event::ClientTag(line.short()),
        Name::Content => Event::Content,
        _ => no_call(line),
    })
}

// The line is none.
fn no_call(line: &mut Line) -> Event {
    line.refuse();
    Event::Begin
}

fn send_of(alloc: Global, line: &mut Line) -> Result<Event, AllocError> {
    let txn = line.txn();
    let sender = line.short();
    let tag = line.number();
    let body = Vec::from_slice(alloc, line.rest())?;
    Ok(Event::StartSend {
        txn,
        sender,
        tag,
        body,
    })
}

fn receive_of(line: &mut Line) -> Event {
    let txn = line.txn();
    Event::StartReceiveFrom {
        txn,
        sender: line.short(),
    }
}

fn close_of(line: &mut Line) -> Event {
    let txn = line.txn();
    Event::StartClose {
        txn,
        sender: line.short(),
    }
}

fn mark_of(line: &mut Line) -> Event {
    let txn = line.txn();
    let client = line.short();
    Event::StartMark {
        txn,
        client,
        tag: line.number(),
    }
}
