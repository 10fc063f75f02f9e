//! Transactions of one kind beside others that stay open, over a store in memory.
use crate::others::open_others;
use crate::store::new_engine;
use crate::transactions::Queue;
use crate::words::{named, number, sizes};
use rq_model::message::BODY_LIMIT;
use rq_page::layout::Layout;
use std::alloc::Global;
use std::io;
use std::io::Write;

/// What a transaction that is gone through does.
#[derive(Clone, Copy)]
enum Kind {
    /// It sends a byte and commits.
    Send,
    /// It sends the longest body and commits.
    Long,
    /// It receives and commits.
    Receive,
    /// It commits.
    Commit,
    /// It sends a byte and aborts.
    Abort,
}

const KINDS: [(&str, Kind); 5] = [
    ("send", Kind::Send),
    ("long", Kind::Long),
    ("receive", Kind::Receive),
    ("commit", Kind::Commit),
    ("abort", Kind::Abort),
];

/// What each of the others did.
#[derive(Clone, Copy)]
pub enum Other {
    /// Nothing.
    Begun,
    /// It sent, each for a sender of its own.
    Sent,
    /// It received the first of two messages, each from a sender of its own.
    Received,
}

const OTHERS: [(&str, Other); 3] = [
    ("begun", Other::Begun),
    ("sent", Other::Sent),
    ("received", Other::Received),
];

/// What the words ask for.
#[derive(Clone, Copy)]
struct Case {
    /// What each transaction does.
    kind: Kind,
    /// How large the store is.
    layout: Layout,
    /// What each of the others did.
    other: Other,
    /// How many others there are.
    open: u32,
    /// How many messages wait before.
    messages: u32,
    /// How many transactions are gone through.
    transactions: u32,
}

fn case_of(words: &[String]) -> Option<Case> {
    Some(Case {
        kind: named(words.get(1)?.as_str(), &KINDS)?,
        layout: sizes(words, 2)?,
        other: named(words.get(4)?.as_str(), &OTHERS)?,
        open: number(words, 5)?,
        messages: number(words, 6)?,
        transactions: number(words, 7)?,
    })
}

/// Goes through the transactions, and prints how many there were.
pub fn run<R: Print + AllocGlobal>(rt: &R, words: &[String]) -> io::Result<()> {
    let Some(case) = case_of(words) else {
        return Err(io::ErrorKind::InvalidInput.into());
    };
    if go(rt.alloc(), &case).is_none() {
        return Err(io::ErrorKind::Other.into());
    }
    let mut writer = io::writer(rt);
    writeln!(writer, "{} transactions", case.transactions)
}

// All of it, over a store of its own.
fn go(alloc: Global, case: &Case) -> Option<()> {
    let mut engine = new_engine(alloc, case.layout)?;
    all_of(&mut engine, case)
}

// The messages that wait and the others come first. What is timed goes by the last sender.
fn all_of<Q: Queue>(queue: &mut Q, case: &Case) -> Option<()> {
    let sender = case.layout.senders().checked_sub(1)?;
    send_messages(queue, sender, case.messages)?;
    open_others(queue, case.other, case.open)?;
    go_through(queue, case.kind, sender, case.transactions)
}

/// Commits so many messages of a sender.
pub fn send_messages<Q: Queue>(queue: &mut Q, sender: u32, messages: u32) -> Option<()> {
    go_through(queue, Kind::Send, sender, messages)
}

// Goes through so many transactions. A send is one of this sender.
fn go_through<Q: Queue>(queue: &mut Q, kind: Kind, sender: u32, transactions: u32) -> Option<()> {
    for _ in 0..transactions {
        one(queue, kind, sender)?;
    }
    Some(())
}

fn one<Q: Queue>(queue: &mut Q, kind: Kind, sender: u32) -> Option<()> {
    let txn = queue.begin()?;
    match kind {
        Kind::Send => queue.send(txn, sender, b"x")?,
        Kind::Long => queue.send(txn, sender, &[b'x'; BODY_LIMIT])?,
        Kind::Receive => queue.receive(txn)?,
        Kind::Commit => {}
        Kind::Abort => {
            queue.send(txn, sender, b"x")?;
            return queue.abort(txn);
        }
    }
    queue.commit(txn)
}
