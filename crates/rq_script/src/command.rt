//! The commands of a script, one a line.
use rq_disk::CallKind;
use rq_model::txn::{Sub, Txn};
use std::str::from_utf8;

/// A line of a script.
#[derive(Clone, Copy)]
pub enum Command<'a> {
    Begin,
    Send(Post<'a>),
    OpenSend(Post<'a>),
    Step(Sub),
    Finish(Sub),
    Recv(Txn),
    RecvFrom(Txn, u32),
    Close(Txn, u32),
    Mark(Tagging),
    Commit(Txn),
    Abort(Txn),
    StartAbort(Txn),
    Undo(Txn),
    EndAbort(Txn),
    Ack(Txn),
    Force,
    Checkpoint,
    /// The store is to have so many tag pages.
    Migrate(u32),
    Write(u32),
    Last(u32),
    ClientTag(u32),
    Fail(CallKind),
    /// So many bytes of the record behind those that outlive it do so, too.
    Crash(Survivors, u64, Images),
    /// One that goes to its end.
    Restart,
    /// One that the machine stops in, once so many of its records are kept.
    StopInRestart(u64),
    Dump,
    Log,
}

/// A message that a transaction is to send.
#[derive(Clone, Copy)]
pub struct Post<'a> {
    pub txn: Txn,
    pub sender: u32,
    pub tag: u64,
    pub body: &'a [u8],
}

/// A tag that a transaction is to mark for a client.
#[derive(Clone, Copy)]
pub struct Tagging {
    pub txn: Txn,
    pub client: u32,
    pub tag: u64,
}

/// How many of the records that are not forced outlive a crash.
#[derive(Clone, Copy)]
pub enum Survivors {
    First(u64),
    All,
}

/// Which image of each page outlives a crash.
#[derive(Clone, Copy)]
pub enum Images {
    /// The newest.
    Newest,
    /// The one at the last sync.
    Synced,
}

impl<'a> Command<'a> {
    /// The command that the line is; none where it is no command.
    pub fn parse(line: &'a [u8]) -> Option<Command<'a>> {
        let (name, rest) = first_word(line);
        match rest {
            None => plain(name),
            Some(rest) => with_words(name, rest),
        }
    }
}

// A command that is one word.
fn plain(name: &[u8]) -> Option<Command<'static>> {
    match name {
        b"begin" => Some(Command::Begin),
        b"force" => Some(Command::Force),
        b"checkpoint" => Some(Command::Checkpoint),
        b"restart" => Some(Command::Restart),
        b"dump" => Some(Command::Dump),
        b"log" => Some(Command::Log),
        _ => None,
    }
}

/// The first word of a command with words behind it.
#[derive(Clone, Copy)]
enum Word {
    Send,
    OpenSend,
    Step,
    Finish,
    Recv,
    RecvFrom,
    Close,
    Mark,
    Commit,
    Abort,
    StartAbort,
    Undo,
    EndAbort,
    Ack,
    Migrate,
    Write,
    Last,
    Tag,
    Fail,
    Crash,
    Restart,
}

const WORDS: [(&[u8], Word); 21] = [
    (b"send", Word::Send),
    (b"open-send", Word::OpenSend),
    (b"step", Word::Step),
    (b"finish", Word::Finish),
    (b"recv", Word::Recv),
    (b"recv-from", Word::RecvFrom),
    (b"close", Word::Close),
    (b"mark", Word::Mark),
    (b"commit", Word::Commit),
    (b"abort", Word::Abort),
    (b"start-abort", Word::StartAbort),
    (b"undo", Word::Undo),
    (b"end-abort", Word::EndAbort),
    (b"ack", Word::Ack),
    (b"migrate", Word::Migrate),
    (b"write", Word::Write),
    (b"last", Word::Last),
    (b"tag", Word::Tag),
    (b"fail", Word::Fail),
    (b"crash", Word::Crash),
    (b"restart", Word::Restart),
];

fn word_of(name: &[u8]) -> Option<Word> {
    for (text, word) in &WORDS {
        if *text == name {
            return Some(*word);
        }
    }
    None
}

// A command with words behind its name.
fn with_words<'a>(name: &[u8], rest: &'a [u8]) -> Option<Command<'a>> {
    match word_of(name)? {
        Word::Send => Some(Command::Send(post_of(rest)?)),
        Word::OpenSend => Some(Command::OpenSend(post_of(rest)?)),
        Word::Step => Some(Command::Step(operation(rest)?)),
        Word::Finish => Some(Command::Finish(operation(rest)?)),
        Word::Recv => Some(Command::Recv(txn(rest)?)),
        Word::RecvFrom => {
            let (txn, sender) = group_of(rest)?;
            Some(Command::RecvFrom(txn, sender))
        }
        Word::Close => {
            let (txn, sender) = group_of(rest)?;
            Some(Command::Close(txn, sender))
        }
        Word::Mark => Some(Command::Mark(tagging_of(rest)?)),
        Word::Commit => Some(Command::Commit(txn(rest)?)),
        Word::Abort => Some(Command::Abort(txn(rest)?)),
        Word::StartAbort => Some(Command::StartAbort(txn(rest)?)),
        Word::Undo => Some(Command::Undo(txn(rest)?)),
        Word::EndAbort => Some(Command::EndAbort(txn(rest)?)),
        Word::Ack => Some(Command::Ack(txn(rest)?)),
        Word::Migrate => Some(Command::Migrate(short_number(rest)?)),
        Word::Write => Some(Command::Write(short_number(rest)?)),
        Word::Last => Some(Command::Last(short_number(rest)?)),
        Word::Tag => Some(Command::ClientTag(short_number(rest)?)),
        Word::Fail => Some(Command::Fail(device_call(rest)?)),
        Word::Crash => crash(rest),
        Word::Restart => Some(Command::StopInRestart(number(rest)?)),
    }
}

// `2.1 3 70`
fn tagging_of(rest: &[u8]) -> Option<Tagging> {
    let (word, rest) = first_word(rest);
    let txn = txn(word)?;
    let (word, rest) = first_word(rest?);
    Some(Tagging {
        txn,
        client: short_number(word)?,
        tag: number(rest?)?,
    })
}

// `2.1 0 7 hello`
fn post_of(rest: &[u8]) -> Option<Post<'_>> {
    let (word, rest) = first_word(rest);
    let txn = txn(word)?;
    let (word, rest) = first_word(rest?);
    let sender = short_number(word)?;
    let (word, rest) = first_word(rest?);
    let tag = number(word)?;
    let body = rest.unwrap_or(&[]);
    Some(Post {
        txn,
        sender,
        tag,
        body,
    })
}

// `2.1 3`
fn operation(rest: &[u8]) -> Option<Sub> {
    let (word, rest) = first_word(rest);
    let txn = txn(word)?;
    let number = number(rest?)?;
    Some(Sub { txn, number })
}

// `2.1 0`
fn group_of(rest: &[u8]) -> Option<(Txn, u32)> {
    let (word, rest) = first_word(rest);
    let txn = txn(word)?;
    let sender = short_number(rest?)?;
    Some((txn, sender))
}

fn device_call(word: &[u8]) -> Option<CallKind> {
    match word {
        b"read" => Some(CallKind::Read),
        b"write" => Some(CallKind::Write),
        b"force" => Some(CallKind::Force),
        _ => None,
    }
}

// `7`, `7+20`, `all`, or one of these with `old` behind it
fn crash(rest: &[u8]) -> Option<Command<'static>> {
    let (word, rest) = first_word(rest);
    let (keep, torn) = parted(word)?;
    match rest {
        None => Some(Command::Crash(keep, torn, Images::Newest)),
        Some(b"old") => Some(Command::Crash(keep, torn, Images::Synced)),
        Some(_) => None,
    }
}

// `7`, or `7+20`
fn parted(word: &[u8]) -> Option<(Survivors, u64)> {
    match word.iter().position(|byte| *byte == b'+') {
        Some(at) => Some((outliving(&word[..at])?, number(&word[at + 1..])?)),
        None => Some((outliving(word)?, 0)),
    }
}

fn outliving(word: &[u8]) -> Option<Survivors> {
    match word {
        b"all" => Some(Survivors::All),
        _ => Some(Survivors::First(number(word)?)),
    }
}

// What stands before the first blank, and what stands behind it, where there is one.
fn first_word(line: &[u8]) -> (&[u8], Option<&[u8]>) {
    match line.iter().position(|byte| *byte == b' ') {
        Some(at) => (&line[..at], Some(&line[at + 1..])),
        None => (line, None),
    }
}

// `2.1`
fn txn(word: &[u8]) -> Option<Txn> {
    let at = word.iter().position(|byte| *byte == b'.')?;
    Some(Txn {
        incarnation: number(&word[..at])?,
        count: number(&word[at + 1..])?,
    })
}

fn short_number(word: &[u8]) -> Option<u32> {
    u32::try_from(number(word)?).ok()
}

// Digits alone: no sign stands before them.
fn number(word: &[u8]) -> Option<u64> {
    if !word.first()?.is_ascii_digit() {
        return None;
    }
    from_utf8(word).ok()?.parse().ok()
}
