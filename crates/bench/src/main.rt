//! What is timed, counted or let happen, by one program: its first word says what is done, and what it prints says what was.
//!
//! | Words | What is done |
//! |---|---|
//! | `decode ROUNDS` | decodes a log that comes by standard input |
//! | `feed ROUNDS` | reads the requests of a stream that comes by standard input |
//! | `append FILE RECORDS` | appends to a log in a file |
//! | `replace FOLDER` | replaces the log of a store in a folder, once for each line of standard input |
//! | `beside KIND DIRECTORY CELLS OTHER OPEN MESSAGES TRANSACTIONS` | goes through transactions beside others that stay open |
//! | `make FOLDER DIRECTORY CELLS MESSAGES [FRAMES [WAITING]]` | makes a store in a folder |
//! | `open FOLDER [FRAMES]` | opens it, or says why not |
//! | `checkpoint FOLDER SENT RECEIVED` | opens it, sends messages, receives some of the first sender, and makes its log one record |
//! | `calls THREADS BATCHES` | makes calls by one thread or by four |
//! | `happenings DIRECTORY CELLS [TAGS [FRAMES]]` | lets what standard input says happen to a store in memory |
#![tactic(auto)]

mod beside;
mod decode;
mod feed;
mod files;
mod happenings;
mod others;
mod reopen;
mod replacing;
mod rounds;
mod store;
mod tally;
mod threads;
mod transactions;
mod ways;
mod words;

use crate::words::Verb;
use std::fs::File;
use std::io;
use std::process::ExitCode;
use std::rt::{Env, Files};
use std::sync::Wait;
use std::thread::Threads;
use std::time::Clock;

fn main(rt: HostRuntime) -> ExitCode {
    match run(&rt) {
        Ok(()) => ExitCode::from(0),
        Err(_) => ExitCode::from(1),
    }
}

fn run<
    R: Print
        + Eprint
        + Input
        + AllocGlobal
        + Env
        + Clock
        + Files<File = File>
        + Threads
        + Wait
        + Sync,
>(rt: &R) -> io::Result<()> {
    let words = words::read(rt)?;
    match words::verb_of(&words) {
        Some(Verb::Decode) => decode::run(rt, &words),
        Some(Verb::Feed) => feed::run(rt, &words),
        Some(Verb::Append) => files::run(rt, &words),
        Some(Verb::Replace) => replacing::run(rt, &words),
        Some(Verb::Beside) => beside::run(rt, &words),
        Some(Verb::Make) => reopen::make(rt, &words),
        Some(Verb::Open) => reopen::open(rt, &words),
        Some(Verb::Checkpoint) => reopen::checkpoint(rt, &words),
        Some(Verb::Calls) => ways::run(rt, &words),
        Some(Verb::Happenings) => happenings::run(rt, &words),
        None => Err(io::ErrorKind::InvalidInput.into()),
    }
}
