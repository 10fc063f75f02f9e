//! The records of a log, decoded and counted.
use crate::words::{input, number};
use rq_record::{Record, Step, decode};
use std::io;
use std::io::Write;

/// How many records are kept at a time.
const BATCH: usize = 64;

/// Decodes the log of standard input so many times, and prints how many records it has.
pub fn run<R: Print + Input + AllocGlobal>(rt: &R, words: &[String]) -> io::Result<()> {
    let bytes = input(rt)?;
    let mut kept = Vec::with_capacity(rt.alloc(), BATCH)?;
    let mut records = None;
    for _ in 0..number(words, 1).unwrap_or(1) {
        records = count(&bytes, &mut kept);
    }
    let mut writer = io::writer(rt);
    match records {
        Some(records) => writeln!(writer, "{records} records"),
        None => Err(io::ErrorKind::InvalidData.into()),
    }
}

// How many records the bytes hold; none where something else stands among them. Each is kept until some more are read,
// as by a reader that hands them on.
fn count(bytes: &[u8], kept: &mut Vec<Record>) -> Option<u64> {
    let mut rest = bytes;
    for records in 0..u64::MAX {
        if rest.is_empty() {
            return Some(records);
        }
        let Step::Record(record, used) = decode(rest) else {
            return None;
        };
        if kept.len() == BATCH {
            kept.clear();
        }
        kept.push(record).ok()?;
        rest = rest.get(used..)?;
    }
    None
}
