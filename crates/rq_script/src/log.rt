//! The lines of a log, and its report.
use crate::machine::Medium;
use rq_disk::LogDevice;
use rq_inspect::{Report, Stop, inspect, line};
use rq_model::record::Record;
use rq_model::refusal::Refusal;
use rq_model::txn::Lsn;
use std::alloc::Global;

/// The text of the log of an open store, buffered records included.
pub fn text_of_open<K, D, M: Medium<K, D>>(
    alloc: Global,
    medium: &mut M,
    kept: &mut K,
) -> Result<Vec<u8>, Refusal> {
    let mut text = Vec::new(alloc);
    let report = list(alloc, medium, kept, &mut text)?;
    report.write(&mut text)?;
    Ok(text)
}

/// The text of the log that a device holds, which is handed back.
pub fn text_of_device<L: LogDevice + Drop>(alloc: Global, log: L) -> (L, Result<Vec<u8>, Refusal>) {
    let mut text = Vec::new(alloc);
    let (log, inspected) = inspect(alloc, log, &mut text);
    match inspected {
        Ok(()) => (log, Ok(text)),
        Err(Stop::Refused(refusal)) => (log, Err(refusal)),
        Err(Stop::Output(_)) => (log, Err(Refusal::NoMemory)),
    }
}

// Adds the line of each record, and answers what the records come to.
fn list<K, D, M: Medium<K, D>>(
    alloc: Global,
    medium: &mut M,
    kept: &mut K,
    text: &mut Vec<u8>,
) -> Result<Report, Refusal> {
    let mut report = Report::new(alloc);
    note_all(alloc, medium, kept, text, &mut report)?;
    if report.names_any() {
        strike_all(medium, kept, &mut report)?;
    }
    Ok(report)
}

// The first reading.
fn note_all<K, D, M: Medium<K, D>>(
    alloc: Global,
    medium: &mut M,
    kept: &mut K,
    text: &mut Vec<u8>,
    report: &mut Report,
) -> Result<(), Refusal> {
    let mut place = 0;
    let mut last = 0;
    for _ in 1..u64::MAX {
        let Some((record, behind)) = medium.record_at(kept, place)? else {
            return Ok(());
        };
        last = lsn_behind(last, &record);
        line(alloc, text, last, &record)?;
        report.note(last, &record)?;
        place = behind;
    }
    Ok(())
}

// The LSN of a record behind so many. A Base is the first, and stands for as many as it tells.
fn lsn_behind(last: Lsn, record: &Record) -> Lsn {
    match record {
        Record::Base { records, .. } => records.saturating_add(1),
        _ => last.saturating_add(1),
    }
}

// The second reading.
fn strike_all<K, D, M: Medium<K, D>>(
    medium: &mut M,
    kept: &mut K,
    report: &mut Report,
) -> Result<(), Refusal> {
    let mut place = 0;
    for _ in 1..u64::MAX {
        let Some((record, behind)) = medium.record_at(kept, place)? else {
            return Ok(());
        };
        report.strike(&record);
        place = behind;
    }
    Ok(())
}
