//! A log as it is read: its lines, and then its report.
ghost use Rattle.std.specs.Prelude.{◌≡◌, ◌⊎◌, ◌++◌, [], false, OnOk, OnErr, IfErr, List, ℕ, Option, length};
ghost use Rattle.std.specs.Io.KnownBytes.{Appends};
ghost use Rattle.rq_model.specs.declared.record.Record.{Record};
ghost use Rattle.rq_model.specs.Bases.{IsMarked, is_base, with_next};
ghost use Rattle.rq_log.specs.Reading.{EndsShort, IsRead};
ghost use Rattle.rq_log.specs.Spelled.{AreSpelled, EndsWith};
ghost use Rattle.rq_inspect.specs.Inspections.{IsInspected, IsListed, IsReported, IsStopped, IsUnprinted, IsUnread, IsUnreported, IsWrittenBut, listed_text};
ghost use Rattle.rq_inspect.specs.Lines.{line_of};
ghost use Rattle.rq_inspect.specs.Reports.{Tells, report_text};

use crate::lines::{line, torn_line};
use crate::reporting::Report;
use rq_disk::LogDevice;
use rq_log::LogReader;
use rq_model::record::Record;
use rq_model::refusal::{NoMemory, Refusal};
use rq_model::txn::Lsn;
use std::alloc::Global;
use std::io;
use std::io::Write;

/// How many bytes of lines are written at a time.
const PIECE: usize = 65_536;

/// How many bytes of a log are read at a time.
const WINDOW: usize = 65_536;

/// Why an inspection stopped before its report.
#[derive(Drop)]
pub enum Stop {
    /// The log could not be read on, or memory was wanting.
    Refused(Refusal),
    /// The text could not be written.
    Output(io::Error),
}

/// Writes the line of each record of a log, and at last its report. Where a proper beginning of a record stands behind
/// them, a torn end, it has a line before the report. The log is read, and not changed: it is handed back. One in which
/// an operation or a transaction seems to have no end is read a second time. Its end may stand before what it ends.
///
/// # Errors
/// `Refused` with `Damaged` and the LSN of the first record that is none, behind the lines of those before it.
/// `Refused` with `LogFull` where more is there than 2^50 records, and with `DiskRead` or `NoMemory`. `Output` where
/// the writer failed.
pub fn inspect<L: LogDevice + Drop, W: Write>(
    alloc: Global,
    log: L,
    writer: &mut W,
) -> (L, Result<(), Stop>)
    // What is written, or why it is not all.
    ensures whole { OnOk result.1 (L.honest result.0
        → IsInspected (L.seen log) (W.contents writer.old) (W.contents writer.new)) }
    ensures stopped { IfErr result.1 (λ stop. IsStopped L.LogDevice stop log result.0
        (Appends (W.contents writer.old) (W.contents writer.new))) }
    // The log.
    ensures cause { OnOk result.1 (L.faults result.0 ≡ L.faults log) }
    ensures read { IsRead L.LogDevice log result.0 }
{
    let mut report = Report::new(alloc);
    let (log, listed) = list(alloc, log, &mut report, writer);
    match listed {
        Ok(()) => report_on(alloc, log, report, writer),
        Err(stop) => (log, Err(stop)),
    }
}

// Writes the lines, and notes the records.
fn list<L: LogDevice + Drop, W: Write>(
    alloc: Global,
    log: L,
    report: &mut Report,
    writer: &mut W,
) -> (L, Result<(), Stop>)
    requires none_told { Tells [] [] report.old }
    ensures whole { OnOk result.1 (L.honest result.0
        → IsListed (L.seen log) (W.contents writer.old) (W.contents writer.new) report.new) }
    ensures stopped { IfErr result.1 (λ stop. IsStopped L.LogDevice stop log result.0
        (Appends (W.contents writer.old) (W.contents writer.new))) }
    ensures cause { OnOk result.1 (L.faults result.0 ≡ L.faults log) }
    ensures read { IsRead L.LogDevice log result.0 }
{
    match LogReader::new(alloc, log, WINDOW) {
        Ok(mut reader) => {
            let listed = write_lines(alloc, &mut reader, report, writer);
            reader.shows_read();
            (reader.give_back(), listed)
        }
        Err(stopped) => (stopped.device, Err(Stop::Refused(stopped.refusal))),
    }
}

// Writes the report of a log that was read once.
fn report_on<L: LogDevice + Drop, W: Write>(
    alloc: Global,
    log: L,
    report: Report,
    writer: &mut W,
) -> (L, Result<(), Stop>)
    ensures whole { OnOk result.1 (L.honest result.0 → (older : List Record) → AreSpelled older
        → IsMarked older → EndsWith older (L.seen log) → Tells older [] report
        → IsReported older (W.contents writer.old) (W.contents writer.new)) }
    ensures unreported { IfErr result.1 (λ stop. IsUnreported L.LogDevice stop log result.0
        (W.contents writer.old) (W.contents writer.new)) }
    ensures cause { OnOk result.1 (L.faults result.0 ≡ L.faults log) }
    ensures read { IsRead L.LogDevice log result.0 }
{
    let mut report = report;
    let (log, struck) = strike_out(alloc, log, &mut report);
    match struck {
        Ok(()) => {
            report.shows_told();
            (log, write_report(alloc, report, writer))
        }
        Err(refusal) => (log, Err(Stop::Refused(refusal))),
    }
}

// Strikes out of a report of a log that was read once what has an end in it.
fn strike_out<L: LogDevice + Drop>(
    alloc: Global,
    log: L,
    report: &mut Report,
) -> (L, Result<(), Refusal>)
    ensures whole { OnOk result.1 (L.honest result.0 → (older : List Record) → AreSpelled older
        → IsMarked older → EndsWith older (L.seen log) → Tells older [] report.old → Tells older older report.new) }
    ensures unread { IfErr result.1 (λ e. IsUnread L.LogDevice e log result.0) }
    ensures cause { OnOk result.1 (L.faults result.0 ≡ L.faults log) }
    ensures read { IsRead L.LogDevice log result.0 }
{
    if !report.names_any() {
        return (log, Ok(()));
    }
    match LogReader::new(alloc, log, WINDOW) {
        Ok(mut reader) => {
            let struck = strike_all(&mut reader, report);
            reader.shows_read();
            (reader.give_back(), struck)
        }
        Err(stopped) => (stopped.device, Err(stopped.refusal)),
    }
}

// The second reading.
fn strike_all<L: LogDevice>(reader: &mut LogReader<L>, report: &mut Report) -> Result<(), Refusal>
    requires none_read { reader.old.records ≡ [] }
    requires fresh { reader.old.device ≡ reader.old.first }
    ensures struck { OnOk result ((older : List Record) → Tells older [] report.old
        → Tells older reader.new.records report.new) }
    ensures whole { OnOk result (L.honest reader.new.device
        → EndsShort reader.new.records reader.new.left (L.seen reader.new.first)) }
    ensures unread { IfErr result (λ e. IsUnread L.LogDevice e reader.old.first reader.new.device) }
    ensures cause { OnOk result (L.faults reader.new.device ≡ L.faults reader.old.first) }
    ensures first { reader.new.first ≡ reader.old.first }
{
    reader.shows_read();
    let mut record = Record::Restart { incarnation: 0 };
    loop {
        match reader.next_into(&mut record) {
            Ok(true) => report.strike(&record),
            Ok(false) => return Ok(()),
            Err(refusal) => return Err(refusal),
        }
    }
}

// Writes the line of each record that a reader has, and notes the record, to the end of the log. Where it stops before that,
// the lines so far are written.
fn write_lines<L: LogDevice, W: Write>(
    alloc: Global,
    reader: &mut LogReader<L>,
    report: &mut Report,
    writer: &mut W,
) -> Result<(), Stop>
    requires none_read { reader.old.records ≡ [] }
    requires fresh { reader.old.device ≡ reader.old.first }
    requires none_told { Tells [] [] report.old }
    ensures whole { OnOk result (L.honest reader.new.device
        → IsListed (L.seen reader.new.first) (W.contents writer.old) (W.contents writer.new) report.new) }
    ensures stopped { IfErr result (λ stop. IsStopped L.LogDevice stop reader.old.first reader.new.device
        (Appends (W.contents writer.old) (W.contents writer.new))) }
    ensures cause { OnOk result (L.faults reader.new.device ≡ L.faults reader.old.first) }
    ensures first { reader.new.first ≡ reader.old.first }
{
    let Ok(mut piece) = Vec::with_capacity(alloc, PIECE) else {
        return Err(Stop::Refused(Refusal::NoMemory));
    };
    let listed = go_through(alloc, reader, report, &mut piece, writer);
    match writer.write_all(&piece) {
        Ok(()) => listed,
        Err(error) => Err(Stop::Output(error)),
    }
}

// The same, but that the last lines are left in a piece, which is not written.
fn go_through<L: LogDevice, W: Write>(
    alloc: Global,
    reader: &mut LogReader<L>,
    report: &mut Report,
    piece: &mut Vec<u8>,
    writer: &mut W,
) -> Result<(), Stop>
    requires none_read { reader.old.records ≡ [] }
    requires fresh { reader.old.device ≡ reader.old.first }
    requires none_told { Tells [] [] report.old }
    requires empty { piece.old.items ≡ [] }
    ensures told { OnOk result (Tells reader.new.records [] report.new) }
    ensures text { OnOk result (IsWrittenBut (W.contents writer.old) (W.contents writer.new) piece.new.items
        (listed_text reader.new.records reader.new.left)) }
    ensures whole { OnOk result (L.honest reader.new.device
        → EndsShort reader.new.records reader.new.left (L.seen reader.new.first)) }
    ensures stopped { IfErr result (λ stop. IsStopped L.LogDevice stop reader.old.first reader.new.device
        (λ text. IsWrittenBut (W.contents writer.old) (W.contents writer.new) piece.new.items text)) }
    ensures cause { OnOk result (L.faults reader.new.device ≡ L.faults reader.old.first) }
    ensures spelled { AreSpelled reader.new.records }
    ensures marked { IsMarked reader.new.records }
    ensures first { reader.new.first ≡ reader.old.first }
{
    reader.shows_read();
    let mut record = Record::Restart { incarnation: 0 };
    loop {
        match reader.next_into(&mut record) {
            Ok(true) => {}
            Ok(false) => break,
            Err(refusal) => return Err(Stop::Refused(refusal)),
        }
        if take_in(alloc, report, piece, reader.last(), &record).is_err() {
            return Err(Stop::Refused(Refusal::NoMemory));
        }
        if let Err(error) = write_full(writer, piece) {
            return Err(Stop::Output(error));
        }
    }
    match torn_line(alloc, piece, reader.left()) {
        Ok(()) => Ok(()),
        Err(NoMemory) => Err(Stop::Refused(Refusal::NoMemory)),
    }
}

// Adds the line of a record to a piece, and notes the record.
fn take_in(
    alloc: Global,
    report: &mut Report,
    piece: &mut Vec<u8>,
    lsn: Lsn,
    record: &Record,
) -> Result<(), NoMemory>
    ensures told { OnOk result ((log : List Record) → (is_base «record».now ≡ false) ⊎ (log ≡ [])
        → lsn ≡ length (with_next «record».now log) → Tells log [] report.old
        → Tells (with_next «record».now log) [] report.new) }
    ensures text { OnOk result (piece.new.items ≡ piece.old.items ++ line_of lsn «record».now) }
    ensures err { OnErr result (piece.new.items ≡ piece.old.items) }
{
    report.note(lsn, record)?;
    line(alloc, piece, lsn, record)
}

// Writes a piece that is full.
fn write_full<W: Write>(writer: &mut W, piece: &mut Vec<u8>) -> io::Result<()>
    ensures { OnOk result ((first : Option (List ℕ)) (text : List ℕ)
        → IsWrittenBut first (W.contents writer.old) piece.old.items text
        → IsWrittenBut first (W.contents writer.new) piece.new.items text) }
{
    if piece.len() >= PIECE {
        writer.write_all(piece)?;
        piece.clear();
    }
    Ok(())
}

// Writes the report.
fn write_report<W: Write>(alloc: Global, report: Report, writer: &mut W) -> Result<(), Stop>
    ensures told { OnOk result (Appends (W.contents writer.old) (W.contents writer.new) (report_text report)) }
    ensures unprinted { IfErr result (λ stop. IsUnprinted stop (W.contents writer.old) (W.contents writer.new)) }
{
    let mut text = Vec::new(alloc);
    if report.write(&mut text).is_err() {
        return Err(Stop::Refused(Refusal::NoMemory));
    }
    match writer.write_all(&text) {
        Ok(()) => Ok(()),
        Err(error) => Err(Stop::Output(error)),
    }
}
