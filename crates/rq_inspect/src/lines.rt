//! The line of a record.
ghost use Rattle.std.specs.Prelude.{◌≡◌, ◌++◌, IfOk, OnOk, OnErr, codes, decimal};
ghost use Rattle.rq_inspect.specs.Lines.{line_of, record_text, torn_text};

use crate::keys::{OperationKey, TxnKey};
use rq_model::record::Record;
use rq_model::refusal::NoMemory;
use rq_model::txn::Lsn;
use std::alloc::Global;
use std::io;
use std::io::Write;

/// Room for a line, in bytes.
const LINE_ROOM: usize = 160;

/// Adds the line of the record with this LSN to a text.
///
/// # Errors
/// `NoMemory`: the text is as it was.
pub fn line(alloc: Global, out: &mut Vec<u8>, lsn: Lsn, record: &Record) -> Result<(), NoMemory>
    ensures ok { OnOk result (out.new.items ≡ out.old.items ++ line_of lsn «record».now) }
    ensures err { OnErr result (out.new.items ≡ out.old.items) }
{
    let text = text_of(alloc, lsn, record)?;
    match out.extend_from_slice(&text) {
        Ok(()) => Ok(()),
        Err(_) => Err(NoMemory),
    }
}

// The line of the record with this LSN.
fn text_of(alloc: Global, lsn: Lsn, record: &Record) -> Result<Vec<u8>, NoMemory>
    ensures { IfOk result (λ text. text.items ≡ line_of lsn «record».now) }
{
    let Ok(mut text) = Vec::with_capacity(alloc, LINE_ROOM) else {
        return Err(NoMemory);
    };
    match write_line(&mut text, lsn, record) {
        Ok(()) => Ok(text),
        Err(_) => Err(NoMemory),
    }
}

/// Adds the line that tells of so many bytes behind the records of a log, which are no record; nothing where there are none.
///
/// # Errors
/// `NoMemory`: the text is as it was.
pub(crate) fn torn_line(alloc: Global, out: &mut Vec<u8>, left: usize) -> Result<(), NoMemory>
    ensures ok { OnOk result (out.new.items ≡ out.old.items ++ torn_text left) }
    ensures err { OnErr result (out.new.items ≡ out.old.items) }
{
    if left == 0 {
        return Ok(());
    }
    let text = torn_end(alloc, left)?;
    match out.extend_from_slice(&text) {
        Ok(()) => Ok(()),
        Err(_) => Err(NoMemory),
    }
}

// That line of some bytes.
fn torn_end(alloc: Global, left: usize) -> Result<Vec<u8>, NoMemory>
    ensures { IfOk result (λ text. text.items ≡ codes "torn " ++ decimal left ++ codes " bytes\n") }
{
    let mut text = Vec::new(alloc);
    match writeln!(text, "torn {left} bytes") {
        Ok(()) => Ok(text),
        Err(_) => Err(NoMemory),
    }
}

#[tactic(auto, using(crate::proofs::Texts::texts))]
fn write_line(out: &mut Vec<u8>, lsn: Lsn, record: &Record) -> io::Result<()>
    ensures { OnOk result (out.new.items ≡ out.old.items ++ line_of lsn «record».now) }
{
    write!(out, "{lsn} ")?;
    write_record(out, record)?;
    writeln!(out)
}

// What the line says of the record.
#[tactic(auto, using(crate::proofs::Texts::texts))]
fn write_record(out: &mut Vec<u8>, record: &Record) -> io::Result<()>
    ensures { OnOk result (out.new.items ≡ out.old.items ++ record_text «record».now) }
{
    match record {
        Record::PageOp {
            txn,
            operation,
            page,
            slot,
            ..
        } => {
            let by = OperationKey::of(*txn, *operation);
            write!(out, "page-op {by} {page}:{slot}")
        }
        Record::PageUndo {
            txn,
            operation,
            undone,
            page,
            slot,
            ..
        } => {
            let by = OperationKey::of(*txn, *operation);
            write!(out, "page-undo {by} {page}:{slot} of {undone}")
        }
        Record::OpEnd {
            txn,
            operation,
            level,
            deed,
        } => {
            let by = OperationKey::of(*txn, *operation);
            let bytes = deed.as_slice().len();
            write!(out, "op-end {by} level {level} deed {bytes} bytes")
        }
        Record::OpVoid { txn, operation } => {
            let by = OperationKey::of(*txn, *operation);
            write!(out, "op-void {by}")
        }
        Record::CompEnd {
            txn,
            operation,
            undone,
        } => {
            let by = OperationKey::of(*txn, *operation);
            write!(out, "comp-end {by} of {undone}")
        }
        Record::Commit { txn } => {
            let txn = TxnKey::of(*txn);
            write!(out, "commit {txn}")
        }
        Record::Restart { incarnation } => write!(out, "restart {incarnation}"),
        Record::AbortEnd { txn } => {
            let txn = TxnKey::of(*txn);
            write!(out, "abort-end {txn}")
        }
        Record::Base {
            records,
            incarnation,
        } => write!(out, "base {records} {incarnation}"),
    }
}
