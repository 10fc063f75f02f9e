//! What the records of a log come to.
ghost use Rattle.std.specs.Prelude.{◌≡◌, ◌⊎◌, ◌+◌, ◌++◌, ◌||◌, ◌&&◌, not, false, ℕ, List, [], ◌∷◌, OnOk, OnErr, codes, length};
ghost use Rattle.rq_model.specs.declared.txn.Txn.{Txn};
ghost use Rattle.rq_model.specs.declared.record.Record.{Record};
ghost use Rattle.rq_model.specs.Bases.{is_base, with_next};
ghost use Rattle.rq_model.specs.Vocabulary.{same_txn};
ghost use Rattle.rq_inspect.specs.Keys.{is_operation, names_operation, names_txn, txn_of};
ghost use Rattle.rq_inspect.specs.Lines.{txn_text};
ghost use Rattle.rq_inspect.specs.Reports.{Begins, Ends, IsReport, Tells, each, named, operation_key_text, report_text, txn_key_text};

use crate::keys::{OperationKey, TxnKey};
use rq_model::record::Record;
use rq_model::refusal::NoMemory;
use rq_model::txn::{Lsn, Txn};
use std::alloc::Global;
use std::collections::BTreeSet;
use std::io;
use std::io::Write;
use std::marker::Model;

/// What the records of a log come to, read one after the other. It has the LSN of the last, the unfinished operations,
/// the lost transactions, and those that committed. It keeps no more than these, as long as no record of an operation
/// or of a transaction stands behind its end.
///
/// A log where one does has to be read twice. The first time each record is noted, and the second time what has an end
/// anywhere is struck out.
#[derive(Drop)]
pub struct Report {
    records: u64,
    unfinished: BTreeSet<OperationKey>,
    lost: BTreeSet<TxnKey>,
    committed: Vec<Txn>,
}

impl Model for Report {
    ghost use Rattle.rq_inspect.specs.Reports.{Reported};

    ghost Value = { Reported };

    ghost view = { λ r. record {
      records = r.records;
      unfinished = r.unfinished.keys;
      lost = r.lost.keys;
      committed = r.committed.items;
    } };
}

impl Report {
    /// Of no record.
    pub fn new(alloc: Global) -> Report
        ensures { Tells [] [] result }
    {
        Report {
            records: 0,
            unfinished: BTreeSet::new(alloc),
            lost: BTreeSet::new(alloc),
            committed: Vec::new(alloc),
        }
    }

    /// Takes the next record, which has this LSN.
    ///
    /// # Errors
    /// `NoMemory`: nothing changed.
    pub fn note(&mut self, lsn: Lsn, record: &Record) -> Result<(), NoMemory>
        ensures noted { OnOk result ((log : List Record) → (is_base «record».now ≡ false) ⊎ (log ≡ [])
            → lsn ≡ length (with_next «record».now log) → Tells log [] self.old
            → Tells (with_next «record».now log) [] self.new) }
        ensures err { OnErr result (self.new ≡ self.old) }
    {
        self.begin(record)?;
        self.end(record);
        self.records = lsn;
        Ok(())
    }

    /// Whether there is what a second reading may strike out.
    pub fn names_any(&self) -> bool
        ensures none { result ≡ false → (log : List Record) → Tells log [] self.now → Tells log log self.now }
    {
        !self.unfinished.is_empty() || !self.lost.is_empty()
    }

    /// Takes a record of the second reading.
    pub fn strike(&mut self, record: &Record)
        ensures { (log again : List Record) → (is_base «record».now ≡ false) ⊎ (again ≡ []) → Tells log again self.old
            → Tells log (with_next «record».now again) self.new }
    {
        self.end(record);
    }

    /// Of a log that was read twice, that it is its report, for proofs: it runs no code.
    pub fn shows_told(&self)
        ensures { (log : List Record) → Tells log log self.now → IsReport log self.now }
    {
        let _unfinished = self.unfinished.len();
        let _lost = self.lost.len();
    }

    /// Adds the report's lines to a text.
    ///
    /// # Errors
    /// `NoMemory`: the text may end in a part of the report.
    pub fn write(self, out: &mut Vec<u8>) -> Result<(), NoMemory>
        ensures { OnOk result (out.new.items ≡ out.old.items ++ report_text self) }
    {
        match self.print(out) {
            Ok(()) => Ok(()),
            Err(_) => Err(NoMemory),
        }
    }

    fn print(self, out: &mut Vec<u8>) -> io::Result<()>
        ensures { OnOk result (out.new.items ≡ out.old.items ++ report_text self) }
    {
        let Report {
            records,
            unfinished,
            lost,
            committed,
        } = self;
        writeln!(out, "records {records}")?;
        print_unfinished(out, unfinished)?;
        print_lost(out, lost)?;
        print_committed(out, &committed)
    }

    // Names what the record begins, or that it commits.
    fn begin(&mut self, record: &Record) -> Result<(), NoMemory>
        ensures ok { OnOk result (Begins «record».now self.old self.new) }
        ensures err { OnErr result (self.new ≡ self.old) }
    {
        match record {
            Record::PageOp { txn, operation, .. } => {
                add_operation(&mut self.unfinished, OperationKey::of(*txn, *operation))
            }
            Record::OpEnd { txn, .. } => add_txn(&mut self.lost, TxnKey::of(*txn)),
            Record::Commit { txn } => match self.committed.push(*txn) {
                Ok(()) => Ok(()),
                Err(_) => Err(NoMemory),
            },
            Record::PageUndo { .. }
            | Record::OpVoid { .. }
            | Record::CompEnd { .. }
            | Record::Restart { .. }
            | Record::AbortEnd { .. }
            | Record::Base { .. } => Ok(()),
        }
    }

    // Names no more what the record ends.
    fn end(&mut self, record: &Record)
        ensures { Ends «record».now self.old self.new }
    {
        match record {
            Record::OpEnd { txn, operation, .. }
            | Record::OpVoid { txn, operation }
            | Record::CompEnd { txn, operation, .. } => {
                remove_operation(&mut self.unfinished, OperationKey::of(*txn, *operation));
            }
            Record::Commit { txn } | Record::AbortEnd { txn } => {
                remove_txn(&mut self.lost, TxnKey::of(*txn));
            }
            Record::PageOp { .. }
            | Record::PageUndo { .. }
            | Record::Restart { .. }
            | Record::Base { .. } => {}
        }
    }
}

fn add_operation(
    operations: &mut BTreeSet<OperationKey>,
    added: OperationKey,
) -> Result<(), NoMemory>
    ensures ok { OnOk result ((t : Txn) (n : ℕ) → names_operation t n operations.new.keys
        ≡ (is_operation t n added || names_operation t n operations.old.keys)) }
    ensures err { OnErr result (operations.new.keys ≡ operations.old.keys) }
{
    match operations.insert(added) {
        Ok(_) => Ok(()),
        Err(_) => Err(NoMemory),
    }
}

fn remove_operation(operations: &mut BTreeSet<OperationKey>, removed: OperationKey)
    ensures { (t : Txn) (n : ℕ) → names_operation t n operations.new.keys
        ≡ (not (is_operation t n removed) && names_operation t n operations.old.keys) }
{
    operations.remove(&removed);
}

fn add_txn(txns: &mut BTreeSet<TxnKey>, added: TxnKey) -> Result<(), NoMemory>
    ensures ok { OnOk result ((t : Txn) → names_txn t txns.new.keys
        ≡ (same_txn (txn_of added) t || names_txn t txns.old.keys)) }
    ensures err { OnErr result (txns.new.keys ≡ txns.old.keys) }
{
    match txns.insert(added) {
        Ok(_) => Ok(()),
        Err(_) => Err(NoMemory),
    }
}

fn remove_txn(txns: &mut BTreeSet<TxnKey>, removed: TxnKey)
    ensures { (t : Txn) → names_txn t txns.new.keys
        ≡ (not (same_txn (txn_of removed) t) && names_txn t txns.old.keys) }
{
    txns.remove(&removed);
}

// The lines of a report but the first.

fn print_unfinished(out: &mut Vec<u8>, operations: BTreeSet<OperationKey>) -> io::Result<()>
    ensures { OnOk result (out.new.items
        ≡ out.old.items ++ named (codes "unfinished") operation_key_text operations.keys) }
{
    let count = operations.len();
    write!(out, "unfinished {count}")?;
    print_operations(out, operations)?;
    writeln!(out)
}

fn print_lost(out: &mut Vec<u8>, txns: BTreeSet<TxnKey>) -> io::Result<()>
    ensures { OnOk result (out.new.items ≡ out.old.items ++ named (codes "lost") txn_key_text txns.keys) }
{
    let count = txns.len();
    write!(out, "lost {count}")?;
    print_txn_keys(out, txns)?;
    writeln!(out)
}

fn print_committed(out: &mut Vec<u8>, txns: &[Txn]) -> io::Result<()>
    ensures { OnOk result (out.new.items ≡ out.old.items ++ named (codes "committed") txn_text txns.now) }
{
    let count = txns.len();
    write!(out, "committed {count}")?;
    print_txns(out, txns)?;
    writeln!(out)
}

// Each behind a blank.

fn print_operations(out: &mut Vec<u8>, operations: BTreeSet<OperationKey>) -> io::Result<()>
    ensures { OnOk result (out.new.items ≡ out.old.items ++ each operation_key_text operations.keys) }
{
    let mut left = operations;
    while let Some(operation) = left.pop_first() {
        write!(out, " {operation}")?;
    }
    Ok(())
}

fn print_txn_keys(out: &mut Vec<u8>, txns: BTreeSet<TxnKey>) -> io::Result<()>
    ensures { OnOk result (out.new.items ≡ out.old.items ++ each txn_key_text txns.keys) }
{
    let mut left = txns;
    while let Some(txn) = left.pop_first() {
        write!(out, " {txn}")?;
    }
    Ok(())
}

fn print_txns(out: &mut Vec<u8>, txns: &[Txn]) -> io::Result<()>
    ensures { OnOk result (out.new.items ≡ out.old.items ++ each txn_text txns.now) }
{
    for txn in txns {
        let txn = TxnKey::of(*txn);
        write!(out, " {txn}")?;
    }
    Ok(())
}
