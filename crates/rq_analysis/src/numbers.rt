//! The numbers of running transactions' operations, as the records of a log tell them one after the other.
ghost use Rattle.std.specs.Prelude.{◌≡◌, ◌↔◌, ◌<◌, ◌||◌, IfErr, IfOk, IsTrue, OnOk, OnErr, List, [], vec_capacity, vec_len};
ghost use Rattle.rq_analysis.specs.Growth.{ends, grows, is_greater, opens};
ghost use Rattle.rq_analysis.specs.LogTables.{ended_after};
ghost use Rattle.rq_analysis.specs.OpenWorkView.{open_work_after};
ghost use Rattle.rq_analysis.specs.Numbers.{number_of, numbers, numbers_after, numbers_but, numbers_left, with_number};
ghost use Rattle.rq_analysis.specs.Rules.{op_of};

use crate::{EndedTransactions, OpenWork, make_room, operation_of};
use rq_model::record::Record;
use rq_model::refusal::Refusal;
use rq_model::txn::{Lsn, Sub, Txn};
use std::alloc::Global;
use std::marker::Model;

/// The greatest numbers of operations of the transactions that have neither Commit nor AbortEnd, one a transaction.
#[derive(Drop)]
pub struct LastOperations {
    numbers: Vec<Sub>,
}

impl Model for LastOperations {
    ghost use Rattle.std.specs.Prelude.{List};
    ghost use Rattle.rq_model.specs.declared.txn.Sub.{Sub};

    ghost Value = { List Sub };

    ghost view = { λ n. n.numbers.items };
}

impl LastOperations {
    /// Of no record.
    pub fn new(alloc: Global) -> Self
        ensures { result ≡ numbers [] }
    {
        LastOperations {
            numbers: Vec::new(alloc),
        }
    }

    /// Takes the next record, which has this LSN, and has the other two take it: all of them, or none.
    ///
    /// # Errors
    /// `NoMemory`, where a table may grow: nothing changed.
    pub fn note(
        &mut self,
        open_work: &mut OpenWork,
        ended: &mut EndedTransactions,
        lsn: Lsn,
        record: &Record,
    ) -> Result<(), Refusal>
        ensures noted { OnOk result (self.new ≡ numbers_after «record».now self.old) }
        ensures open_work { OnOk result (open_work.new ≡ open_work_after lsn «record».now open_work.old) }
        ensures ended { OnOk result (ended.new ≡ ended_after «record».now ended.old) }
        ensures same { OnErr result (self.new ≡ self.old) }
        ensures open_work_same { OnErr result (open_work.new ≡ open_work.old) }
        ensures ended_same { OnErr result (ended.new ≡ ended.old) }
        ensures grows { OnErr result (IsTrue (grows «record».now self.old)) }
        ensures err { IfErr result (λ e. e ≡ Refusal.NoMemory) }
    {
        let raises = raises(&self.numbers, record);
        make_room(&mut self.numbers, raises)?;
        match note_both(open_work, ended, lsn, record) {
            Ok(()) => {
                take(&mut self.numbers, record, raises);
                Ok(())
            }
            Err(refusal) => Err(refusal),
        }
    }

    /// The greatest number of the transaction's operations, 0 where it has none.
    pub fn greatest(&self, txn: Txn) -> u64
        ensures { result ≡ number_of txn self.now }
    {
        greatest_of(&self.numbers, txn)
    }
}

// Has both take the next record, or none.
fn note_both(
    open_work: &mut OpenWork,
    ended: &mut EndedTransactions,
    lsn: Lsn,
    record: &Record,
) -> Result<(), Refusal>
    ensures open_work { OnOk result (open_work.new ≡ open_work_after lsn «record».now open_work.old) }
    ensures ended { OnOk result (ended.new ≡ ended_after «record».now ended.old) }
    ensures open_work_same { OnErr result (open_work.new ≡ open_work.old) }
    ensures ended_same { OnErr result (ended.new ≡ ended.old) }
    ensures grows { OnErr result (IsTrue (opens «record».now || ends «record».now)) }
    ensures err { IfErr result (λ e. e ≡ Refusal.NoMemory) }
{
    match ended.note(record) {
        Ok(()) => open_work.note(lsn, record),
        Err(_) => Err(Refusal::NoMemory),
    }
}

// Whether the record has a greater number than its transaction's operations so far.
fn raises(numbers: &[Sub], record: &Record) -> bool
    ensures { result ≡ is_greater (op_of «record».now) numbers.now }
{
    match operation_of(record) {
        Some(own) => greatest_of(numbers, own.txn) < own.number,
        None => false,
    }
}

// Takes the next record into a table, which has room for one more if it raises a number.
fn take(numbers: &mut Vec<Sub>, record: &Record, raises: bool)
    requires raises { raises ≡ is_greater (op_of «record».now) numbers.old.items }
    requires room { IsTrue raises → vec_len numbers.old < vec_capacity numbers.old }
    ensures { numbers.new.items ≡ numbers_after «record».now numbers.old.items }
{
    match record {
        Record::PageOp { txn, operation, .. }
        | Record::PageUndo { txn, operation, .. }
        | Record::OpEnd { txn, operation, .. }
        | Record::OpVoid { txn, operation }
        | Record::CompEnd { txn, operation, .. } => {
            if raises {
                raise(numbers, *txn, *operation);
            }
        }
        Record::Commit { txn } | Record::AbortEnd { txn } => end(numbers, *txn),
        Record::Base { .. } => numbers.clear(),
        Record::Restart { .. } => {}
    }
}

fn raise(numbers: &mut Vec<Sub>, txn: Txn, number: u64)
    requires greater { number_of txn numbers.old.items < number }
    requires room { vec_len numbers.old < vec_capacity numbers.old }
    ensures { numbers.new.items ≡ with_number (record { txn = txn; number = number }) numbers.old.items }
{
    numbers.push_reserved(Sub { txn, number });
    leave(numbers, txn, number);
}

// Of the transaction's numbers this one alone is left.
fn leave(numbers: &mut Vec<Sub>, txn: Txn, number: u64)
    ensures { numbers.new.items ≡ numbers_left txn number numbers.old.items }
{
    numbers.retain(|sub| txn != sub.txn || sub.number == number);
}

fn end(numbers: &mut Vec<Sub>, txn: Txn)
    ensures { numbers.new.items ≡ numbers_but txn numbers.old.items }
{
    numbers.retain(|sub| txn != sub.txn);
}

fn greatest_of(numbers: &[Sub], txn: Txn) -> u64
    ensures { result ≡ number_of txn numbers.now }
{
    let mut greatest = 0;
    for sub in numbers {
        if sub.txn == txn && sub.number > greatest {
            greatest = sub.number;
        }
    }
    greatest
}
