//! What is to be taken back, as the records of a log tell it one after the other.
ghost use Rattle.std.specs.Prelude.{◌≡◌, ◌↔◌, ◌∷◌, ◌+◌, ◌<◌, [], IfErr, IfOk, IfSome, IfNone, IsTrue, MatchOption, OnOk, OnErr, Some, List, true, false, drop, length, reverse, slice_index_or, vec_capacity, vec_len};
ghost use Rattle.std.specs.List.{filter};
ghost use Rattle.rq_model.specs.Vocabulary.{first};
ghost use Rattle.rq_analysis.specs.Growth.{grows, is_op_end};
ghost use Rattle.rq_analysis.specs.LogTables.{ended_after};
ghost use Rattle.rq_analysis.specs.Numbers.{numbers_after};
ghost use Rattle.rq_analysis.specs.OpenWorkView.{open_work_after};
ghost use Rattle.rq_analysis.specs.Dues.{any_due, but_newest, but_own, due_of, dues, dues_after, lsn_due};

use crate::{EndedTransactions, LastOperations, OpenWork, make_room, tells_deed};
use rq_model::record::{DeedBytes, Record};
use rq_model::refusal::Refusal;
use rq_model::txn::{Lsn, Txn};
use std::alloc::Global;
use std::marker::Model;
use std::snapshot::Snapshot;

/// What a finished operation of a transaction without an end did that no inverse took back.
#[derive(Clone, Copy)]
pub struct PendingUndo {
    /// Whose it is.
    pub txn: Txn,
    /// The LSN of its OpEnd.
    pub lsn: Lsn,
    /// The operation's number.
    pub number: u64,
    /// The level that its OpEnd says.
    pub level: u8,
    /// What it says was done.
    pub deed: DeedBytes,
}

/// What is kept of that: whose it is, and where it is told. Contracts see all of it.
#[derive(Drop)]
pub struct KeptUndo {
    txn: Txn,
    lsn: Lsn,
    told: Snapshot<PendingUndo>,
}

impl Model for KeptUndo {
    ghost use Rattle.std.specs.Prelude.{◌≡◌};
    ghost use Rattle.rq_analysis.specs.declared.dues.PendingUndo.{PendingUndo};

    ghost Value = { PendingUndo };

    ghost view = { λ k. k.told.value };

    ghost invariant = { λ k. (k.txn ≡ k.told.value.txn) × (k.lsn ≡ k.told.value.lsn) };
}

impl KeptUndo {
    fn of(due: &PendingUndo) -> KeptUndo
        ensures { result ≡ due.now }
    {
        KeptUndo {
            txn: due.txn,
            lsn: due.lsn,
            told: Snapshot::of(due),
        }
    }

    /// Whose it is.
    pub fn txn(&self) -> Txn
        ensures { result ≡ self.now.txn }
    {
        self.txn
    }

    /// The LSN of its OpEnd.
    pub fn lsn(&self) -> Lsn
        ensures { result ≡ self.now.lsn }
    {
        self.lsn
    }
}

/// What is to be taken back of the transactions of a log that have neither Commit nor AbortEnd. Contracts see it as a
/// stack, the newest first.
#[derive(Drop)]
pub struct PendingUndos {
    /// In the order of their records.
    dues: Vec<KeptUndo>,
}

impl Model for PendingUndos {
    ghost use Rattle.std.specs.Prelude.{List, reverse};
    ghost use Rattle.rq_analysis.specs.declared.dues.PendingUndo.{PendingUndo};

    ghost Value = { List PendingUndo };

    ghost view = { λ d. reverse d.dues.items };
}

impl PendingUndos {
    /// Of no record.
    pub fn new(alloc: Global) -> Self
        ensures { result ≡ dues [] }
    {
        PendingUndos {
            dues: Vec::new(alloc),
        }
    }

    /// Takes the next record, which has this LSN, and has the other three take it: all of them, or none.
    ///
    /// # Errors
    /// `NoMemory`, where a table may grow: nothing changed.
    pub fn note(
        &mut self,
        numbers: &mut LastOperations,
        open_work: &mut OpenWork,
        ended: &mut EndedTransactions,
        lsn: Lsn,
        record: &Record,
    ) -> Result<(), Refusal>
        ensures noted { OnOk result (self.new ≡ dues_after lsn «record».now self.old) }
        ensures numbers { OnOk result (numbers.new ≡ numbers_after «record».now numbers.old) }
        ensures open_work { OnOk result (open_work.new ≡ open_work_after lsn «record».now open_work.old) }
        ensures ended { OnOk result (ended.new ≡ ended_after «record».now ended.old) }
        ensures same { OnErr result (self.new ≡ self.old) }
        ensures numbers_same { OnErr result (numbers.new ≡ numbers.old) }
        ensures open_work_same { OnErr result (open_work.new ≡ open_work.old) }
        ensures ended_same { OnErr result (ended.new ≡ ended.old) }
        ensures grows { OnErr result (IsTrue (grows «record».now numbers.old)) }
        ensures err { IfErr result (λ e. e ≡ Refusal.NoMemory) }
    {
        make_room(&mut self.dues, tells_deed(record))?;
        match numbers.note(open_work, ended, lsn, record) {
            Ok(()) => {
                take(&mut self.dues, lsn, record);
                Ok(())
            }
            Err(refusal) => Err(refusal),
        }
    }

    /// What is taken back next.
    pub fn newest(&self) -> Option<&KeptUndo>
        ensures { MatchOption result (self.now ≡ []) (λ due. (older : List PendingUndo) × (self.now ≡ due.now ∷ older)) }
    {
        self.dues.last()
    }

    /// The LSN of what is taken back next of what the transaction did.
    pub fn next_of(&self, txn: Txn) -> Option<Lsn>
        ensures { result ≡ lsn_due (first (filter (due_of txn) self.now)) }
    {
        match newest_of(&self.dues, txn) {
            Some(place) => Some(self.dues[place].lsn()),
            None => None,
        }
    }

    /// Whether something of the transaction's is to be taken back.
    pub fn owes(&self, txn: Txn) -> bool
        ensures { result ≡ any_due txn self.now }
    {
        has_due(&self.dues, txn)
    }
}

// Takes the next record, which has this LSN, into a table, which has room for one more if it tells a deed.
fn take(dues: &mut Vec<KeptUndo>, lsn: Lsn, record: &Record)
    requires { IsTrue (is_op_end «record».now) → vec_len dues.old < vec_capacity dues.old }
    ensures { reverse dues.new.items ≡ dues_after lsn «record».now (reverse dues.old.items) }
{
    match record {
        Record::OpEnd {
            txn,
            operation,
            level,
            deed,
        } => add(
            dues,
            &PendingUndo {
                txn: *txn,
                lsn,
                number: *operation,
                level: *level,
                deed: *deed,
            },
        ),
        Record::CompEnd { txn, .. } => drop_newest(dues, *txn),
        Record::Commit { txn } | Record::AbortEnd { txn } => end(dues, *txn),
        Record::Base { .. } => dues.clear(),
        _ => {}
    }
}

fn add(dues: &mut Vec<KeptUndo>, due: &PendingUndo)
    requires { vec_len dues.old < vec_capacity dues.old }
    ensures { reverse dues.new.items ≡ due.now ∷ reverse dues.old.items }
{
    dues.push_reserved(KeptUndo::of(due));
}

// The newest of the transaction's is taken back.
fn drop_newest(dues: &mut Vec<KeptUndo>, txn: Txn)
    ensures { reverse dues.new.items ≡ but_newest txn (reverse dues.old.items) }
{
    if let Some(place) = newest_of(dues, txn) {
        dues.remove(place);
    }
}

// The transaction has ended: nothing that it did is to be taken back.
fn end(dues: &mut Vec<KeptUndo>, txn: Txn)
    ensures { reverse dues.new.items ≡ but_own txn (reverse dues.old.items) }
{
    dues.retain(|due| due.txn() != txn);
}

// The place of the newest of these that is the transaction's.
fn newest_of(dues: &[KeptUndo], txn: Txn) -> Option<usize>
    ensures place { IfSome result (λ i. i < length dues.now) }
    ensures own { IfSome result (λ i. (d : PendingUndo) → due_of txn (slice_index_or dues.now i d) ≡ true) }
    ensures newest { IfSome result (λ i. any_due txn (drop (i + 1) dues.now) ≡ false) }
    ensures none { IfNone result (any_due txn dues.now ≡ false) }
{
    let mut place = dues.len();
    while place > 0 {
        place -= 1;
        if dues[place].txn() == txn {
            return Some(place);
        }
    }
    None
}

// Whether one of these is the transaction's. The newest are looked at first, as they are taken back first.
fn has_due(dues: &[KeptUndo], txn: Txn) -> bool
    ensures { result ≡ any_due txn dues.now }
{
    newest_of(dues, txn).is_some()
}
