//! Whether the next record follows the rules, by what is kept of those before it.
ghost use Rattle.std.specs.Prelude.{◌≡◌, ◌↔◌, ◌+◌, List, IsTrue, Some};
ghost use Rattle.std.specs.List.{filter};
ghost use Rattle.rq_model.specs.declared.record.Record.{Record as AnyRecord};
ghost use Rattle.rq_model.specs.Incarnations.{IsNext, incarnation_of};
ghost use Rattle.rq_model.specs.Vocabulary.{first};
ghost use Rattle.rq_analysis.specs.Dues.{due_of, lsn_due};
ghost use Rattle.rq_analysis.specs.Numbers.{number_of};
ghost use Rattle.rq_analysis.specs.LogTables.{AreTablesOf, Passes, PutsBack};
ghost use Rattle.rq_analysis.specs.Rules.{CanBeRead, FollowAll, FollowsRules, IsReadInOrder};

use crate::ended::EndedTransactions;
use crate::open_work::sub;
use crate::{LastOperations, OpenWork, PendingUndos};
use rq_model::record::Record;
use rq_model::txn::{Lsn, Txn};

/// Whether the record may stand behind the log of which these are kept, whose records followed the rules. It is the next
/// of its incarnation, and it is told whether the deed in it, if there is one, is read by its level, and whether it puts back
/// what stood before the newest write of its operation, if it is a PageUndo.
pub fn follows(
    open_work: &OpenWork,
    dues: &PendingUndos,
    numbers: &LastOperations,
    ended: &EndedTransactions,
    reads: bool,
    puts_back: bool,
    record: &Record,
) -> bool
    ensures { (log : List AnyRecord) → AreTablesOf log open_work.now dues.now numbers.now ended.now → FollowAll log
        → IsReadInOrder log → IsNext (incarnation_of log) «record».now → (IsTrue reads ↔ CanBeRead «record».now)
        → (IsTrue puts_back ↔ PutsBack open_work.now «record».now) → (IsTrue result ↔ FollowsRules log «record».now) }
{
    if !reads {
        return false;
    }
    passes(open_work, dues, numbers, ended, puts_back, record)
}

// By what is kept alone, but for its deed and what it puts back.
fn passes(
    open_work: &OpenWork,
    dues: &PendingUndos,
    numbers: &LastOperations,
    ended: &EndedTransactions,
    puts_back: bool,
    record: &Record,
) -> bool
    ensures { (IsTrue puts_back ↔ PutsBack open_work.now «record».now)
        → (IsTrue result ↔ Passes open_work.now dues.now numbers.now ended.now «record».now) }
{
    match record {
        Record::PageOp { txn, operation, .. } => {
            !ended.has(*txn)
                && (open_work.is_unfinished(sub(txn, *operation))
                    || is_new(numbers, txn, *operation))
        }
        Record::PageUndo { txn, operation, .. } => {
            !ended.has(*txn) && open_work.is_unfinished(sub(txn, *operation)) && puts_back
        }
        Record::OpEnd { txn, operation, .. } | Record::OpVoid { txn, operation } => {
            !ended.has(*txn) && open_work.is_unfinished(sub(txn, *operation))
        }
        Record::CompEnd {
            txn,
            operation,
            undone,
        } => {
            !ended.has(*txn)
                && open_work.is_unfinished(sub(txn, *operation))
                && takes_back_newest(dues, *txn, *undone)
        }
        Record::Commit { txn } | Record::AbortEnd { txn } => !ended.has(*txn),
        Record::Restart { .. } => true,
        Record::Base { .. } => false,
    }
}

// Whether the operation is the next of its transaction.
fn is_new(numbers: &LastOperations, txn: &Txn, operation: u64) -> bool
    ensures { IsTrue result ↔ (operation ≡ number_of txn.now numbers.now + 1) }
{
    operation > 0 && numbers.greatest(*txn) == operation - 1
}

// Whether the newest of the transaction's dues has this LSN.
fn takes_back_newest(dues: &PendingUndos, txn: Txn, undone: Lsn) -> bool
    ensures { IsTrue result ↔ (lsn_due (first (filter (due_of txn) dues.now)) ≡ Some undone) }
{
    match dues.next_of(txn) {
        Some(lsn) => lsn == undone,
        None => false,
    }
}
