//! Ends of groups, what waits of each sender, and rows of transactions.
ghost use Rattle.std.specs.Prelude.{◌≡◌, true, IfOk, IfSome, IsSome};
ghost use Rattle.rq_groups.specs.Sides.{is_free_end};
ghost use Rattle.rq_model.specs.Vocabulary.{is_some};
ghost use Rattle.rq_txn.specs.Rows.{found_row};

use rq_groups::{End, Ends, Waiting};
use rq_model::refusal::NoMemory;
use rq_model::txn::{Lsn, Txn};
use rq_txn::Transactions;

/// An end is taken, and told as newly held, alike. Excludes one that is told as new where the transaction held it.
pub fn take(
    first: &mut Ends,
    second: &mut Ends,
    txn: Txn,
    end: End,
) -> (Result<bool, NoMemory>, Result<bool, NoMemory>)
    requires free { is_free_end txn end first.old ≡ true }
    requires same { first.old ≡ second.old }
    ensures newly { IfOk result.0 (λ a. IfOk result.1 (λ b. a ≡ b)) }
    ensures left { IfOk result.0 (λ _. IfOk result.1 (λ _. first.new ≡ second.new)) }
{
    (first.take(txn, end), second.take(txn, end))
}

/// The least sender of which a message waits and whose receiving end nobody holds is one. Excludes a search that looks
/// at the sending ends, and an index that misses a sender of which one message waits.
pub fn next_free(
    first: &Waiting,
    second: &Waiting,
    ends: &Ends,
    again: &Ends,
    from: u32,
) -> (Option<u32>, Option<u32>)
    requires waiting { first.now ≡ second.now }
    requires ends { ends.now ≡ again.now }
    ensures { result.0 ≡ result.1 }
{
    (first.next_free(ends, from), second.next_free(again, from))
}

/// Some group gives the transaction a message, or none does: which one is free. Excludes a search that always finds
/// none.
pub fn first_for(
    first: &Waiting,
    second: &Waiting,
    ends: &Ends,
    again: &Ends,
    txn: Txn,
) -> (Option<u32>, Option<u32>)
    requires waiting { first.now ≡ second.now }
    requires ends { ends.now ≡ again.now }
    ensures { is_some result.0 ≡ is_some result.1 }
{
    (first.first_for(ends, txn), second.first_for(again, txn))
}

/// What a transaction finished stands in its row alike. Excludes an end that is forgotten.
pub fn note(first: &mut Transactions, second: &mut Transactions, txn: Txn, lsn: Lsn)
    requires same { first.old ≡ second.old }
    requires busy { IfSome (found_row txn first.old) (λ row. IsSome row.under) }
    ensures { first.new ≡ second.new }
{
    first.note(txn, lsn);
    second.note(txn, lsn);
}
