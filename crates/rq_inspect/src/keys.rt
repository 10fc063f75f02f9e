//! The numbers of transactions and of operations, as they are printed and sorted.
ghost use Rattle.std.specs.Prelude.{◌≡◌};
ghost use Rattle.rq_inspect.specs.Keys.{operation_key, txn_key};

use rq_model::txn::Txn;
use std::fmt;

/// The number of a transaction. It rises by incarnation, then by count, and is printed `2.1`.
#[derive(Clone, Copy, PartialEq, Eq, PartialOrd, Ord)]
pub struct TxnKey {
    incarnation: u64,
    count: u64,
}

impl TxnKey {
    /// The transaction's.
    pub fn of(txn: Txn) -> TxnKey
        ensures { result ≡ txn_key txn }
    {
        TxnKey {
            incarnation: txn.incarnation,
            count: txn.count,
        }
    }
}

impl fmt::Display for TxnKey {
    ghost use Rattle.std.specs.Prelude.{Some};
    ghost use Rattle.rq_inspect.specs.Keys.{txn_of};
    ghost use Rattle.rq_inspect.specs.Lines.{txn_text};

    ghost output = { λ key. Some (txn_text (txn_of key)) };

    fn fmt<W: fmt::Write>(&self, f: &mut fmt::Formatter<W>) -> fmt::Result {
        let incarnation = self.incarnation;
        let count = self.count;
        write!(f, "{incarnation}.{count}")
    }
}

/// The number of an operation. It rises by its transaction's, then by its own, and is printed `2.1/3`.
#[derive(Clone, Copy, PartialEq, Eq, PartialOrd, Ord)]
pub struct OperationKey {
    txn: TxnKey,
    number: u64,
}

impl OperationKey {
    /// That of the transaction's operation with this number.
    pub fn of(txn: Txn, number: u64) -> OperationKey
        ensures { result ≡ operation_key txn number }
    {
        OperationKey {
            txn: TxnKey::of(txn),
            number,
        }
    }
}

impl fmt::Display for OperationKey {
    ghost use Rattle.std.specs.Prelude.{Some};
    ghost use Rattle.rq_inspect.specs.Keys.{txn_of};
    ghost use Rattle.rq_inspect.specs.Lines.{operation_text};

    ghost output = { λ key. Some (operation_text (txn_of key.txn) key.number) };

    fn fmt<W: fmt::Write>(&self, f: &mut fmt::Formatter<W>) -> fmt::Result {
        let txn = self.txn;
        let number = self.number;
        write!(f, "{txn}/{number}")
    }
}
