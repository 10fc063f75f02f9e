//! Numbers of transactions and of their operations.
use std::fmt;

/// The number of a transaction: the incarnation of the store that began it, and its place among the
/// transactions begun in that incarnation. Both count from 1. Printed `2.1`.
#[derive(Clone, Copy, PartialEq, Eq)]
pub struct Txn {
    pub incarnation: u64,
    pub count: u64,
}

impl fmt::Display for Txn {
    fn fmt<W: fmt::Write>(&self, f: &mut fmt::Formatter<W>) -> fmt::Result {
        let incarnation = self.incarnation;
        let count = self.count;
        write!(f, "{incarnation}.{count}")
    }
}

/// The number of an operation: its transaction, and its place among that transaction's operations
/// (compensations included), from 1.
#[derive(Clone, Copy, PartialEq, Eq)]
pub struct Sub {
    pub txn: Txn,
    pub number: u64,
}

/// A log sequence number: the place of a record in the log, from 1. 0 stands for no record.
pub type Lsn = u64;
