//! What tables take of a record, and room for it.
ghost use Rattle.std.specs.Prelude.{◌≡◌, ◌<◌, IfErr, IsTrue, OnErr, OnOk, vec_capacity, vec_len};
ghost use Rattle.rq_analysis.specs.Growth.{is_op_end, is_page_op};
ghost use Rattle.rq_analysis.specs.Rules.{op_of};

use crate::sub;
use rq_model::record::Record;
use rq_model::refusal::Refusal;
use rq_model::txn::Sub;

/// Takes the memory for one more, if one is added.
///
/// # Errors
/// `NoMemory`, where one is added.
pub fn make_room<T>(items: &mut Vec<T>, adds: bool) -> Result<(), Refusal>
    ensures items { items.new.items ≡ items.old.items }
    ensures room { OnOk result (IsTrue adds → vec_len items.new < vec_capacity items.new) }
    ensures only { OnErr result (IsTrue adds) }
    ensures err { IfErr result (λ e. e ≡ Refusal.NoMemory) }
{
    if !adds {
        return Ok(());
    }
    match items.try_reserve(1) {
        Ok(()) => Ok(()),
        Err(_) => Err(Refusal::NoMemory),
    }
}

/// Whether the record tells a slot write.
pub fn tells_write(record: &Record) -> bool
    ensures { result ≡ is_page_op «record».now }
{
    matches!(record, Record::PageOp { .. })
}

/// Whether the record tells what an operation did.
pub fn tells_deed(record: &Record) -> bool
    ensures { result ≡ is_op_end «record».now }
{
    matches!(record, Record::OpEnd { .. })
}

/// Whose record it is; none where it is of no operation.
pub fn operation_of(record: &Record) -> Option<Sub>
    ensures { result ≡ op_of «record».now }
{
    match record {
        Record::PageOp { txn, operation, .. }
        | Record::PageUndo { txn, operation, .. }
        | Record::OpEnd { txn, operation, .. }
        | Record::OpVoid { txn, operation }
        | Record::CompEnd { txn, operation, .. } => Some(sub(txn, *operation)),
        Record::Commit { .. }
        | Record::AbortEnd { .. }
        | Record::Base { .. }
        | Record::Restart { .. } => None,
    }
}
