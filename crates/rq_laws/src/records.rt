//! Records of the log, and what they come to as a restart goes through them.
ghost use Rattle.std.specs.Prelude.{◌≡◌, ◌^◌, ◌<◌, [], IfOk, IfSome, length};
ghost use Rattle.rq_log.specs.Places.{IsPlace};
ghost use Rattle.rq_log.specs.Spelled.{spelled};

use rq_analysis::{EndedTransactions, LastOperations, NextUndo, OpenWork, PendingUndos};
use rq_disk::LogDevice;
use rq_log::{Log, LogReader};
use rq_model::record::Record;
use rq_model::refusal::Refusal;
use rq_model::txn::Lsn;
use rq_record::{Step, decode};

/// The same bytes are read as the same record, or as a beginning of one, or as none. Excludes a reader that takes a
/// longer Commit, and one that calls a beginning bad.
pub fn decodes(input: &[u8], again: &[u8]) -> (Step, Step)
    requires same { input.now ≡ again.now }
    ensures { result.0 ≡ result.1 }
{
    (decode(input), decode(again))
}

/// Once two logs of the same records are handed over, their devices read as the same bytes. Excludes a hand-over that
/// does nothing.
pub fn hands_over<L: LogDevice>(
    first: &mut Log<L>,
    second: &mut Log<L>,
) -> (Result<(), Refusal>, Result<(), Refusal>)
    requires same { first.old.records ≡ second.old.records }
    ensures { IfOk result.0 (λ _. IfOk result.1 (λ _. L.honest first.new.device → L.honest second.new.device
        → L.seen first.new.device ≡ L.seen second.new.device)) }
{
    (first.hand_over(), second.hand_over())
}

/// At a place where records end, logs of the same records tell the same. Excludes a look-up that passes over a record, or knows
/// none that is not handed over.
pub fn tells<L: LogDevice>(
    first: &mut Log<L>,
    second: &mut Log<L>,
    place: u64,
) -> (
    Result<Option<(Record, u64)>, Refusal>,
    Result<Option<(Record, u64)>, Refusal>,
)
    requires same { first.old.records ≡ second.old.records }
    requires counted { length (spelled first.old.records) < 2 ^ 64 }
    requires place { IsPlace first.old.records place }
    ensures { IfOk result.0 (λ told. IfOk result.1 (λ again. L.honest first.new.device → L.honest second.new.device
        → told ≡ again)) }
{
    (first.record_at(place), second.record_at(place))
}

/// At the place that was told before a record was read, the same one is read again. Excludes a cursor that tells another place,
/// and one that reads what stands behind it.
pub fn reads_again<L: LogDevice>(
    reader: &mut LogReader<L>,
) -> Result<Option<(Record, Record)>, Refusal>
    ensures { IfOk result (λ read. IfSome read (λ both. L.honest reader.new.device → both.0 ≡ both.1)) }
{
    let place = reader.place();
    match reader.next() {
        Ok(Some((_, first))) => match reader.at(place) {
            Ok(again) => Ok(Some((again, first))),
            Err(refusal) => Err(refusal),
        },
        Ok(None) => Ok(None),
        Err(refusal) => Err(refusal),
    }
}

/// After a record, the same is to be taken back. Excludes a Commit that leaves what it committed to be taken back.
/// Excludes an end of an inverse that leaves due what the inverse took back.
pub fn dues(
    first: &mut PendingUndos,
    second: &mut PendingUndos,
    numbers: &mut LastOperations,
    open_work: &mut OpenWork,
    ended: &mut EndedTransactions,
    lsn: Lsn,
    record: &Record,
) -> (Result<(), Refusal>, Result<(), Refusal>)
    requires same { first.old ≡ second.old }
    ensures { IfOk result.0 (λ _. IfOk result.1 (λ _. first.new ≡ second.new)) }
{
    (
        first.note(numbers, open_work, ended, lsn, record),
        second.note(numbers, open_work, ended, lsn, record),
    )
}

/// After a record, the same operations have no end, with the same writes. Excludes operations that are finished and
/// undone by what stood in their slots before.
pub fn notes(
    first: &mut OpenWork,
    second: &mut OpenWork,
    lsn: Lsn,
    record: &Record,
) -> (Result<(), Refusal>, Result<(), Refusal>)
    requires same { first.old ≡ second.old }
    ensures { IfOk result.0 (λ _. IfOk result.1 (λ _. first.new ≡ second.new)) }
{
    (first.note(lsn, record), second.note(lsn, record))
}

/// What is undone next of operations without an end is one. Excludes an operation that is voided with a write left.
pub fn next_undo(first: &OpenWork, second: &OpenWork) -> (Option<NextUndo>, Option<NextUndo>)
    requires same { first.now ≡ second.now }
    requires own { first.now.unfinished ≡ [] → first.now.undoable ≡ [] }
    ensures { result.0 ≡ result.1 }
{
    (first.next_undo(), second.next_undo())
}
