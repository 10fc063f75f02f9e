//! The last LSN of a log, by its bytes.
ghost use Rattle.std.specs.Prelude.{◌≡◌, ◌+◌, ◌^◌, ◌<◌, [], length};
ghost use Rattle.rq_model.specs.Bases.{with_next};
ghost use Rattle.rq_record.specs.Spelling.{IsInRange};
ghost use Rattle.rq_log.specs.Counted.{IsCounted, LastLsn};

use rq_disk::records_in;
use rq_model::record::Record;
use rq_model::txn::Lsn;
use rq_record::{Step, decode};

/// The LSN of the last whole record of a log with these bytes. It counts the records that stand there, with those that
/// a Base in front stands for.
pub fn last_lsn(bytes: &[u8]) -> Lsn
    ensures log { LastLsn bytes.now result }
    ensures counted { IsCounted bytes.now result }
{
    let records = records_in(bytes);
    match decode(bytes) {
        Step::Record(first, _) => records + before(&first),
        Step::Short | Step::Bad => records,
    }
}

// How many records the first of a log stands for.
fn before(first: &Record) -> Lsn
    requires { IsInRange first.now }
    ensures all { result + 1 ≡ length (with_next first.now []) }
    ensures few { result < 2 ^ 50 }
{
    match first {
        Record::Base { records, .. } => *records,
        _ => 0,
    }
}
