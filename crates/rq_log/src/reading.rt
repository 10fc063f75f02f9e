//! Reads the records of a device, one after the other.
ghost use Rattle.std.specs.Prelude.{◌≡◌, ◌≢◌, ◌⊎◌, ◌^◌, ◌<◌, ◌≤◌, ℕ, None, IfOk, IfErr, IfSome, IfNone, OnOk, OnErr, [], drop, length, true, false};
ghost use Rattle.std.specs.Bool.{OnTrue, OnFalse};
ghost use Rattle.rq_disk.specs.Device.{FailureIsCounted, Only};
ghost use Rattle.rq_model.specs.Bases.{is_base, with_next};
ghost use Rattle.rq_record.specs.Decoding.{IsFront};
ghost use Rattle.rq_record.specs.Spelling.{IsInRange};
ghost use Rattle.rq_model.specs.declared.record.Record.{Record};
ghost use Rattle.rq_log.specs.Places.{IsAt, NotReadAgainFor};
ghost use Rattle.rq_log.specs.Spelled.{spelled};
ghost use Rattle.rq_log.specs.Reading.{EndsShort, IsRead, IsReadBehind, IsReading, StopsFor};

use crate::past::Past;
use crate::stream::Stream;
use crate::{Log, RefusedLog};
use rq_disk::LogDevice;
use rq_model::limits::LOG_LIMIT;
use rq_model::record::Record;
use rq_model::refusal::{Damage, Refusal};
use rq_model::txn::Lsn;
use rq_record::{Decoded, decode_into};
use std::alloc::Global;
use std::marker::Model;
use std::snapshot::Snapshot;

/// A device whose records are read, from its front on, and are not kept. Contracts see those that were.
#[derive(Drop)]
pub struct LogReader<L: LogDevice> {
    stream: Stream<L>,
    // the device as it was before
    first: Snapshot<L>,
    past: Past,
    last: Lsn,
}

impl<L: LogDevice> Model for LogReader<L> {
    ghost use Rattle.std.specs.Prelude.{length};
    ghost use Rattle.rq_log.specs.Reading.{LogRead, KeepsRead};

    ghost Value = { LogRead L };

    ghost view = { λ r. record {
      records = r.past;
      left = length r.stream.unread;
      device = r.stream.device;
      first = r.first.value;
    } };

    ghost invariant = { λ r. KeepsRead L.LogDevice r.past r.stream r.first.value r.last };
}

impl<L: LogDevice + Drop> LogReader<L> {
    ghost use Rattle.std.specs.Prelude.{[], false};

    /// No record is read yet. So many bytes will be read at a time, the longest record at least.
    ///
    /// # Errors
    /// `NoMemory`.
    pub fn new(alloc: Global, device: L, window: usize) -> Result<LogReader<L>, RefusedLog<L>>
        requires { 546 ≤ window }
        ensures ok { IfOk result (λ r. r ≡ record { records = []; left = 0; device = device; first = device }) }
        ensures err { IfErr result (λ stopped. (stopped.refusal ≡ Refusal.NoMemory) × (stopped.device ≡ device)) }
    {
        let first = Snapshot::of(&device);
        let stream = Stream::new(alloc, device, window)?;
        Ok(LogReader {
            stream,
            first,
            past: Past::none(),
            last: 0,
        })
    }

    /// The log whose records were read, all of them. A proper beginning of a record behind them is cut off before anything
    /// is handed over. None of the records counts as forced: a crash may still lose what was read, unless it is forced.
    pub fn into_log(self, alloc: Global) -> Log<L>
        requires ends { L.honest self.device → EndsShort self.records self.left (L.seen self.first) }
        ensures log { result ≡ record {
          records = self.records;
          forced = 0;
          pending = 0;
          reserved = 0;
          torn_at = result.torn_at;
          failed = false;
          replacing = None;
          device = self.device;
          settled = self.first;
        } }
        ensures whole { self.left ≡ 0 → result.torn_at ≡ None }
    {
        let left = self.left();
        let LogReader {
            stream,
            first,
            past,
            last,
        } = self;
        let size = stream.taken();
        let torn_at = if left == 0 { None } else { Some(size) };
        Log::of_records(alloc, stream.give_back(), first, past, last, size, torn_at)
    }

    /// The device, as it is.
    pub fn give_back(self) -> L
        ensures { result ≡ self.device }
    {
        let LogReader {
            stream,
            first: _,
            past: _,
            last: _,
        } = self;
        stream.give_back()
    }
}

impl<L: LogDevice> LogReader<L> {
    /// What is so of each reader, for proofs: it runs no code.
    pub fn shows_read(&self)
        ensures reading { IsReading L.LogDevice self.now }
        ensures count { length self.now.records ≤ 2 ^ 50 }
    {
        let _last = self.last;
    }

    /// How many bytes were read behind the records. Once all are read it is how many there are: those of a proper
    /// beginning of a record.
    pub fn left(&self) -> usize
        ensures { result ≡ self.now.left }
    {
        self.stream.unread().len()
    }

    /// The LSN of the last record that was read: how many were, with those that a Base stands for.
    pub fn last(&self) -> Lsn
        ensures { result ≡ length self.now.records }
    {
        self.last
    }

    /// The place of the next record: how many bytes stand before it.
    pub fn place(&self) -> u64
        ensures { result ≡ length (spelled self.now.records) }
    {
        self.stream.taken()
    }

    /// Reads again the record of a place that `place` told before it was read.
    ///
    /// # Errors
    /// `DiskRead`; `Damaged`, with no number, where no record stands there.
    pub fn at(&mut self, place: u64) -> Result<Record, Refusal>
        ensures found { IfOk result (λ r. L.honest self.new.device → (s : Record)
            → IsAt self.old.records place s → r ≡ s) }
        // It is what stands there of the device, taken or not.
        ensures front { IfOk result (λ r. L.honest self.new.device → (used : ℕ)
            × IsFront r used (drop place (L.seen self.old.device))) }
        ensures err { IfErr result (λ e. NotReadAgainFor L.LogDevice e self.old.records place self.old.device
            self.new.device) }
        ensures cause { OnOk result (L.faults self.new.device ≡ L.faults self.old.device) }
        // Nothing changes, but that the device was read.
        ensures same { self.new ≡ record self.old { device = self.new.device } }
        ensures read { IsRead L.LogDevice self.old.device self.new.device }
    {
        match self.stream.record_at(place) {
            Ok((record, _)) => Ok(record),
            Err(refusal) => Err(refusal),
        }
    }

    /// Makes durable all that the device reads as, records that were not read yet, too. Where the reader stands does not change.
    ///
    /// # Errors
    /// `DiskWrite`, where the device failed.
    pub fn force(&mut self) -> Result<(), Refusal>
        ensures durable { OnOk result (Only (L.seen self.new.device) (L.may_leave self.new.device)) }
        ensures err { IfErr result (λ e. e ≡ Refusal.DiskWrite) }
        ensures cause { FailureIsCounted (L.faults self.old.device) (L.faults self.new.device) result }
        // Nothing changes, as if the device was read.
        ensures same { self.new ≡ record self.old { device = self.new.device } }
        ensures read { IsRead L.LogDevice self.old.device self.new.device }
    {
        self.stream.force()
    }

    /// Reads the next record, and tells its LSN. `None`: all are read; what is left is no byte, or a proper beginning of a
    /// record.
    ///
    /// # Errors
    /// Those of `next_into`.
    pub fn next(&mut self) -> Result<Option<(Lsn, Record)>, Refusal>
        // What is read then.
        ensures some { IfOk result (λ next. IfSome next (λ read. self.new.records ≡ with_next read.1 self.old.records)) }
        ensures oldest { IfOk result (λ next. IfSome next (λ read.
            (is_base read.1 ≡ false) ⊎ (self.old.records ≡ []))) }
        ensures lsn { IfOk result (λ next. IfSome next (λ read. read.0 ≡ length self.new.records)) }
        ensures none { IfOk result (λ next. IfNone next ((self.new.records ≡ self.old.records)
            × (L.honest self.new.device → EndsShort self.new.records self.new.left (L.seen self.new.first)))) }
        ensures bound { IfOk result (λ next. IfNone next (2 ^ 50 ≤ length self.old.records → self.new.left ≡ 0)) }
        // Why nothing was.
        ensures same { OnErr result (self.new.records ≡ self.old.records) }
        ensures err { IfErr result (λ e. StopsFor L.LogDevice e self.old.records self.old.device self.new.device) }
        // The device.
        ensures cause { OnOk result (L.faults self.new.device ≡ L.faults self.old.device) }
        ensures first { self.new.first ≡ self.old.first }
        ensures read { IsRead L.LogDevice self.old.device self.new.device }
        ensures reading { IsReading L.LogDevice self.new }
        ensures count { length self.new.records ≤ 2 ^ 50 }
    {
        let mut record = Record::Restart { incarnation: 0 };
        match self.next_into(&mut record) {
            Ok(true) => Ok(Some((self.last(), record))),
            Ok(false) => Ok(None),
            Err(refusal) => Err(refusal),
        }
    }

    /// Reads the next record, over a lent one. False: all are read; what is left is no byte, or a proper beginning of a
    /// record. Where none is read the lent one may hold anything.
    ///
    /// # Errors
    /// `Damaged` with the LSN of the next record, where what is left begins with no record and is no proper beginning
    /// of one. `Damaged` too where it begins with a Base behind others. `DiskRead`. `LogFull` where bytes are left
    /// behind as many records as a log may have.
    pub fn next_into(&mut self, into: &mut Record) -> Result<bool, Refusal>
        // What is read then.
        ensures some { IfOk result (λ found. OnTrue found (self.new.records ≡ with_next into.new self.old.records)) }
        ensures oldest { IfOk result (λ found. OnTrue found ((is_base into.new ≡ false) ⊎ (self.old.records ≡ []))) }
        ensures none { IfOk result (λ found. OnFalse found ((self.new.records ≡ self.old.records)
            × (L.honest self.new.device → EndsShort self.new.records self.new.left (L.seen self.new.first)))) }
        ensures bound { IfOk result (λ found. OnFalse found (2 ^ 50 ≤ length self.old.records → self.new.left ≡ 0)) }
        // Why nothing was.
        ensures same { OnErr result (self.new.records ≡ self.old.records) }
        ensures err { IfErr result (λ e. StopsFor L.LogDevice e self.old.records self.old.device self.new.device) }
        // The device.
        ensures cause { OnOk result (L.faults self.new.device ≡ L.faults self.old.device) }
        ensures first { self.new.first ≡ self.old.first }
        ensures read { IsRead L.LogDevice self.old.device self.new.device }
        ensures reading { IsReading L.LogDevice self.new }
        ensures count { length self.new.records ≤ 2 ^ 50 }
    {
        let found = self.read_next(into);
        self.shows_read();
        found
    }

    // Reads the next record; what it says but what is so of each reader.
    fn read_next(&mut self, into: &mut Record) -> Result<bool, Refusal>
        // What is read then.
        ensures some { IfOk result (λ found. OnTrue found (self.new.records ≡ with_next into.new self.old.records)) }
        ensures oldest { IfOk result (λ found. OnTrue found ((is_base into.new ≡ false) ⊎ (self.old.records ≡ []))) }
        ensures none { IfOk result (λ found. OnFalse found ((self.new.records ≡ self.old.records)
            × (L.honest self.new.device → EndsShort self.new.records self.new.left (L.seen self.new.first)))) }
        ensures bound { IfOk result (λ found. OnFalse found (2 ^ 50 ≤ length self.old.records → self.new.left ≡ 0)) }
        // Why nothing was.
        ensures same { OnErr result (self.new.records ≡ self.old.records) }
        ensures err { IfErr result (λ e. StopsFor L.LogDevice e self.old.records self.old.device self.new.device) }
        // The device.
        ensures cause { OnOk result (L.faults self.new.device ≡ L.faults self.old.device) }
        ensures first { self.new.first ≡ self.old.first }
        ensures read { IsRead L.LogDevice self.old.device self.new.device }
    {
        self.stream.fill()?;
        if self.stream.unread().is_empty() {
            return Ok(false);
        }
        if self.last >= LOG_LIMIT {
            return Err(Refusal::LogFull);
        }
        match decode_into(self.stream.unread(), into) {
            Decoded::Record(used) => {
                let Some(lsn) = lsn_behind(self.last, into) else {
                    return Err(Refusal::Damaged(Damage::Record(self.last + 1)));
                };
                self.stream.skip(used);
                self.past.add(into);
                self.last = lsn;
                Ok(true)
            }
            Decoded::Short => Ok(false),
            Decoded::Bad => Err(Refusal::Damaged(Damage::Record(self.last + 1))),
        }
    }
}

// The LSN of a record that was read behind so many, unless it is a Base and not the first.
fn lsn_behind(last: Lsn, record: &Record) -> Option<Lsn>
    requires few { last < 2 ^ 50 }
    requires range { IsInRange record.now }
    ensures some { IfSome result (λ lsn. IsReadBehind last record.now lsn) }
    ensures none { IfNone result ((is_base record.now ≡ true) × (last ≢ 0)) }
{
    match record {
        Record::Base { .. } if last > 0 => None,
        Record::Base { records, .. } => Some(*records + 1),
        _ => Some(last + 1),
    }
}
