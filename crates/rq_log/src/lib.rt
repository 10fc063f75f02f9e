//! The log: a list of records with a forced beginning, over a device.
#![tactic(auto)]

ghost use Rattle.std.specs.Prelude.{◌≡◌, ◌+◌, ◌-◌, ◌^◌, ◌⊎◌, ◌<◌, ◌≤◌, ◌∷◌, None, Some, OnOk, OnErr, IfOk, IfErr, IsErrOf, true, false, length};
ghost use Rattle.rq_model.specs.declared.record.Record.TheVariants.{Base, CompEnd, OpEnd, PageOp};
ghost use Rattle.rq_model.specs.Bases.{based, gone, is_base, standing};
ghost use Rattle.rq_disk.specs.Device.{Only, FailureIsCounted};
ghost use Rattle.rq_record.specs.Spelling.{IsInRange, spelling};
ghost use Rattle.rq_log.specs.Crash.{LeavesOnly};
ghost use Rattle.rq_log.specs.Logged.{IsAppended, IsLog, WasCut, WasDurable, WasLeftOrGoesOn};
ghost use Rattle.rq_log.specs.Spelled.{spelled, AreSpelled, HoldsTo, IsBeginning};

mod counting;
mod looking;
mod past;
mod reading;
mod stream;

pub use crate::counting::last_lsn;
use crate::past::Past;
pub use crate::reading::LogReader;
use rq_disk::LogDevice;
use rq_model::record::{DeedBytes, Record, Slot};
use rq_model::refusal::{NoMemory, Refusal};
use rq_model::txn::{Lsn, Txn};
use rq_record::{
    COMP_END_BYTES, OP_END_BYTES, PAGE_OP_BYTES, base_bytes, encode, put_comp_end, put_op_end,
    put_page_op, shows_fits, shows_size, spelled_len,
};
use std::alloc::Global;
use std::marker::Model;
use std::snapshot::Snapshot;

// The bytes of a Base.
const BASE_BYTES: u64 = 21;

/// The log: what its device holds, and records that are not handed over yet.
#[derive(Drop)]
pub struct Log<L: LogDevice> {
    device: L,
    // the device as it was when its records were read, or when they were last forced
    settled: Snapshot<L>,
    past: Past,
    buffer: Vec<u8>,
    reserved: usize,
    last: Lsn,
    // how many bytes its records take, where a number of 64 bits counts them
    size: u64,
    // where those on the device end, if a proper beginning of a record stands behind them
    torn_at: Option<u64>,
    forced: Lsn,
    failed: bool,
    // the incarnation of the Base by which a replacement that failed may have replaced all
    replacing: Option<u64>,
}

impl<L: LogDevice> Model for Log<L> {
    ghost use Rattle.std.specs.Prelude.{length, vec_capacity};
    ghost use Rattle.rq_log.specs.Logged.{Logged, Keeps};

    ghost Value = { Logged L };

    ghost view = { λ l. record {
      records = l.past;
      forced = l.forced;
      pending = length l.buffer.items;
      reserved = l.reserved;
      torn_at = l.torn_at;
      failed = l.failed;
      replacing = l.replacing;
      device = l.device;
      settled = l.settled.value;
    } };

    ghost invariant = { λ l. Keeps L.LogDevice (record {
      records = l.past;
      forced = l.forced;
      pending = length l.buffer.items;
      reserved = l.reserved;
      torn_at = l.torn_at;
      failed = l.failed;
      replacing = l.replacing;
      device = l.device;
      settled = l.settled.value;
    }) l.last l.size l.buffer.items (vec_capacity l.buffer) };
}

/// A log that could not be read: why, and its device.
#[derive(Drop)]
pub struct RefusedLog<L> {
    pub refusal: Refusal,
    pub device: L,
}

impl<L: LogDevice + Drop> Log<L> {
    ghost use Rattle.std.specs.Prelude.{false};
    ghost use Rattle.rq_log.specs.Reading.{IsRead};

    // The log with these records, all that an honest device holds. None of them counts as forced.
    pub(crate) fn of_records(
        alloc: Global,
        device: L,
        settled: Snapshot<L>,
        past: Past,
        last: Lsn,
        size: u64,
        torn_at: Option<u64>,
    ) -> Log<L>
        requires spelled { AreSpelled past }
        requires count { last ≡ length past }
        requires size { size ≡ length (spelled past) }
        requires read { IsRead L.LogDevice settled.value device }
        requires holds { L.honest device → HoldsTo torn_at (standing past) (L.seen settled.value) }
        ensures { result ≡ record {
          records = past;
          forced = 0;
          pending = 0;
          reserved = 0;
          torn_at = torn_at;
          failed = false;
          replacing = None;
          device = device;
          settled = settled.value;
        } }
    {
        Log {
            device,
            settled,
            past,
            buffer: Vec::new(alloc),
            reserved: 0,
            last,
            size,
            torn_at,
            forced: 0,
            failed: false,
            replacing: None,
        }
    }

    /// The device, as it is. Buffered records are gone.
    pub fn give_back(self) -> L
        ensures { result ≡ self.device }
    {
        let Log {
            device,
            settled: _,
            past: _,
            buffer: _,
            reserved: _,
            last: _,
            size: _,
            torn_at: _,
            forced: _,
            failed: _,
            replacing: _,
        } = self;
        device
    }
}

impl<L: LogDevice> Log<L> {
    /// What is so of each log, for proofs: it runs no code.
    pub fn shows_kept(&self)
        ensures log { IsLog L.LogDevice self.now }
        ensures count { length self.now.records < 2 ^ 64 }
        ensures reads { self.now.failed ≡ false → L.honest self.now.device
            → IsBeginning self.now.records self.now.forced (L.seen self.now.device) }
    {
        let _last = self.last;
    }

    /// The LSN of the last record, buffered ones included: how many records there are.
    pub fn last(&self) -> Lsn
        ensures { result ≡ length self.now.records }
    {
        self.last
    }

    /// Every record up to this LSN is forced.
    pub fn forced(&self) -> Lsn
        ensures { result ≡ self.now.forced }
    {
        self.forced
    }

    /// Makes room for so many bytes more of records.
    pub fn reserve(&mut self, bytes: usize) -> Result<(), NoMemory>
        ensures ok { OnOk result (self.new ≡ record self.old { reserved = self.old.reserved + bytes }) }
        ensures err { OnErr result (self.new ≡ self.old) }
    {
        let Some(wanted) = self.reserved.checked_add(bytes) else {
            return Err(NoMemory);
        };
        match self.buffer.try_reserve(wanted) {
            Ok(()) => {
                self.reserved = wanted;
                Ok(())
            }
            Err(_) => Err(NoMemory),
        }
    }

    /// Gives so many bytes of reserved room back.
    pub fn release(&mut self, bytes: usize)
        requires { bytes ≤ self.old.reserved }
        ensures { self.new ≡ record self.old { reserved = self.old.reserved - bytes } }
    {
        self.reserved -= bytes;
    }

    /// Adds a record, into reserved room, and answers its LSN. It is neither handed over nor forced.
    #[inline(always)]
    pub fn append(&mut self, added: &Record) -> Lsn
        requires record { IsInRange added.now }
        requires room { length (spelling added.now) ≤ self.old.reserved }
        requires count { length self.old.records < 2 ^ 64 - 1 }
        requires running { self.old.failed ≡ false }
        requires plain { is_base added.now ≡ false }
        ensures { IsAppended self.old added.now (length (spelling added.now)) result self.new }
    {
        shows_fits(added);
        let spelled = spelled_len(added);
        self.reserved -= spelled;
        self.size = self.size.saturating_add(spelled as u64);
        encode(added, &mut self.buffer).unwrap();
        self.past.add_plain(added);
        self.last += 1;
        self.last
    }

    /// Adds the record of a slot write, as `append` does, from where its images stand.
    pub fn append_page_op(
        &mut self,
        txn: Txn,
        operation: u64,
        page: u32,
        slot: u8,
        before: &Slot,
        after: &Slot,
    ) -> Lsn
        requires record { IsInRange (PageOp txn operation page slot before.now after.now) }
        requires room { 546 ≤ self.old.reserved }
        requires count { length self.old.records < 2 ^ 64 - 1 }
        requires running { self.old.failed ≡ false }
        ensures { IsAppended self.old (PageOp txn operation page slot before.now after.now) 546 result self.new }
    {
        self.reserved -= PAGE_OP_BYTES;
        self.size = self.size.saturating_add(PAGE_OP_BYTES as u64);
        put_page_op(&mut self.buffer, &txn, operation, page, slot, before, after);
        // For contracts alone: nothing reads it when the program runs.
        let added = Record::PageOp {
            txn,
            operation,
            page,
            slot,
            before: *before,
            after: *after,
        };
        shows_fits(&added);
        shows_size(&added);
        self.past.add_plain(&added);
        self.last += 1;
        self.last
    }

    /// Adds the end of an operation, as `append` does, from where its deed stands.
    pub fn append_op_end(&mut self, txn: Txn, operation: u64, level: u8, deed: &[u8]) -> Lsn
        requires record { IsInRange (OpEnd txn operation level deed.now) }
        requires room { 30 + length deed.now ≤ self.old.reserved }
        requires count { length self.old.records < 2 ^ 64 - 1 }
        requires running { self.old.failed ≡ false }
        ensures { IsAppended self.old (OpEnd txn operation level deed.now) (30 + length deed.now) result self.new }
    {
        let spelled = OP_END_BYTES + deed.len();
        self.reserved -= spelled;
        self.size = self.size.saturating_add(spelled as u64);
        put_op_end(&mut self.buffer, &txn, operation, level, deed);
        // For contracts alone: nothing reads it when the program runs.
        let added = Record::OpEnd {
            txn,
            operation,
            level,
            deed: DeedBytes::new(deed).unwrap(),
        };
        shows_fits(&added);
        shows_size(&added);
        self.past.add_plain(&added);
        self.last += 1;
        self.last
    }

    /// Adds the end of a compensation, as `append` does, from its fields.
    pub fn append_comp_end(&mut self, txn: Txn, operation: u64, undone: Lsn) -> Lsn
        requires record { IsInRange (CompEnd txn operation undone) }
        requires room { 37 ≤ self.old.reserved }
        requires count { length self.old.records < 2 ^ 64 - 1 }
        requires running { self.old.failed ≡ false }
        ensures { IsAppended self.old (CompEnd txn operation undone) 37 result self.new }
    {
        self.reserved -= COMP_END_BYTES;
        self.size = self.size.saturating_add(COMP_END_BYTES as u64);
        put_comp_end(&mut self.buffer, &txn, operation, undone);
        // For contracts alone: nothing reads it when the program runs.
        let added = Record::CompEnd {
            txn,
            operation,
            undone,
        };
        shows_fits(&added);
        shows_size(&added);
        self.past.add_plain(&added);
        self.last += 1;
        self.last
    }

    /// Appends the buffered records to the device. What stands there behind those of before is cut off first.
    pub fn hand_over(&mut self) -> Result<(), Refusal>
        // What stays.
        ensures records { self.new.records ≡ self.old.records }
        ensures forced { self.new.forced ≡ self.old.forced }
        ensures reserved { self.new.reserved ≡ self.old.reserved }
        ensures replacing { self.new.replacing ≡ self.old.replacing }
        ensures settled { self.new.settled ≡ self.old.settled }
        // What it answers, and what the device holds then.
        ensures failed { self.old.failed ≡ true → (IsErrOf result Refusal.Failed) × (self.new ≡ self.old) }
        ensures honest { L.honest self.new.device → L.honest self.old.device }
        ensures ok { OnOk result ((self.new.failed ≡ false) × (self.new.pending ≡ 0) × (self.new.torn_at ≡ None)
            × (L.honest self.new.device → L.seen self.new.device ≡ spelled self.new.records)) }
        ensures err { self.old.failed ≡ false → IfErr result (λ e. (e ≡ Refusal.DiskWrite) × (self.new.failed ≡ true)) }
        ensures cause { self.old.failed ≡ false → FailureIsCounted (L.faults self.old.device)
            (L.faults self.new.device) result }
        // Nothing to hand over, and what a crash at any moment leaves.
        ensures idle { self.old.pending ≡ 0 → self.old.torn_at ≡ None → self.new ≡ self.old }
        ensures left { L.honest self.new.device → LeavesOnly L.LogDevice self.old.device self.new.device
            (WasLeftOrGoesOn L.LogDevice self.old) }
        ensures any_moment { L.honest self.new.device → WasDurable L.LogDevice self.old
            → LeavesOnly L.LogDevice self.old.device self.new.device (IsBeginning self.old.records self.old.forced) }
    {
        if self.failed {
            return Err(Refusal::Failed);
        }
        match self.cut_end() {
            Ok(()) => self.append_buffer(),
            Err(refusal) => Err(refusal),
        }
    }

    // Cuts off what stands on the device behind the records, if there is anything.
    fn cut_end(&mut self) -> Result<(), Refusal>
        requires { self.old.failed ≡ false }
        ensures same { self.new ≡ record self.old {
          torn_at = self.new.torn_at;
          failed = self.new.failed;
          device = self.new.device;
        } }
        ensures honest { L.honest self.new.device → L.honest self.old.device }
        ensures ok { OnOk result ((self.new.failed ≡ false) × (self.new.torn_at ≡ None)) }
        ensures err { IfErr result (λ e. (e ≡ Refusal.DiskWrite) × (self.new.failed ≡ true)) }
        ensures cause { FailureIsCounted (L.faults self.old.device) (L.faults self.new.device) result }
        ensures idle { self.old.torn_at ≡ None → self.new ≡ self.old }
        ensures left { L.honest self.new.device → LeavesOnly L.LogDevice self.old.device self.new.device
            (WasLeftOrGoesOn L.LogDevice self.old) }
        ensures reads { OnOk result (L.honest self.new.device → WasCut L.LogDevice self.old self.new.device) }
        ensures any_moment { L.honest self.new.device → WasDurable L.LogDevice self.old
            → LeavesOnly L.LogDevice self.old.device self.new.device (IsBeginning self.old.records self.old.forced) }
    {
        let Some(end) = self.torn_at else {
            return Ok(());
        };
        match self.device.cut(end) {
            Ok(()) => {
                self.torn_at = None;
                Ok(())
            }
            Err(_) => {
                self.failed = true;
                Err(Refusal::DiskWrite)
            }
        }
    }

    // Appends the buffered records to the device, which holds the others and nothing behind them.
    fn append_buffer(&mut self) -> Result<(), Refusal>
        requires running { self.old.failed ≡ false }
        requires whole { self.old.torn_at ≡ None }
        ensures records { self.new.records ≡ self.old.records }
        ensures forced { self.new.forced ≡ self.old.forced }
        ensures reserved { self.new.reserved ≡ self.old.reserved }
        ensures replacing { self.new.replacing ≡ self.old.replacing }
        ensures settled { self.new.settled ≡ self.old.settled }
        ensures torn { self.new.torn_at ≡ None }
        ensures honest { L.honest self.new.device → L.honest self.old.device }
        ensures ok { OnOk result ((self.new.failed ≡ false) × (self.new.pending ≡ 0)
            × (L.honest self.new.device → L.seen self.new.device ≡ spelled self.new.records)) }
        ensures err { IfErr result (λ e. (e ≡ Refusal.DiskWrite) × (self.new.failed ≡ true)) }
        ensures cause { FailureIsCounted (L.faults self.old.device) (L.faults self.new.device) result }
        ensures idle { self.old.pending ≡ 0 → self.new ≡ self.old }
        ensures left { L.honest self.new.device → LeavesOnly L.LogDevice self.old.device self.new.device
            (WasLeftOrGoesOn L.LogDevice self.old) }
        ensures any_moment { L.honest self.new.device → WasDurable L.LogDevice self.old
            → LeavesOnly L.LogDevice self.old.device self.new.device (IsBeginning self.old.records self.old.forced) }
    {
        if self.buffer.is_empty() {
            return Ok(());
        }
        match self.device.append(&self.buffer) {
            Ok(()) => {
                self.buffer.clear();
                Ok(())
            }
            Err(_) => {
                self.failed = true;
                Err(Refusal::DiskWrite)
            }
        }
    }

    /// Hands over what is buffered, and forces the device. Answers the LSN of the last record.
    pub fn force(&mut self) -> Result<Lsn, Refusal>
        // What stays.
        ensures records { self.new.records ≡ self.old.records }
        ensures reserved { self.new.reserved ≡ self.old.reserved }
        ensures replacing { self.new.replacing ≡ self.old.replacing }
        // What it answers, and what the device holds then.
        ensures failed { self.old.failed ≡ true → (IsErrOf result Refusal.Failed) × (self.new ≡ self.old) }
        ensures honest { L.honest self.new.device → L.honest self.old.device }
        ensures ok { IfOk result (λ lsn. (lsn ≡ length self.new.records) × (self.new.forced ≡ lsn)
            × (self.new.failed ≡ false)) }
        ensures whole { OnOk result (self.new.torn_at ≡ None) }
        ensures reads { OnOk result (L.honest self.new.device → L.seen self.new.device ≡ spelled self.new.records) }
        ensures durable { OnOk result (L.honest self.new.device
            → Only (spelled self.new.records) (L.may_leave self.new.device)) }
        ensures settled { OnOk result (WasDurable L.LogDevice self.new) }
        ensures err { self.old.failed ≡ false → IfErr result (λ e. (e ≡ Refusal.DiskWrite) × (self.new.failed ≡ true)) }
        ensures as_before { OnErr result ((self.new.forced ≡ self.old.forced) × (self.new.settled ≡ self.old.settled)) }
        ensures cause { self.old.failed ≡ false → FailureIsCounted (L.faults self.old.device)
            (L.faults self.new.device) result }
        // What a crash at any moment leaves.
        ensures left { L.honest self.new.device → LeavesOnly L.LogDevice self.old.device self.new.device
            (WasLeftOrGoesOn L.LogDevice self.old) }
        ensures any_moment { L.honest self.new.device → WasDurable L.LogDevice self.old
            → LeavesOnly L.LogDevice self.old.device self.new.device (IsBeginning self.old.records self.old.forced) }
        ensures idle { self.old.pending ≡ 0 → self.old.torn_at ≡ None → LeavesOnly L.LogDevice self.old.device
            self.new.device (L.may_leave self.old.device) }
    {
        self.hand_over()?;
        match self.device.force() {
            Ok(()) => {
                self.forced = self.last;
                self.settled = Snapshot::of(&self.device);
                Ok(self.last)
            }
            Err(_) => {
                self.failed = true;
                Err(Refusal::DiskWrite)
            }
        }
    }

    /// Puts a Base in the place of all records, which are forced: it tells how many they are, and this incarnation. Answers its
    /// LSN. Contracts see those that it stands for still.
    ///
    /// # Errors
    /// `DiskWrite`: the log has failed, and a crash leaves it as it was or as it was to be.
    pub fn replace(&mut self, incarnation: u64) -> Result<Lsn, Refusal>
        requires running { self.old.failed ≡ false }
        requires forced { self.old.forced ≡ length self.old.records }
        requires record { IsInRange (Base (length self.old.records) incarnation) }
        // What stays.
        ensures reserved { self.new.reserved ≡ self.old.reserved }
        // What it answers, and what the device holds then.
        ensures honest { L.honest self.new.device → L.honest self.old.device }
        ensures lsn { IfOk result (λ lsn. lsn ≡ length self.new.records) }
        ensures ok { OnOk result ((self.new.records ≡ based incarnation self.old.records)
            × (self.new.forced ≡ length self.new.records) × (self.new.failed ≡ false)) }
        ensures reads { OnOk result (L.honest self.new.device → L.seen self.new.device ≡ spelled self.new.records) }
        ensures durable { OnOk result (L.honest self.new.device
            → Only (spelled self.new.records) (L.may_leave self.new.device)) }
        ensures settled { OnOk result (WasDurable L.LogDevice self.new) }
        ensures untried { OnOk result (self.new.replacing ≡ self.old.replacing) }
        ensures err { IfErr result (λ e. (e ≡ Refusal.DiskWrite) × (self.new.failed ≡ true)
            × (self.new.replacing ≡ Some incarnation)) }
        ensures as_before { OnErr result ((self.new.records ≡ self.old.records) × (self.new.forced ≡ self.old.forced)
            × (self.new.settled ≡ self.old.settled)) }
        ensures cause { FailureIsCounted (L.faults self.old.device) (L.faults self.new.device) result }
        // What a crash at any moment leaves.
        ensures any_moment { L.honest self.new.device → WasDurable L.LogDevice self.old
            → LeavesOnly L.LogDevice self.old.device self.new.device (λ c.
            (c ≡ spelled self.old.records) ⊎ (c ≡ spelled (based incarnation self.old.records))) }
    {
        self.shows_kept();
        self.put_base(incarnation)?;
        Ok(self.note_base(incarnation))
    }

    /// Puts that Base on the device alone. Until it is noted the log is one of which a replacement has failed.
    ///
    /// # Errors
    /// `DiskWrite`.
    pub fn put_base(&mut self, incarnation: u64) -> Result<(), Refusal>
        requires running { self.old.failed ≡ false }
        requires forced { self.old.forced ≡ length self.old.records }
        requires record { IsInRange (Base (length self.old.records) incarnation) }
        ensures same { self.new ≡ record self.old { failed = true; replacing = Some incarnation; device = self.new.device } }
        ensures idle { self.new.pending ≡ 0 }
        ensures honest { L.honest self.new.device → L.honest self.old.device }
        ensures reads { OnOk result (L.seen self.new.device ≡ spelled (based incarnation self.old.records)) }
        ensures durable { OnOk result (Only (spelled (based incarnation self.old.records)) (L.may_leave self.new.device)) }
        ensures err { IfErr result (λ e. e ≡ Refusal.DiskWrite) }
        ensures cause { FailureIsCounted (L.faults self.old.device) (L.faults self.new.device) result }
        ensures any_moment { L.honest self.new.device → WasDurable L.LogDevice self.old
            → LeavesOnly L.LogDevice self.old.device self.new.device (λ c.
            (c ≡ spelled self.old.records) ⊎ (c ≡ spelled (based incarnation self.old.records))) }
    {
        let base = base_bytes(self.last, incarnation);
        let replaced = self.device.replace(&base);
        self.failed = true;
        self.replacing = Some(incarnation);
        match replaced {
            Ok(()) => Ok(()),
            Err(_) => Err(Refusal::DiskWrite),
        }
    }

    /// Notes the Base that the device holds alone. Answers its LSN. The log runs on.
    pub fn note_base(&mut self, incarnation: u64) -> Lsn
        requires forced { self.old.forced ≡ length self.old.records }
        requires record { IsInRange (Base (length self.old.records) incarnation) }
        requires idle { self.old.pending ≡ 0 }
        requires reads { L.seen self.old.device ≡ spelled (based incarnation self.old.records) }
        requires durable { Only (spelled (based incarnation self.old.records)) (L.may_leave self.old.device) }
        ensures lsn { result ≡ length self.old.records + 1 }
        ensures noted { self.new ≡ record self.old {
          records = based incarnation self.old.records;
          forced = length self.old.records + 1;
          failed = false;
          replacing = None;
          settled = self.old.device;
        } }
    {
        self.past.put_base(self.last, incarnation);
        self.last += 1;
        self.size = BASE_BYTES;
        self.forced = self.last;
        self.settled = Snapshot::of(&self.device);
        self.failed = false;
        self.replacing = None;
        self.last
    }

    /// Counts no more records as forced than these, of those that are.
    pub fn forget_force(&mut self, forced: Lsn)
        requires fewer { forced ≤ self.old.forced }
        requires based { 0 < forced → gone self.old.records < forced }
        ensures { self.new ≡ record self.old { forced = forced } }
    {
        self.forced = forced;
    }
}
