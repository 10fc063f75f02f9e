//! Where the records stand that tell what a restart may have to undo.
ghost use Rattle.std.specs.Prelude.{◌≡◌, ◌≢◌, ◌↔◌, ◌<◌, ◌≤◌, ℕ, OnOk, OnErr, IfErr, IfOk, IfSome, IfNone, IsTrue, length, slice_index_or, vec_capacity, vec_len};
ghost use Rattle.rq_model.specs.Vocabulary.{In};
ghost use Rattle.rq_analysis.specs.Dues.{dues_after};
ghost use Rattle.rq_analysis.specs.Growth.{grows, is_op_end, is_page_op};
ghost use Rattle.rq_analysis.specs.LogTables.{ended_after};
ghost use Rattle.rq_analysis.specs.Numbers.{numbers_after};
ghost use Rattle.rq_analysis.specs.OpenWorkView.{open_work_after};
ghost use Rattle.rq_restart.specs.declared.places.Place.{Place};
ghost use Rattle.rq_views.specs.Items.{operation};
ghost use Rattle.rq_restart.specs.Places.{AreRising, ends_after, no_places, place_at, places_after, without_operation, without_txn, writes_after};

use rq_analysis::{
    EndedTransactions, LastOperations, OpenWork, PendingUndos, make_room, sub, tells_deed,
    tells_write,
};
use rq_model::record::Record;
use rq_model::refusal::Refusal;
use rq_model::txn::{Lsn, Sub, Txn};
use std::alloc::Global;
use std::marker::Model;

/// Where a record of an operation stands.
#[derive(Clone, Copy)]
pub struct Place {
    /// The record's LSN.
    pub lsn: Lsn,
    /// The operation.
    pub by: Sub,
    /// How many bytes of the log stand before the record.
    pub place: u64,
}

/// The places of the PageOps of operations that have no end so far, and of the OpEnds of transactions that have none.
#[derive(Drop)]
pub struct Places {
    writes: Vec<Place>,
    ends: Vec<Place>,
}

impl Model for Places {
    ghost use Rattle.rq_restart.specs.Places.{OpenPlaces};

    ghost Value = { OpenPlaces };

    ghost view = { λ p. record { writes = p.writes.items; ends = p.ends.items } };
}

impl Places {
    /// Of no record.
    pub fn new(alloc: Global) -> Self
        ensures { result ≡ no_places }
    {
        Places {
            writes: Vec::new(alloc),
            ends: Vec::new(alloc),
        }
    }

    /// Those of the PageOps, in the order of the log.
    pub fn writes(&self) -> &[Place]
        ensures { result.now ≡ self.now.writes }
    {
        &self.writes
    }

    /// Those of the OpEnds, in the order of the log.
    pub fn ends(&self) -> &[Place]
        ensures { result.now ≡ self.now.ends }
    {
        &self.ends
    }

    /// Takes the next record, which has this LSN and stands there, and has the tables of the analysis take it: all of them, or none.
    /// The place of a PageOp or OpEnd is added, and those of the operation or transaction that the record ends are taken out. A
    /// Base ends all.
    ///
    /// # Errors
    /// `NoMemory`, where a table may grow: nothing changed.
    pub fn note_with(
        &mut self,
        lsn: Lsn,
        record: &Record,
        place: u64,
        dues: &mut PendingUndos,
        numbers: &mut LastOperations,
        open_work: &mut OpenWork,
        ended: &mut EndedTransactions,
    ) -> Result<(), Refusal>
        ensures noted { OnOk result (self.new ≡ places_after lsn place «record».now self.old) }
        ensures dues { OnOk result (dues.new ≡ dues_after lsn «record».now dues.old) }
        ensures numbers { OnOk result (numbers.new ≡ numbers_after «record».now numbers.old) }
        ensures open_work { OnOk result (open_work.new ≡ open_work_after lsn «record».now open_work.old) }
        ensures ended { OnOk result (ended.new ≡ ended_after «record».now ended.old) }
        ensures same { OnErr result (self.new ≡ self.old) }
        ensures dues_same { OnErr result (dues.new ≡ dues.old) }
        ensures numbers_same { OnErr result (numbers.new ≡ numbers.old) }
        ensures open_work_same { OnErr result (open_work.new ≡ open_work.old) }
        ensures ended_same { OnErr result (ended.new ≡ ended.old) }
        ensures grows { OnErr result (IsTrue (grows «record».now numbers.old)) }
        ensures err { IfErr result (λ e. e ≡ Refusal.NoMemory) }
    {
        make_room(&mut self.writes, tells_write(record))?;
        make_room(&mut self.ends, tells_deed(record))?;
        match dues.note(numbers, open_work, ended, lsn, record) {
            Ok(()) => {
                take_write(&mut self.writes, lsn, record, place);
                take_end(&mut self.ends, lsn, record, place);
                Ok(())
            }
            Err(refusal) => Err(refusal),
        }
    }
}

// Takes the next record into the places of PageOps, which have room for it if it is one.
fn take_write(writes: &mut Vec<Place>, lsn: Lsn, record: &Record, place: u64)
    requires { IsTrue (is_page_op «record».now) → vec_len writes.old < vec_capacity writes.old }
    ensures { writes.new.items ≡ writes_after lsn place «record».now writes.old.items }
{
    match record {
        Record::PageOp { txn, operation, .. } => {
            writes.push_reserved(stands(lsn, txn, *operation, place));
        }
        Record::OpEnd { txn, operation, .. } => end_operation(writes, sub(txn, *operation)),
        Record::OpVoid { txn, operation } => end_operation(writes, sub(txn, *operation)),
        Record::CompEnd { txn, operation, .. } => end_operation(writes, sub(txn, *operation)),
        Record::Base { .. } => writes.clear(),
        Record::PageUndo { .. } => {}
        Record::Commit { .. } => {}
        Record::AbortEnd { .. } => {}
        Record::Restart { .. } => {}
    }
}

// Takes the next record into the places of OpEnds, which have room for it if it is one.
fn take_end(ends: &mut Vec<Place>, lsn: Lsn, record: &Record, place: u64)
    requires { IsTrue (is_op_end «record».now) → vec_len ends.old < vec_capacity ends.old }
    ensures { ends.new.items ≡ ends_after lsn place «record».now ends.old.items }
{
    match record {
        Record::OpEnd { txn, operation, .. } => {
            ends.push_reserved(stands(lsn, txn, *operation, place));
        }
        Record::Commit { txn } => end_transaction(ends, *txn),
        Record::AbortEnd { txn } => end_transaction(ends, *txn),
        Record::Base { .. } => ends.clear(),
        Record::PageOp { .. } => {}
        Record::PageUndo { .. } => {}
        Record::OpVoid { .. } => {}
        Record::CompEnd { .. } => {}
        Record::Restart { .. } => {}
    }
}

fn end_operation(writes: &mut Vec<Place>, ended: Sub)
    ensures { writes.new.items ≡ without_operation ended writes.old.items }
{
    writes.retain(|write| write.by != ended);
}

fn end_transaction(ends: &mut Vec<Place>, ended: Txn)
    ensures { ends.new.items ≡ without_txn ended ends.old.items }
{
    ends.retain(|end| end.by.txn != ended);
}

/// The one of these places, whose LSNs rise, that is of the record with this LSN.
pub fn place_with(places: &[Place], lsn: Lsn) -> Option<Place>
    requires { AreRising places.now }
    ensures some { IfSome result (λ p. In p places.now × (p.lsn ≡ lsn)) }
    ensures none { IfNone result ((p : Place) → In p places.now → p.lsn ≢ lsn) }
{
    let index = first_from(places, lsn);
    if index >= places.len() {
        return None;
    }
    let place = places[index];
    if place.lsn == lsn { Some(place) } else { None }
}

// The index of the first of these that is of a record with at least this LSN, or the end.
fn first_from(places: &[Place], lsn: Lsn) -> usize
    requires { AreRising places.now }
    ensures bound { result ≤ length places.now }
    ensures below { (k : ℕ) (d : Place) → k < result → (slice_index_or places.now k d).lsn < lsn }
    ensures above { (k : ℕ) (d : Place) → result ≤ k → k < length places.now
        → lsn ≤ (slice_index_or places.now k d).lsn }
{
    places.partition_point(|place| place.lsn < lsn)
}

// Where a record of this operation stands.
fn stands(lsn: Lsn, txn: &Txn, number: u64, place: u64) -> Place
    ensures { result ≡ place_at lsn place txn.now number }
{
    Place {
        lsn,
        by: sub(txn, number),
        place,
    }
}
