//! Records of a log that are read again, where they are to be undone.
ghost use Rattle.std.specs.Prelude.{◌≡◌, ◌↔◌, ◌∷◌, ◌/◌, ◌%◌, ◌^◌, ◌<◌, Ok, List, Some, IsTrue, IfOk, IfErr, IfSome, IfNone, OnOk, false, true, length};
ghost use Rattle.std.specs.List.{filter};
ghost use Rattle.rq_model.specs.declared.record.Record.TheVariants as records;
ghost use Rattle.rq_model.specs.declared.record.Record.{Record as AnyRecord};
ghost use Rattle.rq_model.specs.Bases.{is_base};
ghost use Rattle.rq_model.specs.Vocabulary.{In, first};
ghost use Rattle.rq_views.specs.Legal.{is_of};
ghost use Rattle.rq_log.specs.Places.{IsAt};
ghost use Rattle.rq_log.specs.Reading.{IsRead};
ghost use Rattle.rq_analysis.specs.declared.dues.PendingUndo.{PendingUndo as Due};
ghost use Rattle.rq_analysis.specs.LogTables.{PutsBack};
ghost use Rattle.rq_analysis.specs.OpenWorkView.{lsn_undoable, undoable_by};
ghost use Rattle.rq_analysis.specs.Pages.{IsNextUndo, IsUndoneNext, void_of};
ghost use Rattle.rq_analysis.specs.Rules.{op_of};
ghost use Rattle.rq_restart.specs.Aborting.{blamed_on};
ghost use Rattle.rq_restart.specs.Again.{ComparesOwn, HasRecord, IsLikeUndo, IsOwnUndo, IsToldByOwn, NextNotUndoneFor, NotGivenFor, NotMadeFor, NotReadFor, NotToldFor, NotUndoneFor, WroteOver, due_told, told_again, undo_told};
ghost use Rattle.rq_restart.specs.Found.{IsAnalysisOf};

use crate::analysis::Analysis;
use crate::places::{Place, place_with};
use rq_analysis::{NextUndo, PendingUndo, operation_of, sub};
use rq_disk::LogDevice;
use rq_level::{Level, SlotWrite};
use rq_log::{Log, LogReader};
use rq_model::limits::LOG_LIMIT;
use rq_model::record::{Record, Slot};
use rq_model::refusal::{Damage, Refusal};
use rq_model::txn::{Lsn, Sub, Txn};
use rq_planner::Planner;
use std::alloc::Global;

/// The record by which is undone what is next, as these are the findings of the log.
///
/// # Errors
/// `NoMemory`; `DiskRead`; `LogFull` where the log is at its greatest length; `Damaged` with the LSN of the record that tells
/// what is undone, where the device gives that no more.
pub(crate) fn undo_record<L: LogDevice, B: Level>(
    alloc: Global,
    log: &mut Log<L>,
    analysis: &Analysis,
    planner: &mut Planner<B>,
    next: NextUndo,
) -> Result<Record, Refusal>
    requires found { IsAnalysisOf analysis.now log.old.records }
    requires next { IsUndoneNext analysis.now.open_work next }
    requires running { log.old.failed ≡ false }
    ensures like { IfOk result (λ r. IsLikeUndo analysis.now.open_work r) }
    ensures is { IfOk result (λ r. L.honest log.new.device → IsNextUndo analysis.now.open_work r) }
    ensures own { IfOk result (IsOwnUndo analysis.now.places.writes next) }
    ensures err { IfErr result (λ e. NextNotUndoneFor L.LogDevice e next (length log.old.records) log.old.device log.new.device) }
    ensures planner { planner.new ≡ planner.old }
    ensures cause { OnOk result (L.faults log.new.device ≡ L.faults log.old.device) }
    ensures same { log.new ≡ record log.old { device = log.new.device } }
    ensures read { IsRead L.LogDevice log.old.device log.new.device }
{
    match next {
        NextUndo::Void(sub) => Ok(void_record(sub)),
        NextUndo::Write(lsn) => undo_write(alloc, log, analysis, planner, lsn),
    }
}

fn void_record(sub: Sub) -> Record
    ensures { result ≡ void_of sub }
{
    Record::OpVoid {
        txn: sub.txn,
        operation: sub.number,
    }
}

// The record by which the newest write of all is undone, which has this LSN.
fn undo_write<L: LogDevice, B: Level>(
    alloc: Global,
    log: &mut Log<L>,
    analysis: &Analysis,
    planner: &mut Planner<B>,
    lsn: Lsn,
) -> Result<Record, Refusal>
    requires found { IsAnalysisOf analysis.now log.old.records }
    requires next { IsUndoneNext analysis.now.open_work (NextUndo.Write lsn) }
    requires running { log.old.failed ≡ false }
    ensures like { IfOk result (λ r. IsLikeUndo analysis.now.open_work r) }
    ensures is { IfOk result (λ r. L.honest log.new.device → IsNextUndo analysis.now.open_work r) }
    ensures own { IfOk result (IsToldByOwn AnyRecord undo_told analysis.now.places.writes lsn) }
    ensures err { IfErr result (λ e. NotUndoneFor L.LogDevice e lsn (length log.old.records) log.old.device log.new.device) }
    ensures planner { planner.new ≡ planner.old }
    ensures cause { OnOk result (L.faults log.new.device ≡ L.faults log.old.device) }
    ensures same { log.new ≡ record log.old { device = log.new.device } }
    ensures read { IsRead L.LogDevice log.old.device log.new.device }
{
    log.shows_kept();
    match kept_record(log, analysis.places.writes(), lsn) {
        Ok(kept) => undone_as(alloc, planner, &kept.0, &kept.1),
        Err(refusal) => Err(refusal),
    }
}

// The record by which the write is undone that this record tells, which stands at the place.
fn undone_as<B: Level>(
    alloc: Global,
    planner: &mut Planner<B>,
    kept: &Place,
    told: &Record,
) -> Result<Record, Refusal>
    ensures told { IfOk result (λ r. undo_told kept.now told.now ≡ Ok r) }
    ensures err { IfErr result (λ e. NotMadeFor (undo_told kept.now told.now) e) }
    ensures planner { planner.new ≡ planner.old }
{
    match planner.undo_write(alloc, told) {
        Ok(write) => Ok(page_undo(kept, &write)),
        Err(refusal) => Err(blamed(kept.lsn, refusal)),
    }
}

// The record of a write that undoes the one whose record stands at this place.
fn page_undo(kept: &Place, write: &SlotWrite) -> Record
    ensures { result ≡ records.PageUndo kept.now.by.txn kept.now.by.number kept.now.lsn (write.now.at / 16)
        (write.now.at % 16) write.now.after }
{
    Record::PageUndo {
        txn: kept.by.txn,
        operation: kept.by.number,
        undone: kept.lsn,
        page: write.at.page() as u32,
        slot: write.at.slot(),
        after: write.after,
    }
}

/// What the OpEnd with this LSN did, which is the transaction's and is to be taken back.
///
/// # Errors
/// Those of `undo_record` but `NoMemory`.
pub(crate) fn due_again<L: LogDevice>(
    log: &mut Log<L>,
    analysis: &Analysis,
    txn: Txn,
    lsn: Lsn,
) -> Result<PendingUndo, Refusal>
    requires found { IsAnalysisOf analysis.now log.old.records }
    requires due { (d : Due) × In d analysis.now.dues × (d.txn ≡ txn) × (d.lsn ≡ lsn) }
    requires running { log.old.failed ≡ false }
    ensures like { IfOk result (λ d. (d.txn ≡ txn) × (d.lsn ≡ lsn)) }
    ensures is { IfOk result (λ d. L.honest log.new.device → (e : Due) → In e analysis.now.dues → e.txn ≡ txn → e.lsn ≡ lsn
        → d ≡ e) }
    ensures own { IfOk result (IsToldByOwn Due due_told analysis.now.places.ends lsn) }
    ensures err { IfErr result (λ e. NotToldFor L.LogDevice e lsn (length log.old.records) log.old.device log.new.device) }
    ensures cause { OnOk result (L.faults log.new.device ≡ L.faults log.old.device) }
    ensures same { log.new ≡ record log.old { device = log.new.device } }
    ensures read { IsRead L.LogDevice log.old.device log.new.device }
{
    match kept_record(log, analysis.places.ends(), lsn) {
        Ok(kept) => due_as(&kept.0, &kept.1),
        Err(refusal) => Err(refusal),
    }
}

// What the operation of this place did, as this record tells it: the record has to be an end.
fn due_as(kept: &Place, told: &Record) -> Result<PendingUndo, Refusal>
    ensures { result ≡ due_told kept.now told.now }
{
    match told {
        Record::OpEnd { level, deed, .. } => Ok(PendingUndo {
            txn: kept.by.txn,
            lsn: kept.lsn,
            number: kept.by.number,
            level: *level,
            deed: *deed,
        }),
        _ => Err(Refusal::Damaged(Damage::Record(kept.lsn))),
    }
}

/// Why what the record with this LSN tells is not undone: memory is wanting, or it cannot be.
pub(crate) fn blamed(lsn: Lsn, refusal: Refusal) -> Refusal
    ensures { result ≡ blamed_on lsn refusal }
{
    match refusal {
        Refusal::NoMemory => Refusal::NoMemory,
        Refusal::DiskRead => Refusal::DiskRead,
        _ => Refusal::Damaged(Damage::Record(lsn)),
    }
}

// The one of these places that is of the record with this LSN, and the record. One of another operation is damage.
fn kept_record<L: LogDevice>(
    log: &mut Log<L>,
    places: &[Place],
    lsn: Lsn,
) -> Result<(Place, Record), Refusal>
    requires has { HasRecord log.old.records places.now lsn }
    requires running { log.old.failed ≡ false }
    ensures place { IfOk result (λ kept. In kept.0 places.now × (kept.0.lsn ≡ lsn)) }
    ensures own { IfOk result (λ kept. is_of kept.0.by (op_of kept.1) ≡ true) }
    ensures is { IfOk result (λ kept. L.honest log.new.device → (s : AnyRecord) → IsAt log.old.records kept.0.place s
        → kept.1 ≡ s) }
    ensures room { OnOk result (length log.old.records < 2 ^ 50) }
    ensures err { IfErr result (λ e. NotToldFor L.LogDevice e lsn (length log.old.records) log.old.device log.new.device) }
    ensures cause { OnOk result (L.faults log.new.device ≡ L.faults log.old.device) }
    ensures same { log.new ≡ record log.old { device = log.new.device } }
    ensures read { IsRead L.LogDevice log.old.device log.new.device }
{
    log.shows_kept();
    match place_with(places, lsn) {
        Some(kept) => match record_again(log, kept.place, lsn) {
            Ok(told) => {
                if is_of(&told, kept.by) {
                    Ok((kept, told))
                } else {
                    Err(Refusal::Damaged(Damage::Record(lsn)))
                }
            }
            Err(refusal) => Err(refusal),
        },
        None => Err(Refusal::Damaged(Damage::Record(lsn))),
    }
}

// Whether the record is of this operation.
fn is_of(told: &Record, by: Sub) -> bool
    ensures own { result ≡ is_of by (op_of told.now) }
{
    match operation_of(told) {
        Some(own) => own == by,
        None => false,
    }
}

// The record that stands at this place, which has this LSN.
fn record_again<L: LogDevice>(log: &mut Log<L>, place: u64, lsn: Lsn) -> Result<Record, Refusal>
    requires running { log.old.failed ≡ false }
    ensures is { IfOk result (λ r. L.honest log.new.device → (s : AnyRecord) → IsAt log.old.records place s → r ≡ s) }
    ensures room { OnOk result (length log.old.records < 2 ^ 50) }
    ensures err { IfErr result (λ e. NotGivenFor L.LogDevice e lsn log.old.records place log.old.device log.new.device) }
    ensures cause { OnOk result (L.faults log.new.device ≡ L.faults log.old.device) }
    ensures same { log.new ≡ record log.old { device = log.new.device } }
    ensures read { IsRead L.LogDevice log.old.device log.new.device }
{
    log.shows_kept();
    if log.last() >= LOG_LIMIT {
        return Err(Refusal::LogFull);
    }
    match log.record_at(place) {
        Ok(Some((record, _))) => Ok(record),
        Ok(None) => Err(Refusal::Damaged(Damage::Record(lsn))),
        Err(refusal) => Err(not_given(lsn, refusal)),
    }
}

// Why the record with this LSN was not given again.
fn not_given(lsn: Lsn, refusal: Refusal) -> Refusal
    ensures { result ≡ told_again lsn refusal }
{
    match refusal {
        Refusal::DiskRead => Refusal::DiskRead,
        _ => Refusal::Damaged(Damage::Record(lsn)),
    }
}

/// Whether a record that was read behind those of which these are the findings, and has this LSN, puts back what stood
/// before the newest write of its operation, if it is a PageUndo.
///
/// # Errors
/// `DiskRead`; `Damaged` with that LSN where the device gives the record of the write no more.
pub(crate) fn puts_back<L: LogDevice>(
    reader: &mut LogReader<L>,
    analysis: &Analysis,
    lsn: Lsn,
    next: &Record,
) -> Result<bool, Refusal>
    requires found { (older : List AnyRecord) × IsAnalysisOf analysis.now older × (reader.old.records ≡ next.now ∷ older) }
    requires plain { is_base next.now ≡ false }
    ensures told { IfOk result (λ yes. L.honest reader.new.device → (IsTrue yes ↔ PutsBack analysis.now.open_work next.now)) }
    ensures own { IfOk result (ComparesOwn analysis.now next.now) }
    ensures err { IfErr result (λ e. NotReadFor L.LogDevice e lsn reader.old.device reader.new.device) }
    ensures cause { OnOk result (L.faults reader.new.device ≡ L.faults reader.old.device) }
    ensures same { reader.new ≡ record reader.old { device = reader.new.device } }
    ensures read { IsRead L.LogDevice reader.old.device reader.new.device }
{
    match next {
        Record::PageUndo {
            txn,
            operation,
            undone,
            page,
            slot,
            after,
        } => match place_of_newest(analysis, sub(txn, *operation), *undone) {
            Some(kept) => match own_record(reader, kept, lsn) {
                Ok(told) => Ok(wrote_over(&told, *page, *slot, after)),
                Err(refusal) => Err(refusal),
            },
            None => Ok(false),
        },
        _ => Ok(true),
    }
}

// The record that stands at this place. One of another operation is damage of the record with this LSN.
fn own_record<L: LogDevice>(
    reader: &mut LogReader<L>,
    kept: Place,
    lsn: Lsn,
) -> Result<Record, Refusal>
    requires stands { (r : AnyRecord) × IsAt reader.old.records kept.place r × (op_of r ≡ Some kept.by) }
    ensures own { IfOk result (λ told. is_of kept.by (op_of told) ≡ true) }
    ensures is { IfOk result (λ told. L.honest reader.new.device → (s : AnyRecord) → IsAt reader.old.records kept.place s
        → told ≡ s) }
    ensures err { IfErr result (λ e. NotReadFor L.LogDevice e lsn reader.old.device reader.new.device) }
    ensures cause { OnOk result (L.faults reader.new.device ≡ L.faults reader.old.device) }
    ensures same { reader.new ≡ record reader.old { device = reader.new.device } }
    ensures read { IsRead L.LogDevice reader.old.device reader.new.device }
{
    match reader.at(kept.place) {
        Ok(told) => {
            if is_of(&told, kept.by) {
                Ok(told)
            } else {
                Err(Refusal::Damaged(Damage::Record(lsn)))
            }
        }
        Err(refusal) => Err(not_given(lsn, refusal)),
    }
}

// Where the newest write of the operation is told, if it has this LSN.
fn place_of_newest(analysis: &Analysis, by: Sub, undone: Lsn) -> Option<Place>
    requires { (older : List AnyRecord) × IsAnalysisOf analysis.now older }
    ensures some { IfSome result (λ p. In p analysis.now.places.writes × (p.lsn ≡ undone)
        × (lsn_undoable (first (filter (undoable_by by) analysis.now.open_work.undoable)) ≡ Some undone)) }
    ensures none { IfNone result ((older : List AnyRecord) → IsAnalysisOf analysis.now older
        → lsn_undoable (first (filter (undoable_by by) analysis.now.open_work.undoable)) ≡ Some undone → ⊥) }
{
    match analysis.open_work.newest_undoable(by) {
        Some(newest) => {
            if newest == undone {
                place_with(analysis.places.writes(), undone)
            } else {
                None
            }
        }
        None => None,
    }
}

// Whether the record wrote this slot, over these bytes.
fn wrote_over(told: &Record, page: u32, slot: u8, bytes: &Slot) -> bool
    ensures { IsTrue result ↔ WroteOver told.now page slot bytes.now }
{
    match told {
        Record::PageOp {
            page: written,
            slot: place,
            before,
            ..
        } => *written == page && *place == slot && *before == *bytes,
        _ => false,
    }
}
