//! Undoing lost transactions, one after the other, by the inverses of what they did.
ghost use Rattle.std.specs.Prelude.{◌≡◌, ◌∷◌, ◌<◌, IfOk, IfErr, MatchOption, OnOk, OnErr, None, false, List, [], length, take};
ghost use Rattle.rq_views.specs.Stored.{slots_in};
ghost use Rattle.rq_level.specs.Writes.{AreSlotWrites};
ghost use Rattle.rq_pool.specs.Fetching.{HasReadFor, IsReadAsStored};
ghost use Rattle.rq_planner.specs.Answered.{IsPlannedAlone, KnowsCells};
ghost use Rattle.rq_planner.specs.Backs.{IsTakingBack};
ghost use Rattle.rq_analysis.specs.declared.dues.PendingUndo.{PendingUndo};
ghost use Rattle.rq_analysis.specs.Choices.{least_free};
ghost use Rattle.rq_analysis.specs.Dues.{end_due};
ghost use Rattle.rq_analysis.specs.Rules.{FollowAll};
ghost use Rattle.rq_record.specs.Spelling.{IsTxnInRange};
ghost use Rattle.rq_store.specs.Steps.{page_op};
ghost use Rattle.rq_model.specs.Deeds.{deed_by};
ghost use Rattle.rq_model.specs.Vocabulary.{In};
ghost use Rattle.rq_restart.specs.Aborted.{Aborts, Carries};
ghost use Rattle.rq_restart.specs.Aborting.{IsMaking, IsShownWithin, PlanStops, with_writes};
ghost use Rattle.rq_restart.specs.Checked.{IsEnded};
ghost use Rattle.rq_restart.specs.Found.{IsAnalysisOf};
ghost use Rattle.rq_restart.specs.Standing.{NoneHeld};
ghost use Rattle.rq_restart.specs.Undoing.{IsOfReads};

use crate::again::{blamed, due_again};
use crate::analysis::Analysis;
use crate::appending::{append, make_way};
use rq_analysis::{PendingUndo, next_end};
use rq_disk::{LogDevice, PageDevice};
use rq_level::{Level, SlotWrite};
use rq_log::Log;
use rq_model::limits::LOG_LIMIT;
use rq_model::record::Record;
use rq_model::refusal::{Damage, Refusal};
use rq_model::txn::{Lsn, Txn};
use rq_planner::Planner;
use rq_pool::Pages;
use std::alloc::Global;

/// Undoes the transactions that have no end: those first that have nothing left to be taken back, by rising number. Then
/// it undoes what the others did, the newest of all first, each with its end behind the last that it did. The records of it
/// are made behind the log, of which these are the findings. Where a page is wanting, another gives way in a frame, behind the force
/// of all records.
///
/// # Errors
/// `NoMemory`; `DiskRead`, `DiskWrite`; `LogFull` where the log is at its greatest length; `Damaged` with the number of the OpEnd that
/// cannot be taken back or that the device gives no more, or of a record that would not belong where it has to stand; or with a page
/// that a device gave that has lied.
pub(crate) fn abort_lost<P: PageDevice + Drop, L: LogDevice + Drop, B: Level>(
    alloc: Global,
    pages: &mut Pages<P>,
    log: &mut Log<L>,
    analysis: &mut Analysis,
    planner: &mut Planner<B>,
) -> Result<(), Refusal>
    requires held { NoneHeld pages.old.frames }
    requires more { 1 < length pages.old.frames }
    requires found { IsAnalysisOf analysis.old log.old.records }
    requires follow { L.honest log.old.device → FollowAll log.old.records }
    requires running { log.old.failed ≡ false }
    requires cells { KnowsCells pages.old.sizes pages.old.images planner.old }
    ensures rounds { Aborts P.PageDevice L.LogDevice pages.old log.old result pages.new log.new }
    ensures ended { OnOk result (IsEnded log.new.records) }
    ensures none { OnOk result (IsEnded log.old.records → (log.new ≡ log.old) × (pages.new ≡ pages.old)) }
    ensures found { OnOk result (IsAnalysisOf analysis.new log.new.records) }
    ensures follow { OnOk result (L.honest log.new.device → FollowAll log.new.records) }
    ensures cells { OnOk result (KnowsCells pages.new.sizes pages.new.images planner.new) }
    ensures some { OnErr result (IsEnded log.old.records → ⊥) }
    ensures running { OnOk result (log.new.failed ≡ false) }
    ensures room { OnOk result (log.new.reserved ≡ log.old.reserved) }
{
    if analysis.open_work.all_ended() {
        return Ok(());
    }
    end_idle(pages, log, analysis, planner)?;
    undo_all_due(alloc, pages, log, analysis, planner)?;
    Ok(())
}

// Ends the transactions without an end that have nothing left to be taken back.
fn end_idle<P: PageDevice + Drop, L: LogDevice + Drop, B: Level>(
    pages: &mut Pages<P>,
    log: &mut Log<L>,
    analysis: &mut Analysis,
    planner: &mut Planner<B>,
) -> Result<(), Refusal>
    requires found { IsAnalysisOf analysis.old log.old.records }
    requires follow { L.honest log.old.device → FollowAll log.old.records }
    requires running { log.old.failed ≡ false }
    ensures rounds { Aborts P.PageDevice L.LogDevice pages.old log.old result pages.new log.new }
    ensures same { OnOk result (pages.new ≡ pages.old) }
    ensures none { OnOk result (least_free analysis.new.dues analysis.new.open_work.active ≡ None) }
    ensures found { OnOk result (IsAnalysisOf analysis.new log.new.records) }
    ensures follow { OnOk result (L.honest log.new.device → FollowAll log.new.records) }
    ensures running { OnOk result (log.new.failed ≡ false) }
    ensures room { OnOk result (log.new.reserved ≡ log.old.reserved) }
    ensures planner { planner.new ≡ planner.old }
{
    while let Some(txn) = next_end(analysis.open_work.active(), &analysis.dues) {
        append(pages, log, analysis, planner, &Record::AbortEnd { txn })?;
    }
    Ok(())
}

// Takes back what transactions without an end did, the newest first, and ends each once all of it is taken back.
fn undo_all_due<P: PageDevice + Drop, L: LogDevice + Drop, B: Level>(
    alloc: Global,
    pages: &mut Pages<P>,
    log: &mut Log<L>,
    analysis: &mut Analysis,
    planner: &mut Planner<B>,
) -> Result<(), Refusal>
    requires held { NoneHeld pages.old.frames }
    requires more { 1 < length pages.old.frames }
    requires found { IsAnalysisOf analysis.old log.old.records }
    requires follow { L.honest log.old.device → FollowAll log.old.records }
    requires none { least_free analysis.old.dues analysis.old.open_work.active ≡ None }
    requires running { log.old.failed ≡ false }
    requires cells { KnowsCells pages.old.sizes pages.old.images planner.old }
    ensures rounds { Aborts P.PageDevice L.LogDevice pages.old log.old result pages.new log.new }
    ensures ended { OnOk result (IsEnded log.new.records) }
    ensures found { OnOk result (IsAnalysisOf analysis.new log.new.records) }
    ensures follow { OnOk result (L.honest log.new.device → FollowAll log.new.records) }
    ensures cells { OnOk result (KnowsCells pages.new.sizes pages.new.images planner.new) }
    ensures running { OnOk result (log.new.failed ≡ false) }
    ensures room { OnOk result (log.new.reserved ≡ log.old.reserved) }
{
    while let Some((txn, lsn)) = newest_due(analysis) {
        log.shows_kept();
        let due = due_again(log, analysis, txn, lsn)?;
        undo_due(alloc, pages, log, analysis, planner, &due)?;
        if !analysis.dues.owes(txn) {
            append(pages, log, analysis, planner, &Record::AbortEnd { txn })?;
        }
    }
    Ok(())
}

// Whose what is taken back next is, and the LSN of its OpEnd.
fn newest_due(analysis: &Analysis) -> Option<(Txn, Lsn)>
    ensures { MatchOption result (analysis.now.dues ≡ []) (λ due. (first : PendingUndo) × (older : List PendingUndo)
        × (analysis.now.dues ≡ first ∷ older) × (first.txn ≡ due.0) × (first.lsn ≡ due.1)) }
{
    match analysis.dues.newest() {
        Some(due) => Some((due.txn(), due.lsn())),
        None => None,
    }
}

// Takes back what is due first.
fn undo_due<P: PageDevice + Drop, L: LogDevice + Drop, B: Level>(
    alloc: Global,
    pages: &mut Pages<P>,
    log: &mut Log<L>,
    analysis: &mut Analysis,
    planner: &mut Planner<B>,
    due: &PendingUndo,
) -> Result<(), Refusal>
    requires held { NoneHeld pages.old.frames }
    requires more { 1 < length pages.old.frames }
    requires found { IsAnalysisOf analysis.old log.old.records }
    requires follow { L.honest log.old.device → FollowAll log.old.records }
    requires none { least_free analysis.old.dues analysis.old.open_work.active ≡ None }
    requires first { (first : PendingUndo) × (older : List PendingUndo) × (analysis.old.dues ≡ first ∷ older)
        × (first.txn ≡ due.now.txn) × (first.lsn ≡ due.now.lsn) × (L.honest log.old.device → due.now ≡ first) }
    requires running { log.old.failed ≡ false }
    requires cells { KnowsCells pages.old.sizes pages.old.images planner.old }
    ensures rounds { Aborts P.PageDevice L.LogDevice pages.old log.old result pages.new log.new }
    ensures rest { OnOk result ((first : PendingUndo) × (analysis.old.dues ≡ first ∷ analysis.new.dues)) }
    ensures lost { OnOk result (L.honest log.new.device → In due.now.txn analysis.old.open_work.active) }
    ensures active { OnOk result (analysis.new.open_work.active ≡ analysis.old.open_work.active) }
    ensures found { OnOk result (IsAnalysisOf analysis.new log.new.records) }
    ensures follow { OnOk result (L.honest log.new.device → FollowAll log.new.records) }
    ensures cells { OnOk result (KnowsCells pages.new.sizes pages.new.images planner.new) }
    ensures running { OnOk result (log.new.failed ≡ false) }
    ensures room { OnOk result (log.new.reserved ≡ log.old.reserved) }
{
    log.shows_kept();
    if log.last() >= LOG_LIMIT {
        return Err(Refusal::LogFull);
    }
    let writes = plan(alloc, pages, planner, due)?;
    let Some(operation) = analysis.numbers.greatest(due.txn).checked_add(1) else {
        return Err(Refusal::Damaged(Damage::Record(due.lsn)));
    };
    make_all(pages, log, analysis, planner, due, operation, &writes)?;
    let end = Record::CompEnd {
        txn: due.txn,
        operation,
        undone: due.lsn,
    };
    append(pages, log, analysis, planner, &end)?;
    Ok(())
}

// Makes the writes by which what is due is taken back, each with its record. The page of each is brought into a frame for that.
fn make_all<P: PageDevice + Drop, L: LogDevice + Drop, B: Level>(
    pages: &mut Pages<P>,
    log: &mut Log<L>,
    analysis: &mut Analysis,
    planner: &mut Planner<B>,
    due: &PendingUndo,
    operation: u64,
    writes: &[SlotWrite],
) -> Result<(), Refusal>
    requires held { NoneHeld pages.old.frames }
    requires more { 1 < length pages.old.frames }
    requires found { IsAnalysisOf analysis.old log.old.records }
    requires follow { L.honest log.old.device → FollowAll log.old.records }
    requires txn { IsTxnInRange due.now.txn }
    requires number { 0 < operation }
    requires slots { AreSlotWrites pages.old.sizes writes.now }
    requires running { log.old.failed ≡ false }
    requires cells { KnowsCells pages.old.sizes pages.old.images planner.old }
    ensures records { OnOk result
        (with_writes due.now.txn operation (take (length writes.now) writes.now) log.old.records ≡ log.new.records) }
    ensures made { Carries P.PageDevice L.LogDevice
        (with_writes due.now.txn operation (take (length writes.now) writes.now) log.old.records ≡ log.new.records)
        (IsMaking due.now.txn operation writes.now log.old.records)
        (IsShownWithin log.old.records pages.old due.now operation writes.now 0)
        (IsShownWithin log.new.records pages.new due.now operation writes.now (length writes.now))
        pages.old log.old result pages.new log.new }
    ensures rest { OnOk result ((analysis.new.dues ≡ analysis.old.dues)
        × (analysis.new.open_work.active ≡ analysis.old.open_work.active)) }
    ensures found { OnOk result (IsAnalysisOf analysis.new log.new.records) }
    ensures follow { OnOk result (L.honest log.new.device → FollowAll log.new.records) }
    ensures cells { OnOk result (KnowsCells pages.new.sizes pages.new.images planner.new) }
    ensures running { OnOk result (log.new.failed ≡ false) }
    ensures room { OnOk result (log.new.reserved ≡ log.old.reserved) }
{
    for index in 0..writes.len() {
        let write = &writes[index];
        let undo = written(due, operation, write);
        make_way(pages, log, &undo)?;
        append(pages, log, analysis, planner, &undo)?;
        planner.renew(pages, write.at);
    }
    Ok(())
}

// The record of a write by which what is due is taken back.
fn written(due: &PendingUndo, operation: u64, write: &SlotWrite) -> Record
    ensures { result ≡ page_op due.now.txn operation write.now }
{
    Record::PageOp {
        txn: due.txn,
        operation,
        page: write.at.page() as u32,
        slot: write.at.slot(),
        before: write.before,
        after: write.after,
    }
}

// The OpEnd that tells what is due.
fn op_end(due: &PendingUndo) -> Record
    ensures { result ≡ end_due due.now }
{
    Record::OpEnd {
        txn: due.txn,
        operation: due.number,
        level: due.level,
        deed: due.deed,
    }
}

// The writes that take back what is due, over the slots as they are. Nobody has latched a page. Pages are read that stand in no
// frame.
fn plan<P: PageDevice, B: Level>(
    alloc: Global,
    pages: &mut Pages<P>,
    planner: &mut Planner<B>,
    due: &PendingUndo,
) -> Result<Vec<SlotWrite>, Refusal>
    requires cells { KnowsCells pages.old.sizes pages.old.images planner.old }
    ensures read { HasReadFor P.PageDevice pages.old result pages.new }
    ensures same { planner.new ≡ planner.old }
    ensures lawful { IfOk result (λ writes. AreSlotWrites pages.old.sizes writes.items) }
    ensures answered { IsReadAsStored P.PageDevice pages.old pages.new → IfOk result (λ writes.
        IsPlannedAlone pages.old.sizes pages.old.images planner.old (end_due due.now) writes.items) }
    ensures back { IsReadAsStored P.PageDevice pages.old pages.new → IfOk result (λ writes. IsTakingBack pages.old.sizes
        (slots_in pages.old.sizes pages.old.images) (deed_by due.now.level due.now.deed) writes.items) }
    ensures stops { IsReadAsStored P.PageDevice pages.old pages.new
        → IfErr result (λ e. PlanStops pages.old.sizes pages.old.images due.now e) }
    ensures names { IfErr result IsOfReads }
{
    match planner.plan_inverse_alone(alloc, pages, &op_end(due)) {
        Ok(writes) => Ok(writes),
        Err(refusal) => Err(blamed(due.lsn, refusal)),
    }
}
