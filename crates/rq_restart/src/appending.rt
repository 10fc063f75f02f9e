//! Records that a restart makes behind the log that it read.
ghost use Rattle.std.specs.Prelude.{◌≡◌, ◌∷◌, ◌+◌, ◌-◌, ◌<◌, IfErr, IfNone, IfSome, IsTrue, OnOk, None, false, length};
ghost use Rattle.rq_log.specs.Spelled.{AreSpelled};
ghost use Rattle.rq_model.specs.Bases.{is_base};
ghost use Rattle.rq_pool.specs.Pooled.{IsPool};
ghost use Rattle.rq_record.specs.Spelling.{IsInRange};
ghost use Rattle.rq_store.specs.Fitting.{told_by, image_in};
ghost use Rattle.rq_store.specs.Opening.{MayRedo, Redoes};
ghost use Rattle.rq_analysis.specs.LogTables.{PutsBack};
ghost use Rattle.rq_analysis.specs.Rules.{CanBeRead, FollowAll};
ghost use Rattle.rq_restart.specs.Found.{IsAnalysisOf};
ghost use Rattle.rq_restart.specs.Repeating.{AreMarked, ArePagesCounted, Belongs, IsRecordRedone, paged};
ghost use Rattle.rq_restart.specs.Standing.{NoneHeld};
ghost use Rattle.rq_restart.specs.Undoing.{GoesOn, IsToBeWritten, MakesWay, NoPageFor, NamesNoDevice, StandsToWrite, StepStops};

use crate::analysis::Analysis;
use crate::redo::may_redo;
use rq_disk::{LogDevice, PageDevice};
use rq_level::Level;
use rq_log::Log;
use rq_model::limits::LOG_LIMIT;
use rq_model::record::Record;
use rq_model::refusal::{Damage, Refusal};
use rq_model::txn::Lsn;
use rq_page::addr::Addr;
use rq_page::layout::Layout;
use rq_planner::Planner;
use rq_pool::Pages;
use rq_record::{shows_fits, spelled_len};

/// Has the page that a record writes stand in a frame, if the store has it. Another may give way, behind the force of all records.
///
/// # Errors
/// What a device did: `DiskRead`, `DiskWrite`; `Damaged`, where that of the pages has lied.
pub(crate) fn make_way<P: PageDevice + Drop, L: LogDevice + Drop>(
    pages: &mut Pages<P>,
    log: &mut Log<L>,
    undo: &Record,
) -> Result<(), Refusal>
    requires running { log.old.failed ≡ false }
    requires held { NoneHeld pages.old.frames }
    requires more { 1 < length pages.old.frames }
    ensures stands { OnOk result (StandsToWrite pages.new undo.now) }
    ensures made { MakesWay P.PageDevice L.LogDevice pages.old log.old result pages.new log.new }
{
    pages.shows_kept();
    let Some(page) = page_of(&pages.layout(), undo) else {
        return Ok(());
    };
    if pages.stands(page) {
        return Ok(());
    }
    log.shows_kept();
    log.force()?;
    pages.bring_in(page)
}

/// The page that a record writes, if the store has it.
pub(crate) fn page_of(layout: &Layout, record: &Record) -> Option<u32>
    ensures some { IfSome result (λ page. IsToBeWritten layout.now «record».now page) }
    ensures none { IfNone result (NoPageFor layout.now «record».now) }
{
    let page = match record {
        Record::PageOp { page, .. } => *page,
        Record::PageUndo { page, .. } => *page,
        _ => return None,
    };
    if page == 0 || page >= layout.pages() {
        return None;
    }
    Some(page)
}

/// Appends a record that undoes something, which tells no deed or one that its level reads, and makes what it writes on the
/// pages. The log hands nothing over.
///
/// # Errors
/// `NoMemory`; `LogFull` where the log is at its greatest length; `Damaged` with the number of the record where it doesn't
/// belong there.
pub(crate) fn append<P: PageDevice + Drop, L: LogDevice + Drop, B: Level>(
    pages: &mut Pages<P>,
    log: &mut Log<L>,
    analysis: &mut Analysis,
    planner: &mut Planner<B>,
    undo: &Record,
) -> Result<(), Refusal>
    requires stands { StandsToWrite pages.old undo.now }
    requires found { IsAnalysisOf analysis.old log.old.records }
    requires follow { L.honest log.old.device → FollowAll log.old.records }
    requires running { log.old.failed ≡ false }
    requires range { AreSpelled log.old.records → IsInRange undo.now }
    requires readable { CanBeRead undo.now }
    requires puts_back { L.honest log.old.device → PutsBack analysis.old.open_work undo.now }
    requires plain { is_base undo.now ≡ false }
    ensures records { OnOk result (log.new.records ≡ undo.now ∷ log.old.records) }
    ensures found { OnOk result (IsAnalysisOf analysis.new log.new.records) }
    ensures follow { OnOk result (L.honest log.new.device → FollowAll log.new.records) }
    ensures repeated { OnOk result (L.honest log.new.device
        → IsRecordRedone pages.old.sizes log.old.records undo.now (paged pages.old) (paged pages.new)) }
    ensures written { OnOk result (Redoes (told_by undo.now) (length log.old.records + 1) (image_in pages.old.images)
        (image_in pages.new.images)) }
    ensures counted { OnOk result (ArePagesCounted pages.old.sizes (length log.old.records) (paged pages.old)
        → ArePagesCounted pages.old.sizes (length log.new.records) (paged pages.new)) }
    ensures pool { OnOk result (IsPool pages.new.sizes pages.new.images) }
    ensures same { OnOk result (told_by undo.now ≡ None → pages.new ≡ pages.old) }
    ensures stops { IfErr result (λ e. L.honest log.new.device → StepStops (length log.old.records)
        (Belongs pages.old.sizes log.old.records undo.now (paged pages.old)) e) }
    ensures fails { IfErr result NamesNoDevice }
    ensures goes_on { GoesOn P.PageDevice L.LogDevice pages.old log.old.device log.old.records result pages.new
        log.new.device log.new.records }
    ensures running { log.new.failed ≡ false }
    ensures device { log.new.device ≡ log.old.device }
    ensures marked { AreMarked (length log.new.records) pages.old pages.new }
    ensures sizes { pages.new.sizes ≡ pages.old.sizes }
    ensures pages_device { pages.new.device ≡ pages.old.device }
    ensures frames { pages.new.frames ≡ pages.old.frames }
    ensures room { OnOk result (log.new.reserved ≡ log.old.reserved) }
    ensures planner { planner.new ≡ planner.old }
{
    log.shows_kept();
    if log.last() >= LOG_LIMIT {
        return Err(Refusal::LogFull);
    }
    let lsn = log.last() + 1;
    shows_fits(undo);
    log.reserve(spelled_len(undo))?;
    if !analysis.may_take(true, true, undo) {
        return Err(Refusal::Damaged(Damage::Record(lsn)));
    }
    analysis.note(lsn, undo)?;
    if !make(pages, planner, lsn, undo) {
        return Err(Refusal::Damaged(Damage::Record(lsn)));
    }
    log.append(undo);
    shows_pool(pages);
    Ok(())
}

// Makes what a record writes, where its page is older. False where the record doesn't fit the store.
#[tactic(auto, using(crate::proofs::Marking::same_marked))]
fn make<P: PageDevice + Drop, B: Level>(
    pages: &mut Pages<P>,
    planner: &mut Planner<B>,
    lsn: Lsn,
    undo: &Record,
) -> bool
    requires stands { StandsToWrite pages.old undo.now }
    ensures redone { IsTrue result → Redoes (told_by undo.now) lsn (image_in pages.old.images)
        (image_in pages.new.images) }
    ensures marked { AreMarked lsn pages.old pages.new }
    ensures same { told_by undo.now ≡ None → pages.new ≡ pages.old }
    ensures checked { IsTrue result → MayRedo pages.old.sizes (image_in pages.old.images) lsn undo.now }
    ensures refused { result ≡ false → (pages.new ≡ pages.old)
        × (MayRedo pages.old.sizes (image_in pages.old.images) lsn undo.now → ⊥) }
    ensures planner { planner.new ≡ planner.old }
    ensures sizes { pages.new.sizes ≡ pages.old.sizes }
    ensures device { pages.new.device ≡ pages.old.device }
    ensures frames { pages.new.frames ≡ pages.old.frames }
{
    if !may_redo(pages, lsn, undo) {
        return false;
    }
    make_write(pages, planner, lsn, undo);
    true
}

// Has the level of single slots make what a record writes, where its page is older.
#[tactic(auto, using(crate::proofs::Marking::same_marked, crate::proofs::Marking::applied_marked))]
fn make_write<P: PageDevice + Drop, B: Level>(
    pages: &mut Pages<P>,
    planner: &mut Planner<B>,
    lsn: Lsn,
    undo: &Record,
)
    requires stands { StandsToWrite pages.old undo.now }
    requires write { MayRedo pages.old.sizes (image_in pages.old.images) lsn undo.now }
    ensures redone { Redoes (told_by undo.now) lsn (image_in pages.old.images) (image_in pages.new.images) }
    ensures marked { AreMarked lsn pages.old pages.new }
    ensures same { told_by undo.now ≡ None → pages.new ≡ pages.old }
    ensures planner { planner.new ≡ planner.old }
    ensures sizes { pages.new.sizes ≡ pages.old.sizes }
    ensures device { pages.new.device ≡ pages.old.device }
    ensures frames { pages.new.frames ≡ pages.old.frames }
{
    let at = match undo {
        Record::PageOp { page, slot, .. } => Addr::new(*page, *slot),
        Record::PageUndo { page, slot, .. } => Addr::new(*page, *slot),
        _ => return,
    };
    planner.redo(pages, at, lsn, undo);
}

/// That the pages are those of a store.
pub(crate) fn shows_pool<P: PageDevice>(pages: &Pages<P>)
    ensures { IsPool pages.now.sizes pages.now.images }
{
    pages.layout();
}
