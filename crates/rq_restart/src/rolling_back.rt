//! Undoing what has no end in a log: operations, and then transactions.
ghost use Rattle.std.specs.Prelude.{◌≡◌, ◌<◌, IfErr, IfOk, OnErr, OnOk, false, length};
ghost use Rattle.rq_disk.specs.Device.{Images};
ghost use Rattle.rq_views.specs.Stored.{slots_in};
ghost use Rattle.rq_pool.specs.Fetching.{HasReadFor, IsReadAsStored};
ghost use Rattle.rq_pool.specs.Pooled.{IsPool};
ghost use Rattle.rq_planner.specs.Answered.{KnowsCells};
ghost use Rattle.rq_analysis.specs.Rules.{FollowAll};
ghost use Rattle.rq_chain_check.specs.Links.{AreLinked};
ghost use Rattle.rq_restart.specs.Found.{IsAnalysisOf};
ghost use Rattle.rq_restart.specs.Repeating.{ArePagesCounted, Repeats, paged, slots_on};
ghost use Rattle.rq_restart.specs.RolledBack.{IsRolledBack, IsRolledBackSince, LinkStops, RollbackStops};
ghost use Rattle.rq_restart.specs.Standing.{Found, KeepsStore, NoneHeld, Stands};
ghost use Rattle.rq_restart.specs.Undoing.{AreAsFound, GoesOn, HaveBeenHonest, HaveToldTruly, IsOfReads};

use crate::aborting::abort_lost;
use crate::analysis::Analysis;
use crate::appending::shows_pool;
use crate::undoing::undo_unfinished;
use rq_chain_check::first_broken;
use rq_disk::{LogDevice, PageDevice};
use rq_level::Level;
use rq_log::Log;
use rq_model::refusal::{Damage, Refusal};
use rq_planner::{Planner, StoreLevels};
use rq_pool::Pages;
use std::alloc::Global;

/// Undoes what has no end in the log, of which these are the findings: operations, and then transactions. Then it looks whether
/// the senders' chains are whole. Gives how many transactions were lost, and what plans operations, told of each cell.
///
/// # Errors
/// `NoMemory`; `DiskRead`, `DiskWrite`; `LogFull` where the log is at its greatest length; `Damaged` with the number of a record that
/// would not belong where it has to stand or is not to be taken back, with the page of a chain that is not whole, or with one that a
/// device gave that has lied.
pub(crate) fn undo_all<P: PageDevice + Drop, L: LogDevice + Drop, B: Level>(
    alloc: Global,
    pages: &mut Pages<P>,
    log: &mut Log<L>,
    analysis: &mut Analysis,
    levels: StoreLevels<B>,
) -> Result<(u64, Planner<B>), Refusal>
    requires held { NoneHeld pages.old.frames }
    requires more { 1 < length pages.old.frames }
    requires found { IsAnalysisOf analysis.old log.old.records }
    requires follow { L.honest log.old.device → FollowAll log.old.records }
    requires running { log.old.failed ≡ false }
    ensures is { OnOk result (L.honest log.new.device → IsRolledBack log.old.records log.new.records) }
    ensures rolls_back { OnOk result (HaveToldTruly P.PageDevice L.LogDevice pages.old pages.new log.new.device
        → IsRolledBackSince pages.old.sizes log.old.records log.new.records (paged pages.old) (paged pages.new)) }
    ensures counted { OnOk result (HaveToldTruly P.PageDevice L.LogDevice pages.old pages.new log.new.device
        → ArePagesCounted pages.old.sizes (length log.old.records) (paged pages.old)
        → ArePagesCounted pages.old.sizes (length log.new.records) (paged pages.new)) }
    ensures linked { OnOk result (HaveToldTruly P.PageDevice L.LogDevice pages.old pages.new log.new.device
        → AreLinked pages.old.sizes (slots_on pages.old.sizes (paged pages.new))) }
    ensures lost { IfOk result (λ rolled_back. rolled_back.0 ≡ length analysis.old.open_work.active) }
    ensures known { IfOk result (λ rolled_back. KnowsCells pages.new.sizes pages.new.images rolled_back.1) }
    ensures found { OnOk result (IsAnalysisOf analysis.new log.new.records) }
    ensures stops { IfErr result (λ e. HaveToldTruly P.PageDevice L.LogDevice pages.old pages.new log.new.device → (first : Images)
        → Repeats pages.old.sizes log.old.records first (paged pages.old)
        → RollbackStops pages.old.sizes log.old.records first e) }
    ensures goes_on { GoesOn P.PageDevice L.LogDevice pages.old log.old.device log.old.records result pages.new
        log.new.device log.new.records }
    ensures running { OnOk result (log.new.failed ≡ false) }
    ensures room { OnOk result (log.new.reserved ≡ log.old.reserved) }
    ensures way { HaveBeenHonest P.PageDevice L.LogDevice pages.new.device log.new.device → (f : Found P L)
        → Stands P.PageDevice L.LogDevice f pages.old log.old → AreAsFound P.PageDevice L.LogDevice f log.old.records
        → OnOk result (Stands P.PageDevice L.LogDevice f pages.new log.new)
        × OnErr result (KeepsStore P.PageDevice L.LogDevice f pages.new.device log.new.device) }
{
    let lost = analysis.open_work.active().len() as u64;
    let mut planner = Planner::new(alloc, levels);
    undo_unfinished(alloc, pages, log, analysis, &mut planner)?;
    planner.tell(pages)?;
    abort_lost(alloc, pages, log, analysis, &mut planner)?;
    check_links(alloc, pages)?;
    Ok((lost, planner))
}

// That the senders' chains are whole; else it is refused with the page to be named. Pages are read that stand in no frame.
fn check_links<P: PageDevice>(alloc: Global, pages: &mut Pages<P>) -> Result<(), Refusal>
    ensures linked { OnOk result (IsReadAsStored P.PageDevice pages.old pages.new
        → AreLinked pages.old.sizes (slots_in pages.old.sizes pages.old.images)) }
    ensures stops { IfErr result (λ e. IsReadAsStored P.PageDevice pages.old pages.new
        → LinkStops pages.old.sizes (slots_in pages.old.sizes pages.old.images) e) }
    ensures pool { IsPool pages.old.sizes pages.old.images }
    ensures read { HasReadFor P.PageDevice pages.old result pages.new }
    ensures names { IfErr result IsOfReads }
{
    shows_pool(pages);
    match first_broken(alloc, pages) {
        Ok(Some(page)) => Err(Refusal::Damaged(Damage::Page(page))),
        Ok(None) => Ok(()),
        Err(refusal) => Err(refusal),
    }
}
