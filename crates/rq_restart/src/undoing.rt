//! Undoing operations that have no end, slot by slot.
ghost use Rattle.std.specs.Prelude.{◌≡◌, ◌<◌, IfErr, OnErr, OnOk, false, length};
ghost use Rattle.rq_disk.specs.Device.{Images};
ghost use Rattle.rq_pool.specs.Pooled.{IsPool};
ghost use Rattle.rq_analysis.specs.Pages.{IsUndone};
ghost use Rattle.rq_analysis.specs.Rules.{FollowAll};
ghost use Rattle.rq_restart.specs.Found.{IsAnalysisOf};
ghost use Rattle.rq_restart.specs.Repeating.{Repeats, paged};
ghost use Rattle.rq_restart.specs.Standing.{Found, KeepsStore, NoneHeld, Stands};
ghost use Rattle.rq_restart.specs.Undoing.{AreAsFound, GoesOn, HaveBeenHonest, HaveToldTruly, IsRepeatedOn, UndoStops};

use crate::again::undo_record;
use crate::analysis::Analysis;
use crate::appending::{append, make_way, shows_pool};
use rq_disk::{LogDevice, PageDevice};
use rq_level::Level;
use rq_log::Log;
use rq_model::refusal::Refusal;
use rq_planner::Planner;
use rq_pool::Pages;
use std::alloc::Global;

/// Undoes what operations without an end wrote, the newest write of all first, and voids each once its writes are undone. The
/// records of it are made behind the log, of which these are the findings. Where a page is wanting, another gives way in a frame.
///
/// # Errors
/// `NoMemory`, where something is to be undone; `DiskRead`, `DiskWrite`; `LogFull` where the log is at its greatest length; `Damaged` with
/// the number of a record that would not belong where it has to stand, or that the device gives no more; or with a page that a device
/// gave that has lied.
pub(crate) fn undo_unfinished<P: PageDevice + Drop, L: LogDevice + Drop, B: Level>(
    alloc: Global,
    pages: &mut Pages<P>,
    log: &mut Log<L>,
    analysis: &mut Analysis,
    planner: &mut Planner<B>,
) -> Result<(), Refusal>
    requires found { IsAnalysisOf analysis.old log.old.records }
    requires follow { L.honest log.old.device → FollowAll log.old.records }
    requires running { log.old.failed ≡ false }
    requires held { NoneHeld pages.old.frames }
    requires more { 1 < length pages.old.frames }
    ensures undone { OnOk result (L.honest log.new.device → IsUndone log.old.records log.new.records) }
    ensures found { OnOk result (IsAnalysisOf analysis.new log.new.records) }
    ensures follow { OnOk result (L.honest log.new.device → FollowAll log.new.records) }
    ensures repeated { OnOk result (HaveToldTruly P.PageDevice L.LogDevice pages.old pages.new log.new.device
        → IsRepeatedOn pages.old.sizes log.old.records (paged pages.old) log.new.records (paged pages.new)) }
    ensures pool { OnOk result (IsPool pages.new.sizes pages.new.images) }
    ensures stops { IfErr result (λ e. HaveToldTruly P.PageDevice L.LogDevice pages.old pages.new log.new.device → (first : Images)
        → Repeats pages.old.sizes log.old.records first (paged pages.old)
        → UndoStops pages.old.sizes log.old.records first e) }
    ensures goes_on { GoesOn P.PageDevice L.LogDevice pages.old log.old.device log.old.records result pages.new
        log.new.device log.new.records }
    ensures running { OnOk result (log.new.failed ≡ false) }
    ensures room { OnOk result (log.new.reserved ≡ log.old.reserved) }
    ensures way { HaveBeenHonest P.PageDevice L.LogDevice pages.new.device log.new.device → (f : Found P L)
        → Stands P.PageDevice L.LogDevice f pages.old log.old → AreAsFound P.PageDevice L.LogDevice f log.old.records
        → OnOk result (Stands P.PageDevice L.LogDevice f pages.new log.new)
        × OnErr result (KeepsStore P.PageDevice L.LogDevice f pages.new.device log.new.device) }
    ensures planner { planner.new ≡ planner.old }
{
    while let Some(next) = analysis.open_work.next_undo() {
        let undo = undo_record(alloc, log, analysis, planner, next)?;
        make_way(pages, log, &undo)?;
        append(pages, log, analysis, planner, &undo)?;
    }
    shows_pool(pages);
    Ok(())
}
