//! Opening a store that a crash, or nothing at all, left behind.
ghost use Rattle.std.specs.Prelude.{◌≡◌, ◌≢◌, [], ◌+◌, ◌-◌, ◌<◌, ◌≤◌, ◌∷◌, ◌++◌, Ok, Err, List, IfOk, IfErr, OnOk, false, length};
ghost use Rattle.rq_disk.specs.Device.{FailureIsCounted, Images};
ghost use Rattle.rq_model.specs.declared.record.Record.TheVariants as records;
ghost use Rattle.rq_model.specs.declared.record.Record.{Record};
ghost use Rattle.rq_log.specs.Crash.{LeavesOnly};
ghost use Rattle.rq_log.specs.Reading.{BeginsWith, IsRead};
ghost use Rattle.rq_page.specs.Sizes.{page_count};
ghost use Rattle.rq_pool.specs.Fetching.{AreAllFramed};
ghost use Rattle.rq_pool.specs.Pooled.{IsPool};
ghost use Rattle.rq_analysis.specs.Rules.{FollowAll};
ghost use Rattle.rq_restart.specs.Repeating.{HaveLsnsWithin, Repeats, paged};
ghost use Rattle.rq_restart.specs.Opens.{KeepsStores, Opens, ReadWhereEnough, Refuses};
ghost use Rattle.rq_restart.specs.Restarting.{Continues, IsBegun, IsLogRead, OpensLog, RefusesLog, IsReady, IsRestarted, LeavesLog, WasLeftOrForced};
ghost use Rattle.rq_restart.specs.Refused.{BeginsNot, IsStoppedBehind, WhyShut};
ghost use Rattle.rq_restart.specs.Numbers.{AreNumbersOf};
ghost use Rattle.rq_restart.specs.declared.analysis.Analysis.{Analysis as Findings};
ghost use Rattle.rq_restart.specs.Found.{IsAnalysisOf};
ghost use Rattle.rq_restart.specs.RolledBack.{HasRepeated};
ghost use Rattle.rq_restart.specs.Standing.{Found, KeepsStore, NoneHeld, Stands, StandsRead};
ghost use Rattle.rq_restart.specs.Telling.{GoesOnTelling};
ghost use Rattle.rq_restart.specs.Undoing.{AreAsFound, FailsWith, GoesOn, HaveBeenHonest, HaveToldTruly, IsDurable, IsRepeatedOn, NoneFailed, failures};
ghost use Rattle.rq_restart.specs.Underway.{pages_left, log_left};

use crate::analysis::Analysis;
use crate::page_numbers::check_page_numbers;
use crate::redo::repeat_history;
use crate::rolling_back::undo_all;
use crate::tables::{EngineTables, read_slots};
use rq_disk::{LogDevice, PageDevice};
use rq_engine::engine::Engine;
use rq_level::Level;
use rq_log::{Log, LogReader};
use rq_model::limits::LOG_LIMIT;
use rq_model::record::Record;
use rq_model::refusal::Refusal;
use rq_planner::StoreLevels;
use rq_pool::Pages;
use rq_pool::ahead::Ahead;
use rq_pool::frame_count::FrameCount;
use rq_record::{shows_fits, spelled_len};
use std::alloc::Global;

/// How many bytes of the log are read at a time.
const WINDOW: usize = 65_536;

/// What a restart found and did.
#[derive(Clone, Copy, PartialEq, Eq)]
pub struct Report {
    /// The incarnation that begins.
    pub incarnation: u64,
    /// How many operations had no end, and are undone.
    pub unfinished: u64,
    /// How many transactions had finished an operation, and had neither Commit nor AbortEnd, and are undone.
    pub lost: u64,
    /// The LSN of the last record that is now in the log.
    pub records: u64,
}

// A store whose log was gone through: its pages, with every slot as the log says, and its log, with the record
// that begins the incarnation.
#[derive(Drop)]
struct Opened<P: PageDevice, L: LogDevice, B: Level> {
    pages: Pages<P>,
    log: Log<L>,
    // How many cells hold a message.
    cells: u32,
    tables: EngineTables<B>,
    report: Report,
}

/// A restart that was refused: why, and both devices.
#[derive(Drop)]
pub struct Stopped<P, L> {
    pub refusal: Refusal,
    pub pages: P,
    pub log: L,
}

/// Opens a store. It reads and checks pages and log, and repeats history on the pages. Operations without an end are undone by
/// slots, transactions without one by inverses. The records of that are forced, with the Restart record of a new incarnation. All
/// that is done in so many `frames` beside that of the superblock. Where these are too few for the pages, all that the log's device
/// reads as is forced first. Pages then give way to others, and are read again. The LSN of each page but the superblock is before that of
/// the Restart record, whatever the devices are. No page of an honest device is older than it was read. The levels are dropped where it
/// is refused. Both devices come back as a stop inside the restart may leave them.
///
/// # Errors
/// `NoMemory`. `DiskRead` or `DiskWrite` where a device fails. `Damaged` where a page or a record breaks the format, or a device
/// gives another page or record than before. `LogFull` where there is no room for the records.
pub fn restart<P: PageDevice + Drop, L: LogDevice + Drop, B: Level>(
    alloc: Global,
    pages: P,
    log: L,
    levels: StoreLevels<B>,
    frames: FrameCount,
) -> Result<(Engine<P, L, B>, Report), Stopped<P, L>>
    ensures opened { IfOk result (λ o. Opens P.PageDevice L.LogDevice pages log frames.count o.0 o.1) }
    ensures refused { IfErr result (λ stopped. Refuses P.PageDevice L.LogDevice pages log frames.count stopped.refusal
        stopped.pages stopped.log) }
    ensures left { KeepsStores P.PageDevice L.LogDevice pages log (pages_left result) (log_left result) }
    ensures enough { ReadWhereEnough P.PageDevice pages (pages_left result) frames.count }
{
    match Pages::load(alloc, pages, frames) {
        Ok((pages, ahead)) => {
            match restart_log(alloc, pages, &ahead, log, levels, frames) {
                Ok(opened) => {
                    let Opened {
                        pages,
                        log,
                        cells,
                        tables,
                        report,
                    } = opened;
                    let engine = Engine::open(
                        alloc,
                        pages,
                        log,
                        tables.waiting,
                        tables.sent,
                        tables.ends,
                        report.incarnation,
                        u64::from(cells),
                        tables.planner,
                    );
                    Ok((engine, report))
                }
                Err(stopped) => Err(stopped),
            }
        }
        Err(stopped) => {
            let rq_pool::RefusedPages { refusal, device } = stopped;
            Err(Stopped {
                refusal,
                pages: device,
                log,
            })
        }
    }
}

// Reads the log, and opens the store whose pages these are.
fn restart_log<P: PageDevice + Drop, L: LogDevice + Drop, B: Level>(
    alloc: Global,
    mut pages: Pages<P>,
    ahead: &[Ahead],
    log: L,
    mut levels: StoreLevels<B>,
    frames: FrameCount,
) -> Result<Opened<P, L, B>, Stopped<P, L>>
    requires held { NoneHeld pages.frames }
    requires more { 1 < length pages.frames }
    requires framed { page_count pages.sizes ≤ frames.count + 1 → AreAllFramed pages }
    requires numbers { AreNumbersOf pages.sizes (paged pages) ahead.now }
    ensures opened { IfOk result (λ o. OpensLog P.PageDevice L.LogDevice pages o.pages log o.log o.cells o.tables.waiting
        o.tables.sent o.tables.planner o.report) }
    ensures refused { IfErr result (λ stopped. RefusesLog P.PageDevice L.LogDevice pages stopped.pages log stopped.log
        stopped.refusal) }
    ensures way { IfOk result (λ o. HaveBeenHonest P.PageDevice L.LogDevice o.pages.device o.log.device → (f : Found P L)
        → StandsRead P.PageDevice L.LogDevice f pages (record { records = []; left = 0; device = log; first = log })
        → KeepsStore P.PageDevice L.LogDevice f o.pages.device o.log.device) }
    ensures way_back { IfErr result (λ stopped. HaveBeenHonest P.PageDevice L.LogDevice stopped.pages stopped.log → (f : Found P L)
        → StandsRead P.PageDevice L.LogDevice f pages (record { records = []; left = 0; device = log; first = log })
        → KeepsStore P.PageDevice L.LogDevice f stopped.pages stopped.log) }
{
    match read_and_redo(alloc, &mut pages, log, &mut levels, frames) {
        Ok((mut log, mut analysis)) => {
            match finish_restart(alloc, &mut pages, &mut log, &mut analysis, ahead, levels) {
                Ok((tables, report)) => {
                    let cells = pages.used_cells();
                    Ok(Opened {
                        pages,
                        log,
                        cells,
                        tables,
                        report,
                    })
                }
                Err(refusal) => Err(Stopped {
                    refusal,
                    pages: pages.give_back(),
                    log: log.give_back(),
                }),
            }
        }
        Err(stopped) => {
            let rq_log::RefusedLog { refusal, device } = stopped;
            Err(Stopped {
                refusal,
                pages: pages.give_back(),
                log: device,
            })
        }
    }
}

// Reads a log and repeats history on the pages, record by record. Where some page stands in no frame, what is read is made durable
// first.
fn read_and_redo<P: PageDevice + Drop, L: LogDevice + Drop, B: Level>(
    alloc: Global,
    pages: &mut Pages<P>,
    log: L,
    levels: &mut StoreLevels<B>,
    frames: FrameCount,
) -> Result<(Log<L>, Analysis), rq_log::RefusedLog<L>>
    requires held { NoneHeld pages.old.frames }
    requires more { 1 < length pages.old.frames }
    requires framed { page_count pages.old.sizes ≤ frames.count + 1 → AreAllFramed pages.old }
    ensures read { IfOk result (λ read. IsLogRead L.LogDevice log read.0) }
    ensures found { IfOk result (λ read. IsAnalysisOf read.1 read.0.records) }
    ensures follow { IfOk result (λ read. L.honest read.0.device → FollowAll read.0.records) }
    ensures repeated { IfOk result (λ read. HaveToldTruly P.PageDevice L.LogDevice pages.old pages.new read.0.device
        → IsRepeatedOn pages.old.sizes [] (paged pages.old) read.0.records (paged pages.new)) }
    ensures went { IfOk result (λ read. GoesOn P.PageDevice L.LogDevice pages.old log [] (Ok read.1) pages.new read.0.device
        read.0.records) }
    ensures stopped { IfErr result (λ stopped. HaveToldTruly P.PageDevice L.LogDevice pages.old pages.new stopped.device
        → IsStoppedBehind L.LogDevice pages.old.sizes (paged pages.old) stopped.refusal log stopped.device) }
    ensures stops { IfErr result (λ stopped. (front : List Record) × (L.honest stopped.device → BeginsWith front (L.seen log))
        × GoesOn {X = Findings} P.PageDevice L.LogDevice pages.old log [] (Err stopped.refusal) pages.new stopped.device front) }
    ensures only { IfErr result (λ stopped. IsRead L.LogDevice log stopped.device) }
    ensures way { IfOk result (λ read. HaveBeenHonest P.PageDevice L.LogDevice pages.new.device read.0.device → (f : Found P L)
        → StandsRead P.PageDevice L.LogDevice f pages.old (record { records = []; left = 0; device = log; first = log })
        → Stands P.PageDevice L.LogDevice f pages.new read.0 × AreAsFound P.PageDevice L.LogDevice f read.0.records) }
    ensures way_back { IfErr result (λ stopped. HaveBeenHonest P.PageDevice L.LogDevice pages.new.device stopped.device → (f : Found P L)
        → StandsRead P.PageDevice L.LogDevice f pages.old (record { records = []; left = 0; device = log; first = log })
        → KeepsStore P.PageDevice L.LogDevice f pages.new.device stopped.device) }
{
    match LogReader::new(alloc, log, WINDOW) {
        Ok(mut reader) => {
            match make_durable(pages, &mut reader, frames) {
                Ok(()) => {}
                Err(refusal) => return Err(rq_log::RefusedLog {
                    refusal,
                    device: reader.give_back(),
                }),
            }
            match repeat_history(alloc, pages, &mut reader, levels) {
                Ok(analysis) => {
                    reader.shows_read();
                    Ok((reader.into_log(alloc), analysis))
                }
                Err(refusal) => {
                    reader.shows_read();
                    Err(rq_log::RefusedLog {
                        refusal,
                        device: reader.give_back(),
                    })
                }
            }
        }
        Err(stopped) => Err(stopped),
    }
}

// Makes durable what is read of a log, where some page stands in no frame.
fn make_durable<P: PageDevice + Drop, L: LogDevice + Drop>(
    pages: &Pages<P>,
    reader: &mut LogReader<L>,
    frames: FrameCount,
) -> Result<(), Refusal>
    requires framed { page_count pages.now.sizes ≤ frames.count + 1 → AreAllFramed pages.now }
    ensures durable { OnOk result (IsDurable L.LogDevice pages.now reader.new.device) }
    ensures err { IfErr result (λ e. e ≡ Refusal.DiskWrite) }
    ensures cause { FailureIsCounted (L.faults reader.old.device) (L.faults reader.new.device) result }
    ensures same { reader.new ≡ record reader.old { device = reader.new.device } }
    ensures read { IsRead L.LogDevice reader.old.device reader.new.device }
{
    if pages.layout().pages() <= frames.count + 1 {
        return Ok(());
    }
    reader.force()
}

// Checks the numbers of the pages, undoes what has no end in the log, which was gone through, and begins the next
// incarnation. The pages are as it says then. Gives what the directory tells, too.
fn finish_restart<P: PageDevice + Drop, L: LogDevice + Drop, B: Level>(
    alloc: Global,
    pages: &mut Pages<P>,
    log: &mut Log<L>,
    analysis: &mut Analysis,
    ahead: &[Ahead],
    levels: StoreLevels<B>,
) -> Result<(EngineTables<B>, Report), Refusal>
    requires held { NoneHeld pages.old.frames }
    requires more { 1 < length pages.old.frames }
    requires found { IsAnalysisOf analysis.old log.old.records }
    requires follow { L.honest log.old.device → FollowAll log.old.records }
    requires running { log.old.failed ≡ false }
    // What the log comes to, and what is left of it.
    ensures restarted { IfOk result (λ begun. IsRestarted L.LogDevice pages.new.sizes pages.new.images log.old log.new
        begun.0.waiting begun.0.sent begun.0.planner begun.1) }
    ensures begun { OnOk result (L.honest log.new.device → IsBegun log.old.records log.new) }
    ensures left { AreAllFramed pages.old → LeavesLog L.LogDevice pages.old.sizes (paged pages.old) log.old log.new }
    // What it leaves of both devices.
    ensures continues { Continues P.PageDevice L.LogDevice pages.old log.old.device log.old.records pages.new log.new.device
        log.new.records }
    ensures counted { OnOk result (NoneFailed P.PageDevice L.LogDevice pages.old.device log.old.device pages.new.device
        log.new.device) }
    ensures fails { IfErr result (λ e. FailsWith P.PageDevice pages.old.device pages.new.device e
        (failures L.faults log.old.device log.new.device)) }
    ensures read { IfErr result (λ e. AreAllFramed pages.old → (e ≢ Refusal.DiskWrite)
        → IsRead L.LogDevice log.old.device log.new.device) }
    ensures telling { GoesOnTelling L.LogDevice log.old.device log.new.device (IfErr result (λ e. e ≢ Refusal.DiskWrite)) }
    ensures pool { OnOk result (IsPool pages.new.sizes pages.new.images) }
    ensures within { OnOk result (HaveLsnsWithin pages.old.sizes (length log.new.records - 1) (paged pages.new)) }
    // What was checked, or why it was refused.
    ensures checked { OnOk result (HaveToldTruly P.PageDevice L.LogDevice pages.old pages.new log.new.device → (first : Images)
        → Repeats pages.old.sizes log.old.records first (paged pages.old)
        → AreNumbersOf pages.old.sizes first ahead.now
        → HasRepeated pages.old.sizes log.old.records log.new.records first (paged pages.new)) }
    ensures shut { IfErr result (λ e. HaveToldTruly P.PageDevice L.LogDevice pages.old pages.new log.new.device → (first : Images)
        → Repeats pages.old.sizes log.old.records first (paged pages.old)
        → AreNumbersOf pages.old.sizes first ahead.now
        → WhyShut pages.old.sizes log.old.records first e) }
    ensures way { HaveBeenHonest P.PageDevice L.LogDevice pages.new.device log.new.device → (f : Found P L)
        → Stands P.PageDevice L.LogDevice f pages.old log.old → AreAsFound P.PageDevice L.LogDevice f log.old.records
        → KeepsStore P.PageDevice L.LogDevice f pages.new.device log.new.device }
{
    match check_page_numbers(pages, ahead, log.last()) {
        Ok(()) => {}
        Err(refusal) => return Err(refusal),
    }
    let unfinished = analysis.open_work.unfinished();
    let (lost, planner) = match undo_all(alloc, pages, log, analysis, levels) {
        Ok(undone) => undone,
        Err(refusal) => return Err(refusal),
    };
    let tables = match read_slots(alloc, pages, planner, log.last()) {
        Ok(tables) => tables,
        Err(refusal) => return Err(refusal),
    };
    match begin_incarnation(log, analysis.open_work.incarnation(), unfinished, lost) {
        Ok(report) => Ok((tables, report)),
        Err(refusal) => Err(refusal),
    }
}

// Begins the incarnation behind the last: its record is made and forced with all before.
fn begin_incarnation<L: LogDevice + Drop>(
    log: &mut Log<L>,
    last: u64,
    unfinished: u64,
    lost: u64,
) -> Result<Report, Refusal>
    requires running { log.old.failed ≡ false }
    requires low { last ≤ length log.old.records }
    ensures records { OnOk result (log.new.records ≡ records.Restart (last + 1) ∷ log.old.records) }
    ensures forced { OnOk result ((log.new.forced ≡ length log.new.records) × (log.new.failed ≡ false)) }
    ensures report { IfOk result (λ report. (report.incarnation ≡ last + 1) × (report.records ≡ length log.new.records)
        × (report.unfinished ≡ unfinished) × (report.lost ≡ lost)) }
    ensures ready { IfOk result (λ report. IsReady L.LogDevice report.incarnation log.new) }
    ensures cause { OnOk result (L.faults log.new.device ≡ L.faults log.old.device) }
    ensures honest { L.honest log.new.device → L.honest log.old.device }
    ensures any_moment { L.honest log.new.device → LeavesOnly L.LogDevice log.old.device log.new.device
        (WasLeftOrForced L.LogDevice log.old.device (records.Restart (last + 1) ∷ log.old.records) log.old.forced) }
    ensures telling { GoesOnTelling L.LogDevice log.old.device log.new.device (IfErr result (λ e. e ≢ Refusal.DiskWrite)) }
    ensures room { OnOk result (log.new.reserved ≡ log.old.reserved) }
    ensures behind { (made : List Record) × (log.new.records ≡ made ++ log.old.records) }
    ensures err { IfErr result (λ e. BeginsNot e (length log.old.records) last (L.faults log.old.device) (L.faults
        log.new.device) (log.new.device ≡ log.old.device)) }
{
    log.shows_kept();
    if log.last() >= LOG_LIMIT {
        return Err(Refusal::LogFull);
    }
    let Some(incarnation) = last.checked_add(1) else {
        return Err(Refusal::LogFull);
    };
    let restart = Record::Restart { incarnation };
    shows_fits(&restart);
    log.reserve(spelled_len(&restart))?;
    log.append(&restart);
    let records = log.force()?;
    Ok(Report {
        incarnation,
        unfinished,
        lost,
        records,
    })
}
