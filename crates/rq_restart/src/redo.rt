//! Going through a log: each slot write that is not on its page yet is made there.
ghost use Rattle.std.specs.Prelude.{◌≡◌, ◌↔◌, ◌≤◌, ◌<◌, ◌+◌, ◌-◌, ◌^◌, ◌∷◌, [], List, IsOk, IsTrue, None, false, IfOk, IfErr, OnErr, OnOk, length};
ghost use Rattle.rq_model.specs.declared.record.Record.{Record as AnyRecord};
ghost use Rattle.rq_model.specs.Bases.{is_base};
ghost use Rattle.rq_log.specs.Reading.{EndsShort, IsRead};
ghost use Rattle.rq_log.specs.Spelled.{spelled};
ghost use Rattle.rq_page.specs.Sizes.{page_count};
ghost use Rattle.rq_page.specs.Pages.{lsn_of, slot_of};
ghost use Rattle.rq_pool.specs.Fetching.{AreAllFramed};
ghost use Rattle.rq_pool.specs.Held.{IsFramed};
ghost use Rattle.rq_pool.specs.KeptUp.{IsKeptUp};
ghost use Rattle.rq_pool.specs.Pooled.{IsPool};
ghost use Rattle.rq_store.specs.Opening.{Redoes, IsSoundTold, MayRedo};
ghost use Rattle.rq_store.specs.Fitting.{told_by, image_in};
ghost use Rattle.rq_analysis.specs.LogTables.{PutsBack};
ghost use Rattle.rq_analysis.specs.Rules.{CanBeRead, FollowAll, FollowsRules};
ghost use Rattle.rq_restart.specs.Found.{IsAnalysisOf};
ghost use Rattle.rq_restart.specs.Repeating.{AreMarked, IsRecordRedone, paged};
ghost use Rattle.rq_restart.specs.Refused.{IsStoppedBehind, NotRepeated};
ghost use Rattle.rq_restart.specs.Standing.{Found, KeepsStore, NoneHeld, StandsRead};
ghost use Rattle.rq_restart.specs.Undoing.{GoesOn, HaveBeenHonest, HaveToldTruly, IsDurable, IsRepeatedOn, NamesNoDevice, NotBroughtFor, StandsOrIsNewer};

use crate::again::puts_back;
use crate::analysis::Analysis;
use crate::appending::page_of;
use rq_bytes::equal::are_equal;
use rq_disk::{LogDevice, PageDevice};
use rq_level::Level;
use rq_log::LogReader;
use rq_model::record::{Record, Slot};
use rq_model::refusal::{Damage, Refusal};
use rq_model::txn::Lsn;
use rq_page::addr::Addr;
use rq_page::layout::Layout;
use rq_planner::StoreLevels;
use rq_pool::Pages;
use std::alloc::Global;

/// Goes through a log as it is read: each record is checked, and what it writes is made where its page is older. None is
/// kept. Where an older page is wanting, another gives way in a frame. The log is to be durable before.
///
/// # Errors
/// `Damaged` with the number of the first record that doesn't fit, or where none stands; `DiskRead`, `DiskWrite`; `LogFull`
/// behind as many records as a log may have; `NoMemory`. `Damaged` with the page that a device gave that has lied.
pub(crate) fn repeat_history<P: PageDevice + Drop, L: LogDevice, B: Level>(
    alloc: Global,
    pages: &mut Pages<P>,
    reader: &mut LogReader<L>,
    levels: &mut StoreLevels<B>,
) -> Result<Analysis, Refusal>
    requires held { NoneHeld pages.old.frames }
    requires more { 1 < length pages.old.frames }
    requires none_read { reader.old.records ≡ [] }
    requires counted { L.faults reader.old.device ≡ L.faults reader.old.first }
    ensures found { IfOk result (λ analysis. IsAnalysisOf analysis reader.new.records) }
    ensures follow { OnOk result (L.honest reader.new.device → FollowAll reader.new.records) }
    ensures repeated { OnOk result (HaveToldTruly P.PageDevice L.LogDevice pages.old pages.new reader.new.device
        → IsRepeatedOn pages.old.sizes [] (paged pages.old) reader.new.records (paged pages.new)) }
    ensures whole { OnOk result (L.honest reader.new.device
        → EndsShort reader.new.records reader.new.left (L.seen reader.new.first)) }
    ensures stopped { IfErr result (λ e. HaveToldTruly P.PageDevice L.LogDevice pages.old pages.new reader.new.device
        → IsStoppedBehind L.LogDevice pages.old.sizes (paged pages.old) e reader.new.first reader.new.device) }
    ensures read { IsRead L.LogDevice reader.new.first reader.new.device }
    ensures first { reader.new.first ≡ reader.old.first }
    ensures goes_on { GoesOn P.PageDevice L.LogDevice pages.old reader.old.device [] result pages.new reader.new.device
        reader.new.records }
    ensures way { HaveBeenHonest P.PageDevice L.LogDevice pages.new.device reader.new.device → (f : Found P L)
        → StandsRead P.PageDevice L.LogDevice f pages.old reader.old → IsDurable L.LogDevice pages.old reader.old.device
        → OnOk result (StandsRead P.PageDevice L.LogDevice f pages.new reader.new)
        × OnErr result (KeepsStore P.PageDevice L.LogDevice f pages.new.device reader.new.device) }
{
    let mut analysis = Analysis::new(alloc);
    reader.shows_read();
    let mut record = Record::Restart { incarnation: 0 };
    while reader.next_into(&mut record)? {
        if stands_for_others(&record) {
            match analysis.note(reader.last(), &record) {
                Ok(()) => {}
                Err(refusal) => return Err(refusal),
            }
        } else {
            let lsn = reader.last();
            let puts_back = match puts_back(reader, &analysis, lsn, &record) {
                Ok(puts_back) => puts_back,
                Err(refusal) => return Err(refusal),
            };
            reader.shows_read();
            match bring_in(pages, lsn, &record) {
                Ok(()) => {}
                Err(refusal) => return Err(refusal),
            }
            match check_and_redo(pages, &mut analysis, levels, lsn, puts_back, &record) {
                Ok(()) => {}
                Err(stops) => return Err(stops),
            }
        }
    }
    Ok(analysis)
}

// Has the page that the record with this LSN writes stand in a frame, if the store has it and it is older. Another may give way.
fn bring_in<P: PageDevice + Drop>(
    pages: &mut Pages<P>,
    lsn: Lsn,
    record: &Record,
) -> Result<(), Refusal>
    requires held { NoneHeld pages.old.frames }
    requires more { 1 < length pages.old.frames }
    ensures stands { OnOk result (StandsOrIsNewer pages.new lsn «record».now) }
    ensures pool { IsPool pages.old.sizes pages.old.images }
    ensures marks { length pages.old.changed ≡ page_count pages.old.sizes }
    ensures kept { IsKeptUp P.PageDevice (2 ^ 64 - 1) pages.old pages.new }
    ensures stood { AreAllFramed pages.old → IsOk result × (pages.new ≡ pages.old) }
    ensures count { length pages.new.frames ≡ length pages.old.frames }
    ensures held { NoneHeld pages.new.frames }
    ensures counted { OnOk result (P.faults pages.new.device ≡ P.faults pages.old.device) }
    ensures fails { IfErr result (λ e. NotBroughtFor P.PageDevice «record».now e pages.old pages.new) }
{
    pages.shows_kept();
    let Some(page) = page_of(&pages.layout(), record) else {
        return Ok(());
    };
    if pages.lsn(page) >= lsn {
        return Ok(());
    }
    pages.bring_in(page)
}

// Whether a record is a Base. The reader gives one as the first of a log alone.
fn stands_for_others(record: &Record) -> bool
    ensures { result ≡ is_base «record».now }
{
    matches!(record, Record::Base { .. })
}

// Checks the next record, which has this LSN and is no Base, and makes what it writes where its page is older.
#[tactic(auto, using(crate::proofs::Marking::same_marked))]
fn check_and_redo<P: PageDevice + Drop, B: Level>(
    pages: &mut Pages<P>,
    analysis: &mut Analysis,
    levels: &mut StoreLevels<B>,
    lsn: Lsn,
    puts_back: bool,
    record: &Record,
) -> Result<(), Refusal>
    requires stands { StandsOrIsNewer pages.old lsn «record».now }
    requires plain { is_base «record».now ≡ false }
    ensures found { OnOk result ((older : List AnyRecord) → lsn ≡ length older + 1 → IsAnalysisOf analysis.old older
        → length (spelled («record».now ∷ older)) < 2 ^ 64 → IsAnalysisOf analysis.new («record».now ∷ older)) }
    ensures follows { OnOk result ((older : List AnyRecord) → lsn ≡ length older + 1
        → IsAnalysisOf analysis.old older → FollowAll older → (IsTrue puts_back ↔ PutsBack analysis.old.open_work «record».now)
        → FollowsRules older «record».now) }
    ensures repeated { OnOk result ((older : List AnyRecord) → lsn ≡ length older + 1
        → IsAnalysisOf analysis.old older → FollowAll older → (IsTrue puts_back ↔ PutsBack analysis.old.open_work «record».now)
        → IsRecordRedone pages.old.sizes older «record».now (paged pages.old) (paged pages.new)) }
    ensures written { OnOk result (Redoes (told_by «record».now) lsn (image_in pages.old.images)
        (image_in pages.new.images)) }
    ensures sound { OnOk result (MayRedo pages.old.sizes (image_in pages.old.images) lsn «record».now) }
    ensures not { IfErr result (λ e. (older : List AnyRecord) → lsn ≡ length older + 1
        → IsAnalysisOf analysis.old older → FollowAll older → (IsTrue puts_back ↔ PutsBack analysis.old.open_work «record».now)
        → NotRepeated pages.old.sizes older «record».now (paged pages.old) e) }
    ensures err { IfErr result (λ e. NamesNoDevice e) }
    ensures marked { AreMarked lsn pages.old pages.new }
    ensures sizes { pages.new.sizes ≡ pages.old.sizes }
    ensures device { pages.new.device ≡ pages.old.device }
    ensures frames { pages.new.frames ≡ pages.old.frames }
{
    let reads = can_be_read(levels, record);
    if !analysis.may_take(reads, puts_back, record) || !may_redo(pages, lsn, record) {
        return Err(Refusal::Damaged(Damage::Record(lsn)));
    }
    match analysis.note(lsn, record) {
        Ok(()) => {
            apply(pages, levels, lsn, record);
            Ok(())
        }
        Err(refusal) => Err(refusal),
    }
}

// Whether the deed in a record, if there is one, is read by its level.
fn can_be_read<B: Level>(levels: &StoreLevels<B>, record: &Record) -> bool
    ensures { IsTrue result ↔ CanBeRead «record».now }
{
    match record {
        Record::OpEnd { level, deed, .. } => levels.reads(*level, deed.as_slice()),
        _ => true,
    }
}

/// Whether a record fits the store: what it writes may stand there, over what stands there.
pub(crate) fn may_redo<P: PageDevice + Drop>(pages: &Pages<P>, lsn: Lsn, record: &Record) -> bool
    requires stands { StandsOrIsNewer pages.now lsn «record».now }
    ensures { IsTrue result ↔ MayRedo pages.now.sizes (image_in pages.now.images) lsn «record».now }
{
    match record {
        Record::PageOp {
            page,
            slot,
            before,
            after,
            ..
        } => {
            is_sound(&pages.layout(), lsn, *page, *slot, after)
                && is_over(pages, lsn, *page, *slot, before)
        }
        Record::PageUndo {
            page,
            slot,
            after,
            ..
        } => is_sound(&pages.layout(), lsn, *page, *slot, after),
        _ => true,
    }
}

// Has the level of single slots make what a record writes, where its page is older.
#[tactic(auto, using(crate::proofs::Marking::same_marked, crate::proofs::Marking::applied_marked))]
fn apply<P: PageDevice + Drop, B: Level>(
    pages: &mut Pages<P>,
    levels: &mut StoreLevels<B>,
    lsn: Lsn,
    record: &Record,
)
    requires stands { StandsOrIsNewer pages.old lsn «record».now }
    requires write { MayRedo pages.old.sizes (image_in pages.old.images) lsn «record».now }
    ensures redone { Redoes (told_by «record».now) lsn (image_in pages.old.images) (image_in pages.new.images) }
    ensures marked { AreMarked lsn pages.old pages.new }
    ensures sizes { pages.new.sizes ≡ pages.old.sizes }
    ensures device { pages.new.device ≡ pages.old.device }
    ensures frames { pages.new.frames ≡ pages.old.frames }
{
    let (page, slot) = match record {
        Record::PageOp { page, slot, .. } => (*page, *slot),
        Record::PageUndo { page, slot, .. } => (*page, *slot),
        _ => return,
    };
    if pages.lsn(page) < lsn {
        pages.redo(&mut levels.levels, Addr::new(page, slot), lsn, record);
    }
}

// Whether a slot of the store is written, to what may stand there.
fn is_sound(layout: &Layout, lsn: Lsn, page: u32, slot: u8, after: &Slot) -> bool
    ensures { IsTrue result ↔ IsSoundTold layout.now lsn (record { page = page; slot = slot; after = after.now }) }
{
    layout.check_slot(page, slot, after) && layout.count(page, after) <= lsn
}

// Whether the before-image stands in the slot, if the page is older.
fn is_over<P: PageDevice + Drop>(
    pages: &Pages<P>,
    lsn: Lsn,
    page: u32,
    slot: u8,
    before: &Slot,
) -> bool
    requires framed { lsn_of (image_in pages.now.images page) < lsn → IsFramed pages.now.frames page }
    requires page { page < page_count pages.now.sizes }
    requires low { 1 ≤ slot }
    requires high { slot ≤ 15 }
    ensures { IsTrue result ↔ (lsn_of (image_in pages.now.images page) < lsn
        → slot_of slot (image_in pages.now.images page) ≡ before.now) }
{
    pages.lsn(page) >= lsn || are_equal(pages.page(page).unwrap().slot(slot), before)
}
