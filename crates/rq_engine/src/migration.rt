//! Migrations: a store without tag pages gets some.
ghost use Rattle.std.specs.Prelude.{◌≡◌, ◌≢◌, ◌⊎◌, ◌<◌, ◌≤◌, ◌↔◌, ℕ, IfOk, IfErr, OnOk, Err, true, false, length, slice_set, IfSome, IfNone};
ghost use Rattle.rq_model.specs.History.Call.{Migrate};
ghost use Rattle.rq_model.specs.Replay.Reply.{Gave_migrated};
ghost use Rattle.rq_model.specs.Tests.{bad_tags};
ghost use Rattle.rq_disk.specs.Device.{FailureIsCounted, Only};
ghost use Rattle.rq_log.specs.Crash.{LeavesOnly};
ghost use Rattle.rq_page.specs.Sizes.{page_count, with_tags};
ghost use Rattle.rq_page.specs.Formatted.{IsFormatted};
ghost use Rattle.rq_pool.specs.Pooled.{is_changed};
ghost use Rattle.rq_store.specs.State.{size_of};
ghost use Rattle.rq_engine.specs.Answers.{AnswersLegally};
ghost use Rattle.rq_engine.specs.Checkpoint.{CountsFailure, IsBeginningOrBase, IsStopped, MayMakeOneRecord};
ghost use Rattle.rq_engine.specs.Crash.{KeepsFit};
ghost use Rattle.rq_engine.specs.Devices.{KeepsPage};
ghost use Rattle.rq_engine.specs.Migration.{AreTagPages, HasMigrated, HasTags, KeepsBeyond, KeepsOrGrows, MayGetTags, NotMigrated, TellsSizes};
ghost use Rattle.rq_engine.specs.Opened.{AreHonest};

use crate::engine::Engine;
use rq_disk::{LogDevice, PageDevice};
use rq_level::Level;
use rq_model::refusal::Refusal;
use rq_model::txn::Lsn;
use rq_page::layout::Layout;
use rq_pool::Pages;

impl<P: PageDevice, L: LogDevice, B: Level> Engine<P, L, B> {
    /// Gives a store without tag pages so many, 1 to 1,024, so that its clients can be marked once it is opened again. It
    /// writes the new pages, does what a checkpoint does, and at last writes the superblock of the new sizes. Answers the LSN
    /// of the one record that stands for all. From then on every call answers `Failed`. A crash inside it leaves the store
    /// with those pages or without, and the same content. It takes no memory.
    ///
    /// # Errors
    /// `Failed`. `BadTags` where the pages are not 1 to 1,024, or the store has tag pages. `NotQuiet` where a transaction is
    /// open. `LogFull`. `NotForced`, only where a page tells the LSN of a record that is not there. `DiskWrite`, behind which a
    /// crash leaves the store as it was or as it was to be.
    pub fn migrate(&mut self, pages: u32) -> Result<Lsn, Refusal>
        // The entry that it is; what it makes of the store and both devices; why it was refused, and what that leaves.
        ensures answered { AnswersLegally P.PageDevice L.LogDevice self.old (Migrate pages)
            (λ lsn. Gave_migrated lsn) result self.new }
        ensures sizes { self.new.state.sizes ≡ self.old.state.sizes }
        ensures may { OnOk result (MayGetTags pages self.old.state) }
        ensures made { IfOk result (λ lsn. HasMigrated P.PageDevice L.LogDevice pages self.old self.new lsn) }
        ensures refused { IfErr result (λ r. NotMigrated P.PageDevice L.LogDevice pages self.old self.new r) }
        ensures failed { (result ≡ Err Refusal.Failed) ↔ (self.old.state.failed ≡ true) }
        // What stays; and what a crash at any moment leaves.
        ensures count { length self.new.frames ≡ length self.old.frames }
        ensures honest { AreHonest P.PageDevice L.LogDevice self.new → AreHonest P.PageDevice L.LogDevice self.old }
        ensures any_moment { self.old.replacing ≡ false → L.honest self.new.log → LeavesOnly L.LogDevice self.old.log self.new.log
            (IsBeginningOrBase self.old.state.records self.old.state.forced) }
        ensures fit { KeepsOrGrows P.PageDevice L.LogDevice pages self.old self.new }
    {
        self.shows_kept();
        let grown = self.check_migration(pages)?;
        let forced = self.log.forced();
        match self.grow(&grown) {
            Ok(lsn) => Ok(lsn),
            Err(refusal) => {
                self.log.forget_force(forced);
                Err(refusal)
            }
        }
    }

    // The store runs, can get so many tag pages, and one record can be put in the place of all. Answers the new sizes.
    fn check_migration(&self, pages: u32) -> Result<Layout, Refusal>
        ensures ok { OnOk result (MayMakeOneRecord self.now × MayGetTags pages self.now.state) }
        ensures grown { IfOk result (λ grown. grown ≡ with_tags pages self.now.state.sizes) }
        ensures refused { IfErr result (λ r. NotMigrated P.PageDevice L.LogDevice pages self.now self.now r) }
        ensures failed { (result ≡ Err Refusal.Failed) ↔ (self.now.state.failed ≡ true) }
    {
        self.check_running()?;
        let Some(grown) = with_tag_pages(&self.pages.layout(), pages) else {
            return Err(Refusal::BadTags);
        };
        self.check_quiet()?;
        Ok(grown)
    }

    // Writes the tag pages, puts one record in the place of all, and tells the new sizes.
    fn grow(&mut self, grown: &Layout) -> Result<Lsn, Refusal>
        requires could { MayMakeOneRecord self.old }
        requires may { MayGetTags grown.now.tags self.old.state }
        requires grown { grown.now ≡ with_tags grown.now.tags self.old.state.sizes }
        ensures made { IfOk result (λ lsn. HasMigrated P.PageDevice L.LogDevice grown.now.tags self.old self.new lsn) }
        ensures refused { IfErr result (λ r. IsStopped self.old.state self.new.state r) }
        ensures cause { CountsFailure P.PageDevice L.LogDevice self.old self.new result }
        ensures first { (self.new.log ≡ self.old.log) ⊎ AreTagPages P.PageDevice grown.now.tags self.old.state.sizes self.new.pages }
        ensures beyond { KeepsBeyond P.PageDevice grown.now.tags self.old.state.sizes self.old.pages self.new.pages }
        ensures count { length self.new.frames ≡ length self.old.frames }
        ensures honest { AreHonest P.PageDevice L.LogDevice self.new → AreHonest P.PageDevice L.LogDevice self.old }
        ensures any_moment { self.old.replacing ≡ false → L.honest self.new.log → LeavesOnly L.LogDevice self.old.log self.new.log
            (IsBeginningOrBase self.old.state.records self.old.state.forced) }
        ensures fit { KeepsOrGrows P.PageDevice L.LogDevice grown.now.tags self.old self.new }
    {
        self.shows_kept();
        self.write_tags(grown)?;
        self.make_durable()?;
        self.put_grown(grown)
    }

    // Writes the pages that the store is to have behind its own.
    fn write_tags(&mut self, grown: &Layout) -> Result<(), Refusal>
        requires running { self.old.state.failed ≡ false }
        requires grown { grown.now ≡ with_tags grown.now.tags self.old.state.sizes }
        ensures state { OnOk result (self.new.state ≡ self.old.state) }
        ensures written { OnOk result ((page : ℕ) → page_count self.old.state.sizes ≤ page → page < page_count grown.now
            → IsFormatted grown.now page (P.seen self.new.pages page)) }
        ensures beyond { (page : ℕ) → page_count grown.now ≤ page → KeepsPage P.PageDevice self.old.pages self.new.pages page }
        ensures refused { IfErr result (λ r. IsStopped self.old.state self.new.state r) }
        ensures cause { CountsFailure P.PageDevice L.LogDevice self.old self.new result }
        ensures changed { self.new.changed ≡ self.old.changed }
        ensures log { self.new.log ≡ self.old.log }
        ensures replacing { self.new.replacing ≡ self.old.replacing }
        ensures count { length self.new.frames ≡ length self.old.frames }
        ensures honest { P.honest self.new.pages → P.honest self.old.pages }
        ensures fit { KeepsFit P.PageDevice L.LogDevice self.old self.new }
    {
        self.shows_kept();
        for page in self.pages.layout().pages()..grown.pages() {
            self.write_tag_page(grown, page)?;
        }
        Ok(())
    }

    // Writes one of them.
    fn write_tag_page(&mut self, grown: &Layout, page: u32) -> Result<(), Refusal>
        requires running { self.old.state.failed ≡ false }
        requires behind { page_count self.old.state.sizes ≤ page }
        requires within { page < page_count grown.now }
        ensures state { OnOk result (self.new.state ≡ self.old.state) }
        ensures written { OnOk result (IsFormatted grown.now page (P.seen self.new.pages page)) }
        ensures others { (other : ℕ) → other ≢ page → KeepsPage P.PageDevice self.old.pages self.new.pages other }
        ensures refused { IfErr result (λ r. IsStopped self.old.state self.new.state r) }
        ensures cause { CountsFailure P.PageDevice L.LogDevice self.old self.new result }
        ensures changed { self.new.changed ≡ self.old.changed }
        ensures log { self.new.log ≡ self.old.log }
        ensures replacing { self.new.replacing ≡ self.old.replacing }
        ensures count { length self.new.frames ≡ length self.old.frames }
        ensures honest { P.honest self.new.pages → P.honest self.old.pages }
        ensures fit { KeepsFit P.PageDevice L.LogDevice self.old self.new }
    {
        self.shows_kept();
        match self.pages.write_formatted(grown, page) {
            Ok(()) => Ok(()),
            Err(refusal) => {
                self.failed = true;
                Err(refusal)
            }
        }
    }

    // Puts the Base in the place of all records, which are forced, over pages that are durable, and tells the new sizes.
    fn put_grown(&mut self, grown: &Layout) -> Result<Lsn, Refusal>
        requires could { MayMakeOneRecord self.old }
        requires may { MayGetTags grown.now.tags self.old.state }
        requires grown { grown.now ≡ with_tags grown.now.tags self.old.state.sizes }
        requires forced { self.old.state.forced ≡ length self.old.state.records }
        requires clean { (page : ℕ) → 1 ≤ page → page < page_count self.old.state.sizes
            → is_changed self.old.changed page ≡ false }
        requires durable { (page : ℕ) → Only (P.seen self.old.pages page) (P.may_be self.old.pages page) }
        requires written { (page : ℕ) → page_count self.old.state.sizes ≤ page → page < page_count grown.now
            → IsFormatted grown.now page (P.seen self.old.pages page) }
        ensures made { IfOk result (λ lsn. HasMigrated P.PageDevice L.LogDevice grown.now.tags self.old self.new lsn) }
        ensures refused { IfErr result (λ r. IsStopped self.old.state self.new.state r) }
        ensures cause { CountsFailure P.PageDevice L.LogDevice self.old self.new result }
        ensures others { (page : ℕ) → page ≢ 0 → KeepsPage P.PageDevice self.old.pages self.new.pages page }
        ensures count { length self.new.frames ≡ length self.old.frames }
        ensures honest { AreHonest P.PageDevice L.LogDevice self.new → AreHonest P.PageDevice L.LogDevice self.old }
        ensures honest_log { L.honest self.new.log → L.honest self.old.log }
        ensures any_moment { self.old.replacing ≡ false → L.honest self.new.log → LeavesOnly L.LogDevice self.old.log self.new.log
            (IsBeginningOrBase self.old.state.records self.old.state.forced) }
        ensures fit { KeepsOrGrows P.PageDevice L.LogDevice grown.now.tags self.old self.new }
    {
        self.shows_kept();
        self.pages.shows_kept();
        self.failed = true;
        self.log.put_base(self.incarnation)?;
        tell_sizes(&mut self.pages, grown)?;
        let lsn = self.log.note_base(self.incarnation);
        self.shows_kept();
        Ok(lsn)
    }
}

// The sizes with so many tag pages, 1 to 1,024; none where the store has some.
fn with_tag_pages(layout: &Layout, pages: u32) -> Option<Layout>
    ensures some { IfSome result (λ grown. (grown ≡ with_tags pages layout.now) × (bad_tags (size_of layout.now) pages ≡ false)) }
    ensures none { IfNone result (bad_tags (size_of layout.now) pages ≡ true) }
{
    if layout.tags() != 0 || pages == 0 {
        return None;
    }
    Layout::new(layout.directory(), layout.cells(), pages)
}

// Writes the superblock of these sizes, and makes it durable.
fn tell_sizes<P: PageDevice>(pages: &mut Pages<P>, grown: &Layout) -> Result<(), Refusal>
    ensures same { pages.new ≡ record pages.old { device = pages.new.device; changed = slice_set pages.old.changed 0 true } }
    ensures told { OnOk result ((c : _) → P.may_be pages.new.device 0 c → IsFormatted grown.now 0 c) }
    ensures device { TellsSizes P.PageDevice grown.now pages.old.device pages.new.device }
    ensures others { (page : ℕ) → page ≢ 0 → P.seen pages.new.device page ≡ P.seen pages.old.device page }
    ensures honest { P.honest pages.new.device → P.honest pages.old.device }
    ensures err { IfErr result (λ r. r ≡ Refusal.DiskWrite) }
    ensures cause { FailureIsCounted (P.faults pages.old.device) (P.faults pages.new.device) result }
{
    pages.write_superblock(grown)?;
    pages.sync()
}
