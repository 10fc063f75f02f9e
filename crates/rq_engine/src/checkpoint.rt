//! Checkpoints: one record in the place of all.
ghost use Rattle.std.specs.Prelude.{◌≡◌, ◌<◌, ◌≤◌, ◌↔◌, ℕ, IfOk, IfErr, OnOk, Err, true, false, [], length};
ghost use Rattle.rq_model.specs.History.Call.{Checkpoint};
ghost use Rattle.rq_model.specs.Replay.Reply.{Gave_checkpoint};
ghost use Rattle.rq_disk.specs.Device.{Only};
ghost use Rattle.rq_log.specs.Crash.{LeavesOnly};
ghost use Rattle.rq_log.specs.Spelled.{IsBeginning};
ghost use Rattle.rq_page.specs.Sizes.{page_count};
ghost use Rattle.rq_pool.specs.Pooled.{is_changed};
ghost use Rattle.rq_pool.specs.Writing.{NoChangeBeyond};
ghost use Rattle.rq_engine.specs.Answers.{AnswersLegally};
ghost use Rattle.rq_engine.specs.Checkpoint.{CountsFailure, HasFewer, HasMadeOneRecord, IsBeginningOrBase, IsStopped, KeepsFitOrBased, MayMakeOneRecord, NotCheckpointed};
ghost use Rattle.rq_engine.specs.Crash.{KeepsFit};
ghost use Rattle.rq_engine.specs.Devices.{KeepsPage};
ghost use Rattle.rq_engine.specs.Opened.{AreHonest, pooled};

use crate::engine::Engine;
use rq_disk::{LogDevice, PageDevice};
use rq_level::Level;
use rq_model::refusal::Refusal;
use rq_model::txn::Lsn;

impl<P: PageDevice, L: LogDevice, B: Level> Engine<P, L, B> {
    /// Makes the log one record, where no transaction is open. It forces the log, writes every page that was changed,
    /// and makes the pages durable. Then it puts a Base in the place of all records. Answers its LSN, with which later
    /// records count on. Every commit is then durable. It takes no memory.
    ///
    /// # Errors
    /// `Failed`. `NotQuiet` where a transaction is open. `LogFull`. `NotForced`, only where a page tells the LSN of a
    /// record that is not there. `DiskWrite`, behind which a crash leaves the log as it was or as it was to be.
    pub fn checkpoint(&mut self) -> Result<Lsn, Refusal>
        // The entry that it is; what it makes of the store and both devices; why it was refused, and what that leaves.
        ensures answered { AnswersLegally P.PageDevice L.LogDevice self.old Checkpoint
            (λ lsn. Gave_checkpoint lsn) result self.new }
        ensures sizes { self.new.state.sizes ≡ self.old.state.sizes }
        ensures made { IfOk result (λ lsn. HasMadeOneRecord P.PageDevice L.LogDevice self.old self.new lsn) }
        ensures refused { IfErr result (λ r. NotCheckpointed P.PageDevice L.LogDevice self.old self.new r) }
        ensures failed { (result ≡ Err Refusal.Failed) ↔ (self.old.state.failed ≡ true) }
        // What stays; and what a crash at any moment leaves.
        ensures count { length self.new.frames ≡ length self.old.frames }
        ensures honest { AreHonest P.PageDevice L.LogDevice self.new → AreHonest P.PageDevice L.LogDevice self.old }
        ensures any_moment { self.old.replacing ≡ false → L.honest self.new.log → LeavesOnly L.LogDevice self.old.log self.new.log
            (IsBeginningOrBase self.old.state.records self.old.state.forced) }
        ensures fit { KeepsFitOrBased P.PageDevice L.LogDevice self.old self.new }
    {
        self.shows_kept();
        self.check_quiet()?;
        let forced = self.log.forced();
        match self.replace_log() {
            Ok(lsn) => Ok(lsn),
            Err(refusal) => {
                self.log.forget_force(forced);
                Err(refusal)
            }
        }
    }

    // The store runs, no transaction is open, the log has room for a record, and no page is ahead of it.
    pub(crate) fn check_quiet(&self) -> Result<(), Refusal>
        ensures ok { OnOk result (MayMakeOneRecord self.now) }
        ensures refused { IfErr result (λ r. NotCheckpointed P.PageDevice L.LogDevice self.now self.now r) }
        ensures failed { (result ≡ Err Refusal.Failed) ↔ (self.now.state.failed ≡ true) }
    {
        self.check_running()?;
        if !self.transactions.is_empty() {
            return Err(Refusal::NotQuiet);
        }
        if self.is_log_full(1) {
            return Err(Refusal::LogFull);
        }
        if self.pages.has_change_beyond(self.log.last()) {
            return Err(Refusal::NotForced);
        }
        Ok(())
    }

    // Forces the log, writes out what was changed, and puts the Base in the place of all.
    fn replace_log(&mut self) -> Result<Lsn, Refusal>
        requires { MayMakeOneRecord self.old }
        ensures made { IfOk result (λ lsn. HasMadeOneRecord P.PageDevice L.LogDevice self.old self.new lsn) }
        ensures refused { IfErr result (λ r. IsStopped self.old.state self.new.state r) }
        ensures cause { CountsFailure P.PageDevice L.LogDevice self.old self.new result }
        ensures fewer { HasFewer self.old.changed self.new.changed }
        ensures behind { (page : ℕ) → page_count self.old.state.sizes ≤ page → KeepsPage P.PageDevice self.old.pages self.new.pages page }
        ensures count { length self.new.frames ≡ length self.old.frames }
        ensures honest { AreHonest P.PageDevice L.LogDevice self.new → AreHonest P.PageDevice L.LogDevice self.old }
        ensures any_moment { self.old.replacing ≡ false → L.honest self.new.log → LeavesOnly L.LogDevice self.old.log self.new.log
            (IsBeginningOrBase self.old.state.records self.old.state.forced) }
        ensures fit { KeepsFitOrBased P.PageDevice L.LogDevice self.old self.new }
    {
        self.shows_kept();
        self.make_durable()?;
        self.put_base()
    }

    // Forces the log, writes out what was changed, and makes the pages durable.
    pub(crate) fn make_durable(&mut self) -> Result<(), Refusal>
        requires { MayMakeOneRecord self.old }
        ensures state { OnOk result (self.new.state ≡ record self.old.state { forced = length self.old.state.records }) }
        ensures clean { OnOk result ((page : ℕ) → 1 ≤ page → page < page_count self.old.state.sizes
            → is_changed self.new.changed page ≡ false) }
        ensures durable { OnOk result ((page : ℕ) → Only (P.seen self.new.pages page) (P.may_be self.new.pages page)) }
        ensures behind { (page : ℕ) → page_count self.old.state.sizes ≤ page → KeepsPage P.PageDevice self.old.pages self.new.pages page }
        ensures refused { IfErr result (λ r. IsStopped self.old.state self.new.state r) }
        ensures cause { CountsFailure P.PageDevice L.LogDevice self.old self.new result }
        ensures fewer { HasFewer self.old.changed self.new.changed }
        ensures replacing { self.new.replacing ≡ self.old.replacing }
        ensures count { length self.new.frames ≡ length self.old.frames }
        ensures honest { AreHonest P.PageDevice L.LogDevice self.new → AreHonest P.PageDevice L.LogDevice self.old }
        ensures any_moment { self.old.replacing ≡ false → L.honest self.new.log → LeavesOnly L.LogDevice self.old.log self.new.log
            (IsBeginning self.old.state.records self.old.state.forced) }
        ensures fit { KeepsFit P.PageDevice L.LogDevice self.old self.new }
    {
        self.shows_kept();
        self.force()?;
        self.write_all()?;
        self.sync_pages()
    }

    // Writes out each page that was changed.
    fn write_all(&mut self) -> Result<(), Refusal>
        requires running { self.old.state.failed ≡ false }
        requires forced { self.old.state.forced ≡ length self.old.state.records }
        requires within { NoChangeBeyond (pooled self.old) (length self.old.state.records) }
        ensures state { OnOk result (self.new.state ≡ self.old.state) }
        ensures clean { OnOk result ((page : ℕ) → 1 ≤ page → page < page_count self.old.state.sizes
            → is_changed self.new.changed page ≡ false) }
        ensures behind { (page : ℕ) → page_count self.old.state.sizes ≤ page → KeepsPage P.PageDevice self.old.pages self.new.pages page }
        ensures refused { IfErr result (λ r. IsStopped self.old.state self.new.state r) }
        ensures cause { CountsFailure P.PageDevice L.LogDevice self.old self.new result }
        ensures fewer { HasFewer self.old.changed self.new.changed }
        ensures log { self.new.log ≡ self.old.log }
        ensures replacing { self.new.replacing ≡ self.old.replacing }
        ensures count { length self.new.frames ≡ length self.old.frames }
        ensures honest { P.honest self.new.pages → P.honest self.old.pages }
        ensures fit { KeepsFit P.PageDevice L.LogDevice self.old self.new }
    {
        self.shows_kept();
        let layout = self.pages.layout();
        for page in 1..layout.pages() {
            self.write_page(page)?;
        }
        Ok(())
    }

    // Makes the pages durable.
    fn sync_pages(&mut self) -> Result<(), Refusal>
        requires running { self.old.state.failed ≡ false }
        ensures state { OnOk result (self.new.state ≡ self.old.state) }
        ensures durable { OnOk result ((page : ℕ) → Only (P.seen self.new.pages page) (P.may_be self.new.pages page)) }
        ensures kept { (page : ℕ) → KeepsPage P.PageDevice self.old.pages self.new.pages page }
        ensures refused { IfErr result (λ r. IsStopped self.old.state self.new.state r) }
        ensures cause { CountsFailure P.PageDevice L.LogDevice self.old self.new result }
        ensures changed { self.new.changed ≡ self.old.changed }
        ensures log { self.new.log ≡ self.old.log }
        ensures replacing { self.new.replacing ≡ self.old.replacing }
        ensures count { length self.new.frames ≡ length self.old.frames }
        ensures honest { P.honest self.new.pages → P.honest self.old.pages }
        ensures fit { KeepsFit P.PageDevice L.LogDevice self.old self.new }
    {
        self.shows_kept();
        match self.pages.sync() {
            Ok(()) => Ok(()),
            Err(refusal) => {
                self.failed = true;
                Err(refusal)
            }
        }
    }

    // Puts the Base in the place of all records, which are forced, over pages that are durable.
    fn put_base(&mut self) -> Result<Lsn, Refusal>
        requires could { MayMakeOneRecord self.old }
        requires forced { self.old.state.forced ≡ length self.old.state.records }
        requires clean { (page : ℕ) → 1 ≤ page → page < page_count self.old.state.sizes
            → is_changed self.old.changed page ≡ false }
        requires durable { (page : ℕ) → Only (P.seen self.old.pages page) (P.may_be self.old.pages page) }
        ensures made { IfOk result (λ lsn. HasMadeOneRecord P.PageDevice L.LogDevice self.old self.new lsn) }
        ensures refused { IfErr result (λ r. IsStopped self.old.state self.new.state r) }
        ensures cause { CountsFailure P.PageDevice L.LogDevice self.old self.new result }
        ensures device { self.new.pages ≡ self.old.pages }
        ensures changed { self.new.changed ≡ self.old.changed }
        ensures count { length self.new.frames ≡ length self.old.frames }
        ensures honest { L.honest self.new.log → L.honest self.old.log }
        ensures any_moment { self.old.replacing ≡ false → L.honest self.new.log → LeavesOnly L.LogDevice self.old.log self.new.log
            (IsBeginningOrBase self.old.state.records self.old.state.forced) }
        ensures fit { KeepsFitOrBased P.PageDevice L.LogDevice self.old self.new }
    {
        self.shows_kept();
        self.pages.shows_kept();
        match self.log.replace(self.incarnation) {
            Ok(lsn) => Ok(lsn),
            Err(refusal) => {
                self.failed = true;
                Err(refusal)
            }
        }
    }
}
