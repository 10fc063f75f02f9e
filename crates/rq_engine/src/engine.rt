//! The engine: how it begins, commits, forces and hands over.
ghost use Rattle.std.specs.Prelude.{◌≡◌, ◌&&◌, nat_eq, nat_lt, not, ◌+◌, ◌<◌, ◌≤◌, ◌^◌, ◌↔◌, IfOk, IfErr, OnOk, OnErr, IfSome, Err, ℕ, List, true, false, length, ◌∷◌, []};
ghost use Rattle.rq_model.specs.History.Call.{Begin, Commit, Acknowledge, Hand_over, Force};
ghost use Rattle.rq_model.specs.Replay.{receipt};
ghost use Rattle.rq_model.specs.Replay.Reply.{Gave_txn, Gave_commit, Gave_forced, Gave_handed_over, Gave_receipt};
ghost use Rattle.rq_model.specs.declared.record.Record.TheVariants.{Commit as Commit_record};
ghost use Rattle.rq_model.specs.Bases.{gone};
ghost use Rattle.rq_disk.specs.Device.{Only};
ghost use Rattle.rq_log.specs.Crash.{LeavesOnly};
ghost use Rattle.rq_log.specs.Logged.{WasDurable};
ghost use Rattle.rq_log.specs.Spelled.{spelled, AreSpelled, IsBeginning};
ghost use Rattle.rq_page.specs.Sizes.{page_count, sender_count};
ghost use Rattle.rq_pool.specs.Fetching.{AreAllFramed};
ghost use Rattle.rq_groups.specs.Sent.{sent_count};
ghost use Rattle.rq_groups.specs.Waiting.{waits};
ghost use Rattle.rq_store.specs.Sends.{place_count};
ghost use Rattle.rq_sound.specs.Sound.{IsSound};
ghost use Rattle.rq_engine.specs.Earlier.{on, over, IsEarlier};
ghost use Rattle.rq_model.specs.declared.record.Record.{Record};
ghost use Rattle.rq_planner.specs.Answered.{KnowsCells};
ghost use Rattle.rq_pool.specs.Held.{IsFixed};
ghost use Rattle.rq_engine.specs.Opened.{LeavesDevices, NotWritten, pooled};
ghost use Rattle.rq_engine.specs.Checkpoint.{IsBeginningOrBase};
ghost use Rattle.rq_engine.specs.Crash.{AreFit, KeepsFit, LeavesCut};
ghost use Rattle.rq_engine.specs.Answers.{AnswersLegally, HasNothingUnderWay};
ghost use Rattle.rq_engine.specs.Lists.{IsBegun, IsCommitted};
ghost use Rattle.rq_engine.specs.Says.{commit_number, receipt_of};

use crate::event::{CommitNo, Receipt};
use crate::moves::{add_sends, count_sends, count_takes};
use rq_disk::{LogDevice, PageDevice};
use rq_groups::{Ends, Sent, Waiting};
use rq_level::Level;
use rq_log::Log;
use rq_model::limits::LOG_LIMIT;
use rq_model::record::Record;
use rq_model::refusal::Refusal;
use rq_model::txn::{Lsn, Txn};
use rq_planner::Planner;
use rq_pool::Pages;
use rq_record::spelled_len;
use rq_txn::Transactions;
use std::alloc::Global;
use std::marker::Model;

/// A store that is open, with what is under way in it. Contracts see its two devices, which pages have a change that
/// was not written, which stand in frames, and its `State`. The state has the sizes, the rows of transactions that have
/// not ended, the ends that they hold, and the images of the pages. It also has the records of the log, how many are
/// forced, whether the store has failed, and the counts that it keeps.
#[derive(Drop)]
pub struct Engine<P: PageDevice, L: LogDevice, B: Level> {
    pub(crate) alloc: Global,
    pub(crate) pages: Pages<P>,
    pub(crate) log: Log<L>,
    pub(crate) transactions: Transactions,
    pub(crate) ends: Ends,
    pub(crate) failed: bool,
    pub(crate) incarnation: u64,
    pub(crate) begins: u64,
    /// Cells of messages that are held, or taken by transactions that have not ended, or meant for sends under way.
    pub(crate) cells_in_use: u64,
    /// By sender, the committed messages that nobody has taken.
    pub(crate) waiting: Waiting,
    /// By sender, how many messages are committed, and the tag of the last one; behind the senders the same of each client's
    /// marks.
    pub(crate) sent: Sent,
    /// The records that operations under way have yet to log.
    pub(crate) owed: u64,
    /// What plans its operations, told of each slot that is written.
    pub(crate) planner: Planner<B>,
}

impl<P: PageDevice, L: LogDevice, B: Level> Model for Engine<P, L, B> {
    ghost use Rattle.rq_model.specs.Vocabulary.{is_some};
    ghost use Rattle.rq_engine.specs.Opened.{OpenStore};
    ghost use Rattle.rq_engine.specs.Invariant.{IsEngine};

    ghost Value = { OpenStore P L };

    ghost view = { λ e. record {
      state = record {
        sizes = e.pages.sizes;
        rows = e.transactions;
        ends = e.ends;
        images = e.pages.images;
        records = e.log.records;
        forced = e.log.forced;
        failed = e.failed;
        incarnation = e.incarnation;
        begins = e.begins;
        cells_in_use = e.cells_in_use;
        waiting = e.waiting;
        sent = e.sent;
      };
      pages = e.pages.device;
      log = e.log.device;
      changed = e.pages.changed;
      frames = e.pages.frames;
      apart = e.pages.apart;
      replacing = is_some e.log.replacing;
    } };

    ghost invariant = { λ e. IsEngine L.LogDevice (record {
      sizes = e.pages.sizes;
      rows = e.transactions;
      ends = e.ends;
      images = e.pages.images;
      records = e.log.records;
      forced = e.log.forced;
      failed = e.failed;
      incarnation = e.incarnation;
      begins = e.begins;
      cells_in_use = e.cells_in_use;
      waiting = e.waiting;
      sent = e.sent;
    }) e.pages.frames e.log e.owed e.planner };
}

impl<P: PageDevice + Drop, L: LogDevice + Drop, B: Level> Engine<P, L, B> {
    /// The engine of a store whose log ends with the Restart record of this incarnation. The planner was told of each slot that its
    /// levels keep anything of.
    pub fn open(
        alloc: Global,
        pages: Pages<P>,
        log: Log<L>,
        waiting: Waiting,
        sent: Sent,
        ends: Ends,
        incarnation: u64,
        cells_in_use: u64,
        planner: Planner<B>,
    ) -> Self
        requires free { ends ≡ record { sending = []; receiving = [] } }
        requires begun { 1 ≤ incarnation }
        requires low { incarnation ≤ length log.records }
        requires running { log.failed ≡ false }
        requires count { length log.records ≤ 2 ^ 50 }
        requires room { log.reserved ≡ 0 }
        requires durable { WasDurable L.LogDevice log }
        requires senders { length waiting ≡ sender_count pages.sizes }
        requires few { (g : ℕ) → waits waiting g ≤ length log.records }
        requires counts { length sent.counts ≡ place_count pages.sizes }
        requires tags { length sent.tags ≡ place_count pages.sizes }
        requires few_sent { (g : ℕ) → sent_count sent g ≤ length log.records }
        requires known { KnowsCells pages.sizes pages.images planner }
        requires loose { (q : ℕ) → 1 ≤ q → IsFixed pages.frames q → ⊥ }
        ensures { result ≡ record {
          state = record {
            sizes = pages.sizes;
            rows = [];
            ends = record { sending = []; receiving = [] };
            images = pages.images;
            records = log.records;
            forced = log.forced;
            failed = false;
            incarnation = incarnation;
            begins = 0;
            cells_in_use = cells_in_use;
            waiting = waiting;
            sent = sent;
          };
          pages = pages.device;
          log = log.device;
          changed = pages.changed;
          frames = pages.frames;
          apart = pages.apart;
          replacing = false;
        } }
    {
        Engine {
            alloc,
            pages,
            log,
            transactions: Transactions::new(alloc),
            ends,
            failed: false,
            incarnation,
            begins: 0,
            cells_in_use,
            waiting,
            sent,
            owed: 0,
            planner,
        }
    }

    /// The devices, as they are. Nothing is written.
    pub fn give_back(self) -> (P, L)
        ensures pages { result.0 ≡ self.pages }
        ensures log { result.1 ≡ self.log }
    {
        let Engine {
            alloc: _,
            pages,
            log,
            transactions: _,
            ends: _,
            failed: _,
            incarnation: _,
            begins: _,
            cells_in_use: _,
            waiting: _,
            sent: _,
            owed: _,
            planner: _,
        } = self;
        (pages.give_back(), log.give_back())
    }
}

impl<P: PageDevice, L: LogDevice, B: Level> Engine<P, L, B> {
    ghost use Rattle.rq_store.specs.State.{ledger_of};
    ghost use Rattle.rq_model.specs.Tests.{log_full};
    ghost use Rattle.rq_model.specs.Tests.{IsUnready};
    ghost use Rattle.rq_model.specs.Tests.{NoneHolds, ready_tests};
    ghost use Rattle.rq_engine.specs.Frames.{AreFixedAsLatched};

    /// For proofs: what a crash at this moment leaves of the log, and of both devices where none has failed to replace it.
    /// It shows too that each record has a spelling, and that a Base is forced. It runs no code.
    pub fn shows_kept(&self)
        ensures running { self.now.state.failed ≡ false → self.now.replacing ≡ false }
        ensures order { self.now.state.forced ≤ length self.now.state.records }
        ensures leaves { self.now.replacing ≡ false → L.honest self.now.log → (c : List ℕ) → L.may_leave self.now.log c
            → IsBeginning self.now.state.records self.now.state.forced c }
        ensures at_rest { L.honest self.now.log → (c : List ℕ) → L.may_leave self.now.log c
            → IsBeginningOrBase self.now.state.records self.now.state.forced c }
        ensures spelled { AreSpelled self.now.state.records }
        ensures based { 0 < self.now.state.forced → gone self.now.state.records < self.now.state.forced }
        ensures cut { self.now.replacing ≡ false → L.honest self.now.log → (e : List Record) → IsEarlier e self.now.state
            → IsSound (on e self.now.state) → AreFit P.PageDevice (over e self.now)
            → LeavesCut P.PageDevice L.LogDevice (over e self.now) }
    {
        self.log.shows_kept();
    }

    /// For proofs: each page behind the superblock is fixed in a frame exactly where an operation under way has latched it, and no
    /// two have latched the same one. It runs no code.
    pub fn shows_fixed(&self)
        ensures { AreFixedAsLatched self.now.state.rows self.now.frames }
    {
        let _failed = self.failed;
    }

    /// For proofs: with as many frames as the store has pages, each page stands in one. It runs no code.
    pub fn shows_all(&self)
        ensures { page_count self.now.state.sizes ≤ length self.now.frames → AreAllFramed (pooled self.now) }
    {
        self.pages.shows_all();
    }

    /// The number of records that are forced. No crash loses one of them.
    pub fn forced(&self) -> Lsn
        ensures { result ≡ self.now.state.forced }
    {
        self.log.forced()
    }

    /// Begins a transaction. Nothing is logged.
    ///
    /// # Errors
    /// `Failed`, `TooManyTransactions`, `NoMemory`.
    pub fn begin(&mut self) -> Result<Txn, Refusal>
        ensures answered { AnswersLegally P.PageDevice L.LogDevice self.old Begin
            (λ t. Gave_txn t) result self.new }
        ensures sizes { self.new.state.sizes ≡ self.old.state.sizes }
        ensures devices { LeavesDevices self.old self.new }
        ensures refused { OnErr result (self.new ≡ self.old) }
        ensures number { IfOk result (λ txn. txn ≡ record {
          incarnation = self.old.state.incarnation;
          count = self.old.state.begins + 1;
        }) }
        ensures lists { IfOk result (λ txn. IsBegun self.old.state txn self.new.state) }
        ensures failed { (result ≡ Err Refusal.Failed) ↔ (self.old.state.failed ≡ true) }
    {
        self.check_running()?;
        if self.transactions.is_full() || self.begins == u64::MAX {
            return Err(Refusal::TooManyTransactions);
        }
        let txn = Txn {
            incarnation: self.incarnation,
            count: self.begins + 1,
        };
        self.transactions.begin(txn)?;
        self.begins += 1;
        Ok(txn)
    }

    /// Commits a transaction: writes its Commit record, releases its locks and ends it. What it sent waits from then on,
    /// and counts as sent. Its marks count, and the cells of what it took are free. The commit is durable once that record
    /// is forced.
    ///
    /// # Errors
    /// `Failed`, `UnknownTransaction`, `NotOpen`, `Unfinished`, `LogFull`, `NoMemory`.
    pub fn commit(&mut self, txn: Txn) -> Result<CommitNo, Refusal>
        ensures answered { AnswersLegally P.PageDevice L.LogDevice self.old (Commit txn)
            (λ number. Gave_commit (commit_number number)) result self.new }
        ensures sizes { self.new.state.sizes ≡ self.old.state.sizes }
        ensures number { IfOk result (λ number. number.txn ≡ txn) }
        ensures failed { (result ≡ Err Refusal.Failed) ↔ (self.old.state.failed ≡ true) }
        ensures records { OnOk result (self.new.state.records ≡ Commit_record txn ∷ self.old.state.records) }
        ensures lists { IfOk result (λ number. IsCommitted self.old.state txn number self.new.state) }
        ensures devices { LeavesDevices self.old self.new }
        ensures refused { OnErr result (self.new ≡ self.old) }
    {
        self.check_open(txn)?;
        if self.is_log_full(1) {
            return Err(Refusal::LogFull);
        }
        let commit = Record::Commit { txn };
        self.log.reserve(spelled_len(&commit))?;
        let lsn = self.log.append(&commit);
        let finished = self.transactions.finished(txn);
        add_sends(&mut self.waiting, finished);
        count_sends(&mut self.sent, self.pages.layout().senders(), finished);
        self.cells_in_use = self.cells_in_use.saturating_sub(count_takes(finished));
        self.ends.release(txn);
        self.transactions.end(txn);
        Ok(CommitNo::new(txn, lsn))
    }

    /// A receipt, exactly where the commit is of this incarnation and its record is forced.
    ///
    /// # Errors
    /// `Failed`.
    pub fn acknowledged(&self, number: CommitNo) -> Result<Option<Receipt>, Refusal>
        ensures answered { AnswersLegally P.PageDevice L.LogDevice self.now (Acknowledge number.txn number.lsn)
            (λ given. Gave_receipt (receipt_of given)) result self.now }
        ensures receipt { IfOk result (λ given. IfSome given (λ r. r.number ≡ number)) }
        ensures given { IfOk result (λ given. receipt_of given
            ≡ receipt (nat_eq number.txn.incarnation self.now.state.incarnation && not
            (nat_lt self.now.state.forced number.lsn)) number.txn number.lsn) }
        ensures failed { (result ≡ Err Refusal.Failed) ↔ (self.now.state.failed ≡ true) }
        ensures refusal { IfErr result (λ r. r ≡ Refusal.Failed) }
    {
        self.check_running()?;
        if number.txn().incarnation == self.incarnation && number.lsn() <= self.log.forced() {
            Ok(Some(Receipt::new(number)))
        } else {
            Ok(None)
        }
    }

    /// Appends the buffered records to the log device, without forcing it.
    ///
    /// # Errors
    /// `Failed`, `DiskWrite`.
    pub fn hand_over(&mut self) -> Result<(), Refusal>
        // The entry that it is, and the state.
        ensures answered { AnswersLegally P.PageDevice L.LogDevice self.old Hand_over
            (λ done. Gave_handed_over) result self.new }
        ensures sizes { self.new.state.sizes ≡ self.old.state.sizes }
        ensures state { OnOk result (self.new.state ≡ self.old.state) }
        // The device, on each answer.
        ensures reads { OnOk result (L.honest self.new.log → L.seen self.new.log ≡ spelled self.old.state.records) }
        ensures cause { OnOk result (L.faults self.new.log ≡ L.faults self.old.log) }
        // Why it was refused, and what that leaves.
        ensures refusal { IfErr result (λ r. NotWritten L.LogDevice self.old self.new r) }
        ensures refused { self.old.state.failed ≡ true → self.new ≡ self.old }
        ensures stops { OnErr result (self.new.state ≡ record self.old.state { failed = true }) }
        ensures failed { (result ≡ Err Refusal.Failed) ↔ (self.old.state.failed ≡ true) }
        // What stays; and what a crash at any moment leaves.
        ensures changed { self.new.changed ≡ self.old.changed }
        ensures replacing { self.new.replacing ≡ self.old.replacing }
        ensures pages { self.new.pages ≡ self.old.pages }
        ensures count { length self.new.frames ≡ length self.old.frames }
        ensures honest { L.honest self.new.log → L.honest self.old.log }
        ensures any_moment { self.old.replacing ≡ false → L.honest self.new.log → LeavesOnly L.LogDevice self.old.log self.new.log
            (IsBeginning self.old.state.records self.old.state.forced) }
        ensures fit { KeepsFit P.PageDevice L.LogDevice self.old self.new }
    {
        self.shows_kept();
        self.check_running()?;
        match self.log.hand_over() {
            Ok(()) => Ok(()),
            Err(refusal) => {
                self.failed = true;
                Err(refusal)
            }
        }
    }

    /// Hands over what is buffered and forces the log device: every record is then durable.
    ///
    /// # Errors
    /// `Failed`, `DiskWrite`.
    pub fn force(&mut self) -> Result<Lsn, Refusal>
        // The entry that it is, and the state.
        ensures answered { AnswersLegally P.PageDevice L.LogDevice self.old Force
            (λ lsn. Gave_forced lsn) result self.new }
        ensures sizes { self.new.state.sizes ≡ self.old.state.sizes }
        ensures forced { IfOk result (λ lsn. (lsn ≡ length self.old.state.records) × (self.new.state.forced ≡ lsn)) }
        ensures state { OnOk result (self.new.state ≡ record self.old.state { forced = length self.old.state.records }) }
        // The device, on each answer.
        ensures reads { OnOk result (L.honest self.new.log → L.seen self.new.log ≡ spelled self.old.state.records) }
        ensures durable { OnOk result (L.honest self.new.log
            → Only (spelled self.old.state.records) (L.may_leave self.new.log)) }
        ensures cause { OnOk result (L.faults self.new.log ≡ L.faults self.old.log) }
        // Why it was refused, and what that leaves.
        ensures refusal { IfErr result (λ r. NotWritten L.LogDevice self.old self.new r) }
        ensures refused { self.old.state.failed ≡ true → self.new ≡ self.old }
        ensures stops { OnErr result (self.new.state ≡ record self.old.state { failed = true }) }
        ensures failed { (result ≡ Err Refusal.Failed) ↔ (self.old.state.failed ≡ true) }
        // What stays; and what a crash at any moment leaves.
        ensures changed { self.new.changed ≡ self.old.changed }
        ensures replacing { self.new.replacing ≡ self.old.replacing }
        ensures pages { self.new.pages ≡ self.old.pages }
        ensures count { length self.new.frames ≡ length self.old.frames }
        ensures honest { L.honest self.new.log → L.honest self.old.log }
        ensures any_moment { self.old.replacing ≡ false → L.honest self.new.log → LeavesOnly L.LogDevice self.old.log self.new.log
            (IsBeginning self.old.state.records self.old.state.forced) }
        ensures fit { KeepsFit P.PageDevice L.LogDevice self.old self.new }
    {
        self.shows_kept();
        self.check_running()?;
        match self.log.force() {
            Ok(lsn) => Ok(lsn),
            Err(refusal) => {
                self.failed = true;
                Err(refusal)
            }
        }
    }

    pub(crate) fn check_running(&self) -> Result<(), Refusal>
        ensures running { OnOk result (self.now.state.failed ≡ false) }
        ensures failed { IfErr result (λ r. (r ≡ Refusal.Failed) × (self.now.state.failed ≡ true)) }
    {
        if self.failed {
            Err(Refusal::Failed)
        } else {
            Ok(())
        }
    }

    // The transaction is open and has no operation under way. Answers the number of its next operation.
    pub(crate) fn check_open(&self, txn: Txn) -> Result<u64, Refusal>
        ensures ready { IfOk result (λ n. HasNothingUnderWay self.now.state txn n) }
        ensures running { OnOk result (self.now.state.failed ≡ false) }
        ensures passes { OnOk result (NoneHolds (ready_tests (ledger_of self.now.state) txn false)) }
        ensures failed { (result ≡ Err Refusal.Failed) ↔ (self.now.state.failed ≡ true) }
        ensures refused { IfErr result (λ r. IsUnready (ledger_of self.now.state) txn false r) }
    {
        self.check_running()?;
        let Some(row) = self.transactions.state(txn) else {
            return Err(Refusal::UnknownTransaction);
        };
        if row.aborting {
            return Err(Refusal::NotOpen);
        }
        if row.under_way.is_some() {
            return Err(Refusal::Unfinished);
        }
        Ok(row.number + 1)
    }

    // Whether so many more records, with those owed, would pass the greatest log.
    pub(crate) fn is_log_full(&self, more: u64) -> bool
        requires { more < 2 ^ 50 }
        ensures { result ≡ log_full (ledger_of self.now.state) more }
    {
        self.log.last() + self.owed + more > LOG_LIMIT
    }
}
