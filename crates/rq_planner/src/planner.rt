//! Planners: the levels of a store, with the slots that they are given.
ghost use Rattle.std.specs.Prelude.{◌≡◌, ◌≢◌, ◌<◌, ◌≤◌, ◌/◌, ℕ, IfErr, IfOk, IsTrue, OnOk, Some, true, false, length, option_map, slice_set};
ghost use Rattle.rq_model.specs.declared.record.Deed.{Deed};
ghost use Rattle.rq_model.specs.Deeds.{deed_by};
ghost use Rattle.rq_model.specs.Vocabulary.{is_some};
ghost use Rattle.rq_views.specs.Stored.{IsStoreSlot, slot_at, slots_in};
ghost use Rattle.rq_level.specs.Asked.{deed_back, job_back};
ghost use Rattle.rq_level.specs.Writes.{AreSlotWrites, answer_of, with_plan};
ghost use Rattle.rq_level.specs.Meaning.{AppliesOnce, AreTold, redo_of};
ghost use Rattle.rq_pool.specs.Fetching.{HasReadFor, IsAtHand, IsUnread, ReadsTruly};
ghost use Rattle.rq_pool.specs.Held.{IsFramed};
ghost use Rattle.rq_pool.specs.Pooled.{image_at};
ghost use Rattle.rq_pool.specs.Writing.{IsRedoAt};
ghost use Rattle.rq_planner.specs.Answered.{IsAnsweredBack, IsAnsweredFor, IsPlannedAlone, IsPlannedBy, KnowsCells, level_back};
ghost use Rattle.rq_sound.specs.Plans.{AreUnlatched};
ghost use Rattle.rq_planner.specs.Asked.{Task, known_from, task_by};
ghost use Rattle.rq_planner.specs.Backs.{IsJudgedBack, IsRefusedBack, IsTakingBack, MayRefuseBack};
ghost use Rattle.rq_planner.specs.Handed.{AreForStores};
ghost use Rattle.rq_planner.specs.Lawful.{IsByOwnLatch, IsLawfulFor, IsLawfulInverse, MayRefuse, most_writes_back, unlatched_refusal};
ghost use Rattle.rq_planner.specs.PageUndos.{NotPutBackFor, PutsBackWrite};

use crate::handed::StoreLevels;
use crate::page_undos::undo_write;
use crate::planning;
use crate::telling::tell_store;
use rq_disk::PageDevice;
use rq_level::{Level, Levels, Op, Outcome, Plan, SlotWrite, Slots};
use rq_model::record::{DeedBytes, Record, Slot};
use rq_model::refusal::{Damage, Refusal};
use rq_model::txn::Lsn;
use rq_page::addr::Addr;
use rq_pool::Pages;
use rq_txn::Transactions;
use std::alloc::Global;
use std::marker::Model;

/// The levels of a store, with the slots that they are given. What is asked goes to the level that it names. Each level that keeps
/// anything of a slot is told when that is written. Contracts see what each level keeps.
///
/// The cell that a plan chose is given back as soon as it is planned. From the start of the operation on, the latch of its page
/// keeps others from choosing it.
#[derive(Drop)]
pub struct Planner<B: Level> {
    levels: Levels<B>,
    slots: Slots,
}

impl<B: Level> Model for Planner<B> {
    ghost use Rattle.std.specs.Prelude.{List};
    ghost use Rattle.std.specs.Prelude.{◌≤◌, length};
    ghost use Rattle.rq_level.specs.LevelState.{LevelState};
    ghost use Rattle.rq_level.specs.Meaning.{level_count};

    ghost Value = { List LevelState };

    ghost view = { λ p. p.levels };

    ghost invariant = { λ p. level_count ≤ length p.levels };
}

impl<B: Level> Planner<B> {
    /// Of these levels, as they are.
    pub fn new(alloc: Global, levels: StoreLevels<B>) -> Self
        ensures { AreForStores result }
    {
        Planner {
            levels: levels.levels,
            slots: Slots::new(alloc),
        }
    }

    /// Tells the levels a store in which nothing is under way. Where that is refused they know some of its slots.
    ///
    /// # Errors
    /// `DiskRead`; `Damaged` with a page that a device gave that has lied.
    pub fn tell<P: PageDevice>(&mut self, pages: &mut Pages<P>) -> Result<(), Refusal>
        requires { AreForStores self.old }
        ensures read { HasReadFor P.PageDevice pages.old result pages.new }
        ensures known { OnOk result (KnowsCells pages.new.sizes pages.new.images self.new) }
        ensures causes { IfErr result (λ e. IsUnread P.PageDevice pages.old e pages.new) }
    {
        tell_store(pages, &mut self.levels)
    }

    /// A slot was written. Takes no memory.
    pub fn noted(&mut self, at: Addr, bytes: &Slot)
        ensures { AreTold at bytes.now self.old self.new }
    {
        self.levels.noted(at, bytes);
    }

    /// The slot at this address, whose page is at hand, may have been written. Takes no memory.
    pub fn renew<P: PageDevice>(&mut self, pages: &Pages<P>, at: Addr)
        requires slot { IsStoreSlot pages.now.sizes at }
        requires hand { IsAtHand pages.now (at / 16) }
        ensures { AreTold at (slot_at pages.now.images at) self.old self.new }
    {
        self.levels.noted(at, pages.slot(at).unwrap());
    }

    /// Has an operation planned by its level, from the slots as they are. The plan is put into `plan`. The cell that it chose is
    /// given back. Whatever the device gave, a plan tells what was asked for, and writes on pages that nobody has latched.
    ///
    /// # Errors
    /// `Latched`, exactly where it needs a page that an operation under way has latched, or a cell that only such pages have free.
    /// Of a close or a mark that is so whatever the device gave. `DiskRead`; `NoMemory`. `Damaged` of a store that is not sound, of
    /// what may not be done, or where the device has lied.
    pub fn plan<P: PageDevice>(
        &mut self,
        pages: &mut Pages<P>,
        transactions: &Transactions,
        op: &Op,
        plan: &mut Plan,
    ) -> Result<(), Refusal>
        requires known { KnowsCells pages.old.sizes pages.old.images self.old }
        requires level { op.now.level < length self.old }
        requires forward { op.now.undo ≡ false }
        ensures same { self.new ≡ self.old }
        ensures read { HasReadFor P.PageDevice pages.old result pages.new }
        ensures lawful { IfOk (with_plan plan.new result) (IsLawfulFor pages.old.sizes op.now) }
        ensures free { IfOk (with_plan plan.new result) (λ p. AreUnlatched (known_from pages.old transactions.now) p.writes.items) }
        ensures latched { (d : Task) → task_by op.now.level op.now.bytes ≡ Some d
            → IsByOwnLatch pages.old.sizes transactions.now d (with_plan plan.new result) }
        ensures causes { IfErr result MayRefuse }
        ensures answered { ReadsTruly P.PageDevice pages.old result pages.new
            → IsAnsweredFor (known_from pages.old transactions.now) self.old op.now (with_plan plan.new result) }
        ensures planned { ReadsTruly P.PageDevice pages.old result pages.new
            → IsPlannedBy (known_from pages.old transactions.now) op.now (with_plan plan.new result) }
    {
        planning::plan(
            pages,
            transactions,
            &mut self.levels,
            op,
            &mut self.slots,
            plan,
        )
    }

    /// Has the level that a record names plan what takes its deed back, as `plan` does.
    ///
    /// # Errors
    /// `Latched`, `NoMemory`; of a store that is not sound, where the operation may not be undone, or where the device has lied,
    /// also `Damaged`; `DiskRead`.
    pub fn plan_inverse<P: PageDevice>(
        &mut self,
        pages: &mut Pages<P>,
        transactions: &Transactions,
        told: &Record,
        plan: &mut Plan,
    ) -> Result<(), Refusal>
        requires known { KnowsCells pages.old.sizes pages.old.images self.old }
        requires level { level_back told.now < length self.old }
        ensures same { self.new ≡ self.old }
        ensures read { HasReadFor P.PageDevice pages.old result pages.new }
        ensures lawful { is_some (deed_back told.now) ≡ true → IfOk (with_plan plan.new result) (IsLawfulInverse pages.old.sizes) }
        ensures few { (d : Deed) → deed_back told.now ≡ Some d
            → IfOk (with_plan plan.new result) (λ p. length p.writes.items ≤ most_writes_back d) }
        ensures free { is_some (deed_back told.now) ≡ true
            → IfOk (with_plan plan.new result) (λ p. AreUnlatched (known_from pages.old transactions.now) p.writes.items) }
        ensures causes { IfErr result MayRefuse }
        ensures answered { ReadsTruly P.PageDevice pages.old result pages.new
            → IsAnsweredBack (known_from pages.old transactions.now) self.old told.now (with_plan plan.new result) }
        ensures planned { ReadsTruly P.PageDevice pages.old result pages.new
            → IsPlannedBy (known_from pages.old transactions.now) (job_back told.now) (with_plan plan.new result) }
        ensures judged { ReadsTruly P.PageDevice pages.old result pages.new → (d : Deed) → deed_back told.now ≡ Some d
            → IsJudgedBack pages.old.sizes (slots_in pages.old.sizes pages.old.images) d (with_plan plan.new result) }
    {
        planning::plan_inverse(
            pages,
            transactions,
            &mut self.levels,
            told,
            &mut self.slots,
            plan,
        )
    }

    /// The writes that take back the deed that a record tells, where nothing is under way.
    ///
    /// # Errors
    /// `Damaged` where it tells none, or one that the slots do not show to be done last, or where the device has lied. A close is
    /// shown by its closed group. `NoMemory`, of a deed that is told. `DiskRead`.
    pub fn plan_inverse_alone<P: PageDevice>(
        &mut self,
        alloc: Global,
        pages: &mut Pages<P>,
        told: &Record,
    ) -> Result<Vec<SlotWrite>, Refusal>
        requires { KnowsCells pages.old.sizes pages.old.images self.old }
        ensures same { self.new ≡ self.old }
        ensures read { HasReadFor P.PageDevice pages.old result pages.new }
        ensures lawful { IfOk result (λ writes. AreSlotWrites pages.old.sizes writes.items) }
        ensures causes { IfErr result (MayRefuseBack (deed_back told.now)) }
        ensures answered { ReadsTruly P.PageDevice pages.old result pages.new → IfOk result (λ writes.
            IsPlannedAlone pages.old.sizes pages.old.images self.old told.now writes.items) }
        ensures plan { ReadsTruly P.PageDevice pages.old result pages.new → IfOk result (λ writes. IsTakingBack pages.old.sizes
            (slots_in pages.old.sizes pages.old.images) (deed_back told.now) writes.items) }
        ensures refused { ReadsTruly P.PageDevice pages.old result pages.new → IfErr result (λ r. IsRefusedBack pages.old.sizes
            (slots_in pages.old.sizes pages.old.images) (deed_back told.now) r) }
    {
        if !self.reads_back(told) {
            return Err(Refusal::Damaged(Damage::Page(0)));
        }
        let nobody = Transactions::new(alloc);
        let mut plan = Plan::new(alloc);
        match self.plan_inverse(pages, &nobody, told, &mut plan) {
            Ok(()) => Ok(plan.writes),
            Err(refusal) => Err(refused_alone(refusal)),
        }
    }

    // Whether the record tells a deed that its level reads.
    fn reads_back(&self, told: &Record) -> bool
        ensures reads { result ≡ is_some (deed_back told.now) }
        ensures level { IsTrue result → level_back told.now < length self.now }
    {
        match told {
            Record::OpEnd { level, deed, .. } => self.reads(*level, deed),
            _ => false,
        }
    }

    // Whether these bytes are a deed of the level of this number, which may be none.
    fn reads(&self, level: u8, deed: &DeedBytes) -> bool
        ensures reads { result ≡ is_some (deed_by level deed.now) }
        ensures level { IsTrue result → level < length self.now }
    {
        (level as usize) < self.levels.len() && self.levels.reads(level as usize, deed.as_slice())
    }

    /// What the end of an operation answers, by its level and the bytes of its deed; none where these are no deed. Takes no
    /// memory.
    #[tactic(auto, using(crate::proofs::Told::none_answers))]
    #[inline(always)]
    pub fn outcome(&self, level: u8, deed: &[u8]) -> Option<Outcome>
        ensures { result ≡ option_map answer_of (deed_by level deed.now) }
    {
        let level = level as usize;
        if level >= self.levels.len() {
            return None;
        }
        self.levels.outcome(level, deed)
    }

    /// The write that undoes what a PageOp wrote.
    ///
    /// # Errors
    /// `Damaged` where the record is no PageOp, or of a slot that no page has. Else `NoMemory`.
    pub fn undo_write(&mut self, alloc: Global, record: &Record) -> Result<SlotWrite, Refusal>
        ensures same { self.new ≡ self.old }
        ensures back { IfOk result (λ write. PutsBackWrite «record».now write) }
        ensures err { IfErr result (λ e. NotPutBackFor «record».now e) }
    {
        undo_write(alloc, &mut self.levels, record)
    }

    /// Has the level of single slots apply a record to its page, as `Pages::redo` does.
    pub fn redo<P: PageDevice>(
        &mut self,
        pages: &mut Pages<P>,
        at: Addr,
        lsn: Lsn,
        record: &Record,
    ) -> bool
        requires place { IsStoreSlot pages.old.sizes at }
        requires framed { IsFramed pages.old.frames (at / 16) }
        requires write { IsRedoAt pages.old.sizes at (redo_of «record».now) }
        ensures same { self.new ≡ self.old }
        ensures page { AppliesOnce (redo_of «record».now) (image_at pages.old.images (at / 16)) lsn result
            (image_at pages.new.images (at / 16)) }
        ensures others { (p : ℕ) → p ≢ at / 16 → image_at pages.new.images p ≡ image_at pages.old.images p }
        ensures changed { IsTrue result → pages.new.changed ≡ slice_set pages.old.changed (at / 16) true }
        ensures kept { result ≡ false → pages.new.changed ≡ pages.old.changed }
        ensures sizes { pages.new.sizes ≡ pages.old.sizes }
        ensures device { pages.new.device ≡ pages.old.device }
        ensures frames { pages.new.frames ≡ pages.old.frames }
    {
        pages.redo(&mut self.levels, at, lsn, record)
    }
}

// Why there is no plan, where nobody has latched a page.
fn refused_alone(refusal: Refusal) -> Refusal
    ensures { result ≡ unlatched_refusal refusal }
{
    match refusal {
        Refusal::Latched => Refusal::Damaged(Damage::Page(0)),
        other => other,
    }
}
