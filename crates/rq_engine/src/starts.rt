//! Starts of what is to be done: a send, a receive, a close or a mark.
ghost use Rattle.std.specs.Prelude.{◌≡◌, ◌≢◌, ◌+◌, ◌*◌, ◌≤◌, ◌<◌, IfErr, IfOk, OnOk, OnErr, Some, false, true, length};
ghost use Rattle.rq_model.specs.Vocabulary.{is_some};
ghost use Rattle.rq_views.specs.InStore.{IsDeedOf};
ghost use Rattle.rq_txn.specs.Rows.{change_row, row_started, under_of};
ghost use Rattle.rq_groups.specs.Sides.{is_free_end};
ghost use Rattle.rq_planner.specs.Answered.{IsPlanned};
ghost use Rattle.rq_planner.specs.Asked.{Do, IsTaskOf, Task, task_by};
ghost use Rattle.rq_planner.specs.Lawful.{IsLawfulPlan, MayRefuse};
ghost use Rattle.rq_level.specs.Writes.{with_plan};
ghost use Rattle.rq_sound.specs.Plans.{AreUnlatched};
ghost use Rattle.rq_engine.specs.Opened.{pooled};
ghost use Rattle.rq_engine.specs.Frames.{IsForFrames, NotBegun, pages_of};
ghost use Rattle.rq_engine.specs.Answers.{HasNothingUnderWay};
ghost use Rattle.rq_engine.specs.Invariant.{end_bytes};
ghost use Rattle.rq_engine.specs.KeptUp.{AnswerCounts, AreButRead, HasReadPages, HasTried, IsGivenBy, IsLeftBy, KeepsDevices, failed_by};
ghost use Rattle.rq_engine.specs.Plans.{BeginsAsPlanned, HasBegun, HasStarted, IsByLatches, IsOwnPlan, IsStartOf, IsToStart, LevelsAnswer, is_latched, known_part, planned_of, started_with, to_job, AreWritesFor};
ghost use Rattle.rq_engine.specs.Sends.{FitsUnder, HasRoom};
ghost use Rattle.rq_engine.specs.Fixing.{StartHasFrames};

use crate::engine::Engine;
use crate::page_numbers::PageNumbers;
use rq_disk::{LogDevice, PageDevice};
use rq_groups::End;
use rq_level::{Level, Op, Plan};
use rq_log::Log;
use rq_model::refusal::Refusal;
use rq_model::txn::Txn;
use rq_record::{COMP_END_BYTES, OP_END_BYTES, PAGE_OP_BYTES};
use rq_txn::{Aim, Operation, ToldDeed, Transactions};
use std::mem;

impl<P: PageDevice, L: LogDevice, B: Level> Engine<P, L, B> {
    // Has what is asked planned from the slots as they are. Takes its lock, its frames and all that its steps and its end need, and
    // lets it begin. Where it is refused, pages were perhaps read, or written out.
    pub(crate) fn start_planned(
        &mut self,
        txn: Txn,
        number: u64,
        end: End,
        op: &Op,
    ) -> Result<(), Refusal>
        requires forward { op.now.undo ≡ false }
        requires may { IsToStart self.old.state txn number end (task_by op.now.level op.now.bytes) }
        // Whatever the device gave of pages that are read.
        ensures tried { (d : Task) → task_by op.now.level op.now.bytes ≡ Some d → HasTried P.PageDevice self.old
            (HasBegun self.old.state txn number end d) result self.new }
        ensures latched { (d : Task) → task_by op.now.level op.now.bytes ≡ Some d → IsByLatches self.old.state d result }
        ensures frames { (d : Task) → task_by op.now.level op.now.bytes ≡ Some d → StartHasFrames
            (λ ws. P.honest self.new.pages → AreWritesFor self.old.state d ws) self.old (record { txn = txn; number = number })
            result self.new.state }
        ensures plain { IfErr result (λ r. r ≢ Refusal.Failed) }
        // Of an honest one.
        ensures started { P.honest self.new.pages → (d : Task) → task_by op.now.level op.now.bytes ≡ Some d
            → IsStartOf self.old.state (Do d) (HasStarted self.old.state txn number end d self.new.state) result }
        ensures answered { IsGivenBy P.PageDevice result self.new → BeginsAsPlanned self.old.state (to_job op.now)
            (λ plan. self.new.state ≡ started_with self.old.state txn number end (planned_of op.now.level plan)) result }
    {
        let mut plan = Plan::new(self.alloc);
        match self.plan(op, &mut plan) {
            Ok(()) => self.start(txn, number, end, op.level(), &mut plan),
            Err(refusal) => Err(refusal),
        }
    }

    // Has an operation planned that is to be done.
    fn plan(&mut self, op: &Op, plan: &mut Plan) -> Result<(), Refusal>
        requires forward { op.now.undo ≡ false }
        requires asked { is_some (task_by op.now.level op.now.bytes) ≡ true }
        // Whatever the device gave of pages that are read.
        ensures read { HasReadPages P.PageDevice self.old self.new }
        ensures counts { AnswerCounts P.PageDevice result self.old self.new }
        ensures causes { IfErr result MayRefuse }
        ensures lawful { IfOk (with_plan plan.new result) (IsLawfulPlan self.old.state.sizes op.now.level) }
        ensures free { IfOk (with_plan plan.new result) (λ p. AreUnlatched self.old.state p.writes.items) }
        ensures own { (d : Task) → task_by op.now.level op.now.bytes ≡ Some d → IsOwnPlan self.old.state d (with_plan plan.new result) }
        // Of an honest one that did not fail.
        ensures answered { IsGivenBy P.PageDevice result self.new → LevelsAnswer self.old.state (to_job op.now) (with_plan plan.new result) }
        ensures planned { IsGivenBy P.PageDevice result self.new → (d : Task) → task_by op.now.level op.now.bytes ≡ Some d
            → IsTaskOf self.old.state.sizes d → IsPlanned (known_part self.old.state) (Do d) (with_plan plan.new result) }
    {
        plan.writes = self.transactions.spare();
        self.planner
            .plan(&mut self.pages, &self.transactions, op, plan)
    }

    // Takes the lock, the frames and the room of an operation that the level of this number planned, and lets it begin. Where that
    // is refused, the lock is given back.
    fn start(
        &mut self,
        txn: Txn,
        number: u64,
        end: End,
        level: u8,
        plan: &mut Plan,
    ) -> Result<(), Refusal>
        requires ready { HasNothingUnderWay self.old.state txn number }
        requires free { is_free_end txn end self.old.state.ends ≡ true }
        requires lawful { IsLawfulPlan self.old.state.sizes level plan.old }
        requires unlatched { AreUnlatched self.old.state plan.old.writes.items }
        requires inside { IsDeedOf self.old.state.sizes (planned_of level plan.old).deed }
        requires log { HasRoom self.old.state plan.old.writes.items }
        ensures started { OnOk result (AreButRead
            (started_with self.old.state txn number end (planned_of level plan.old)) self.new.state) }
        ensures devices { KeepsDevices P.PageDevice self.old self.new }
        ensures counts { AnswerCounts P.PageDevice result self.old self.new }
        ensures left { IfErr result (λ r. IsLeftBy self.old.state r self.new.state) }
        ensures causes { IfErr result (NotBegun (P.honest self.new.pages)) }
        ensures frames { IsForFrames (pooled self.old) self.old.state.forced (pages_of plan.old.writes.items) result }
    {
        let gist = plan.reply.gist().unwrap();
        let deed = ToldDeed::new(self.alloc, level, plan.deed.as_slice(), gist)?;
        let operation = Operation {
            number,
            writes: mem::replace(&mut plan.writes, Vec::new(self.alloc)),
            made: 0,
            aim: Aim::Doing(deed),
        };
        let Ok(newly) = self.ends.take(txn, end) else {
            return Err(Refusal::NoMemory);
        };
        match self.launch(txn, operation) {
            Ok(()) => Ok(()),
            Err(refusal) => {
                self.ends.undo_take(txn, end, newly);
                Err(refusal)
            }
        }
    }

    // Has the pages of an operation fixed in their frames, takes the room of its records, and lets it begin. A page that makes way
    // and cannot be written out stops the store.
    #[inline(always)]
    pub(crate) fn launch(&mut self, txn: Txn, operation: Operation) -> Result<(), Refusal>
        requires ready { HasNothingUnderWay self.old.state txn operation.number }
        requires fits { FitsUnder self.old.state.sizes (under_of operation) }
        requires unlatched { AreUnlatched self.old.state operation.writes.items }
        requires log { HasRoom self.old.state operation.writes.items }
        ensures launched { OnOk result (AreButRead (record self.old.state {
          rows = change_row txn (row_started (under_of operation)) self.old.state.rows;
        }) self.new.state) }
        ensures devices { KeepsDevices P.PageDevice self.old self.new }
        ensures counts { AnswerCounts P.PageDevice result self.old self.new }
        ensures left { IfErr result (λ r. IsLeftBy self.old.state r self.new.state) }
        ensures causes { IfErr result (NotBegun (P.honest self.new.pages)) }
        ensures frames { IsForFrames (pooled self.old) self.old.state.forced (pages_of operation.writes.items) result }
    {
        self.pages.shows_frames();
        let pages = PageNumbers::of(&operation.writes);
        match self.pages.fix_all(pages.as_slice(), self.log.forced()) {
            Ok(()) => {}
            Err(refusal) => {
                self.failed = fails_by(self.failed, &refusal);
                return Err(refusal);
            }
        }
        match enlist(&mut self.log, &mut self.transactions, txn, operation) {
            Ok(records) => {
                self.owed += records;
                Ok(())
            }
            Err(refusal) => {
                self.pages.let_all(pages.as_slice());
                Err(refusal)
            }
        }
    }
}

// Takes the room of an operation's records, and lets it be under way. Answers how many records these are.
#[inline(always)]
fn enlist<L: LogDevice>(
    log: &mut Log<L>,
    transactions: &mut Transactions,
    txn: Txn,
    operation: Operation,
) -> Result<u64, Refusal>
    requires few { length operation.writes.items ≤ 3 }
    ensures log { OnOk result (log.new ≡ record log.old {
      reserved = log.old.reserved
          + (546 * length operation.writes.items + end_bytes operation.aim);
    }) }
    ensures row { OnOk result (transactions.new ≡ change_row txn (row_started (under_of operation)) transactions.old) }
    ensures records { IfOk result (λ n. n ≡ length operation.writes.items + 1) }
    ensures refusal { IfErr result (λ r. r ≡ Refusal.NoMemory) }
    ensures refused { OnErr result ((log.new ≡ log.old) × (transactions.new ≡ transactions.old)) }
{
    let count = operation.writes.len();
    let room = count * PAGE_OP_BYTES + end_len(&operation.aim);
    let Ok(()) = log.reserve(room) else {
        return Err(Refusal::NoMemory);
    };
    let Ok(()) = transactions.start(txn, operation) else {
        log.release(room);
        return Err(Refusal::NoMemory);
    };
    Ok(count as u64 + 1)
}

// Whether the store has failed behind this refusal: it had before, or a write failed.
fn fails_by(failed: bool, refusal: &Refusal) -> bool
    ensures { result ≡ failed_by failed refusal.now }
{
    match refusal {
        Refusal::DiskWrite => true,
        _ => failed,
    }
}

// How many bytes the record takes that ends an operation.
#[inline(always)]
fn end_len(aim: &Aim) -> usize
    ensures is { result ≡ end_bytes aim.now }
    ensures few { result ≤ 286 }
{
    match aim {
        Aim::Doing(deed) => OP_END_BYTES + deed.bytes().len(),
        Aim::Undoing { .. } => COMP_END_BYTES,
    }
}

/// Whether it was refused for latches.
pub(crate) fn is_latched(answer: &Result<(), Refusal>) -> bool
    ensures { result ≡ is_latched answer.now }
{
    match answer {
        Err(Refusal::Latched) => true,
        _ => false,
    }
}
