//! What an abort undoes: the inverses of finished operations.
ghost use Rattle.std.specs.Prelude.{◌≡◌, ◌≢◌, ◌↔◌, ◌+◌, ◌≤◌, Err, IfOk, IfErr, IfSome, IfNone, None, Some, false, true, length, List, ℕ};
ghost use Rattle.rq_model.specs.History.Call.{Undo_next};
ghost use Rattle.rq_model.specs.Tests.{log_full, undo_cost};
ghost use Rattle.rq_level.specs.Asked.{deed_back};
ghost use Rattle.rq_sound.specs.Sound.{IsSound};
ghost use Rattle.rq_engine.specs.Earlier.{on, IsEarlier};
ghost use Rattle.rq_model.specs.declared.record.Record.{Record as AnyRecord};
ghost use Rattle.rq_model.specs.Commits.{op_of};
ghost use Rattle.rq_model.specs.Content.{said};
ghost use Rattle.rq_engine.specs.KeptUp.{AnswerCounts, HasReadPages, HasTried, IsGivenBy, KeepsDevices, RefusedButRead};
ghost use Rattle.rq_level.specs.Writes.{with_plan};
ghost use Rattle.rq_sound.specs.Groups.{slots_now};
ghost use Rattle.rq_sound.specs.Plans.{AreUnlatched};
ghost use Rattle.rq_engine.specs.Answers.{AnswersLegally};
ghost use Rattle.rq_engine.specs.Applied.{TakesUnlatched};
ghost use Rattle.rq_engine.specs.Invariant.{IsDoneConsistent, IsLogged, end_of};
ghost use Rattle.rq_engine.specs.Receives.{undoing_of};
ghost use Rattle.rq_engine.specs.Aborts.{IsTurnedBack, IsUndoBegun, IsUndoOf, UndoSays};
ghost use Rattle.rq_store.specs.State.{ledger_of, op_done};
ghost use Rattle.rq_model.specs.Vocabulary.{is_some};
ghost use Rattle.rq_planner.specs.Answered.{IsPlanned};
ghost use Rattle.rq_planner.specs.Asked.{Undo};
ghost use Rattle.rq_planner.specs.Backs.{CanBeTakenBack};
ghost use Rattle.rq_planner.specs.Lawful.{IsLawfulInverse, MayRefuse};
ghost use Rattle.rq_model.specs.declared.record.Deed.{Deed};
ghost use Rattle.rq_views.specs.InStore.{IsDeedOf};
ghost use Rattle.rq_engine.specs.Plans.{BeginsAsPlanned, HasBegunBack, HasTurnedBack, IsInversePlan, IsStartOf, LevelsAnswer, known_part, to_undo, turned_back};
ghost use Rattle.rq_engine.specs.Fixing.{AreWritesOf, StartHasFrames, TakeHasFrames};

use crate::engine::Engine;
use rq_disk::{LogDevice, PageDevice};
use rq_level::{Level, Plan};
use rq_model::record::{DeedBytes, Record};
use rq_model::refusal::Refusal;
use rq_model::txn::{Sub, Txn};
use rq_txn::{Aim, Finished, Operation};

// The record that ended a finished operation of the transaction.
fn op_end_of(txn: Txn, done: &Finished) -> Record
    ensures { result ≡ end_of txn done.now }
{
    Record::OpEnd {
        txn,
        operation: done.number,
        level: done.deed.level(),
        deed: DeedBytes::new(done.deed.bytes()).unwrap(),
    }
}

impl<P: PageDevice, L: LogDevice, B: Level> Engine<P, L, B> {
    /// Starts to undo what an aborting transaction did last and has not undone. Takes everything that the steps and the
    /// finish of the inverse will need. None where nothing is left to undo.
    ///
    /// # Errors
    /// `Failed`, `UnknownTransaction`, `NotOpen` where it is not aborting, `Unfinished`, `LogFull`, `Latched`,
    /// `PoolFull`, `NoMemory`, `DiskRead`, `DiskWrite`; of a store that is not sound also `Damaged`.
    pub fn undo_next(&mut self, txn: Txn) -> Result<Option<Sub>, Refusal>
        ensures answered { AnswersLegally P.PageDevice L.LogDevice self.old (Undo_next txn) undoing_of result self.new }
        ensures sizes { self.new.state.sizes ≡ self.old.state.sizes }
        ensures lists { P.honest self.new.pages → IfOk result (λ started. UndoSays self.old.state txn started self.new.state) }
        ensures begun { IfOk result (λ started. IfSome started (λ sub. IsUndoBegun self.old.state txn sub self.new.state)) }
        ensures none { IfOk result (λ started. IfNone started
            ((self.new ≡ self.old) × UndoSays self.old.state txn None self.new.state)) }
        ensures latched { P.honest self.new.pages → (e : List AnyRecord) → IsEarlier e self.old.state → IsSound (on e self.old.state)
            → TakesUnlatched (on e self.old.state) (Undo_next txn) result }
        ensures frames { TakeHasFrames (λ ws. P.honest self.new.pages → AreWritesOf self.old.state (IsUndoOf self.old.state txn) ws)
            self.old result self.new.state }
        ensures devices { KeepsDevices P.PageDevice self.old self.new }
        ensures faults { AnswerCounts P.PageDevice result self.old self.new }
        ensures refused { IfErr result (λ r. RefusedButRead (Undo_next txn) self.old r self.new) }
        ensures failed { (result ≡ Err Refusal.Failed) ↔ (self.old.state.failed ≡ true) }
    {
        let number = self.check_aborting(txn)?;
        let Some(done) = self.transactions.next_undo(txn) else {
            return Ok(None);
        };
        if self.is_log_full(done.deed.undo_records()) {
            return Err(Refusal::LogFull);
        }
        let done = done.copy(self.alloc)?;
        match self.start_inverse(txn, number, done) {
            Ok(()) => Ok(Some(Sub { txn, number })),
            Err(refusal) => Err(refusal),
        }
    }

    // Has the inverse of a finished operation planned from the slots as they are. Takes its frames and all that its steps and its
    // end need, and lets it begin.
    fn start_inverse(&mut self, txn: Txn, number: u64, done: Finished) -> Result<(), Refusal>
        requires ready { IsTurnedBack self.old.state txn number (Some done) }
        requires kept { IsDoneConsistent self.old.state.sizes done }
        requires ended { IsLogged self.old.state.records done.lsn (end_of txn done) }
        requires log { log_full (ledger_of self.old.state) (undo_cost (Some (op_done done))) ≡ false }
        // Whatever the device gave of pages that are read.
        ensures tried { HasTried P.PageDevice self.old (HasBegunBack self.old.state txn number done) result self.new }
        ensures frames { StartHasFrames (λ ws. P.honest self.new.pages → IsInversePlan self.old.state done.deed ws) self.old
            (record { txn = txn; number = number }) result self.new.state }
        ensures plain { IfErr result (λ r. r ≢ Refusal.Failed) }
        // Of an honest one.
        ensures started { P.honest self.new.pages → IsStartOf self.old.state (Undo done.deed)
            (HasTurnedBack self.old.state txn number done self.new.state) result }
        ensures answered { IsGivenBy P.PageDevice result self.new → BeginsAsPlanned self.old.state (to_undo (end_of txn done))
            (λ plan. self.new.state ≡ turned_back self.old.state txn number done plan.writes.items) result }
    {
        let mut plan = Plan::new(self.alloc);
        match self.plan_inverse(&op_end_of(txn, &done), &mut plan) {
            Ok(()) => {
                let operation = Operation {
                    number,
                    writes: plan.writes,
                    made: 0,
                    aim: Aim::Undoing {
                        lsn: done.lsn,
                        deed: done.deed,
                    },
                };
                self.launch(txn, operation)
            }
            Err(why) => Err(why),
        }
    }

    // The level of the record's deed plans what takes it back. The log holds the record.
    fn plan_inverse(&mut self, told: &Record, plan: &mut Plan) -> Result<(), Refusal>
        requires logged { (lsn : ℕ) × IsLogged self.old.state.records lsn told.now }
        requires reads { is_some (deed_back told.now) ≡ true }
        // Whatever the device gave of pages that are read.
        ensures read { HasReadPages P.PageDevice self.old self.new }
        ensures counts { AnswerCounts P.PageDevice result self.old self.new }
        ensures causes { IfErr result MayRefuse }
        ensures lawful { IfOk (with_plan plan.new result) (IsLawfulInverse self.old.state.sizes) }
        ensures free { IfOk (with_plan plan.new result) (λ p. AreUnlatched self.old.state p.writes.items) }
        ensures few { (d : Deed) → deed_back told.now ≡ Some d
            → IfOk (with_plan plan.new result) (λ plan. length plan.writes.items + 1 ≤ undo_cost (Some (op_of (said d)))) }
        // Of an honest one that did not fail.
        ensures answered { IsGivenBy P.PageDevice result self.new → LevelsAnswer self.old.state (to_undo told.now) (with_plan plan.new result) }
        ensures planned { IsGivenBy P.PageDevice result self.new → (d : Deed) → deed_back told.now ≡ Some d → IsDeedOf self.old.state.sizes d
            → IsPlanned (known_part self.old.state) (Undo d) (with_plan plan.new result) }
        ensures can { IsGivenBy P.PageDevice result self.new → (d : Deed) → deed_back told.now ≡ Some d → IfOk (with_plan plan.new result)
            (λ p. CanBeTakenBack self.old.state.sizes (slots_now self.old.state) d) }
    {
        plan.writes = self.transactions.spare();
        self.planner
            .plan_inverse(&mut self.pages, &self.transactions, told, plan)
    }
}
