//! The calls of an operation under way.
ghost use Rattle.std.specs.Prelude.{◌≡◌, ◌↔◌, Err, ◌+◌, ◌-◌, ◌<◌, ◌≤◌, IfOk, IfErr, OnOk, OnErr, MatchOption, false, true, length, ◌∷◌};
ghost use Rattle.rq_model.specs.History.Call.{Step, Finish};
ghost use Rattle.rq_model.specs.Legal.{OnFound};
ghost use Rattle.rq_txn.specs.Rows.{change_row, deed_of, found_row, row_finished, row_taken_back, under_of};
ghost use Rattle.rq_model.specs.declared.record.Deed.{Deed};
ghost use Rattle.rq_level.specs.Writes.{answer_of};
ghost use Rattle.rq_store.specs.Steps.{op_end};
ghost use Rattle.rq_sound.specs.Rows.{comp_end};
ghost use Rattle.rq_views.specs.Claims.{appends_of, takes_of};
ghost use Rattle.rq_views.specs.Plans.{deed_sender};
ghost use Rattle.rq_engine.specs.Opened.{LeavesDevices};
ghost use Rattle.rq_engine.specs.Moves.{with_taken, without_taken};
ghost use Rattle.rq_engine.specs.Applied.{StepChanges};
ghost use Rattle.rq_engine.specs.Answers.{AnswersLegally, IsDoing, IsUnderWay, NotFound, IsOther, OnUnder, Idle, CannotFinish, ending_of};
ghost use Rattle.rq_engine.specs.Frames.{pages_of};
ghost use Rattle.rq_engine.specs.Lists.{FinishSays, StepSays};
ghost use Rattle.rq_engine.specs.Says.{progress_of, outcome_of};

use crate::engine::Engine;
use crate::event::{Outcome, Progress};
use crate::moves::{cells_given_back, leave_out_taken, put_in_taken};
use crate::page_numbers::PageNumbers;
use rq_disk::{LogDevice, PageDevice};
use rq_level::{Gist, Level};
use rq_model::refusal::Refusal;
use rq_model::txn::{Lsn, Sub};
use rq_txn::{Aim, Operation, ToldDeed, Transactions};

/// What an operation ends.
enum Ending {
    /// A deed, of which this is counted.
    Deed(Gist),
    /// The inverse of the operation whose OpEnd has this LSN.
    Inverse(Lsn),
}

impl<P: PageDevice, L: LogDevice, B: Level> Engine<P, L, B> {
    /// Makes the next slot write of an operation, with its record. Takes no memory and touches no device.
    ///
    /// # Errors
    /// `Failed`, `UnknownOperation`.
    pub fn step(&mut self, sub: Sub) -> Result<Progress, Refusal>
        ensures answered { AnswersLegally P.PageDevice L.LogDevice self.old
            (Step sub.txn sub.number) progress_of result self.new }
        ensures sizes { self.new.state.sizes ≡ self.old.state.sizes }
        ensures devices { (self.new.pages ≡ self.old.pages) × (self.new.log ≡ self.old.log)
            × (self.new.replacing ≡ self.old.replacing) }
        ensures count { length self.new.frames ≡ length self.old.frames }
        ensures refused { OnErr result (self.new ≡ self.old) }
        ensures failed { (result ≡ Err Refusal.Failed) ↔ (self.old.state.failed ≡ true) }
        ensures changed { IfOk result (λ progress. StepChanges self.old progress self.new) }
        ensures lists { IfOk result (λ progress. StepSays self.old.state sub progress self.new.state) }
        ensures refusal { IfErr result (λ r. Idle self.old.state sub r) }
    {
        self.make_next(sub)
    }

    /// Ends an operation whose steps are made. Takes no memory and touches no device.
    ///
    /// # Errors
    /// `Failed`, `UnknownOperation`, `Unfinished`.
    pub fn finish(&mut self, sub: Sub) -> Result<Outcome, Refusal>
        ensures answered { AnswersLegally P.PageDevice L.LogDevice self.old
            (Finish sub.txn sub.number) outcome_of result self.new }
        ensures sizes { self.new.state.sizes ≡ self.old.state.sizes }
        ensures lists { IfOk result (λ outcome. FinishSays self.old.state sub outcome self.new.state) }
        ensures devices { LeavesDevices self.old self.new }
        ensures refusal { IfErr result (λ r. CannotFinish self.old.state sub r) }
        ensures refused { OnErr result (self.new ≡ self.old) }
        ensures failed { (result ≡ Err Refusal.Failed) ↔ (self.old.state.failed ≡ true) }
    {
        match self.ready(sub)? {
            Ending::Deed(gist) => {
                let answer = self.answer(sub, gist);
                self.end(sub);
                Ok(answer)
            }
            Ending::Inverse(lsn) => {
                self.end_undo(sub, lsn);
                Ok(Outcome::Undone)
            }
        }
    }

    // What the end of a deed answers: its level is asked where that is a message.
    #[inline(always)]
    fn answer(&self, sub: Sub, gist: Gist) -> Outcome
        requires { IsUnderWay self.now.state sub (λ r u. ending_of u.aim ≡ Ending.Deed gist) }
        ensures { (d : Deed) → IsUnderWay self.now.state sub (λ r u. u.aim ≡ Aim.Doing d) → result ≡ answer_of d }
    {
        match gist {
            Gist::Append { .. } => Outcome::Sent,
            Gist::UnlinkHead { .. } => {
                let deed = deed_under_way(&self.transactions, sub);
                self.planner.outcome(deed.level(), deed.bytes()).unwrap()
            }
            Gist::Close { .. } => Outcome::Closed,
            Gist::Mark { .. } => Outcome::Marked,
        }
    }

    // What the operation ends, where all its writes are made.
    #[inline(always)]
    fn ready(&self, sub: Sub) -> Result<Ending, Refusal>
        ensures ready { IfOk result (λ ending. IsUnderWay self.now.state sub
            (λ r u. (length u.writes ≤ u.made) × (ending_of u.aim ≡ ending))) }
        ensures running { OnOk result (self.now.state.failed ≡ false) }
        ensures refused { IfErr result (λ r. CannotFinish self.now.state sub r) }
    {
        self.check_running()?;
        let Some(operation) = under_way(&self.transactions, sub) else {
            return Err(Refusal::UnknownOperation);
        };
        if operation.made < operation.writes.len() {
            return Err(Refusal::Unfinished);
        }
        Ok(ending_of(&operation.aim))
    }

    // Makes the next slot write of the operation, with its record, where one is left.
    fn make_next(&mut self, sub: Sub) -> Result<Progress, Refusal>
        ensures running { OnOk result (self.old.state.failed ≡ false) }
        ensures made { IfOk result (λ progress. StepSays self.old.state sub progress self.new.state) }
        ensures changed { IfOk result (λ progress. StepChanges self.old progress self.new) }
        ensures idle { IfErr result (λ r. Idle self.old.state sub r) }
        ensures refused { OnErr result (self.new ≡ self.old) }
        ensures devices { (self.new.pages ≡ self.old.pages) × (self.new.log ≡ self.old.log)
            × (self.new.replacing ≡ self.old.replacing) }
        ensures count { length self.new.frames ≡ length self.old.frames }
    {
        self.check_running()?;
        let Some(operation) = under_way(&self.transactions, sub) else {
            return Err(Refusal::UnknownOperation);
        };
        let Some(write) = operation.next_write() else {
            return Ok(Progress::Ready);
        };
        let at = write.at;
        let lsn = self.log.append_page_op(
            sub.txn,
            sub.number,
            at.page() as u32,
            at.slot(),
            &write.before,
            &write.after,
        );
        self.pages.set_slot(at, &write.after, lsn);
        self.planner.noted(at, &write.after);
        self.transactions.step(sub.txn);
        self.owed -= 1;
        Ok(Progress::Done(lsn))
    }

    // Ends a deed, with its record, and lets go of its pages.
    #[inline(always)]
    fn end(&mut self, sub: Sub)
        requires running { self.old.state.failed ≡ false }
        requires ready { IsUnderWay self.old.state sub (λ r u. (length u.writes ≤ u.made) × IsDoing u.aim) }
        ensures ended { (d : Deed) → IsUnderWay self.old.state sub (λ r u. u.aim ≡ Aim.Doing d)
            → self.new.state ≡ record self.old.state {
              rows = change_row sub.txn
                  (row_finished (record { lsn = length self.old.state.records + 1; number = sub.number; deed = d })) self.old.state.rows;
              records = op_end sub.txn sub.number d
                  ∷ self.old.state.records;
              waiting = without_taken d self.old.state.waiting;
            } }
        ensures devices { LeavesDevices self.old self.new }
    {
        let pages = pages_under_way(&self.transactions, sub);
        let deed = deed_under_way(&self.transactions, sub);
        let lsn = self
            .log
            .append_op_end(sub.txn, sub.number, deed.level(), deed.bytes());
        leave_out_taken(&mut self.waiting, deed);
        self.transactions.note(sub.txn, lsn);
        self.pages.let_all(pages.as_slice());
        self.owed -= 1;
    }

    // Ends an inverse, with its record, and lets go of its pages.
    fn end_undo(&mut self, sub: Sub, lsn: Lsn)
        requires running { self.old.state.failed ≡ false }
        requires ready { IsUnderWay self.old.state sub
            (λ r u. (length u.writes ≤ u.made) × (ending_of u.aim ≡ Ending.Inverse lsn)) }
        ensures ended { (d : Deed) → IsUnderWay self.old.state sub (λ r u. u.aim ≡ Aim.Undoing lsn d)
            → self.new.state ≡ record self.old.state {
              rows = change_row sub.txn row_taken_back self.old.state.rows;
              records = comp_end sub.txn sub.number lsn ∷ self.old.state.records;
              cells_in_use = self.old.state.cells_in_use - appends_of d;
              waiting = with_taken d self.old.state.waiting;
            } }
        ensures sender { (d : Deed) → IsUnderWay self.old.state sub (λ r u. u.aim ≡ Aim.Undoing lsn d)
            → takes_of d ≡ 1 → deed_sender d < length self.old.state.waiting }
        ensures devices { LeavesDevices self.old self.new }
    {
        let pages = pages_under_way(&self.transactions, sub);
        let deed = deed_under_way(&self.transactions, sub);
        self.log.append_comp_end(sub.txn, sub.number, lsn);
        put_in_taken(&mut self.waiting, deed);
        self.cells_in_use = self.cells_in_use.saturating_sub(cells_given_back(deed));
        self.transactions.undo(sub.txn);
        self.pages.let_all(pages.as_slice());
        self.owed -= 1;
    }
}

// The operation, if it is under way.
#[inline(always)]
fn under_way(transactions: &Transactions, sub: Sub) -> Option<&Operation>
    ensures { MatchOption result (NotFound (λ r. IsOther sub.number r.under) (found_row sub.txn transactions.now))
        (λ o. OnFound (found_row sub.txn transactions.now) (λ r. OnUnder sub.number (λ r u. u ≡ under_of o.now) r r.under)) }
{
    let row = transactions.state(sub.txn)?;
    match &row.under_way {
        Some(operation) if operation.number == sub.number => Some(operation),
        _ => None,
    }
}

// What an operation ends that is for this.
#[inline(always)]
fn ending_of(aim: &Aim) -> Ending
    ensures { result ≡ ending_of aim.now }
{
    match aim {
        Aim::Doing(deed) => Ending::Deed(deed.gist()),
        Aim::Undoing { lsn, .. } => Ending::Inverse(*lsn),
    }
}

// The deed that the operation is there to do or to take back, which is under way.
#[inline(always)]
fn deed_under_way(transactions: &Transactions, sub: Sub) -> &ToldDeed
    requires { OnFound (found_row sub.txn transactions.now) (λ r. OnUnder sub.number (λ r u. Unit {0}) r r.under) }
    ensures { OnFound (found_row sub.txn transactions.now) (λ r. OnUnder sub.number (λ r u. deed_of u.aim ≡ result.now) r r.under) }
{
    under_way(transactions, sub).unwrap().aim.deed()
}

// The pages that the operation has fixed, which is under way.
#[inline(always)]
fn pages_under_way(transactions: &Transactions, sub: Sub) -> PageNumbers
    requires { OnFound (found_row sub.txn transactions.now) (λ r. OnUnder sub.number (λ r u. length u.writes ≤ 3) r r.under) }
    ensures { OnFound (found_row sub.txn transactions.now) (λ r. OnUnder sub.number (λ r u. result ≡ pages_of u.writes) r r.under) }
{
    PageNumbers::of(&under_way(transactions, sub).unwrap().writes)
}
