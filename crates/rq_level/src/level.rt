//! The interface of a level of recovery.
ghost use Rattle.std.specs.Prelude.{◌≡◌, ◌≤◌, ℕ, false, option_map};
ghost use Rattle.rq_model.specs.Deeds.{deed_by};
ghost use Rattle.rq_model.specs.Vocabulary.{is_some};
ghost use Rattle.rq_level.specs.LevelState.{LevelState};
ghost use Rattle.rq_level.specs.Lawful.{AllKeepAnew, AllLawful, AppliedTwiceIsOnce};
ghost use Rattle.rq_level.specs.Writes.{answer_of, with_plan};
ghost use Rattle.rq_level.specs.Meaning.{meaning_of, wish, AreOf, redo_of, AppliesOnce, IsRedo, IsAppliedOnce, NotesNothing};

use crate::op::Op;
use crate::slots::{PageSet, Slots};
use crate::writes::{Outcome, Plan};
use rq_model::record::{Record, Slot};
use rq_model::refusal::Refusal;
use rq_model::txn::Lsn;
use rq_page::addr::Addr;
use rq_page::page::Page;

/// What a level asks for before it plans an operation.
#[derive(Clone, Copy, PartialEq, Eq)]
pub enum Want {
    /// The slot at this address.
    Slot(Addr),
    /// Nothing more.
    Ready,
}

/// A level of recovery. What it does follows from its number.
pub trait Level: Drop {
    /// Its place among the levels.
    ghost level: { Self → ℕ };

    /// What it keeps of the slots of the store.
    ghost kept: { Self → LevelState };

    /// Its place among the levels.
    fn number(&self) -> u8
        ensures { result ≡ level self.now };

    /// Whether these bytes are a deed of this level. Takes no memory.
    fn reads(&self, deed: &[u8]) -> bool
        ensures { result ≡ is_some (deed_by (level self.now) deed.now) };

    /// What the end of an operation answers whose deed these bytes are; none where they are no deed of this level. Takes no
    /// memory.
    fn outcome(&self, deed: &[u8]) -> Option<Outcome>
        ensures { result ≡ option_map answer_of (deed_by (level self.now) deed.now) };

    /// False only where it keeps nothing of the slots that it is told of, but for what slot 1 of the first page tells.
    fn keeps(&self) -> bool
        ensures { result ≡ false → NotesNothing (meaning_of (level self.now)) };

    /// What it needs to see next of the slots that the operation writes.
    fn want(&self, op: &Op, given: &Slots) -> Want
        requires { AreOf (kept self.now).sizes given.now }
        ensures { result ≡ wish ((meaning_of (level self.now)).want (kept self.now).sizes op.now given.now) };

    /// Plans an operation that is to be done, from the slots that it wanted. It takes no free cell on a latched page.
    /// The plan is put into `plan`, in place of what stands there; anything may stand there where it is refused.
    fn plan(
        &mut self,
        op: &Op,
        given: &Slots,
        latched: &PageSet,
        plan: &mut Plan,
    ) -> Result<(), Refusal>
        requires { AreOf (kept self.old).sizes given.now }
        ensures same { level self.new ≡ level self.old }
        ensures answer { (meaning_of (level self.old)).plans (kept self.old) op.now given.now latched.now.pages (with_plan plan.new result) (kept self.new) };

    /// Plans what takes back the operation that the record tells, likewise.
    fn undo(
        &mut self,
        record: &Record,
        given: &Slots,
        latched: &PageSet,
        plan: &mut Plan,
    ) -> Result<(), Refusal>
        requires { AreOf (kept self.old).sizes given.now }
        ensures same { level self.new ≡ level self.old }
        ensures answer { (meaning_of (level self.old)).undoes (kept self.old) «record».now given.now latched.now.pages (with_plan plan.new result) (kept self.new) };

    /// Applies a record to its page, where the page is older, and answers whether it did.
    fn redo(&mut self, page: &mut Page, lsn: Lsn, record: &Record) -> bool
        requires { IsRedo (redo_of «record».now) }
        ensures same { level self.new ≡ level self.old }
        ensures kept { kept self.new ≡ kept self.old }
        ensures page { AppliesOnce (redo_of «record».now) page.old lsn result page.new };

    /// A slot was read or written. Takes no memory.
    fn noted(&mut self, at: Addr, bytes: &Slot)
        ensures same { level self.new ≡ level self.old }
        ensures kept { kept self.new ≡ (meaning_of (level self.old)).note (kept self.old) at bytes.now };
}

impl Level for Box<dyn Level + Send> {
    ghost level = { λ b. (Level-box b).level b.value };

    ghost kept = { λ b. (Level-box b).kept b.value };

    fn number(&self) -> u8 {
        (**self).number()
    }

    fn reads(&self, deed: &[u8]) -> bool {
        (**self).reads(deed)
    }

    fn outcome(&self, deed: &[u8]) -> Option<Outcome> {
        (**self).outcome(deed)
    }

    fn keeps(&self) -> bool {
        (**self).keeps()
    }

    fn want(&self, op: &Op, given: &Slots) -> Want {
        (**self).want(op, given)
    }

    fn plan(
        &mut self,
        op: &Op,
        given: &Slots,
        latched: &PageSet,
        plan: &mut Plan,
    ) -> Result<(), Refusal> {
        (**self).plan(op, given, latched, plan)
    }

    fn undo(
        &mut self,
        record: &Record,
        given: &Slots,
        latched: &PageSet,
        plan: &mut Plan,
    ) -> Result<(), Refusal> {
        (**self).undo(record, given, latched, plan)
    }

    fn redo(&mut self, page: &mut Page, lsn: Lsn, record: &Record) -> bool {
        (**self).redo(page, lsn, record)
    }

    fn noted(&mut self, at: Addr, bytes: &Slot) {
        (**self).noted(at, bytes)
    }
}

/// Applies a record to its page, where the page is older, and answers whether it did.
pub fn redo_page(page: &mut Page, lsn: Lsn, record: &Record) -> bool
    requires { IsRedo (redo_of «record».now) }
    ensures { AppliesOnce (redo_of «record».now) page.old lsn result page.new }
{
    match record {
        Record::PageOp { slot, after, .. } => redo_slot(page, lsn, *slot, after),
        Record::PageUndo { slot, after, .. } => redo_slot(page, lsn, *slot, after),
        _ => false,
    }
}

// Writes a slot, where the page is older.
fn redo_slot(page: &mut Page, lsn: Lsn, slot: u8, after: &Slot) -> bool
    requires low { 1 ≤ slot }
    requires high { slot ≤ 15 }
    ensures { IsAppliedOnce page.old lsn (record { slot = slot; after = after.now }) result page.new }
{
    if page.lsn() < lsn {
        page.set_slot(slot, after, lsn);
        true
    } else {
        false
    }
}

/// A record that is applied again to its page changes nothing.
pub fn applied_twice_is_once()
    ensures { AppliedTwiceIsOnce }
{}

/// Each level keeps its laws, whatever its number.
pub fn levels_are_lawful()
    ensures { AllLawful }
{}

/// Once the slots that were planned or written are noted, each level keeps what the slots, read anew, would give.
pub fn what_is_kept_is_read_anew()
    ensures { AllKeepAnew }
{}
