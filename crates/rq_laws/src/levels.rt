//! Levels of recovery: two of one number that keep the same of a store.
ghost use Rattle.std.specs.Prelude.{◌≡◌, IfOk};
ghost use Rattle.rq_level.specs.Meaning.{AreOf, IsRedo, redo_of};
ghost use Rattle.rq_level.specs.Writes.{with_plan};
ghost use Rattle.rq_laws.specs.Alike.{PagesAlike};
ghost use Rattle.rq_laws.specs.Planned.{BackAlike, PlannedAlike};

use rq_level::{Level, Op, PageSet, Plan, Slots};
use rq_model::record::{Record, Slot};
use rq_model::refusal::Refusal;
use rq_model::txn::Lsn;
use rq_page::addr::Addr;
use rq_page::page::Page;

/// They read the same deeds. Excludes a level that reads bytes that are no deed, such as one with a body too long.
pub fn reads<B: Level>(first: &B, second: &B, deed: &[u8]) -> (bool, bool)
    requires level { B.level first.now ≡ B.level second.now }
    ensures { result.0 ≡ result.1 }
{
    (first.reads(deed), second.reads(deed))
}

/// They keep the same of a slot that was written. Excludes a level that keeps a cell as used that was freed, or as
/// free that is used.
pub fn noted<B: Level>(first: &mut B, second: &mut B, at: Addr, bytes: &Slot)
    requires level { B.level first.old ≡ B.level second.old }
    requires kept { B.kept first.old ≡ B.kept second.old }
    ensures { B.kept first.new ≡ B.kept second.new }
{
    first.noted(at, bytes);
    second.noted(at, bytes);
}

/// They apply a record to the same pages, and leave the same slots there; what they keep stays the same. Excludes a
/// level that applies a record to a page that has it, and one that answers that it did and writes something else.
pub fn redoes<B: Level>(
    first: &mut B,
    second: &mut B,
    page: &mut Page,
    again: &mut Page,
    lsn: Lsn,
    record: &Record,
) -> (bool, bool)
    requires same { page.old ≡ again.old }
    requires redo { IsRedo (redo_of «record».now) }
    ensures applied { result.0 ≡ result.1 }
    ensures pages { PagesAlike page.new again.new }
    ensures kept { B.kept first.old ≡ B.kept second.old → B.kept first.new ≡ B.kept second.new }
{
    (
        first.redo(page, lsn, record),
        second.redo(again, lsn, record),
    )
}

/// They plan the same, keep the same chosen cell, and where one plans, the other refuses for want of memory alone.
/// Excludes a plan that takes a cell on a latched page, or another than the lowest, and one whose cell is not reserved.
/// Excludes a mark that is not counted, or whose deed tells another tag before it. The level of single slots plans nothing.
pub fn plans<B: Level>(
    first: &mut B,
    second: &mut B,
    op: &Op,
    given: &Slots,
    latched: &PageSet,
    plan: &mut Plan,
    again: &mut Plan,
) -> (Result<(), Refusal>, Result<(), Refusal>)
    requires level { B.level first.old ≡ B.level second.old }
    requires kept { B.kept first.old ≡ B.kept second.old }
    requires given { AreOf (B.kept first.old).sizes given.now }
    ensures planned { PlannedAlike (B.kept first.old).sizes (with_plan plan.new result.0) (with_plan again.new result.1) }
    ensures kept { IfOk (with_plan plan.new result.0) (λ _. IfOk (with_plan again.new result.1) (λ _.
        B.kept first.new ≡ B.kept second.new)) }
{
    (
        first.plan(op, given, latched, plan),
        second.plan(op, given, latched, again),
    )
}

/// They plan the same to take a deed back, or a slot write where they are levels of single slots. Excludes an empty plan,
/// one that puts a message back at the tail, and one that leaves a mark counted, or its tag. Excludes one that puts another
/// image back than stood before the write.
pub fn undoes<B: Level>(
    first: &mut B,
    second: &mut B,
    record: &Record,
    given: &Slots,
    latched: &PageSet,
    plan: &mut Plan,
    again: &mut Plan,
) -> (Result<(), Refusal>, Result<(), Refusal>)
    requires level { B.level first.old ≡ B.level second.old }
    requires kept { B.kept first.old ≡ B.kept second.old }
    requires given { AreOf (B.kept first.old).sizes given.now }
    ensures planned { BackAlike (B.level first.old) (B.kept first.old).sizes (with_plan plan.new result.0) (with_plan again.new result.1) }
    ensures kept { IfOk (with_plan plan.new result.0) (λ _. IfOk (with_plan again.new result.1) (λ _.
        B.kept first.new ≡ B.kept second.new)) }
{
    (
        first.undo(record, given, latched, plan),
        second.undo(record, given, latched, again),
    )
}
