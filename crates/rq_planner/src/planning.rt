//! Plans of operations, and of what takes them back.
ghost use Rattle.std.specs.Prelude.{◌≡◌, ◌<◌, ◌≤◌, IfErr, IfOk, Some, length, false, true};
ghost use Rattle.rq_model.specs.declared.record.Deed.{Deed};
ghost use Rattle.rq_model.specs.Vocabulary.{is_some};
ghost use Rattle.rq_level.specs.Asked.{deed_back};
ghost use Rattle.rq_level.specs.Writes.{with_plan};
ghost use Rattle.rq_pool.specs.Fetching.{HasReadFor, ReadsTruly};
ghost use Rattle.rq_planner.specs.Answered.{IsAnsweredBack, IsAnsweredFor, KnowsCells, level_back};
ghost use Rattle.rq_sound.specs.Plans.{AreUnlatched};
ghost use Rattle.rq_planner.specs.Asked.{Task, known_from, task_by};
ghost use Rattle.rq_planner.specs.Lawful.{IsByOwnLatch, IsLawfulFor, IsLawfulInverse, MayRefuse, most_writes_back};

use crate::gathering::gather;
use crate::telling::give_back;
use rq_disk::PageDevice;
use rq_level::{Level, Levels, Op, Plan, Slots};
use rq_model::record::Record;
use rq_model::refusal::Refusal;
use rq_pool::Pages;
use rq_txn::Transactions;

/// Has the level of an operation plan it from the slots as they are, which are gathered into `slots`. What it chose is given
/// back.
///
/// # Errors
/// Those of the level; `Latched` where it wants a slot of a page that an operation under way has latched; `Damaged` where it
/// wants one that the store has not; `NoMemory`; `DiskRead`, or `Damaged` with a page that a device gave that has lied.
pub(crate) fn plan<P: PageDevice, B: Level>(
    pages: &mut Pages<P>,
    transactions: &Transactions,
    levels: &mut Levels<B>,
    op: &Op,
    slots: &mut Slots,
    plan: &mut Plan,
) -> Result<(), Refusal>
    requires known { KnowsCells pages.old.sizes pages.old.images levels.old }
    requires level { op.now.level < length levels.old }
    ensures same { levels.new ≡ levels.old }
    ensures read { HasReadFor P.PageDevice pages.old result pages.new }
    ensures lawful { IfOk (with_plan plan.new result) (IsLawfulFor pages.old.sizes op.now) }
    ensures free { IfOk (with_plan plan.new result) (λ p. AreUnlatched (known_from pages.old transactions.now) p.writes.items) }
    ensures latched { op.now.undo ≡ false → (d : Task) → task_by op.now.level op.now.bytes ≡ Some d
        → IsByOwnLatch pages.old.sizes transactions.now d (with_plan plan.new result) }
    ensures causes { IfErr result MayRefuse }
    ensures answered { ReadsTruly P.PageDevice pages.old result pages.new
        → IsAnsweredFor (known_from pages.old transactions.now) levels.old op.now (with_plan plan.new result) }
{
    match gather(pages, transactions, levels, op, slots) {
        Ok(()) => {
            let answer = levels.plan(op.level() as usize, op, slots, transactions.latched(), plan);
            give_back(pages, levels, &answer, plan);
            answer
        }
        Err(refusal) => Err(refusal),
    }
}

/// Has the level that a record tells plan what takes it back, as `plan` does.
///
/// # Errors
/// As those of `plan`.
pub(crate) fn plan_inverse<P: PageDevice, B: Level>(
    pages: &mut Pages<P>,
    transactions: &Transactions,
    levels: &mut Levels<B>,
    told: &Record,
    slots: &mut Slots,
    plan: &mut Plan,
) -> Result<(), Refusal>
    requires known { KnowsCells pages.old.sizes pages.old.images levels.old }
    requires level { level_back told.now < length levels.old }
    ensures same { levels.new ≡ levels.old }
    ensures read { HasReadFor P.PageDevice pages.old result pages.new }
    ensures lawful { is_some (deed_back told.now) ≡ true → IfOk (with_plan plan.new result) (IsLawfulInverse pages.old.sizes) }
    ensures few { (d : Deed) → deed_back told.now ≡ Some d → IfOk (with_plan plan.new result) (λ p. length p.writes.items ≤ most_writes_back d) }
    ensures free { is_some (deed_back told.now) ≡ true
        → IfOk (with_plan plan.new result) (λ p. AreUnlatched (known_from pages.old transactions.now) p.writes.items) }
    ensures causes { IfErr result MayRefuse }
    ensures answered { ReadsTruly P.PageDevice pages.old result pages.new
        → IsAnsweredBack (known_from pages.old transactions.now) levels.old told.now (with_plan plan.new result) }
{
    let op = Op::back(told);
    match gather(pages, transactions, levels, &op, slots) {
        Ok(()) => {
            let answer = levels.undo(
                op.level() as usize,
                told,
                slots,
                transactions.latched(),
                plan,
            );
            give_back(pages, levels, &answer, plan);
            answer
        }
        Err(refusal) => Err(refusal),
    }
}
