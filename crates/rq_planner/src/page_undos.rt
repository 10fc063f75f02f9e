//! Slot writes that are undone, as the level of single slots says.
ghost use Rattle.std.specs.Prelude.{◌≡◌, ◌<◌, IfErr, IfOk, length};
ghost use Rattle.rq_planner.specs.PageUndos.{NotPutBackFor, PutsBackWrite};

use rq_level::{Level, Levels, PageSet, Plan, SlotWrite, Slots};
use rq_model::record::Record;
use rq_model::refusal::Refusal;
use std::alloc::Global;

/// Has the level of single slots undo what a PageOp wrote: the write that does.
///
/// # Errors
/// `Damaged` where the record is no PageOp, or of a slot that no page has. Else `NoMemory`.
pub(crate) fn undo_write<B: Level>(
    alloc: Global,
    levels: &mut Levels<B>,
    record: &Record,
) -> Result<SlotWrite, Refusal>
    requires { 0 < length levels.old }
    ensures same { levels.new ≡ levels.old }
    ensures back { IfOk result (λ write. PutsBackWrite «record».now write) }
    ensures err { IfErr result (λ e. NotPutBackFor «record».now e) }
{
    let given = Slots::new(alloc);
    let latched = PageSet::new(alloc);
    let mut plan = Plan::new(alloc);
    match levels.undo(0, record, &given, &latched, &mut plan) {
        Ok(()) => Ok(plan.writes[0]),
        Err(refusal) => Err(refusal),
    }
}
