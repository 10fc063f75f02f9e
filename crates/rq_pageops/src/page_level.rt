//! The level of single slots.
ghost use Rattle.std.specs.Prelude.{◌+◌, ◌*◌, ◌<◌, ◌^◌, ◌/◌, ◌%◌, OnOk};
ghost use Rattle.rq_level.specs.LevelState.{LevelState};
ghost use Rattle.rq_level.specs.PagePlans.{IsWritePlan, TakesBack, is_slot_number};
ghost use Rattle.rq_level.specs.Writes.{with_plan};

use rq_level::{
    Level, Op, Outcome, PageSet, Plan, Replies, SlotWrite, Slots, Want, put_only, redo_page,
};
use rq_model::record::{DeedBytes, Record, Slot};
use rq_model::refusal::{Damage, NoMemory, Refusal};
use rq_model::txn::Lsn;
use rq_page::addr::Addr;
use rq_page::page::Page;

/// Redo and undo of single slots. It is asked to do nothing.
#[derive(Drop)]
pub struct PageLevel;

impl Level for PageLevel {
    ghost use Rattle.rq_level.specs.LevelState.{nothing_kept};

    ghost level = { λ _. 0 };

    ghost kept = { λ _. nothing_kept };

    fn number(&self) -> u8 {
        0
    }

    fn reads(&self, _deed: &[u8]) -> bool {
        false
    }

    fn outcome(&self, _deed: &[u8]) -> Option<Outcome> {
        None
    }

    fn keeps(&self) -> bool {
        false
    }

    fn want(&self, _op: &Op, _given: &Slots) -> Want {
        Want::Ready
    }

    fn plan(
        &mut self,
        _op: &Op,
        _given: &Slots,
        _latched: &PageSet,
        _plan: &mut Plan,
    ) -> Result<(), Refusal> {
        Err(Refusal::Damaged(Damage::Page(0)))
    }

    fn undo(
        &mut self,
        record: &Record,
        _given: &Slots,
        _latched: &PageSet,
        plan: &mut Plan,
    ) -> Result<(), Refusal> {
        match record {
            Record::PageOp {
                page,
                slot,
                before,
                after,
                ..
            } => take_back(plan, *page, *slot, before, after),
            _ => Err(Refusal::Damaged(Damage::Page(0))),
        }
    }

    fn redo(&mut self, page: &mut Page, lsn: Lsn, record: &Record) -> bool {
        redo_page(page, lsn, record)
    }

    fn noted(&mut self, _at: Addr, _bytes: &Slot) {}
}

// The plan of taking a slot write back.
fn take_back(
    plan: &mut Plan,
    page: u32,
    slot: u8,
    before: &Slot,
    after: &Slot,
) -> Result<(), Refusal>
    ensures { (k : LevelState) → TakesBack k (is_slot_number slot) (page * 16 + slot) before.now after.now
        (with_plan plan.new result) k }
{
    if slot == 0 || slot > 15 {
        return Err(Refusal::Damaged(Damage::Page(page)));
    }
    match put_one(plan, Addr::new(page, slot), after, before) {
        Ok(()) => Ok(()),
        Err(NoMemory) => Err(Refusal::NoMemory),
    }
}

// The plan of one write.
fn put_one(plan: &mut Plan, at: Addr, before: &Slot, after: &Slot) -> Result<(), NoMemory>
    requires page { at / 16 < 2 ^ 32 }
    requires slot { 0 < at % 16 }
    ensures { OnOk result (IsWritePlan at before.now after.now plan.new) }
{
    let write = SlotWrite {
        at,
        before: *before,
        after: *after,
    };
    plan.deed = DeedBytes::empty();
    plan.reply = Replies::Nothing;
    put_only(&mut plan.writes, write)
}
