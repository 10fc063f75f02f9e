//! Gathers the slots that a level wants.
ghost use Rattle.std.specs.Prelude.{◌≡◌, ◌<◌, ◌/◌, false, IfErr, Err, None, OnOk, length};
ghost use Rattle.rq_level.specs.Given.{AreGiven};
ghost use Rattle.rq_level.specs.Meaning.{kept_at, meaning_of};
ghost use Rattle.rq_pool.specs.Fetching.{HasReadFor, ReadsTruly};
ghost use Rattle.rq_txn.specs.Rows.{latched_in};
ghost use Rattle.rq_planner.specs.Answered.{HasGathered, IsAnswered, IsGivenMore, IsWithheld, KnowsCells, wants_of};
ghost use Rattle.rq_planner.specs.Asked.{known_from};
ghost use Rattle.rq_planner.specs.Lawful.{AreFreelyGiven, IsForLatch, IsHeldBack, MayRefuse};

use rq_disk::PageDevice;
use rq_level::{Level, Levels, Op, Slots, Want};
use rq_model::refusal::{Damage, Refusal};
use rq_page::addr::Addr;
use rq_pool::Pages;
use rq_txn::Transactions;

/// Gathers what the level of an operation wants to see for it, each slot as it is.
///
/// # Errors
/// `Latched` where one of them is on a page that an operation under way has latched; `Damaged` where the store has no such
/// slot; `NoMemory`; `DiskRead`, or `Damaged` with the page that a device gave that has lied.
pub(crate) fn gather<P: PageDevice, B: Level>(
    pages: &mut Pages<P>,
    transactions: &Transactions,
    levels: &Levels<B>,
    op: &Op,
    slots: &mut Slots,
) -> Result<(), Refusal>
    requires known { KnowsCells pages.old.sizes pages.old.images levels.now }
    requires level { op.now.level < length levels.now }
    ensures read { HasReadFor P.PageDevice pages.old result pages.new }
    ensures given { OnOk result (AreGiven pages.old.sizes slots.new) }
    ensures free { OnOk result (AreFreelyGiven transactions.now (meaning_of op.now.level) (kept_at levels.now op.now.level)
        slots.new) }
    ensures all { ReadsTruly P.PageDevice pages.old result pages.new
        → OnOk result (HasGathered (known_from pages.old transactions.now) (wants_of levels.now op.now.level) op.now slots.new) }
    ensures none { OnOk result (wants_of levels.now op.now.level op.now slots.new ≡ None) }
    ensures causes { IfErr result MayRefuse }
    ensures held { IfErr result (IsHeldBack transactions.now (wants_of levels.now op.now.level op.now)) }
    ensures refusal { ReadsTruly P.PageDevice pages.old result pages.new
        → IfErr result (λ r. IsAnswered (known_from pages.old transactions.now) (wants_of levels.now op.now.level) op.now
        (λ given answer. ⊥) (Err r)) }
{
    slots.clear();
    while let Want::Slot(at) = levels.want(op.level() as usize, op, slots) {
        match give(pages, transactions, slots, at) {
            Ok(()) => {}
            Err(refusal) => return Err(refusal),
        }
    }
    Ok(())
}

// Gives a level the slot that it wants.
#[inline(always)]
fn give<P: PageDevice>(
    pages: &mut Pages<P>,
    transactions: &Transactions,
    slots: &mut Slots,
    at: Addr,
) -> Result<(), Refusal>
    ensures read { HasReadFor P.PageDevice pages.old result pages.new }
    ensures given { OnOk result (IsGivenMore pages.new.sizes pages.new.images at slots.old slots.new) }
    ensures unlatched { OnOk result (latched_in transactions.now (at / 16) ≡ false) }
    ensures latch { IfErr result (IsForLatch (latched_in transactions.now (at / 16))) }
    ensures causes { IfErr result MayRefuse }
    ensures withheld { ReadsTruly P.PageDevice pages.old result pages.new
        → IfErr result (IsWithheld (known_from pages.old transactions.now) at) }
{
    if transactions.has_latched(at.page()) {
        return Err(Refusal::Latched);
    }
    match pages.look_at(at) {
        Ok(true) => match slots.add(at, pages.slot_at_hand(at)) {
            Ok(()) => Ok(()),
            Err(_) => Err(Refusal::NoMemory),
        },
        Ok(false) => Err(Refusal::Damaged(Damage::Page(0))),
        Err(refusal) => Err(refusal),
    }
}
