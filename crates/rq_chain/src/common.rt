//! What any level needs that looks at slots that were given and is undone by inverses.
ghost use Rattle.std.specs.Prelude.{◌≡◌};
ghost use Rattle.rq_level.specs.ChainPlans.{IsInverse, unless_given};
ghost use Rattle.rq_level.specs.Given.{given_at};
ghost use Rattle.rq_level.specs.LevelState.{told_sizes};

use byteorder::{BigEndian, ByteOrder};
use rq_level::{Plan, Replies, Slots};
use rq_model::record::{DeedBytes, Slot};
use rq_page::addr::Addr;
use rq_page::layout::Layout;

/// The slot, where it was not given.
pub fn slot_wanted(at: Addr, given: &Slots) -> Option<Addr>
    ensures { result ≡ unless_given at (given_at at given.now) }
{
    match given.get(at) {
        None => Some(at),
        Some(_) => None,
    }
}

/// Makes a plan that of an inverse, with the writes that stand there.
pub fn take_back(plan: &mut Plan)
    ensures writes { plan.new.writes ≡ plan.old.writes }
    ensures inverse { IsInverse plan.new }
{
    plan.deed = DeedBytes::empty();
    plan.reply = Replies::Undone;
}

/// The layout that a superblock's slot tells, where a store may have it.
pub fn told_layout(bytes: &Slot) -> Option<Layout>
    ensures { result ≡ told_sizes bytes.now }
{
    Layout::new(
        BigEndian::read_u32(&bytes[12..]),
        BigEndian::read_u32(&bytes[16..]),
        BigEndian::read_u32(&bytes[20..]),
    )
}
