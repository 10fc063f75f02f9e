//! Which slots operations need to see.
ghost use Rattle.std.specs.Prelude.{◌≡◌, ◌+◌, ◌≤◌, [], ◌∷◌, Some, length};
ghost use Rattle.rq_bytes.specs.Number.{number_at};
ghost use Rattle.rq_page.specs.Cells.{cell_in};
ghost use Rattle.rq_page.specs.Directories.{directory_in};
ghost use Rattle.rq_page.specs.Sizes.{directory_at};
ghost use Rattle.rq_level.specs.ChainPlans.{along_from, job_wanted, to_next, to_prev};
ghost use Rattle.rq_chain.specs.Spans.{span_wanted};

use crate::common::slot_wanted;
use crate::spans::{Reach, Span, span_of};
use byteorder::{BigEndian, ByteOrder};
use rq_level::{Op, Slots};
use rq_model::record::Slot;
use rq_page::addr::Addr;
use rq_page::layout::SLOTS;

/// The slot that an operation wants to see next, of those that it writes; none where all are given.
pub(crate) fn wanted(op: &Op, given: &Slots) -> Option<Addr>
    ensures { result ≡ job_wanted op.now given.now }
{
    match span_of(op) {
        None => None,
        Some(span) => slot_of_span(&span, given),
    }
}

// The slot of a span that is wanted next.
fn slot_of_span(span: &Span, given: &Slots) -> Option<Addr>
    ensures { result ≡ span_wanted (Some span.now) given.now }
{
    let at = directory_addr(span.sender);
    match given.get(at) {
        None => Some(at),
        Some(directory) => match span.reach {
            Reach::Nothing => None,
            Reach::Tail => link_wanted(tail_in(directory), given),
            Reach::TailAndPrevious => tail_wanted(tail_in(directory), given),
            Reach::Head => link_wanted(head_in(directory), given),
            Reach::HeadAndNext => head_wanted(head_in(directory), given),
        },
    }
}

// Where a sender's directory slot stands.
fn directory_addr(sender: u32) -> Addr
    ensures { result ≡ directory_at sender }
{
    Addr::new(1 + sender / SLOTS, (1 + sender % SLOTS) as u8)
}

// The slot that a link names, where it was not given.
fn link_wanted(at: Addr, given: &Slots) -> Option<Addr>
    ensures { result ≡ along_from [] at given.now }
{
    if at.number() == 0 {
        return None;
    }
    slot_wanted(at, given)
}

// The head's slot, and then the one behind it.
fn head_wanted(at: Addr, given: &Slots) -> Option<Addr>
    ensures { result ≡ along_from (to_next ∷ []) at given.now }
{
    if at.number() == 0 {
        return None;
    }
    match given.get(at) {
        None => Some(at),
        Some(bytes) => behind(bytes, given),
    }
}

// The slot behind a cell.
fn behind(bytes: &Slot, given: &Slots) -> Option<Addr>
    ensures { result ≡ along_from [] (to_next bytes.now) given.now }
{
    if bytes[0] == 0 {
        return None;
    }
    link_wanted(next_in(bytes), given)
}

// The tail's slot, and then the one before it.
fn tail_wanted(at: Addr, given: &Slots) -> Option<Addr>
    ensures { result ≡ along_from (to_prev ∷ []) at given.now }
{
    if at.number() == 0 {
        return None;
    }
    match given.get(at) {
        None => Some(at),
        Some(bytes) => before(bytes, given),
    }
}

// The slot before a cell.
fn before(bytes: &Slot, given: &Slots) -> Option<Addr>
    ensures { result ≡ along_from [] (to_prev bytes.now) given.now }
{
    if bytes[0] == 0 {
        return None;
    }
    link_wanted(prev_in(bytes), given)
}

// What stands in the bytes of a slot.

fn tail_in(bytes: &Slot) -> Addr
    ensures { result ≡ (directory_in bytes.now).directory.tail }
{
    Addr::from_number(u64_at(bytes, 40))
}

fn head_in(bytes: &Slot) -> Addr
    ensures { result ≡ (directory_in bytes.now).directory.head }
{
    Addr::from_number(u64_at(bytes, 32))
}

pub(crate) fn next_in(bytes: &Slot) -> Addr
    ensures { result ≡ (cell_in bytes.now).next }
{
    Addr::from_number(u64_at(bytes, 24))
}

pub(crate) fn prev_in(bytes: &Slot) -> Addr
    ensures { result ≡ (cell_in bytes.now).prev }
{
    Addr::from_number(u64_at(bytes, 32))
}

pub(crate) fn sequence_in(bytes: &Slot) -> u64
    ensures { result ≡ (cell_in bytes.now).sequence }
{
    u64_at(bytes, 8)
}

pub(crate) fn tag_in(bytes: &Slot) -> u64
    ensures { result ≡ (cell_in bytes.now).tag }
{
    u64_at(bytes, 16)
}

#[tactic(auto, unfolding(rq_page::specs::Cells::cell_in))]
pub(crate) fn body_in(bytes: &Slot) -> &[u8]
    requires { number_at 2 2 bytes.now ≤ 216 }
    ensures body { result.now ≡ (cell_in bytes.now).body }
    ensures short { length result.now ≤ 216 }
{
    let length = BigEndian::read_u16(&bytes[2..]) as usize;
    &bytes[40..40 + length]
}

fn u64_at(bytes: &[u8], at: usize) -> u64
    requires { at + 8 ≤ length bytes.now }
    ensures { result ≡ number_at 8 at bytes.now }
{
    BigEndian::read_u64(&bytes[at..])
}
