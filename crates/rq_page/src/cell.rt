//! Cells, each of which holds one message of a chain, and how they stand in slots.
ghost use Rattle.std.specs.Prelude.{◌≡◌, ◌≢◌, ◌≤◌, IfNone, IfSome, Some, length};
ghost use Rattle.rq_page.specs.Cells.{cell_front, cell_bytes, cell_slot_bytes, cell_slot_in, IsCellSlot};
ghost use Rattle.rq_page.specs.declared.cell.CellSlot.{CellSlot};

use crate::addr::Addr;
use crate::numbers::{u16_at, u32_at, u64_at};
use byteorder::{BigEndian, ByteOrder};
use rq_bytes::Fields;
use rq_bytes::equal::are_equal;
use rq_model::message::{BODY_LIMIT, Body};
use rq_model::record::{SLOT_BYTES, Slot};

// The bytes of a cell's slot before the body.
const FRONT_BYTES: usize = 40;

/// A used cell: a message, its place among those that its sender sent, and its neighbours in the chain.
#[derive(Clone, Copy, PartialEq, Eq)]
pub struct Cell {
    /// The number of the message's sender.
    pub sender: u32,
    /// The message's place among those of its sender, from 1.
    pub sequence: u64,
    /// The tag that the sender gave the message.
    pub tag: u64,
    /// The cell of the next message, or none.
    pub next: Addr,
    /// The cell of the message before, or none.
    pub prev: Addr,
    /// The message's body.
    pub body: Body,
}

impl Cell {
    /// The one spelling of a slot that holds it.
    pub fn encode(&self) -> Slot
        ensures { result ≡ cell_bytes self.now }
    {
        spell_cell(
            self.sender,
            self.sequence,
            self.tag,
            self.next,
            self.prev,
            self.body.as_slice(),
        )
    }
}

/// The one spelling of a slot that holds a cell of these.
#[inline(always)]
pub fn spell_cell(sender: u32, sequence: u64, tag: u64, next: Addr, prev: Addr, body: &[u8]) -> Slot
    requires { length body.now ≤ 216 }
    ensures { result ≡ cell_bytes (record {
      sender = sender;
      sequence = sequence;
      tag = tag;
      next = next;
      prev = prev;
      body = body.now;
    }) }
{
    let mut out = [0; SLOT_BYTES];
    Fields::place(&mut out, 0, &front(sender, sequence, tag, next, prev, body));
    Fields::place(&mut out, FRONT_BYTES, body);
    out
}

// The forty bytes before the body.
#[tactic(auto, unfolding(crate::specs::Cells::cell_front))]
#[inline(always)]
fn front(
    sender: u32,
    sequence: u64,
    tag: u64,
    next: Addr,
    prev: Addr,
    body: &[u8],
) -> [u8; FRONT_BYTES]
    requires { length body.now ≤ 216 }
    ensures { result ≡ cell_front (record {
      sender = sender;
      sequence = sequence;
      tag = tag;
      next = next;
      prev = prev;
      body = body.now;
    }) }
{
    let mut out = [0; FRONT_BYTES];
    out[0] = 1;
    BigEndian::write_u16(&mut out[2..], body.len() as u16);
    BigEndian::write_u32(&mut out[4..], sender);
    BigEndian::write_u64(&mut out[8..], sequence);
    BigEndian::write_u64(&mut out[16..], tag);
    BigEndian::write_u64(&mut out[24..], next.number());
    BigEndian::write_u64(&mut out[32..], prev.number());
    out
}

/// What a cell's slot holds.
#[derive(Clone, Copy, PartialEq, Eq)]
pub enum CellSlot {
    /// No message.
    Free,
    /// A message.
    Used(Cell),
}

impl CellSlot {
    /// The one spelling of what the slot holds.
    #[tactic(auto, unfolding(crate::specs::Cells::free_bytes))]
    pub fn encode(&self) -> Slot
        ensures { result ≡ cell_slot_bytes self.now }
    {
        match self {
            CellSlot::Free => [0; SLOT_BYTES],
            CellSlot::Used(cell) => cell.encode(),
        }
    }

    /// What the slot with these bytes holds; none where they are no spelling of anything.
    pub fn decode(bytes: &Slot) -> Option<Self>
        ensures some { IfSome result (λ held. IsCellSlot held × (cell_slot_bytes held ≡ bytes.now)) }
        ensures only { (held : CellSlot) → IsCellSlot held → cell_slot_bytes held ≡ bytes.now → result ≡ Some held }
    {
        let held = CellSlot::read(bytes)?;
        if are_equal(&held.encode(), bytes) {
            Some(held)
        } else {
            None
        }
    }

    /// What stands in the fields of these bytes; none where they can be no spelling. Of a slot that was checked that is
    /// what it holds.
    #[tactic(auto, unfolding(crate::specs::Cells::cell_in))]
    pub fn read(bytes: &Slot) -> Option<Self>
        ensures held { IfSome result (λ held. held ≡ cell_slot_in bytes.now) }
        ensures range { IfSome result IsCellSlot }
        ensures none { IfNone result ((held : CellSlot) → IsCellSlot held → cell_slot_bytes held ≢ bytes.now) }
    {
        if bytes[0] == 0 {
            return Some(CellSlot::Free);
        }
        let length = u16_at(bytes, 2) as usize;
        if length > BODY_LIMIT {
            return None;
        }
        let sequence = u64_at(bytes, 8);
        if sequence == 0 {
            return None;
        }
        let body = Body::new(&bytes[FRONT_BYTES..FRONT_BYTES + length])?;
        Some(CellSlot::Used(Cell {
            sender: u32_at(bytes, 4),
            sequence,
            tag: u64_at(bytes, 16),
            next: Addr::from_number(u64_at(bytes, 24)),
            prev: Addr::from_number(u64_at(bytes, 32)),
            body,
        }))
    }
}
