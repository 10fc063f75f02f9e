//! A page's image, seen as its LSN and its slots.
ghost use Rattle.std.specs.Prelude.{◌≡◌, ◌≢◌, ◌≤◌, ◌↔◌, ℕ, IsTrue, length};
ghost use Rattle.rq_page.specs.Pages.{lsn_of, header_of, slot_of, header_front, header_bytes, IsWritten};
ghost use Rattle.rq_page.specs.Kinds.{kind_byte};
ghost use Rattle.rq_page.specs.Sizes.{Sizes};
ghost use Rattle.rq_page.specs.Formatted.{IsHeaderOf};

use crate::layout::PageKind;
use crate::numbers::u64_at;
use byteorder::{BigEndian, ByteOrder};
use rq_bytes::Fields;
use rq_bytes::equal::are_equal;
use rq_model::record::{SLOT_BYTES, Slot};
use rq_model::txn::Lsn;
use std::marker::Model;

/// The size of a page.
pub const PAGE_BYTES: usize = 4096;

// The bytes of a header before its zeros.
const FRONT_BYTES: usize = 13;

/// A page: a header with an LSN, and slots 1 to 15. Contracts see the list of its 4,096 bytes.
#[derive(Drop, PartialEq, Eq)]
pub struct Page {
    bytes: [u8; PAGE_BYTES],
}

impl Model for Page {
    ghost use Rattle.std.specs.Prelude.{List, ℕ};

    ghost Value = { List ℕ };

    ghost view = { λ p. p.bytes };

    ghost inverse = { λ xs. record { bytes = xs } };
}

impl Page {
    ghost use Rattle.std.specs.Borrow.{sem};
    ghost use Rattle.rq_page.specs.Lending.{LendsImage};

    /// The page with these bytes.
    pub fn from_image(image: &[u8; PAGE_BYTES]) -> Self
        ensures { result ≡ image.now }
    {
        Page { bytes: *image }
    }

    /// The page's bytes.
    pub fn image(&self) -> &[u8; PAGE_BYTES]
        ensures bytes { result.now ≡ self.now }
        ensures length { length self.now ≡ 4096 }
    {
        &self.bytes
    }

    /// The page's bytes, to be written over, as by a read from a device.
    pub fn image_mut(&mut self) -> &mut [u8; PAGE_BYTES]
        ensures* writes_back { sem 𝓛 (LendsImage self.entry result) }
        ensures value { result.now ≡ self.old }
    {
        &mut self.bytes
    }

    /// The LSN of the last record that was applied to the page, or 0.
    #[tactic(auto, unfolding(crate::specs::Pages::lsn_of))]
    pub fn lsn(&self) -> Lsn
        ensures { result ≡ lsn_of self.now }
    {
        u64_at(&self.bytes, 0)
    }

    /// The image of a slot.
    #[tactic(auto, unfolding(crate::specs::Pages::slot_of))]
    pub fn slot(&self, n: u8) -> &Slot
        requires low { 1 ≤ n }
        requires high { n ≤ 15 }
        ensures { result.now ≡ slot_of n self.now }
    {
        let at = n as usize * SLOT_BYTES;
        let part: &Slot = self.bytes[at..at + SLOT_BYTES].try_into().unwrap();
        part
    }

    /// Writes a slot, and the LSN of the record that says so. The header of a place stays the header of that place.
    pub fn set_slot(&mut self, n: u8, image: &Slot, lsn: Lsn)
        requires low { 1 ≤ n }
        requires high { n ≤ 15 }
        ensures written { IsWritten self.old self.new n image.now lsn }
        ensures header { (z : Sizes) (page : ℕ) → IsHeaderOf z page self.old → IsHeaderOf z page self.new }
    {
        BigEndian::write_u64(&mut self.bytes, lsn);
        self.put_slot(n, image);
    }

    /// Writes a slot alone.
    pub(crate) fn put_slot(&mut self, n: u8, image: &Slot)
        requires low { 1 ≤ n }
        requires high { n ≤ 15 }
        ensures header { header_of self.new ≡ header_of self.old }
        ensures slot { slot_of n self.new ≡ image.now }
        ensures others { (k : ℕ) → 1 ≤ k → k ≤ 15 → k ≢ n → slot_of k self.new ≡ slot_of k self.old }
    {
        Fields::place(&mut self.bytes, n as usize * SLOT_BYTES, image);
    }

    /// Writes the header of a page to which no record was applied.
    pub(crate) fn set_header(&mut self, number: u32, kind: PageKind)
        ensures header { header_of self.new ≡ header_bytes 0 number (kind_byte kind) }
        ensures slots { (k : ℕ) → 1 ≤ k → k ≤ 15 → slot_of k self.new ≡ slot_of k self.old }
    {
        Fields::place(&mut self.bytes, 0, &header(0, number, kind));
    }

    /// Whether the header says this and nothing else.
    #[tactic(auto, unfolding(crate::specs::Pages::header_of))]
    pub(crate) fn has_header(&self, lsn: Lsn, number: u32, kind: PageKind) -> bool
        ensures { IsTrue result ↔ (header_of self.now ≡ header_bytes lsn number (kind_byte kind)) }
    {
        let wanted = header(lsn, number, kind);
        are_equal(&self.bytes[..SLOT_BYTES], &wanted)
    }
}

// The header with these fields.
fn header(lsn: Lsn, number: u32, kind: PageKind) -> Slot
    ensures { result ≡ header_bytes lsn number (kind_byte kind) }
{
    let mut out = [0; SLOT_BYTES];
    Fields::place(&mut out, 0, &front(lsn, number, kind));
    out
}

// The header before its zeros.
#[tactic(auto, unfolding(crate::specs::Pages::header_front))]
fn front(lsn: Lsn, number: u32, kind: PageKind) -> [u8; FRONT_BYTES]
    ensures { result ≡ header_front lsn number (kind_byte kind) }
{
    let mut out = [0; FRONT_BYTES];
    BigEndian::write_u64(&mut out, lsn);
    BigEndian::write_u32(&mut out[8..], number);
    out[12] = kind.byte();
    out
}
