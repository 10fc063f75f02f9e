//! Numbers in bytes, the highest byte first; and lists that contracts alone see.
#![tactic(auto)]

ghost use Rattle.std.specs.Prelude.{◌≡◌, ◌≤◌, ◌+◌, ◌↔◌, IsTrue, IsSome, IfSome, length};
ghost use Rattle.std.specs.Bool.{OnTrue, OnFalse};
ghost use Rattle.rq_bytes.specs.Number.{overlaid, number_at, with_number, WrittenIsRead, OthersReadAsBefore, LengthStays};

pub mod end;
pub mod equal;
mod ghost_list;

use byteorder::{BigEndian, ByteOrder};
pub use ghost_list::GhostList;

/// Unsigned numbers that stand in byte strings from a place on, the highest byte first.
///
/// A `take` answers none, and a `put` false, where the string ends before the number does.
pub struct Fields;

impl Fields {
    /// The byte at a place.
    pub fn take_u8(input: &[u8], at: usize) -> Option<u8>
        ensures fits { IsSome result ↔ (at + 1 ≤ length input.now) }
        ensures value { IfSome result (λ n. n ≡ number_at 1 at input.now) }
    {
        if holds(input.len(), at, 1) {
            Some(input[at])
        } else {
            None
        }
    }

    /// The number in the two bytes from a place.
    pub fn take_u16(input: &[u8], at: usize) -> Option<u16>
        ensures fits { IsSome result ↔ (at + 2 ≤ length input.now) }
        ensures value { IfSome result (λ n. n ≡ number_at 2 at input.now) }
    {
        if holds(input.len(), at, 2) {
            Some(BigEndian::read_u16(&input[at..]))
        } else {
            None
        }
    }

    /// The number in the four bytes from a place.
    pub fn take_u32(input: &[u8], at: usize) -> Option<u32>
        ensures fits { IsSome result ↔ (at + 4 ≤ length input.now) }
        ensures value { IfSome result (λ n. n ≡ number_at 4 at input.now) }
    {
        if holds(input.len(), at, 4) {
            Some(BigEndian::read_u32(&input[at..]))
        } else {
            None
        }
    }

    /// The number in the eight bytes from a place.
    pub fn take_u64(input: &[u8], at: usize) -> Option<u64>
        ensures fits { IsSome result ↔ (at + 8 ≤ length input.now) }
        ensures value { IfSome result (λ n. n ≡ number_at 8 at input.now) }
    {
        if holds(input.len(), at, 8) {
            Some(BigEndian::read_u64(&input[at..]))
        } else {
            None
        }
    }

    /// Writes a byte at a place.
    pub fn put_u8(out: &mut [u8], at: usize, n: u8) -> bool
        ensures fits { IsTrue result ↔ (at + 1 ≤ length out.old) }
        ensures written { OnTrue result (out.new ≡ with_number 1 at n out.old) }
        ensures kept { OnFalse result (out.new ≡ out.old) }
    {
        let fits = holds(out.len(), at, 1);
        if fits {
            out[at] = n;
        }
        fits
    }

    /// Writes a number into the two bytes from a place.
    pub fn put_u16(out: &mut [u8], at: usize, n: u16) -> bool
        ensures fits { IsTrue result ↔ (at + 2 ≤ length out.old) }
        ensures written { OnTrue result (out.new ≡ with_number 2 at n out.old) }
        ensures kept { OnFalse result (out.new ≡ out.old) }
    {
        let fits = holds(out.len(), at, 2);
        if fits {
            BigEndian::write_u16(&mut out[at..], n);
        }
        fits
    }

    /// Writes a number into the four bytes from a place.
    pub fn put_u32(out: &mut [u8], at: usize, n: u32) -> bool
        ensures fits { IsTrue result ↔ (at + 4 ≤ length out.old) }
        ensures written { OnTrue result (out.new ≡ with_number 4 at n out.old) }
        ensures kept { OnFalse result (out.new ≡ out.old) }
    {
        let fits = holds(out.len(), at, 4);
        if fits {
            BigEndian::write_u32(&mut out[at..], n);
        }
        fits
    }

    /// Writes a number into the eight bytes from a place.
    pub fn put_u64(out: &mut [u8], at: usize, n: u64) -> bool
        ensures fits { IsTrue result ↔ (at + 8 ≤ length out.old) }
        ensures written { OnTrue result (out.new ≡ with_number 8 at n out.old) }
        ensures kept { OnFalse result (out.new ≡ out.old) }
    {
        let fits = holds(out.len(), at, 8);
        if fits {
            BigEndian::write_u64(&mut out[at..], n);
        }
        fits
    }

    /// Writes bytes over those from a place.
    pub fn place(out: &mut [u8], at: usize, bytes: &[u8])
        requires { at + length bytes.now ≤ length out.old }
        ensures { out.new ≡ overlaid at bytes.now out.old }
    {
        out[at..at + bytes.len()].copy_from_slice(bytes);
    }

    /// A number that is written is read back, each number wholly before or behind it reads as before, and the length
    /// stays.
    pub fn written_is_read()
        ensures reads_back { WrittenIsRead }
        ensures others { OthersReadAsBefore }
        ensures length { LengthStays }
    {}
}

// Whether a string of a length holds so many bytes from a place on.
fn holds(length: usize, at: usize, width: usize) -> bool
    ensures { IsTrue result ↔ (at + width ≤ length) }
{
    at <= length && width <= length - at
}
