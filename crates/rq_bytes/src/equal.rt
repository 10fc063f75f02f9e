//! Whether byte strings are the same.
ghost use Rattle.std.specs.Prelude.{◌≡◌, ◌≤◌, ◌↔◌, IsTrue, length, take, true};
ghost use Rattle.std.specs.Bool.{OnTrue};

use byteorder::{BigEndian, ByteOrder};

/// How many bytes are compared at a time.
const WIDTH: usize = 32;

/// Whether two byte strings are the same. They are compared 32 bytes at a time, up to the first that differ.
pub fn are_equal(left: &[u8], right: &[u8]) -> bool
    ensures { IsTrue result ↔ (left.now ≡ right.now) }
{
    if left.len() != right.len() {
        return false;
    }
    let mut at = 0;
    while WIDTH <= left.len() - at {
        if !has_same_front(&left[at..], &right[at..]) {
            return false;
        }
        at += WIDTH;
    }
    is_same(&left[at..], &right[at..])
}

// Whether the first 32 bytes are the same. No word waits for the comparison of the one before.
fn has_same_front(left: &[u8], right: &[u8]) -> bool
    requires left { 32 ≤ length left.now }
    requires right { 32 ≤ length right.now }
    ensures same { OnTrue result (take 32 left.now ≡ take 32 right.now) }
    ensures all { left.now ≡ right.now → result ≡ true }
{
    let first = BigEndian::read_u64(left) == BigEndian::read_u64(right);
    let second = BigEndian::read_u64(&left[8..]) == BigEndian::read_u64(&right[8..]);
    let third = BigEndian::read_u64(&left[16..]) == BigEndian::read_u64(&right[16..]);
    let fourth = BigEndian::read_u64(&left[24..]) == BigEndian::read_u64(&right[24..]);
    first & second & third & fourth
}

// The same of a few bytes.
fn is_same(left: &[u8], right: &[u8]) -> bool
    ensures { IsTrue result ↔ (left.now ≡ right.now) }
{
    left == right
}
