//! Numbers in the bytes of a slot or a page.
ghost use Rattle.std.specs.Prelude.{◌≡◌, ◌≤◌, ◌+◌, length};
ghost use Rattle.rq_bytes.specs.Number.{number_at};

use byteorder::{BigEndian, ByteOrder};

/// The number in the two bytes from a place.
pub fn u16_at(bytes: &[u8], at: usize) -> u16
    requires { at + 2 ≤ length bytes.now }
    ensures { result ≡ number_at 2 at bytes.now }
{
    BigEndian::read_u16(&bytes[at..])
}

/// The number in the four bytes from a place.
pub fn u32_at(bytes: &[u8], at: usize) -> u32
    requires { at + 4 ≤ length bytes.now }
    ensures { result ≡ number_at 4 at bytes.now }
{
    BigEndian::read_u32(&bytes[at..])
}

/// The number in the eight bytes from a place.
pub fn u64_at(bytes: &[u8], at: usize) -> u64
    requires { at + 8 ≤ length bytes.now }
    ensures { result ≡ number_at 8 at bytes.now }
{
    BigEndian::read_u64(&bytes[at..])
}
