//! Whole records in bytes.
ghost use Rattle.std.specs.Prelude.{◌≡◌, ◌≤◌, ◌<◌, ◌^◌, length, take, drop, IfSome, IfNone};
ghost use Rattle.rq_disk.specs.Records.{record_size, HasRecord, AreRecords, HoldsRecords, IsTorn};

use byteorder::{BigEndian, ByteOrder};

// The bytes of the record at the front, its length field with them; none where no whole one stands there.
fn size_of_first(bytes: &[u8]) -> Option<usize>
    ensures some { IfSome result (λ size. (size ≡ record_size bytes.now) × HasRecord bytes.now) }
    ensures none { IfNone result (HasRecord bytes.now → ⊥) }
{
    if bytes.len() < 4 {
        return None;
    }
    let size = 4 + BigEndian::read_u32(bytes) as usize;
    if size > bytes.len() {
        return None;
    }
    Some(size)
}

// How many bytes of the record at the front outlive a crash that keeps `torn` of them: at most all but one.
pub(crate) fn torn_size(bytes: &[u8], torn: u64) -> usize
    ensures within { result ≤ length bytes.now }
    ensures is { IsTorn torn result bytes.now }
{
    match size_of_first(bytes) {
        Some(size) => std::cmp::min(torn, size as u64 - 1) as usize,
        None => 0,
    }
}

// Where the first `limit` whole records end, or all that stand at the front, and how many they are.
pub(crate) fn first_records(bytes: &[u8], limit: u64) -> (usize, u64)
    ensures within { result.0 ≤ length bytes.now }
    ensures whole { AreRecords result.1 (take result.0 bytes.now) }
    ensures limit { result.1 ≤ limit }
    ensures last { result.1 < limit → HasRecord (drop result.0 bytes.now) → ⊥ }
{
    let mut end = 0;
    let mut count = 0;
    while count < limit {
        match size_of_first(&bytes[end..]) {
            Some(size) => {
                end += size;
                count += 1;
            }
            None => break,
        }
    }
    (end, count)
}

/// How many whole records stand at the front of the bytes.
pub fn records_in(bytes: &[u8]) -> u64
    ensures holds { HoldsRecords bytes.now result }
    ensures few { result < 2 ^ 62 }
{
    let (_, count) = first_records(bytes, bytes.len() as u64);
    count
}
