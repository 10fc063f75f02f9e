//! Numbers in bytes.
use rq_bytes::Fields;

// The calls that follow promise nothing, so that a test of many is checked fast.

fn put_u8(out: &mut [u8; 16], at: usize, n: u8) -> bool {
    Fields::put_u8(out, at, n)
}

fn put_u16(out: &mut [u8; 16], at: usize, n: u16) -> bool {
    Fields::put_u16(out, at, n)
}

fn put_u32(out: &mut [u8; 16], at: usize, n: u32) -> bool {
    Fields::put_u32(out, at, n)
}

fn put_u64(out: &mut [u8; 16], at: usize, n: u64) -> bool {
    Fields::put_u64(out, at, n)
}

fn place_second(out: &mut [u8; 16], byte: u8) {
    Fields::place(out, 1, &[byte]);
}

fn take_u8(input: &[u8; 16], at: usize) -> Option<u8> {
    Fields::take_u8(input, at)
}

fn take_u16(input: &[u8; 16], at: usize) -> Option<u16> {
    Fields::take_u16(input, at)
}

fn take_u32(input: &[u8; 16], at: usize) -> Option<u32> {
    Fields::take_u32(input, at)
}

fn take_u64(input: &[u8; 16], at: usize) -> Option<u64> {
    Fields::take_u64(input, at)
}

fn put_all(bytes: &mut [u8; 16]) -> bool {
    let all = put_u8(bytes, 0, 1)
        && put_u16(bytes, 2, 0x0203)
        && put_u32(bytes, 4, 0x0405_0607)
        && put_u64(bytes, 8, 0x1112_1314_1516_1718);
    place_second(bytes, 9);
    all
}

#[test]
fn fields_of_each_width(rt: HostRuntime) {
    let mut bytes = [0xff; 16];
    assert!(rt; put_all(&mut bytes));
    Fields::written_is_read();
    let want = [
        1, 9, 2, 3, 4, 5, 6, 7, 0x11, 0x12, 0x13, 0x14, 0x15, 0x16, 0x17, 0x18,
    ];
    assert!(rt; bytes == want);
    let taken = (
        take_u8(&bytes, 1),
        take_u16(&bytes, 2),
        take_u32(&bytes, 4),
        take_u64(&bytes, 8),
        take_u64(&bytes, 9),
    );
    let wanted = (
        Some(9),
        Some(0x0203),
        Some(0x0405_0607),
        Some(0x1112_1314_1516_1718),
        None,
    );
    assert!(rt; taken == wanted);
    assert!(rt; !put_u16(&mut bytes, usize::MAX, 7) && bytes == want);
}
