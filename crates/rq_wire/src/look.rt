//! What stands at the front of the bytes that were fed and not taken.
ghost use Rattle.std.specs.Prelude.{◌≡◌, ◌<◌, ◌==◌, ◌≤◌, ◌+◌, ◌-◌, length, take, drop, IfOk};
ghost use Rattle.rq_wire.specs.Looks.{looks, looks_behind, request_in, only};
ghost use Rattle.rq_bytes.specs.Number.{number_at};

use crate::request::{Request, SendBody};
use byteorder::{BigEndian, ByteOrder};
use rq_bytes::Fields;
use std::alloc::{AllocError, Global};

/// What stands at the front of some bytes.
#[derive(Drop)]
pub(crate) enum Prefix {
    // a whole good frame, and how many bytes it takes
    Frame(Request, usize),
    Fault,
    // the beginning of a frame that may be good
    More,
}

pub(crate) fn look(alloc: Global, bytes: &[u8]) -> Result<Prefix, AllocError>
    ensures { IfOk result (λ found. found ≡ looks bytes.now) }
{
    match Fields::take_u16(bytes, 0) {
        None => Ok(Prefix::More),
        Some(count) => look_behind(alloc, count, bytes),
    }
}

fn look_behind(alloc: Global, count: u16, bytes: &[u8]) -> Result<Prefix, AllocError>
    requires { 2 ≤ length bytes.now }
    ensures { IfOk result (λ found. found ≡ looks_behind count bytes.now) }
{
    if count == 0 || count > 512 {
        return Ok(Prefix::Fault);
    }
    if bytes.len() < 3 {
        return Ok(Prefix::More);
    }
    let kind = bytes[2];
    if kind == 0 || kind > 10 {
        return Ok(Prefix::Fault);
    }
    let size = 2 + count as usize;
    if bytes.len() < size {
        return Ok(Prefix::More);
    }
    match request_of(alloc, kind, fields_of(count, bytes))? {
        Some(request) => Ok(Prefix::Frame(request, size)),
        None => Ok(Prefix::Fault),
    }
}

// What is behind the kind in a whole frame.
fn fields_of(count: u16, bytes: &[u8]) -> &[u8]
    requires { (0 < count) × (count ≤ 512) × (2 + count ≤ length bytes.now) }
    ensures fields { result.now ≡ take (count - 1) (drop 3 bytes.now) }
    ensures within { length result.now ≤ 511 }
{
    &bytes[3..2 + count as usize]
}

// The request of this kind with these fields.
fn request_of(alloc: Global, kind: u8, fields: &[u8]) -> Result<Option<Request>, AllocError>
    requires kind { (0 < kind) × (kind < 11) }
    requires fields { length fields.now ≤ 511 }
    ensures { IfOk result (λ request. request ≡ request_in kind fields.now) }
{
    match kind {
        1 => Ok(plain(fields, Request::Begin)),
        2 => send_of(alloc, fields),
        3 => Ok(plain(fields, Request::Receive)),
        6 => Ok(plain(fields, Request::Commit)),
        7 => Ok(plain(fields, Request::Abort)),
        9 => Ok(mark_of(fields)),
        _ => {
            if fields.len() != 4 {
                return Ok(None);
            }
            Ok(Some(of_number(kind, first_number(fields))))
        }
    }
}

// The request of this kind, one of those that have a sender or a client and nothing else.
fn of_number(kind: u8, number: u32) -> Request
    ensures receive { kind ≡ 4 → result ≡ Request.ReceiveFrom number }
    ensures close { kind ≡ 5 → result ≡ Request.Close number }
    ensures last_tag { kind ≡ 8 → result ≡ Request.LastTag number }
    ensures client_tag { kind ≡ 10 → result ≡ Request.ClientTag number }
{
    match kind {
        4 => Request::ReceiveFrom(number),
        5 => Request::Close(number),
        8 => Request::LastTag(number),
        _ => Request::ClientTag(number),
    }
}

// The sender or the client.
fn first_number(fields: &[u8]) -> u32
    requires { 4 ≤ length fields.now }
    ensures { result ≡ number_at 4 0 fields.now }
{
    BigEndian::read_u32(fields)
}

// The tag behind the sender or the client.
fn tag_of(fields: &[u8]) -> u64
    requires { 12 ≤ length fields.now }
    ensures { result ≡ number_at 8 4 fields.now }
{
    BigEndian::read_u64(&fields[4..])
}

fn mark_of(fields: &[u8]) -> Option<Request>
    ensures { result ≡ request_in 9 fields.now }
{
    if fields.len() != 12 {
        return None;
    }
    let client = first_number(fields);
    let tag = tag_of(fields);
    Some(Request::Mark { client, tag })
}

fn send_of(alloc: Global, fields: &[u8]) -> Result<Option<Request>, AllocError>
    requires { length fields.now ≤ 511 }
    ensures { IfOk result (λ request. request ≡ request_in 2 fields.now) }
{
    if fields.len() < 12 {
        return Ok(None);
    }
    let sender = first_number(fields);
    let tag = tag_of(fields);
    let body = SendBody::copy_of(alloc, &fields[12..])?;
    Ok(Some(Request::Send { sender, tag, body }))
}

fn plain(fields: &[u8], request: Request) -> Option<Request>
    ensures { result ≡ only (length fields.now == 0) request }
{
    if fields.is_empty() {
        Some(request)
    } else {
        None
    }
}
