//! Which slots operations ask for, by the first bytes of what is asked for or of the deed alone.
ghost use Rattle.std.specs.Prelude.{◌≡◌, ◌+◌, ◌≤◌, cond, nat_eq, None, Some, drop, length};
ghost use Rattle.byteorder.specs.Endian.{big_number};
ghost use Rattle.rq_model.specs.Deeds.{deed_in};
ghost use Rattle.rq_level.specs.Ops.{doing_in};
ghost use Rattle.rq_chain.specs.Spans.{span_of_deed, span_of_doing, span_of_job};

use byteorder::{BigEndian, ByteOrder};
use rq_level::Op;
use rq_model::message::BODY_LIMIT;

/// Which cells of a chain an operation writes, but for a free one.
#[derive(Clone, Copy)]
pub(crate) enum Reach {
    Nothing,
    Tail,
    TailAndPrevious,
    Head,
    HeadAndNext,
}

/// Which slots an operation writes, but for a free cell's: the directory slot of a sender, and cells of its chain.
#[derive(Clone, Copy)]
pub(crate) struct Span {
    pub(crate) sender: u32,
    pub(crate) reach: Reach,
}

/// What an operation asks for; none where its bytes ask this level for nothing.
pub(crate) fn span_of(op: &Op) -> Option<Span>
    ensures { result ≡ span_of_job op.now }
{
    if op.level() != 1 {
        None
    } else if op.is_undo() {
        span_of_deed(op.bytes())
    } else {
        span_of_doing(op.bytes())
    }
}

// What is asked for by something that is to be done.
fn span_of_doing(bytes: &[u8]) -> Option<Span>
    ensures { result ≡ span_of_doing (doing_in bytes.now) }
{
    match bytes {
        [1, fields @ ..] => {
            if fields.len() < 12 || fields.len() > 12 + BODY_LIMIT {
                None
            } else {
                Some(span_at(fields, Reach::Tail))
            }
        }
        [2, fields @ ..] => span_of_sender(fields, Reach::HeadAndNext),
        [3, fields @ ..] => span_of_sender(fields, Reach::Nothing),
        _ => None,
    }
}

// What is asked for by the inverse of a deed.
fn span_of_deed(bytes: &[u8]) -> Option<Span>
    ensures { result ≡ span_of_deed (deed_in bytes.now) }
{
    match bytes {
        [1, fields @ ..] => {
            if fields.len() < 28 || fields.len() > 28 + BODY_LIMIT || number_at(fields, 4) == 0 {
                None
            } else {
                Some(span_at(fields, Reach::TailAndPrevious))
            }
        }
        [2, fields @ ..] => {
            if fields.len() < 20 || fields.len() > 20 + BODY_LIMIT || number_at(fields, 4) == 0 {
                None
            } else {
                Some(span_at(fields, Reach::Head))
            }
        }
        [3, fields @ ..] => span_of_sender(fields, Reach::Nothing),
        _ => None,
    }
}

// The span of the sender that is all of the fields.
fn span_of_sender(fields: &[u8], reach: Reach) -> Option<Span>
    ensures { result ≡ cond (nat_eq (length fields.now) 4)
        (Some (record { sender = big_number 4 fields.now; reach = reach })) None }
{
    if fields.len() == 4 {
        Some(span_at(fields, reach))
    } else {
        None
    }
}

// The span of the sender that comes first in the fields.
fn span_at(fields: &[u8], reach: Reach) -> Span
    requires { 4 ≤ length fields.now }
    ensures { result ≡ record { sender = big_number 4 fields.now; reach = reach } }
{
    Span {
        sender: BigEndian::read_u32(fields),
        reach,
    }
}

/// A number of the fields of a deed.
pub(crate) fn number_at(fields: &[u8], at: usize) -> u64
    requires { at + 8 ≤ length fields.now }
    ensures { result ≡ big_number 8 (drop at fields.now) }
{
    BigEndian::read_u64(&fields[at..])
}
