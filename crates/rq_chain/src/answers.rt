//! What the ends of operations on chains answer.
ghost use Rattle.std.specs.Prelude.{◌≡◌, option_map};
ghost use Rattle.rq_model.specs.Deeds.{deed_in, unlink_head_in};
ghost use Rattle.rq_level.specs.Writes.{answer_of};

use crate::spans::number_at;
use byteorder::{BigEndian, ByteOrder};
use rq_level::Outcome;
use rq_model::message::{BODY_LIMIT, Body, Message};

/// What the end of an operation answers whose deed these bytes are; none where they are none. No more fields are read than
/// that takes.
pub(crate) fn answer(deed: &[u8]) -> Option<Outcome>
    ensures { result ≡ option_map answer_of (deed_in deed.now) }
{
    match deed {
        [1, fields @ ..] => {
            if fields.len() < 28 || fields.len() > 28 + BODY_LIMIT || number_at(fields, 4) == 0 {
                None
            } else {
                Some(Outcome::Sent)
            }
        }
        [2, fields @ ..] => received(fields),
        [3, fields @ ..] => {
            if fields.len() == 4 {
                Some(Outcome::Closed)
            } else {
                None
            }
        }
        _ => None,
    }
}

// That the message in the fields of a deed was received.
fn received(fields: &[u8]) -> Option<Outcome>
    ensures { result ≡ option_map answer_of (unlink_head_in fields.now) }
{
    if fields.len() < 20 || number_at(fields, 4) == 0 {
        return None;
    }
    let body = Body::new(&fields[20..])?;
    Some(Outcome::Message(Message {
        sender: BigEndian::read_u32(fields),
        tag: number_at(fields, 12),
        body,
    }))
}
