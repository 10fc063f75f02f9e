//! What the level of chains can be asked to do, in bytes.
ghost use Rattle.std.specs.Prelude.{◌≡◌, IfSome};
ghost use Rattle.rq_level.specs.Ops.{doing_in, send_in};
ghost use Rattle.rq_chain.specs.Doings.{IsShort, told};

use byteorder::{BigEndian, ByteOrder};
use rq_model::message::BODY_LIMIT;

/// What the level can be asked to do.
#[derive(Clone, Copy)]
pub(crate) enum Doing<'a> {
    /// To put a message at the end of a group.
    Send {
        sender: u32,
        tag: u64,
        body: &'a [u8],
    },
    /// To take the first message of a group.
    Receive {
        sender: u32,
    },
    /// To close a group.
    Close {
        sender: u32,
    },
}

/// What these bytes ask the level of chains for; none where they ask it for nothing.
pub(crate) fn read_doing(bytes: &[u8]) -> Option<Doing<'_>>
    ensures told { told result ≡ doing_in bytes.now }
    ensures short { IfSome result IsShort }
{
    match bytes {
        [1, fields @ ..] => read_send(fields),
        [2, fields @ ..] => {
            if fields.len() == 4 {
                Some(Doing::Receive {
                    sender: BigEndian::read_u32(fields),
                })
            } else {
                None
            }
        }
        [3, fields @ ..] => {
            if fields.len() == 4 {
                Some(Doing::Close {
                    sender: BigEndian::read_u32(fields),
                })
            } else {
                None
            }
        }
        _ => None,
    }
}

// A send by its fields.
fn read_send(fields: &[u8]) -> Option<Doing<'_>>
    ensures told { told result ≡ send_in fields.now }
    ensures short { IfSome result IsShort }
{
    if fields.len() < 12 || fields.len() > 12 + BODY_LIMIT {
        return None;
    }
    Some(Doing::Send {
        sender: BigEndian::read_u32(fields),
        tag: BigEndian::read_u64(&fields[4..]),
        body: &fields[12..],
    })
}
