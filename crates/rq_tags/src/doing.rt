//! What the level of tags can be asked to do, in bytes.
ghost use Rattle.std.specs.Prelude.{◌≡◌};
ghost use Rattle.rq_level.specs.Ops.{tagging_fields, tagging_in};
ghost use Rattle.rq_tags.specs.Doings.{told_tagging};

use byteorder::{BigEndian, ByteOrder};

/// What the level of tags can be asked to do: to mark a tag for a client.
#[derive(Clone, Copy)]
pub(crate) struct Tagging {
    pub(crate) client: u32,
    pub(crate) tag: u64,
}

/// What these bytes ask the level of tags for; none where they ask it for nothing.
pub(crate) fn read_tagging(bytes: &[u8]) -> Option<Tagging>
    ensures { told_tagging result ≡ tagging_in bytes.now }
{
    match bytes {
        [1, fields @ ..] => read_mark(fields),
        _ => None,
    }
}

// A mark by its fields.
fn read_mark(fields: &[u8]) -> Option<Tagging>
    ensures { told_tagging result ≡ tagging_fields fields.now }
{
    if fields.len() != 12 {
        return None;
    }
    Some(Tagging {
        client: BigEndian::read_u32(fields),
        tag: BigEndian::read_u64(&fields[4..]),
    })
}
