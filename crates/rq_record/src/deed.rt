//! Deeds as bytes.
ghost use Rattle.std.specs.Prelude.{◌≡◌, ◌+◌, ◌≤◌, ◌++◌, ◌∷◌, length, IfSome, Some};
ghost use Rattle.rq_model.specs.declared.record.Deed.{Deed};
ghost use Rattle.rq_model.specs.declared.record.Deed.TheVariants.{Append, Close, Mark, UnlinkHead};
ghost use Rattle.rq_bytes.specs.Number.{number};
ghost use Rattle.rq_model.specs.Deeds.{spelled_deed, deed_in, deed_level, mark_in, deed_by};
ghost use Rattle.rq_record.specs.Deeds.{IsDeed};
ghost use Rattle.rq_record.specs.Reading.{Gives};
ghost use Rattle.rq_record.specs.DeedReading.{append_at, unlink_head_at, close_at, mark_at, deed_at, tag_deed_at, deed_of};

use crate::reading::{Stop, take_positive, take_u32, take_u64};
use byteorder::{BigEndian, ByteOrder};
use rq_model::message::Body;
use rq_model::record::{Deed, DeedBytes};

// A deed without its first byte.

#[tactic(auto, unfolding(crate::specs::DeedReading::append_at))]
fn append(bytes: &[u8]) -> Result<Deed, Stop>
    ensures { Gives (λ x. x) result (append_at bytes.now) }
{
    let (sender, rest) = take_u32(bytes)?;
    let (sequence, rest) = take_positive(rest)?;
    let (tag, rest) = take_u64(rest)?;
    let (previous, rest) = take_u64(rest)?;
    let Some(body) = Body::new(rest) else {
        return Err(Stop::Bad);
    };
    Ok(Deed::Append {
        sender,
        sequence,
        tag,
        previous,
        body,
    })
}

#[tactic(auto, unfolding(crate::specs::DeedReading::unlink_head_at))]
fn unlink_head(bytes: &[u8]) -> Result<Deed, Stop>
    ensures { Gives (λ x. x) result (unlink_head_at bytes.now) }
{
    let (sender, rest) = take_u32(bytes)?;
    let (sequence, rest) = take_positive(rest)?;
    let (tag, rest) = take_u64(rest)?;
    let Some(body) = Body::new(rest) else {
        return Err(Stop::Bad);
    };
    Ok(Deed::UnlinkHead {
        sender,
        sequence,
        tag,
        body,
    })
}

#[tactic(auto, unfolding(crate::specs::DeedReading::close_at))]
fn close(bytes: &[u8]) -> Result<Deed, Stop>
    ensures { Gives (λ x. x) result (close_at bytes.now) }
{
    let (sender, rest) = take_u32(bytes)?;
    if rest.is_empty() {
        Ok(Deed::Close { sender })
    } else {
        Err(Stop::Bad)
    }
}

#[tactic(auto, unfolding(crate::specs::DeedReading::mark_at))]
fn mark(bytes: &[u8]) -> Result<Deed, Stop>
    ensures { Gives (λ x. x) result (mark_at bytes.now) }
{
    let (client, rest) = take_u32(bytes)?;
    let (tag, rest) = take_u64(rest)?;
    let (previous, rest) = take_u64(rest)?;
    if rest.is_empty() {
        Ok(Deed::Mark {
            client,
            tag,
            previous,
        })
    } else {
        Err(Stop::Bad)
    }
}

// A deed of tags, all of the bytes.
#[tactic(auto, unfolding(crate::specs::DeedReading::tag_deed_at))]
fn tag_deed_in(bytes: &[u8]) -> Result<Deed, Stop>
    ensures { Gives (λ x. x) result (tag_deed_at bytes.now) }
{
    match bytes {
        [] => Err(Stop::Short),
        [1, rest @ ..] => mark(rest),
        [_, ..] => Err(Stop::Bad),
    }
}

// A deed of chains, all of the bytes.
#[tactic(auto, unfolding(crate::specs::DeedReading::deed_at))]
fn deed_in(bytes: &[u8]) -> Result<Deed, Stop>
    ensures { Gives (λ x. x) result (deed_at bytes.now) }
{
    match bytes {
        [] => Err(Stop::Short),
        [1, rest @ ..] => append(rest),
        [2, rest @ ..] => unlink_head(rest),
        [3, rest @ ..] => close(rest),
        [_, ..] => Err(Stop::Bad),
    }
}

// The deed that the bytes are.
fn deed_if_any(bytes: &[u8]) -> Option<Deed>
    ensures { result ≡ deed_of (deed_at bytes.now) }
{
    match deed_in(bytes) {
        Ok(deed) => Some(deed),
        Err(_) => None,
    }
}

// The mark that the bytes are.
fn mark_if_any(bytes: &[u8]) -> Option<Deed>
    ensures { result ≡ deed_of (tag_deed_at bytes.now) }
{
    match tag_deed_in(bytes) {
        Ok(deed) => Some(deed),
        Err(_) => None,
    }
}

/// The deed of chains whose spelling the bytes are, all of them; none where they are no deed's.
pub fn decode_deed(bytes: &[u8]) -> Option<Deed>
    ensures some { IfSome result (λ deed. IsDeed deed × (bytes.now ≡ spelled_deed deed)) }
    ensures only { (deed : Deed) → IsDeed deed → deed_level deed ≡ 1 → bytes.now ≡ spelled_deed deed → result ≡ Some deed }
    ensures told { result ≡ deed_in bytes.now }
{
    deed_if_any(bytes)
}

/// The mark whose spelling the bytes are, all of them; none where they are no mark's.
pub fn decode_mark(bytes: &[u8]) -> Option<Deed>
    ensures some { IfSome result (λ deed. IsDeed deed × (bytes.now ≡ spelled_deed deed)) }
    ensures only { (deed : Deed) → IsDeed deed → deed_level deed ≡ 2 → bytes.now ≡ spelled_deed deed → result ≡ Some deed }
    ensures told { result ≡ mark_in bytes.now }
{
    mark_if_any(bytes)
}

/// The deed that the level of this number tells by these bytes; none where they are none of its deeds.
pub fn decode_told(level: u8, bytes: &[u8]) -> Option<Deed>
    ensures { result ≡ deed_by level bytes.now }
{
    match level {
        1 => decode_deed(bytes),
        2 => decode_mark(bytes),
        _ => None,
    }
}

// What stands before the body.

#[tactic(auto, unfolding(rq_bytes::specs::Number::number))]
fn append_front(sender: u32, sequence: u64, tag: u64, previous: u64) -> [u8; 29]
    ensures { result
        ≡ 1 ∷ (number 4 sender ++ (number 8 sequence ++ (number 8 tag ++ number 8 previous))) }
{
    let mut front = [0; 29];
    front[0] = 1;
    BigEndian::write_u32(&mut front[1..], sender);
    BigEndian::write_u64(&mut front[5..], sequence);
    BigEndian::write_u64(&mut front[13..], tag);
    BigEndian::write_u64(&mut front[21..], previous);
    front
}

#[tactic(auto, unfolding(rq_bytes::specs::Number::number))]
fn unlink_head_front(sender: u32, sequence: u64, tag: u64) -> [u8; 21]
    ensures { result ≡ 2 ∷ (number 4 sender ++ (number 8 sequence ++ number 8 tag)) }
{
    let mut front = [0; 21];
    front[0] = 2;
    BigEndian::write_u32(&mut front[1..], sender);
    BigEndian::write_u64(&mut front[5..], sequence);
    BigEndian::write_u64(&mut front[13..], tag);
    front
}

#[tactic(auto, unfolding(rq_bytes::specs::Number::number))]
fn close_front(sender: u32) -> [u8; 5]
    ensures { result ≡ 3 ∷ number 4 sender }
{
    let mut front = [0; 5];
    front[0] = 3;
    BigEndian::write_u32(&mut front[1..], sender);
    front
}

/// Has `deed` be the spelling of the deed of a send. It tells the deed, where the sequence is not 0.
#[tactic(auto, unfolding(rq_bytes::specs::Number::number))]
pub fn spell_append(
    deed: &mut DeedBytes,
    sender: u32,
    sequence: u64,
    tag: u64,
    previous: u64,
    body: &[u8],
)
    requires { length body.now ≤ 216 }
    ensures spelled { deed.new ≡ spelled_deed (Append sender sequence tag previous body.now) }
    ensures told { 1 ≤ sequence → deed_in deed.new ≡ Some (Append sender sequence tag previous body.now) }
    ensures size { (1 ≤ length deed.new) × (length deed.new ≤ 256) }
{
    deed.join(&append_front(sender, sequence, tag, previous), body);
}

/// Has `deed` be the spelling of the deed of a receive. It tells the deed, where the sequence is not 0.
#[tactic(auto, unfolding(rq_bytes::specs::Number::number))]
pub fn spell_unlink_head(deed: &mut DeedBytes, sender: u32, sequence: u64, tag: u64, body: &[u8])
    requires { length body.now ≤ 216 }
    ensures spelled { deed.new ≡ spelled_deed (UnlinkHead sender sequence tag body.now) }
    ensures told { 1 ≤ sequence → deed_in deed.new ≡ Some (UnlinkHead sender sequence tag body.now) }
    ensures size { (1 ≤ length deed.new) × (length deed.new ≤ 256) }
{
    deed.join(&unlink_head_front(sender, sequence, tag), body);
}

#[tactic(auto, unfolding(rq_bytes::specs::Number::number))]
fn mark_bytes(client: u32, tag: u64, previous: u64) -> [u8; 21]
    ensures { result ≡ 1 ∷ (number 4 client ++ (number 8 tag ++ number 8 previous)) }
{
    let mut bytes = [0; 21];
    bytes[0] = 1;
    BigEndian::write_u32(&mut bytes[1..], client);
    BigEndian::write_u64(&mut bytes[5..], tag);
    BigEndian::write_u64(&mut bytes[13..], previous);
    bytes
}

/// Has `deed` be the spelling of the deed of a mark. It tells the deed.
#[tactic(auto, unfolding(rq_bytes::specs::Number::number))]
pub fn spell_mark(deed: &mut DeedBytes, client: u32, tag: u64, previous: u64)
    ensures spelled { deed.new ≡ spelled_deed (Mark client tag previous) }
    ensures told { mark_in deed.new ≡ Some (Mark client tag previous) }
    ensures size { length deed.new ≡ 21 }
{
    deed.join(&mark_bytes(client, tag, previous), &[]);
}

/// Has `deed` be the spelling of the deed of a close. It tells the deed.
#[tactic(auto, unfolding(rq_bytes::specs::Number::number))]
pub fn spell_close(deed: &mut DeedBytes, sender: u32)
    ensures spelled { deed.new ≡ spelled_deed (Close sender) }
    ensures told { deed_in deed.new ≡ Some (Close sender) }
    ensures size { (1 ≤ length deed.new) × (length deed.new ≤ 256) }
{
    deed.join(&close_front(sender), &[]);
}
