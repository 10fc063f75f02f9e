//! From answers to bytes.
ghost use Rattle.std.specs.Prelude.{◌≡◌, ◌+◌, ◌≤◌, ◌++◌, [], ◌∷◌, length, OnOk, OnErr};
ghost use Rattle.rq_wire.specs.Spelling.{frame, answer_frame};
ghost use Rattle.rq_bytes.specs.Number.{number};

use crate::answers::Answer;
use byteorder::{BigEndian, ByteOrder};
use bytes::BytesMut;
use rq_model::message::Message;
use rq_model::refusal::NoMemory;

/// Writes the one frame of an answer behind what is in `out`.
///
/// # Errors
/// `NoMemory`; `out` then has the bytes that it had.
pub fn answer(answer: &Answer, out: &mut BytesMut) -> Result<(), NoMemory>
    ensures ok { OnOk result (out.new.items ≡ out.old.items ++ answer_frame answer.now) }
    ensures err { OnErr result (out.new.items ≡ out.old.items) }
{
    match answer {
        Answer::Begun(txn) => put_frame(out, 129, &two_numbers(txn.incarnation, txn.count), &[]),
        Answer::Sent => put_frame(out, 130, &[], &[]),
        Answer::Message(message) => put_message(out, message),
        Answer::NoMessage => put_frame(out, 132, &[], &[]),
        Answer::Closed => put_frame(out, 133, &[], &[]),
        Answer::Marked => put_frame(out, 137, &[], &[]),
        Answer::Committed(lsn) => put_frame(out, 134, &one_number(*lsn), &[]),
        Answer::Aborted => put_frame(out, 135, &[], &[]),
        Answer::LastTag { sent, tag } => put_frame(out, 136, &two_numbers(*sent, *tag), &[]),
        Answer::ClientTag { count, tag } => put_frame(out, 138, &two_numbers(*count, *tag), &[]),
        Answer::Refused(refusal) => put_frame(out, 255, &[refusal.number()], &[]),
    }
}

fn put_message(out: &mut BytesMut, message: &Message) -> Result<(), NoMemory>
    ensures ok { OnOk result (out.new.items ≡ out.old.items ++ answer_frame (Answer.Message message.now)) }
    ensures err { OnErr result (out.new.items ≡ out.old.items) }
{
    let front = message_front(message.sender, message.tag);
    put_frame(out, 131, &front, message.body.as_slice())
}

// The frame of a kind with these fields, which are given in two parts.
#[tactic(auto, unfolding(crate::specs::Spelling::frame))]
fn put_frame(out: &mut BytesMut, kind: u8, front: &[u8], back: &[u8]) -> Result<(), NoMemory>
    requires { length front.now + length back.now ≤ 511 }
    ensures ok { OnOk result (out.new.items ≡ out.old.items ++ frame kind (front.now ++ back.now)) }
    ensures err { OnErr result (out.new.items ≡ out.old.items) }
{
    let size = 1 + front.len() + back.len();
    if out.reserve(2 + size).is_err() {
        return Err(NoMemory);
    }
    out.extend_reserved(&head(size as u16, kind));
    out.extend_reserved(front);
    out.extend_reserved(back);
    Ok(())
}

// What stands before the fields.
#[tactic(auto, unfolding(rq_bytes::specs::Number::number))]
fn head(size: u16, kind: u8) -> [u8; 3]
    ensures { result ≡ number 2 size ++ kind ∷ [] }
{
    let mut bytes = [0; 3];
    BigEndian::write_u16(&mut bytes, size);
    bytes[2] = kind;
    bytes
}

#[tactic(auto, unfolding(rq_bytes::specs::Number::number))]
fn one_number(n: u64) -> [u8; 8]
    ensures { result ≡ number 8 n }
{
    let mut bytes = [0; 8];
    BigEndian::write_u64(&mut bytes, n);
    bytes
}

#[tactic(auto, unfolding(rq_bytes::specs::Number::number))]
fn two_numbers(first: u64, second: u64) -> [u8; 16]
    ensures { result ≡ number 8 first ++ number 8 second }
{
    let mut bytes = [0; 16];
    BigEndian::write_u64(&mut bytes, first);
    BigEndian::write_u64(&mut bytes[8..], second);
    bytes
}

#[tactic(auto, unfolding(rq_bytes::specs::Number::number))]
fn message_front(sender: u32, tag: u64) -> [u8; 12]
    ensures { result ≡ number 4 sender ++ number 8 tag }
{
    let mut bytes = [0; 12];
    BigEndian::write_u32(&mut bytes, sender);
    BigEndian::write_u64(&mut bytes[4..], tag);
    bytes
}
