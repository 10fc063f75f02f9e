//! From bytes to records.
ghost use Rattle.std.specs.Prelude.{◌≡◌, ◌-◌, ◌≤◌, ◌<◌, length, IfOk, IfSome, List, ℕ, ◌++◌, ◌↔◌};
ghost use Rattle.byteorder.specs.Endian.{big_number};
ghost use Rattle.rq_model.specs.declared.record.Record.{Record};
ghost use Rattle.rq_record.specs.Spelling.{IsRecord, spelling, BeginsRecord, HoldsRecord};
ghost use Rattle.rq_record.specs.Decoding.{IfRecord, IsFront, step_of, step_with};
ghost use Rattle.rq_record.specs.Reading.{Gives, bytes_at, number_at, positive_at, number_up_to, byte_between, txn_at, page_op_at, page_undo_at, op_end_at, op_void_at, comp_end_at, commit_at, restart_at, abort_end_at, base_at, kind_of, is_size, begins_size, size_at, kind_at, IsDeedSize, fields_at, record_at};

use crate::step::{Decoded, Step};
use byteorder::{BigEndian, ByteOrder};
use rq_model::limits::LOG_LIMIT;
use rq_model::record::{DeedBytes, Record, SLOT_BYTES, Slot};
use rq_model::txn::Txn;

/// Why no record is read.
#[derive(Clone, Copy)]
pub enum Stop {
    /// The bytes are a proper beginning.
    Short,
    /// Nothing begins with these bytes.
    Bad,
}

/// The kinds of records.
#[derive(Clone, Copy)]
pub enum Kind {
    PageOp,
    PageUndo,
    OpEnd,
    OpVoid,
    CompEnd,
    Commit,
    Restart,
    AbortEnd,
    Base,
}

// So many bytes, and the bytes after them.
#[tactic(auto, unfolding(crate::specs::Reading::bytes_at))]
fn take_bytes(size: usize, bytes: &[u8]) -> Result<(&[u8], &[u8]), Stop>
    ensures gives { Gives (λ x. (x.0.now, x.1.now)) result (bytes_at size bytes.now) }
    ensures size { IfOk result (λ x. length x.0.now ≡ size) }
{
    if bytes.len() < size {
        return Err(Stop::Short);
    }
    Ok(bytes.split_at(size))
}

// A number of four bytes.
#[tactic(auto, unfolding(crate::specs::Reading::number_at))]
pub fn take_u32(bytes: &[u8]) -> Result<(u32, &[u8]), Stop>
    ensures { Gives (λ x. (x.0, x.1.now)) result (number_at 4 bytes.now) }
{
    if bytes.len() < 4 {
        return Err(Stop::Short);
    }
    Ok((BigEndian::read_u32(bytes), &bytes[4..]))
}

// A number of eight bytes.
#[tactic(auto, unfolding(crate::specs::Reading::number_at))]
pub fn take_u64(bytes: &[u8]) -> Result<(u64, &[u8]), Stop>
    ensures { Gives (λ x. (x.0, x.1.now)) result (number_at 8 bytes.now) }
{
    if bytes.len() < 8 {
        return Err(Stop::Short);
    }
    Ok((BigEndian::read_u64(bytes), &bytes[8..]))
}

// A number of eight bytes that is not 0.
#[tactic(auto, unfolding(crate::specs::Reading::positive_at))]
pub fn take_positive(bytes: &[u8]) -> Result<(u64, &[u8]), Stop>
    ensures { Gives (λ x. (x.0, x.1.now)) result (positive_at 8 bytes.now) }
{
    let (n, rest) = take_u64(bytes)?;
    if n == 0 {
        return Err(Stop::Bad);
    }
    Ok((n, rest))
}

// The least number of eight bytes that begins so.
fn least_number(bytes: &[u8]) -> u64
    ensures { result ≡ big_number 8 bytes.now }
{
    let mut whole = [0; 8];
    let count = bytes.len().min(8);
    whole[..count].copy_from_slice(&bytes[..count]);
    BigEndian::read_u64(whole.as_slice())
}

// A number of eight bytes, from 1 to `high`. Fewer bytes may show that it is higher.
#[tactic(auto, unfolding(crate::specs::Reading::number_up_to))]
fn take_up_to(high: u64, bytes: &[u8]) -> Result<(u64, &[u8]), Stop>
    ensures { Gives (λ x. (x.0, x.1.now)) result (number_up_to 8 high bytes.now) }
{
    if least_number(bytes) > high {
        return Err(Stop::Bad);
    }
    take_positive(bytes)
}

// A byte from `low` to `high`.
#[tactic(auto, unfolding(crate::specs::Reading::byte_between))]
fn take_byte(low: u8, high: u8, bytes: &[u8]) -> Result<(u8, &[u8]), Stop>
    ensures { Gives (λ x. (x.0, x.1.now)) result (byte_between low high bytes.now) }
{
    match bytes {
        [] => Err(Stop::Short),
        [byte, rest @ ..] => {
            if low <= *byte && *byte <= high {
                Ok((*byte, rest))
            } else {
                Err(Stop::Bad)
            }
        }
    }
}

// The number of a slot.
fn take_slot_number(bytes: &[u8]) -> Result<(u8, &[u8]), Stop>
    ensures { Gives (λ x. (x.0, x.1.now)) result (byte_between 1 15 bytes.now) }
{
    take_byte(1, 15, bytes)
}

// The number of a transaction.
#[tactic(auto, unfolding(crate::specs::Reading::txn_at))]
fn take_txn(bytes: &[u8]) -> Result<(Txn, &[u8]), Stop>
    ensures { Gives (λ x. (x.0, x.1.now)) result (txn_at bytes.now) }
{
    let (incarnation, rest) = take_positive(bytes)?;
    let (count, rest) = take_positive(rest)?;
    Ok((Txn { incarnation, count }, rest))
}

// The image of a slot.
fn take_image(bytes: &[u8]) -> Result<(&Slot, &[u8]), Stop>
    ensures { Gives (λ x. (x.0.now, x.1.now)) result (bytes_at 256 bytes.now) }
{
    let (image, rest) = take_bytes(SLOT_BYTES, bytes)?;
    let slot: &Slot = image.try_into().unwrap();
    Ok((slot, rest))
}

// The fields of each kind.

#[tactic(auto, unfolding(crate::specs::Reading::page_op_at))]
fn page_op<'a>(bytes: &'a [u8], into: &mut Record) -> Result<&'a [u8], Stop>
    ensures { Gives (λ rest. (into.new, rest.now)) result (page_op_at bytes.now) }
{
    let (txn, rest) = take_txn(bytes)?;
    let (operation, rest) = take_positive(rest)?;
    let (page, rest) = take_u32(rest)?;
    let (slot, rest) = take_slot_number(rest)?;
    let (before, rest) = take_image(rest)?;
    let (after, rest) = take_image(rest)?;
    *into = Record::PageOp {
        txn,
        operation,
        page,
        slot,
        before: *before,
        after: *after,
    };
    Ok(rest)
}

#[tactic(auto, unfolding(crate::specs::Reading::page_undo_at))]
fn page_undo<'a>(bytes: &'a [u8], into: &mut Record) -> Result<&'a [u8], Stop>
    ensures { Gives (λ rest. (into.new, rest.now)) result (page_undo_at bytes.now) }
{
    let (txn, rest) = take_txn(bytes)?;
    let (operation, rest) = take_positive(rest)?;
    let (undone, rest) = take_positive(rest)?;
    let (page, rest) = take_u32(rest)?;
    let (slot, rest) = take_slot_number(rest)?;
    let (after, rest) = take_image(rest)?;
    *into = Record::PageUndo {
        txn,
        operation,
        undone,
        page,
        slot,
        after: *after,
    };
    Ok(rest)
}

#[tactic(auto, unfolding(crate::specs::Reading::op_end_at))]
fn op_end<'a>(size: usize, bytes: &'a [u8], into: &mut Record) -> Result<&'a [u8], Stop>
    requires { size ≤ 256 }
    ensures { Gives (λ rest. (into.new, rest.now)) result (op_end_at size bytes.now) }
{
    let (txn, rest) = take_txn(bytes)?;
    let (operation, rest) = take_positive(rest)?;
    let (level, rest) = take_byte(1, 255, rest)?;
    let (bytes, rest) = take_bytes(size, rest)?;
    let Some(deed) = DeedBytes::new(bytes) else {
        return Err(Stop::Bad);
    };
    *into = Record::OpEnd {
        txn,
        operation,
        level,
        deed,
    };
    Ok(rest)
}

#[tactic(auto, unfolding(crate::specs::Reading::op_void_at))]
fn op_void<'a>(bytes: &'a [u8], into: &mut Record) -> Result<&'a [u8], Stop>
    ensures { Gives (λ rest. (into.new, rest.now)) result (op_void_at bytes.now) }
{
    let (txn, rest) = take_txn(bytes)?;
    let (operation, rest) = take_positive(rest)?;
    *into = Record::OpVoid { txn, operation };
    Ok(rest)
}

#[tactic(auto, unfolding(crate::specs::Reading::comp_end_at))]
fn comp_end<'a>(bytes: &'a [u8], into: &mut Record) -> Result<&'a [u8], Stop>
    ensures { Gives (λ rest. (into.new, rest.now)) result (comp_end_at bytes.now) }
{
    let (txn, rest) = take_txn(bytes)?;
    let (operation, rest) = take_positive(rest)?;
    let (undone, rest) = take_positive(rest)?;
    *into = Record::CompEnd {
        txn,
        operation,
        undone,
    };
    Ok(rest)
}

#[tactic(auto, unfolding(crate::specs::Reading::commit_at))]
fn commit<'a>(bytes: &'a [u8], into: &mut Record) -> Result<&'a [u8], Stop>
    ensures { Gives (λ rest. (into.new, rest.now)) result (commit_at bytes.now) }
{
    let (txn, rest) = take_txn(bytes)?;
    *into = Record::Commit { txn };
    Ok(rest)
}

#[tactic(auto, unfolding(crate::specs::Reading::restart_at))]
fn restart<'a>(bytes: &'a [u8], into: &mut Record) -> Result<&'a [u8], Stop>
    ensures { Gives (λ rest. (into.new, rest.now)) result (restart_at bytes.now) }
{
    let (incarnation, rest) = take_positive(bytes)?;
    *into = Record::Restart { incarnation };
    Ok(rest)
}

#[tactic(auto, unfolding(crate::specs::Reading::abort_end_at))]
fn abort_end<'a>(bytes: &'a [u8], into: &mut Record) -> Result<&'a [u8], Stop>
    ensures { Gives (λ rest. (into.new, rest.now)) result (abort_end_at bytes.now) }
{
    let (txn, rest) = take_txn(bytes)?;
    *into = Record::AbortEnd { txn };
    Ok(rest)
}

#[tactic(auto, unfolding(crate::specs::Reading::base_at))]
fn base<'a>(bytes: &'a [u8], into: &mut Record) -> Result<&'a [u8], Stop>
    ensures { Gives (λ rest. (into.new, rest.now)) result (base_at bytes.now) }
{
    let (records, rest) = take_up_to(LOG_LIMIT - 1, bytes)?;
    let (incarnation, rest) = take_up_to(records, rest)?;
    *into = Record::Base {
        records,
        incarnation,
    };
    Ok(rest)
}

// The kind with this number, where a record of it may be so long.
#[tactic(auto, unfolding(crate::specs::Reading::kind_of))]
fn kind_named(number: u8, size: u32) -> Option<Kind>
    ensures kind { result ≡ kind_of number size }
    ensures size { IfSome result (IsDeedSize size) }
{
    match (number, size) {
        (1, 542) => Some(Kind::PageOp),
        (2, 294) => Some(Kind::PageUndo),
        (3, 27..=282) => Some(Kind::OpEnd),
        (4, 25) => Some(Kind::OpVoid),
        (5, 33) => Some(Kind::CompEnd),
        (6, 17) => Some(Kind::Commit),
        (7, 9) => Some(Kind::Restart),
        (8, 17) => Some(Kind::AbortEnd),
        (9, 17) => Some(Kind::Base),
        _ => None,
    }
}

// Whether fewer than four bytes begin the length of some kind.
#[tactic(auto, unfolding(crate::specs::Reading::begins_size))]
fn begins_length(bytes: &[u8]) -> bool
    ensures { result ≡ begins_size bytes.now }
{
    match bytes {
        [] => true,
        [a] => *a == 0,
        [a, b] => *a == 0 && *b == 0,
        [a, b, c] => *a == 0 && *b == 0 && *c <= 2,
        _ => false,
    }
}

// Whether a record of some kind is so long.
#[tactic(auto, unfolding(crate::specs::Reading::is_size))]
fn is_length(size: u32) -> bool
    ensures { result ≡ is_size size }
{
    matches!(size, 27..=282 | 9 | 17 | 25 | 294 | 542)
}

// The length of what follows it.
#[tactic(auto, unfolding(crate::specs::Reading::size_at))]
fn take_length(bytes: &[u8]) -> Result<(u32, &[u8]), Stop>
    ensures { Gives (λ x. (x.0, x.1.now)) result (size_at bytes.now) }
{
    if bytes.len() < 4 {
        return Err(if begins_length(bytes) {
            Stop::Short
        } else {
            Stop::Bad
        });
    }
    let size = BigEndian::read_u32(bytes);
    if is_length(size) {
        Ok((size, &bytes[4..]))
    } else {
        Err(Stop::Bad)
    }
}

// The kind of a record that is so long.
#[tactic(auto, unfolding(crate::specs::Reading::kind_at))]
fn take_kind(size: u32, bytes: &[u8]) -> Result<(Kind, &[u8]), Stop>
    ensures gives { Gives (λ x. (x.0, x.1.now)) result (kind_at size bytes.now) }
    ensures size { IfOk result (λ x. IsDeedSize size x.0) }
{
    match bytes {
        [] => Err(Stop::Short),
        [number, rest @ ..] => match kind_named(*number, size) {
            Some(kind) => Ok((kind, rest)),
            None => Err(Stop::Bad),
        },
    }
}

// The fields of a record of this kind and length, and the bytes after them.
fn take_fields<'a>(
    size: u32,
    kind: Kind,
    bytes: &'a [u8],
    into: &mut Record,
) -> Result<&'a [u8], Stop>
    requires { IsDeedSize size kind }
    ensures { Gives (λ rest. (into.new, rest.now)) result (fields_at size kind bytes.now) }
{
    match kind {
        Kind::PageOp => page_op(bytes, into),
        Kind::PageUndo => page_undo(bytes, into),
        Kind::OpEnd => op_end(size as usize - 26, bytes, into),
        Kind::OpVoid => op_void(bytes, into),
        Kind::CompEnd => comp_end(bytes, into),
        Kind::Commit => commit(bytes, into),
        Kind::Restart => restart(bytes, into),
        Kind::AbortEnd => abort_end(bytes, into),
        Kind::Base => base(bytes, into),
    }
}

// A record, and the bytes after it.
#[tactic(auto, unfolding(crate::specs::Reading::record_at))]
fn take_record<'a>(bytes: &'a [u8], into: &mut Record) -> Result<&'a [u8], Stop>
    ensures { Gives (λ rest. (into.new, rest.now)) result (record_at bytes.now) }
{
    let (size, rest) = take_length(bytes)?;
    let (kind, rest) = take_kind(size, rest)?;
    take_fields(size, kind, rest, into)
}

// What stands at the front of the bytes.
fn front_of(input: &[u8], into: &mut Record) -> Decoded
    ensures { step_with result into.new ≡ step_of input.now (record_at input.now) }
{
    match take_record(input, into) {
        Ok(rest) => Decoded::Record(input.len() - rest.len()),
        Err(Stop::Short) => Decoded::Short,
        Err(Stop::Bad) => Decoded::Bad,
    }
}

/// Writes the record at the front of the bytes over a lent one, and answers what stands there. That is a record with
/// bytes behind it or none, a proper beginning of a record, or neither.
pub fn decode_into(input: &[u8], into: &mut Record) -> Decoded
    ensures front { IfRecord (step_with result into.new) (λ r used. IsFront r used input.now) }
    ensures found { (r : Record) (rest : List ℕ) → IsRecord r → input.now ≡ spelling r ++ rest
        → step_with result into.new ≡ Step.Record r (length (spelling r)) }
    ensures short { (step_with result into.new ≡ Step.Short) ↔ (BeginsRecord input.now) }
    ensures bad { (step_with result into.new ≡ Step.Bad) ↔ ((¬ HoldsRecord input.now) × (¬ BeginsRecord input.now)) }
{
    front_of(input, into)
}

/// What stands at the front of the bytes: a record with bytes behind it or none, a proper beginning of
/// a record, or neither.
pub fn decode(input: &[u8]) -> Step
    ensures front { IfRecord result (λ r used. IsFront r used input.now) }
    ensures found { (r : Record) (rest : List ℕ) → IsRecord r → input.now ≡ spelling r ++ rest
        → result ≡ Step.Record r (length (spelling r)) }
    ensures short { (result ≡ Step.Short) ↔ (BeginsRecord input.now) }
    ensures bad { (result ≡ Step.Bad) ↔ ((¬ HoldsRecord input.now) × (¬ BeginsRecord input.now)) }
{
    let mut record = Record::Restart { incarnation: 0 };
    match decode_into(input, &mut record) {
        Decoded::Record(used) => Step::Record(record, used),
        Decoded::Short => Step::Short,
        Decoded::Bad => Step::Bad,
    }
}
