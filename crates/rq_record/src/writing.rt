//! From records to bytes.
ghost use Rattle.std.specs.Prelude.{◌≡◌, ◌+◌, ◌≤◌, ◌++◌, [], ◌∷◌, length, vec_len, vec_capacity, OnOk, OnErr, IsOk};
ghost use Rattle.rq_model.specs.declared.record.Record.{Record};
ghost use Rattle.rq_record.specs.Sizes.{length_of};
ghost use Rattle.rq_record.specs.Spelling.{IsInRange, HasWidths, FitsTxn, IsImage, txn_bytes, spelling};
ghost use Rattle.rq_bytes.specs.Number.{AreBytes, number};

use crate::{COMMIT_BYTES, COMP_END_BYTES, OP_END_BYTES, PAGE_OP_BYTES};
use byteorder::{BigEndian, ByteOrder};
use rq_bytes::end::{put, put_byte, put_u32, put_u64};
use rq_model::record::{DeedBytes, Record, Slot};
use rq_model::refusal::NoMemory;
use rq_model::txn::Txn;

// The elements of a slice of bytes are bytes.
fn shows_bytes_fit(bytes: &[u8])
    ensures { AreBytes bytes.now }
{}

// An image is 256 bytes.
fn shows_image_fits(image: &Slot)
    ensures { IsImage image.now }
{
    shows_bytes_fit(image.as_slice());
}

// Both parts are numbers of eight bytes.
fn shows_txn_fits(txn: &Txn)
    ensures { FitsTxn txn.now }
{
    let _incarnation = txn.incarnation;
    let _count = txn.count;
}

// There are 256 bytes at most.
fn shows_deed_bytes_fit(deed: &DeedBytes)
    ensures short { length deed.now ≤ 256 }
    ensures bytes { AreBytes deed.now }
{
    shows_bytes_fit(deed.as_slice());
}

/// Each record that a program holds has fields of their types.
pub fn shows_fits(record: &Record)
    ensures { HasWidths «record».now }
{
    match record {
        Record::PageOp {
            txn,
            operation,
            page,
            slot,
            before,
            after,
        } => {
            shows_txn_fits(txn);
            let _numbers = (*operation, *page, *slot);
            shows_image_fits(before);
            shows_image_fits(after);
        }
        Record::PageUndo {
            txn,
            operation,
            undone,
            page,
            slot,
            after,
        } => {
            shows_txn_fits(txn);
            let _numbers = (*operation, *undone, *page, *slot);
            shows_image_fits(after);
        }
        Record::OpEnd {
            txn,
            operation,
            level,
            deed,
        } => {
            shows_txn_fits(txn);
            let _numbers = (*operation, *level);
            shows_deed_bytes_fit(deed);
        }
        Record::OpVoid { txn, operation } => {
            shows_txn_fits(txn);
            let _number = *operation;
        }
        Record::CompEnd {
            txn,
            operation,
            undone,
        } => {
            shows_txn_fits(txn);
            let _numbers = (*operation, *undone);
        }
        Record::Commit { txn } => shows_txn_fits(txn),
        Record::Restart { incarnation } => {
            let _number = *incarnation;
        }
        Record::AbortEnd { txn } => shows_txn_fits(txn),
        Record::Base {
            records,
            incarnation,
        } => {
            let _numbers = (*records, *incarnation);
        }
    }
}

// The length, the kind and the transaction, with which all records but a restart and a base begin.
#[tactic(auto, unfolding(rq_bytes::specs::Number::number, crate::specs::Spelling::txn_bytes))]
fn head_of(size: u32, kind: u8, txn: &Txn) -> [u8; 21]
    ensures { result ≡ number 4 size ++ (kind ∷ txn_bytes txn.now) }
{
    let mut head = [0; 21];
    BigEndian::write_u32(&mut head, size);
    head[4] = kind;
    BigEndian::write_u64(&mut head[5..], txn.incarnation);
    BigEndian::write_u64(&mut head[13..], txn.count);
    head
}

// Puts that at the end.
fn put_head(out: &mut Vec<u8>, size: u32, kind: u8, txn: &Txn)
    requires { vec_len out.old + 21 ≤ vec_capacity out.old }
    ensures items { out.new.items ≡ out.old.items ++ (number 4 size ++ (kind ∷ txn_bytes txn.now)) }
    ensures len { vec_len out.new ≡ vec_len out.old + 21 }
    ensures capacity { vec_capacity out.old ≤ vec_capacity out.new }
{
    put(out, &head_of(size, kind, txn));
}

// What stands before the images of a slot write, of which a log has the most.
#[tactic(auto, unfolding(rq_bytes::specs::Number::number, crate::specs::Spelling::txn_bytes))]
fn front_of_page_op(txn: &Txn, operation: u64, page: u32, slot: u8) -> [u8; 34]
    ensures { result ≡ number 4 542
        ++ (1 ∷ (txn_bytes txn.now ++ (number 8 operation ++ (number 4 page ++ slot ∷ [])))) }
{
    let mut front = [0; 34];
    BigEndian::write_u32(&mut front, 542);
    front[4] = 1;
    BigEndian::write_u64(&mut front[5..], txn.incarnation);
    BigEndian::write_u64(&mut front[13..], txn.count);
    BigEndian::write_u64(&mut front[21..], operation);
    BigEndian::write_u32(&mut front[29..], page);
    front[33] = slot;
    front
}

// What stands before the deed of an operation's end.
#[tactic(auto, unfolding(rq_bytes::specs::Number::number, crate::specs::Spelling::txn_bytes))]
fn front_of_op_end(size: u32, txn: &Txn, operation: u64, level: u8) -> [u8; 30]
    ensures { result ≡ number 4 size ++ (3 ∷ (txn_bytes txn.now ++ (number 8 operation ++ level ∷ []))) }
{
    let mut front = [0; 30];
    BigEndian::write_u32(&mut front, size);
    front[4] = 3;
    BigEndian::write_u64(&mut front[5..], txn.incarnation);
    BigEndian::write_u64(&mut front[13..], txn.count);
    BigEndian::write_u64(&mut front[21..], operation);
    front[29] = level;
    front
}

// A record of each kind, put at the end.

/// Puts a PageOp at the end, in room that is reserved.
#[tactic(auto, using(crate::proofs::Spelled::spellings))]
pub fn put_page_op(
    out: &mut Vec<u8>,
    txn: &Txn,
    operation: u64,
    page: u32,
    slot: u8,
    before: &Slot,
    after: &Slot,
)
    requires { vec_len out.old + (34 + length before.now + length after.now) ≤ vec_capacity out.old }
    ensures items { out.new.items
        ≡ out.old.items ++ spelling (Record.PageOp txn.now operation page slot before.now after.now) }
    ensures capacity { vec_capacity out.old ≤ vec_capacity out.new }
{
    put(out, &front_of_page_op(txn, operation, page, slot));
    put(out, before.as_slice());
    put(out, after.as_slice());
}

#[tactic(auto, using(crate::proofs::Spelled::spellings))]
fn put_page_undo(
    out: &mut Vec<u8>,
    txn: &Txn,
    operation: u64,
    undone: u64,
    page: u32,
    slot: u8,
    after: &Slot,
)
    requires { vec_len out.old + (42 + length after.now) ≤ vec_capacity out.old }
    ensures items { out.new.items
        ≡ out.old.items ++ spelling (Record.PageUndo txn.now operation undone page slot after.now) }
    ensures capacity { vec_capacity out.old ≤ vec_capacity out.new }
{
    put_head(out, 294, 2, txn);
    put_u64(out, operation);
    put_u64(out, undone);
    put_u32(out, page);
    put_byte(out, slot);
    put(out, after.as_slice());
}

/// Puts an OpEnd at the end, in room that is reserved.
#[tactic(auto, using(crate::proofs::Spelled::spellings))]
pub fn put_op_end(out: &mut Vec<u8>, txn: &Txn, operation: u64, level: u8, deed: &[u8])
    requires short { length deed.now ≤ 256 }
    requires room { vec_len out.old + (30 + length deed.now) ≤ vec_capacity out.old }
    ensures items { out.new.items
        ≡ out.old.items ++ spelling (Record.OpEnd txn.now operation level deed.now) }
    ensures capacity { vec_capacity out.old ≤ vec_capacity out.new }
{
    put(
        out,
        &front_of_op_end(26 + deed.len() as u32, txn, operation, level),
    );
    put(out, deed);
}

#[tactic(auto, using(crate::proofs::Spelled::spellings))]
fn put_op_void(out: &mut Vec<u8>, txn: &Txn, operation: u64)
    requires { vec_len out.old + 29 ≤ vec_capacity out.old }
    ensures items { out.new.items ≡ out.old.items ++ spelling (Record.OpVoid txn.now operation) }
    ensures capacity { vec_capacity out.old ≤ vec_capacity out.new }
{
    put_head(out, 25, 4, txn);
    put_u64(out, operation);
}

/// Puts a CompEnd at the end, in room that is reserved.
#[tactic(auto, using(crate::proofs::Spelled::spellings))]
pub fn put_comp_end(out: &mut Vec<u8>, txn: &Txn, operation: u64, undone: u64)
    requires { vec_len out.old + 37 ≤ vec_capacity out.old }
    ensures items { out.new.items
        ≡ out.old.items ++ spelling (Record.CompEnd txn.now operation undone) }
    ensures capacity { vec_capacity out.old ≤ vec_capacity out.new }
{
    put_head(out, 33, 5, txn);
    put_u64(out, operation);
    put_u64(out, undone);
}

#[tactic(auto, using(crate::proofs::Spelled::spellings))]
fn put_commit(out: &mut Vec<u8>, txn: &Txn)
    requires { vec_len out.old + 21 ≤ vec_capacity out.old }
    ensures items { out.new.items ≡ out.old.items ++ spelling (Record.Commit txn.now) }
    ensures capacity { vec_capacity out.old ≤ vec_capacity out.new }
{
    put_head(out, 17, 6, txn);
}

#[tactic(auto, using(crate::proofs::Spelled::spellings))]
fn put_restart(out: &mut Vec<u8>, incarnation: u64)
    requires { vec_len out.old + 13 ≤ vec_capacity out.old }
    ensures items { out.new.items ≡ out.old.items ++ spelling (Record.Restart incarnation) }
    ensures capacity { vec_capacity out.old ≤ vec_capacity out.new }
{
    put_u32(out, 9);
    put_byte(out, 7);
    put_u64(out, incarnation);
}

#[tactic(auto, using(crate::proofs::Spelled::spellings))]
fn put_abort_end(out: &mut Vec<u8>, txn: &Txn)
    requires { vec_len out.old + 21 ≤ vec_capacity out.old }
    ensures items { out.new.items ≡ out.old.items ++ spelling (Record.AbortEnd txn.now) }
    ensures capacity { vec_capacity out.old ≤ vec_capacity out.new }
{
    put_head(out, 17, 8, txn);
}

/// The bytes of a Base.
#[tactic(auto, unfolding(rq_bytes::specs::Number::number), using(crate::proofs::Spelled::spellings))]
pub fn base_bytes(records: u64, incarnation: u64) -> [u8; 21]
    ensures { result ≡ spelling (Record.Base records incarnation) }
{
    let mut bytes = [0; 21];
    BigEndian::write_u32(&mut bytes, 17);
    bytes[4] = 9;
    BigEndian::write_u64(&mut bytes[5..], records);
    BigEndian::write_u64(&mut bytes[13..], incarnation);
    bytes
}

fn put_base(out: &mut Vec<u8>, records: u64, incarnation: u64)
    requires { vec_len out.old + 21 ≤ vec_capacity out.old }
    ensures items { out.new.items ≡ out.old.items ++ spelling (Record.Base records incarnation) }
    ensures capacity { vec_capacity out.old ≤ vec_capacity out.new }
{
    put(out, &base_bytes(records, incarnation));
}

/// For proofs: the spelling of a record that a program holds is as long as its kind says. A call at a record of a known
/// kind says the number of its bytes.
pub fn shows_size(record: &Record)
    ensures { length (spelling «record».now) ≡ length_of «record».now }
{
    shows_fits(record);
}

/// The number of bytes of a record's spelling.
#[inline(always)]
pub fn spelled_len(record: &Record) -> usize
    ensures { result ≡ length (spelling «record».now) }
{
    shows_size(record);
    match record {
        Record::PageOp { .. } => PAGE_OP_BYTES,
        Record::PageUndo { .. } => 298,
        Record::OpEnd { deed, .. } => OP_END_BYTES + deed.as_slice().len(),
        Record::OpVoid { .. } => 29,
        Record::CompEnd { .. } => COMP_END_BYTES,
        Record::Commit { .. } => COMMIT_BYTES,
        Record::AbortEnd { .. } | Record::Base { .. } => 21,
        Record::Restart { .. } => 13,
    }
}

// Puts a record at the end, in room that is reserved.
#[inline(always)]
#[tactic(auto, using(crate::proofs::Spelled::lengths))]
fn put_record(out: &mut Vec<u8>, record: &Record)
    requires { vec_len out.old + length (spelling «record».now) ≤ vec_capacity out.old }
    ensures items { out.new.items ≡ out.old.items ++ spelling «record».now }
    ensures capacity { vec_capacity out.old ≤ vec_capacity out.new }
{
    match record {
        Record::PageOp {
            txn,
            operation,
            page,
            slot,
            before,
            after,
        } => put_page_op(out, txn, *operation, *page, *slot, before, after),
        Record::PageUndo {
            txn,
            operation,
            undone,
            page,
            slot,
            after,
        } => put_page_undo(out, txn, *operation, *undone, *page, *slot, after),
        Record::OpEnd {
            txn,
            operation,
            level,
            deed,
        } => put_op_end(out, txn, *operation, *level, deed.as_slice()),
        Record::OpVoid { txn, operation } => put_op_void(out, txn, *operation),
        Record::CompEnd {
            txn,
            operation,
            undone,
        } => put_comp_end(out, txn, *operation, *undone),
        Record::Commit { txn } => put_commit(out, txn),
        Record::Restart { incarnation } => put_restart(out, *incarnation),
        Record::AbortEnd { txn } => put_abort_end(out, txn),
        Record::Base {
            records,
            incarnation,
        } => put_base(out, *records, *incarnation),
    }
}

/// Puts the spelling of a record at the end: all of it, or nothing where memory is wanting. Where the
/// room is reserved, it succeeds.
#[inline(always)]
pub fn encode(record: &Record, out: &mut Vec<u8>) -> Result<(), NoMemory>
    requires { IsInRange «record».now }
    ensures ok { OnOk result (out.new.items ≡ out.old.items ++ spelling «record».now) }
    ensures err { OnErr result (out.new.items ≡ out.old.items) }
    ensures room { vec_len out.old + length (spelling «record».now) ≤ vec_capacity out.old → IsOk result }
    ensures capacity { vec_capacity out.old ≤ vec_capacity out.new }
{
    if out.reserve(spelled_len(record)).is_err() {
        return Err(NoMemory);
    }
    put_record(out, record);
    Ok(())
}
