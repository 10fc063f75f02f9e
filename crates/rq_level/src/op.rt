//! Operations to be planned.
ghost use Rattle.std.specs.Prelude.{◌≡◌, ◌+◌, ◌++◌, ◌≤◌, Some, length};
ghost use Rattle.rq_level.specs.Asked.{job_back};
ghost use Rattle.rq_level.specs.Ops.{Job, doing_by, chain_job, Send, Receive, Close, tag_job, tagging_by};

use byteorder::{BigEndian, ByteOrder};
use rq_model::in_place::InPlace;
use rq_model::record::{DEED_LIMIT, Record};
use std::marker::Model;

/// An operation to be planned: its level, whether it is to be done or undone, and bytes that only that level reads.
#[derive(Drop)]
pub struct Op {
    level: u8,
    undo: bool,
    bytes: InPlace<DEED_LIMIT>,
}

impl Model for Op {
    ghost use Rattle.rq_level.specs.Ops.{Job};

    ghost Value = { Job };

    ghost view = { λ o. record { level = o.level; undo = o.undo; bytes = o.bytes } };
}

impl Op {
    /// To put a message at the end of a sender's group.
    pub fn send(sender: u32, tag: u64, body: &[u8]) -> Op
        requires { length body.now ≤ 216 }
        ensures op { result ≡ chain_job (Send sender tag body.now) }
        ensures told { doing_by result.level result.bytes ≡ Some (Send sender tag body.now) }
    {
        let mut front = [0; 13];
        front[0] = 1;
        BigEndian::write_u32(&mut front[1..], sender);
        BigEndian::write_u64(&mut front[5..], tag);
        Op::of(1, false, &front, body)
    }

    /// To take the first message of a sender's group.
    pub fn receive(sender: u32) -> Op
        ensures op { result ≡ chain_job (Receive sender) }
        ensures told { doing_by result.level result.bytes ≡ Some (Receive sender) }
    {
        let mut front = [0; 5];
        front[0] = 2;
        BigEndian::write_u32(&mut front[1..], sender);
        Op::of(1, false, &front, &[])
    }

    /// To close a sender's group.
    pub fn close(sender: u32) -> Op
        ensures op { result ≡ chain_job (Close sender) }
        ensures told { doing_by result.level result.bytes ≡ Some (Close sender) }
    {
        let mut front = [0; 5];
        front[0] = 3;
        BigEndian::write_u32(&mut front[1..], sender);
        Op::of(1, false, &front, &[])
    }

    /// To mark a tag for a client.
    pub fn mark(client: u32, tag: u64) -> Op
        ensures op { result ≡ tag_job client tag }
        ensures told { tagging_by result.level result.bytes ≡ Some (record { client = client; tag = tag }) }
    {
        let mut front = [0; 13];
        front[0] = 1;
        BigEndian::write_u32(&mut front[1..], client);
        BigEndian::write_u64(&mut front[5..], tag);
        Op::of(2, false, &front, &[])
    }

    /// To take back what a record tells: the deed of an operation's end. Of another record no level reads the bytes.
    pub fn back(record: &Record) -> Op
        ensures { result ≡ job_back «record».now }
    {
        match record {
            Record::OpEnd { level, deed, .. } => Op::of(*level, true, deed.as_slice(), &[]),
            _ => Op::of(0, true, &[], &[]),
        }
    }

    /// Whether something is to be taken back.
    pub fn is_undo(&self) -> bool
        ensures { result ≡ self.now.undo }
    {
        self.undo
    }

    /// Its level.
    pub fn level(&self) -> u8
        ensures { result ≡ self.now.level }
    {
        self.level
    }

    /// Its bytes.
    pub fn bytes(&self) -> &[u8]
        ensures { result.now ≡ self.now.bytes }
    {
        self.bytes.as_slice()
    }

    // The operation with these bytes, first the one and then the other.
    #[inline(always)]
    fn of(level: u8, undo: bool, front: &[u8], rest: &[u8]) -> Op
        requires { length front.now + length rest.now ≤ 256 }
        ensures { result ≡ record { level = level; undo = undo; bytes = front.now ++ rest.now } }
    {
        let mut op = Op {
            level,
            undo,
            bytes: InPlace::empty(),
        };
        op.bytes.join(front, rest);
        op
    }
}
