//! Records and deeds, as bytes are read and written.
use rq_model::message::Body;
use rq_model::record::DeedBytes;
use rq_model::txn::Txn;
use rq_record::{
    Deed, Record, Step, decode, decode_deed, decode_mark, encode, spell_append, spell_mark,
};
use std::test::Fail;

const FIRST: Txn = Txn {
    incarnation: 1,
    count: 1,
};

const SECOND: Txn = Txn {
    incarnation: 1,
    count: 2,
};

const BASE: Record = Record::Base {
    records: 5,
    incarnation: 1,
};

const BASE_SPELLING: &[u8] = b"\0\0\0\x11\x09\0\0\0\0\0\0\0\x05\0\0\0\0\0\0\0\x01";

/// Bytes, and what is read at their front.
type Row = (&'static [u8], Step);

// The last restart has bytes behind it.
const ROWS: [Row; 27] = [
    (
        b"\0\0\0\x09\x07\0\0\0\0\0\0\0\x01",
        Step::Record(Record::Restart { incarnation: 1 }, 13),
    ),
    (
        b"\0\0\0\x09\x07\0\0\0\0\0\0\0\x01more",
        Step::Record(Record::Restart { incarnation: 1 }, 13),
    ),
    (
        b"\0\0\0\x11\x06\0\0\0\0\0\0\0\x01\0\0\0\0\0\0\0\x01",
        Step::Record(Record::Commit { txn: FIRST }, 21),
    ),
    (
        b"\0\0\0\x11\x08\0\0\0\0\0\0\0\x01\0\0\0\0\0\0\0\x02",
        Step::Record(Record::AbortEnd { txn: SECOND }, 21),
    ),
    (
        b"\0\0\0\x19\x04\0\0\0\0\0\0\0\x01\0\0\0\0\0\0\0\x01\0\0\0\0\0\0\0\x01",
        Step::Record(
            Record::OpVoid {
                txn: FIRST,
                operation: 1,
            },
            29,
        ),
    ),
    (
        b"\0\0\0\x21\x05\0\0\0\0\0\0\0\x01\0\0\0\0\0\0\0\x02\0\0\0\0\0\0\0\x05\0\0\0\0\0\0\0\x0d",
        Step::Record(
            Record::CompEnd {
                txn: SECOND,
                operation: 5,
                undone: 13,
            },
            37,
        ),
    ),
    (BASE_SPELLING, Step::Record(BASE, 21)),
    (
        b"\0\0\0\x11\x09\0\x03\xff\xff\xff\xff\xff\xff\0\0\0\0\0\0\0\x01",
        Step::Record(
            Record::Base {
                records: (1 << 50) - 1,
                incarnation: 1,
            },
            21,
        ),
    ),
    // beginnings of records
    (&[], Step::Short),
    (&[0, 0, 0, 9, 7, 0], Step::Short),
    (&[0, 0, 0, 9, 7, 0, 0, 0, 0, 0, 0, 0], Step::Short),
    (&[0, 0, 2], Step::Short),
    (&[0, 0, 0, 17], Step::Short),
    (&[0, 0, 0, 17, 9], Step::Short),
    (&[0, 0, 0, 17, 9, 0], Step::Short),
    (&[0, 0, 0, 17, 9, 0, 0, 0, 0, 0, 0, 0, 5, 0], Step::Short),
    // a commit of another length, an incarnation of 0, and lengths of no record
    (&[0, 0, 0, 9, 6], Step::Bad),
    (&[0, 0, 0, 9, 7, 0, 0, 0, 0, 0, 0, 0, 0], Step::Bad),
    (&[0, 0, 0, 18], Step::Bad),
    (&[0, 0, 3], Step::Bad),
    (&[1], Step::Bad),
    // bases after too many records or none, of too high an incarnation or none, and parts of such
    (&[0, 0, 0, 17, 9, 1], Step::Bad),
    (&[0, 0, 0, 17, 9, 0, 0, 0, 0, 0, 0, 0, 5, 1], Step::Bad),
    (
        b"\0\0\0\x11\x09\0\x04\0\0\0\0\0\0\0\0\0\0\0\0\0\x01",
        Step::Bad,
    ),
    (
        b"\0\0\0\x11\x09\0\0\0\0\0\0\0\0\0\0\0\0\0\0\0\x01",
        Step::Bad,
    ),
    (
        b"\0\0\0\x11\x09\0\0\0\0\0\0\0\x05\0\0\0\0\0\0\0\0",
        Step::Bad,
    ),
    (
        b"\0\0\0\x11\x09\0\0\0\0\0\0\0\x05\0\0\0\0\0\0\0\x06",
        Step::Bad,
    ),
];

// The calls that follow promise nothing, so that a test of many is checked fast.

fn read(bytes: &[u8]) -> Step {
    decode(bytes)
}

fn read_deed(bytes: &[u8]) -> Option<Deed> {
    decode_deed(bytes)
}

fn read_mark(bytes: &[u8]) -> Option<Deed> {
    decode_mark(bytes)
}

fn mark_bytes(client: u32, tag: u64, previous: u64) -> DeedBytes {
    let mut deed = DeedBytes::empty();
    spell_mark(&mut deed, client, tag, previous);
    deed
}

// The end of the first send of sender 0, with tag 7 and this body.
fn end_of(body: &Body) -> Step {
    let mut deed = DeedBytes::empty();
    spell_append(&mut deed, 0, 1, 7, 0, body.as_slice());
    let record = Record::OpEnd {
        txn: FIRST,
        operation: 1,
        level: 1,
        deed,
    };
    Step::Record(record, 64)
}

#[test]
fn records_are_read(rt: HostRuntime) {
    for (bytes, step) in ROWS {
        assert!(rt; read(bytes) == step);
    }
}

#[test]
fn a_base_is_written(rt: HostRuntime) -> Result<(), Fail> {
    let mut bytes = Vec::new(rt.alloc());
    encode(&BASE, &mut bytes)?;
    assert!(rt; bytes.as_slice() == BASE_SPELLING);
    Ok(())
}

#[test]
fn deeds_are_read(rt: HostRuntime) -> Result<(), Fail> {
    let body = Body::new(b"hello").ok_or("a short body")?;
    let append = Deed::Append {
        sender: 0,
        sequence: 1,
        tag: 7,
        previous: 0,
        body,
    };
    let unlink_head = Deed::UnlinkHead {
        sender: 0,
        sequence: 1,
        tag: 7,
        body,
    };
    let rows: [(&[u8], Option<Deed>); 6] = [
        (
            b"\x01\0\0\0\0\0\0\0\0\0\0\0\x01\0\0\0\0\0\0\0\x07\0\0\0\0\0\0\0\0hello",
            Some(append),
        ),
        (
            b"\x02\0\0\0\0\0\0\0\0\0\0\0\x01\0\0\0\0\0\0\0\x07hello",
            Some(unlink_head),
        ),
        (b"\x03\0\0\0\x0f", Some(Deed::Close { sender: 15 })),
        (&[3, 0, 0, 0], None),
        (&[3, 0, 0, 0, 15, 0], None),
        (&[4, 0, 0, 0, 15], None),
    ];
    for (bytes, deed) in rows {
        assert!(rt; read_deed(bytes) == deed);
    }
    let end =
        b"\0\0\0\x3c\x03\0\0\0\0\0\0\0\x01\0\0\0\0\0\0\0\x01\0\0\0\0\0\0\0\x01\x01\x01\0\0\0\0\0\0\0\0\0\0\0\x01\0\0\0\0\0\0\0\x07\0\0\0\0\0\0\0\0hello";
    assert!(rt; read(end) == end_of(&body));
    Ok(())
}

#[test]
fn marks_are_read_and_spelled(rt: HostRuntime) {
    let mark = Deed::Mark {
        client: 3,
        tag: 70,
        previous: 7,
    };
    let spelled: &[u8] = b"\x01\0\0\0\x03\0\0\0\0\0\0\0\x46\0\0\0\0\0\0\0\x07";
    assert!(rt; mark_bytes(3, 70, 7).as_slice() == spelled);
    assert!(rt; read_mark(spelled) == Some(mark));
    assert!(rt; read_mark(&spelled[..20]) == None);
    assert!(rt; read_deed(spelled) == None);
}
