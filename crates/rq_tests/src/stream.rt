//! Sessions over a store in memory: their bytes cut anywhere, faults, connections that are lost, and gates that say no.
use crate::connection::{Connection, Often, connected};
use crate::stores::{EndState, leave, small_steps};
use rq_model::refusal::NoMemory;
use rq_workers::steps::Steps;
use std::alloc::Global;
use std::sync::Wait;
use std::test::Fail;

/// What a connection brings to a store that was just formatted, and what is seen then.
#[derive(Clone, Copy)]
struct Row {
    stream: &'static [u8],
    /// Whether the connection ends behind them.
    ends: bool,
    /// How often the gate lets through.
    passes: u32,
    /// Whether the store's next force fails.
    fails: bool,
    /// What is written to it.
    written: &'static [u8],
    is_over: bool,
    /// How often the gate was asked, where that is told.
    asked: Option<u32>,
    left: EndState,
}

// Begin, Send 0 7 hello, Receive, Begin, Commit, Commit, LastTag 0, Begin, ReceiveFrom 0, Close 15, Abort; and what a fresh small
// store answers.
const SESSION: Row = Row {
    stream: &[
        0, 1, 1, 0, 0x12, 2, 0, 0, 0, 0, 0, 0, 0, 0, 0, 0, 0, 7, 0x68, 0x65, 0x6c, 0x6c, 0x6f, 0,
        1, 3, 0, 1, 1, 0, 1, 6, 0, 1, 6, 0, 5, 8, 0, 0, 0, 0, 0, 1, 1, 0, 5, 4, 0, 0, 0, 0, 0, 5,
        5, 0, 0, 0, 0xf, 0, 1, 7,
    ],
    ends: false,
    passes: u32::MAX,
    fails: false,
    written: &[
        0, 0x11, 0x81, 0, 0, 0, 0, 0, 0, 0, 1, 0, 0, 0, 0, 0, 0, 0, 1, 0, 1, 0x82, 0, 1, 0x84, 0,
        2, 0xff, 0x11, 0, 9, 0x86, 0, 0, 0, 0, 0, 0, 0, 5, 0, 2, 0xff, 4, 0, 0x11, 0x88, 0, 0, 0,
        0, 0, 0, 0, 1, 0, 0, 0, 0, 0, 0, 0, 7, 0, 0x11, 0x81, 0, 0, 0, 0, 0, 0, 0, 1, 0, 0, 0, 0,
        0, 0, 0, 2, 0, 0x12, 0x83, 0, 0, 0, 0, 0, 0, 0, 0, 0, 0, 0, 7, 0x68, 0x65, 0x6c, 0x6c,
        0x6f, 0, 2, 0xff, 7, 0, 1, 0x87,
    ],
    is_over: false,
    asked: None,
    left: EndState {
        calls: None,
        has_aborted: true,
        messages: Some((1, 0, true)),
    },
};

// Begin, Send 0 7 hello; and what is answered: Begun 1.1, Sent.
const SEND: Row = Row {
    stream: &[
        0, 1, 1, 0, 0x12, 2, 0, 0, 0, 0, 0, 0, 0, 0, 0, 0, 0, 7, 0x68, 0x65, 0x6c, 0x6c, 0x6f,
    ],
    written: &[
        0, 0x11, 0x81, 0, 0, 0, 0, 0, 0, 0, 1, 0, 0, 0, 0, 0, 0, 0, 1, 0, 1, 0x82,
    ],
    is_over: true,
    left: EndState {
        calls: None,
        has_aborted: true,
        messages: Some((0, 0, true)),
    },
    ..SESSION
};

const ROWS: [Row; 6] = [
    SESSION,
    // a length of 513
    Row {
        stream: &[
            0, 1, 1, 0, 0x12, 2, 0, 0, 0, 0, 0, 0, 0, 0, 0, 0, 0, 7, 0x68, 0x65, 0x6c, 0x6c, 0x6f,
            2, 1,
        ],
        ..SEND
    },
    // five bytes of a ReceiveFrom, and then it is lost
    Row {
        stream: &[
            0, 1, 1, 0, 0x12, 2, 0, 0, 0, 0, 0, 0, 0, 0, 0, 0, 0, 7, 0x68, 0x65, 0x6c, 0x6c, 0x6f,
            0, 5, 4, 0, 0,
        ],
        ends: true,
        ..SEND
    },
    // Begin, Commit, Begin: the commit waits while the store fails, is told so, and has no receipt
    Row {
        stream: &[0, 1, 1, 0, 1, 6, 0, 1, 1],
        fails: true,
        written: &[
            0, 0x11, 0x81, 0, 0, 0, 0, 0, 0, 0, 1, 0, 0, 0, 0, 0, 0, 0, 1, 0, 2, 0xff, 2, 0, 2,
            0xff, 2,
        ],
        left: EndState {
            calls: None,
            has_aborted: false,
            messages: None,
        },
        ..SESSION
    },
    // another Send, of three slots, which ends though the gate says no in front of its second step; the Commit behind it is not
    // answered, and once the connection is lost nothing is aborted
    Row {
        stream: &[
            0, 1, 1, 0, 0x12, 2, 0, 0, 0, 0, 0, 0, 0, 0, 0, 0, 0, 7, 0x68, 0x65, 0x6c, 0x6c, 0x6f,
            0, 0x12, 2, 0, 0, 0, 0, 0, 0, 0, 0, 0, 0, 0, 7, 0x68, 0x65, 0x6c, 0x6c, 0x6f, 0, 1, 6,
        ],
        ends: true,
        passes: 2,
        written: &[
            0, 0x11, 0x81, 0, 0, 0, 0, 0, 0, 0, 1, 0, 0, 0, 0, 0, 0, 0, 1, 0, 1, 0x82, 0, 1, 0x82,
        ],
        asked: Some(5),
        left: EndState {
            calls: Some(12),
            has_aborted: false,
            messages: Some((0, 0, true)),
        },
        ..SEND
    },
    // an Abort, which stops behind the undoing that is under way as the gate says no
    Row {
        stream: &[
            0, 1, 1, 0, 0x12, 2, 0, 0, 0, 0, 0, 0, 0, 0, 0, 0, 0, 7, 0x68, 0x65, 0x6c, 0x6c, 0x6f,
            0, 1, 7,
        ],
        ends: true,
        passes: 2,
        asked: Some(4),
        left: EndState {
            calls: Some(12),
            has_aborted: false,
            messages: Some((0, 0, true)),
        },
        ..SEND
    },
];

// The functions that follow promise nothing, and the first of them know of no store: so they are checked fast.

// Brings the bytes of a row, cut here.
fn bring<S: Steps, R: Wait>(
    rt: &R,
    connection: &mut Connection<Often, S>,
    row: &Row,
    cut: usize,
) -> Result<(), NoMemory> {
    connection.take_cut(rt, row.stream, cut)?;
    if row.ends {
        connection.end(rt);
    }
    Ok(())
}

fn is_seen<S: Steps>(connection: &Connection<Often, S>, row: &Row) -> bool {
    connection.has_written(row.written) && connection.is_over() == row.is_over
}

fn is_asked(gate: &Often, row: &Row) -> bool {
    match row.asked {
        Some(asked) => gate.asked() == asked,
        None => true,
    }
}

// Whether what is seen of a connection to this store is what the row says.
fn served<S: Steps, R: Wait>(rt: &R, alloc: Global, steps: S, row: &Row, cut: usize) -> (bool, S) {
    let mut connection = connected(alloc, Often::new(row.passes), steps);
    let is_brought = bring(rt, &mut connection, row, cut).is_ok();
    let is_seen = is_seen(&connection, row);
    let (gate, steps) = connection.into_parts();
    (is_brought && is_seen && is_asked(&gate, row), steps)
}

// The same, and of the store.
fn comes_so<R: Wait>(rt: &R, alloc: Global, row: &Row, cut: usize) -> Result<bool, &'static str> {
    let (is_so, steps) = served(rt, alloc, small_steps(alloc, row.fails)?, row, cut);
    Ok(is_so && leave(steps, &row.left))
}

// Byte by byte, too.
fn first_cut_that_differs<R: Wait>(
    rt: &R,
    alloc: Global,
    row: &Row,
) -> Result<Option<usize>, &'static str> {
    for cut in 0..row.stream.len().saturating_add(2) {
        if !comes_so(rt, alloc, row, cut)? {
            return Ok(Some(cut));
        }
    }
    Ok(None)
}

#[test]
fn sessions_are_served_wherever_they_are_cut(rt: HostRuntime) -> Result<(), Fail> {
    for row in &ROWS {
        assert_eq!(rt; first_cut_that_differs(&rt, rt.alloc(), row)?, None);
    }
    Ok(())
}
