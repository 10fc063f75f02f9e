//! What two threads do that share a store, one of them held at a gate until the other has come further.
use crate::connection::{Often, connected};
use crate::stores::{carried_out, committed, is_sent, start_of_send};
use crate::turns::{Held, Turns};
use rq_engine::event::{CommitNo, Event, Reply};
use rq_workers::gate::{BEFORE_AGAIN, BEFORE_FORCE, BEFORE_WRITE, BETWEEN_STEPS, Gate};
use rq_workers::steps::Steps;
use rq_workers::worker::Worker;
use std::alloc::Global;
use std::sync::Wait;

// Begin, Send 0 1 x.
const ONE_SEND: [u8; 19] = [
    0, 1, 1, 0, 0x0e, 2, 0, 0, 0, 0, 0, 0, 0, 0, 0, 0, 0, 1, b'x',
];

// Begun 1.1, Sent.
const SENT_ONCE: [u8; 22] = [
    0, 0x11, 0x81, 0, 0, 0, 0, 0, 0, 0, 1, 0, 0, 0, 0, 0, 0, 0, 1, 0, 1, 0x82,
];

/// What the first of two threads does. The second sends y and commits meanwhile.
#[derive(Clone, Copy)]
pub enum Case {
    /// It sends x and commits, held between two steps until the second has committed.
    Send,
    /// It writes the pages up to the one of the second's sender, held before that until the second has committed and forced.
    WritePages,
    /// It forces, held before that until the second has committed, who asks for a receipt before and behind the force.
    WriteLog,
    /// It is a session that has sent. Its connection is lost while the second is held between two steps of its send; that one
    /// goes on once the session's abort is to be tried again.
    Abort,
    /// The same, but the gate says no to the session then.
    GiveUp,
}

/// What a thread did: whether all of it, and its commit.
#[derive(Clone, Copy)]
pub struct Done {
    pub is_done: bool,
    pub number: Option<CommitNo>,
}

impl Case {
    /// For whom the second thread sends.
    pub fn sender(self) -> u32 {
        match self {
            Case::Abort | Case::GiveUp => 1,
            _ => 15,
        }
    }

    // The gate of the first thread.
    fn gate(self, turns: &Turns) -> Held<'_> {
        match self {
            Case::Send => Held::new(turns, BETWEEN_STEPS, 1, u32::MAX),
            Case::WritePages => Held::new(turns, BEFORE_WRITE, 1, 3),
            Case::WriteLog => Held::new(turns, BEFORE_FORCE, 1, 1),
            Case::Abort => Held::new(turns, BEFORE_AGAIN, 3, u32::MAX),
            Case::GiveUp => Held::new(turns, BEFORE_AGAIN, 3, 0),
        }
    }
}

/// What the first thread does.
pub fn first<S: Steps + Drop, R: Wait>(
    rt: &R,
    alloc: Global,
    steps: S,
    turns: &Turns,
    case: Case,
) -> (Done, S) {
    let gate = case.gate(turns);
    match case {
        Case::Send => sent(rt, alloc, gate, steps, 0, b'x'),
        Case::WritePages => pages_written(rt, gate, steps),
        Case::WriteLog => log_written(rt, gate, steps, turns),
        Case::Abort | Case::GiveUp => lost(rt, alloc, gate, steps, turns),
    }
}

/// What the second does, once the first is held or has sent.
pub fn second<S: Steps, R: Wait>(
    rt: &R,
    alloc: Global,
    steps: S,
    turns: &Turns,
    case: Case,
) -> (Done, S) {
    turns.comes(1);
    match case {
        Case::Send | Case::WritePages => {
            let (done, mut steps) = sent(
                rt,
                alloc,
                Often::new(u32::MAX),
                steps,
                case.sender(),
                b'y',
            );
            if matches!(case, Case::WritePages) {
                let stamped = steps.call(Event::Force);
                steps.seen(stamped);
            }
            turns.reach(2);
            (done, steps)
        }
        Case::WriteLog => sent_and_asked(rt, alloc, steps, turns, case.sender()),
        Case::Abort | Case::GiveUp => {
            let gate = Held::new(turns, BETWEEN_STEPS, 2, u32::MAX);
            let (done, steps) = sent(rt, alloc, gate, steps, case.sender(), b'y');
            turns.reach(4);
            (done, steps)
        }
    }
}

// Sends a byte, behind a gate, and commits.
fn sent<H: Gate + Drop, S: Steps, R: Wait>(
    rt: &R,
    alloc: Global,
    gate: H,
    steps: S,
    sender: u32,
    byte: u8,
) -> (Done, S) {
    let mut steps = steps;
    let Some((txn, start)) = start_of_send(alloc, &mut steps, sender, byte) else {
        return (without_commit(false), steps);
    };
    let (ended, goes_on, mut steps) = carried_out(rt, gate, steps, &start);
    let number = committed(&mut steps, txn);
    let is_done = goes_on && is_sent(&ended) && number.is_some();
    (Done { is_done, number }, steps)
}

fn without_commit(is_done: bool) -> Done {
    Done {
        is_done,
        number: None,
    }
}

// The same, and asks for the receipt before the log is forced and behind it.
fn sent_and_asked<S: Steps, R: Wait>(
    rt: &R,
    alloc: Global,
    steps: S,
    turns: &Turns,
    sender: u32,
) -> (Done, S) {
    let (done, mut steps) = sent(rt, alloc, Often::new(u32::MAX), steps, sender, b'y');
    let is_acknowledged_before = is_acknowledged(&mut steps, done.number);
    turns.reach(2);
    turns.comes(3);
    let is_acknowledged = is_acknowledged(&mut steps, done.number);
    let is_done = done.is_done
        && matches!(is_acknowledged_before, Some(false))
        && matches!(is_acknowledged, Some(true));
    (Done { is_done, ..done }, steps)
}

// Whether there is a receipt of this commit, where that is answered.
fn is_acknowledged<S: Steps>(steps: &mut S, number: Option<CommitNo>) -> Option<bool> {
    let stamped = steps.call(Event::Acknowledged(number?));
    let is_given = match stamped.reply() {
        Reply::Acknowledged(given) => Some(given.is_some()),
        _ => None,
    };
    steps.seen(stamped);
    is_given
}

// Writes pages until the gate says no.
fn pages_written<H: Gate + Drop, S: Steps, R: Wait>(rt: &R, gate: H, steps: S) -> (Done, S) {
    let mut worker = Worker::new(gate, steps);
    worker.write_pages(rt, 5);
    (without_commit(true), worker.into_steps())
}

// Forces until the gate says no.
fn log_written<H: Gate + Drop, S: Steps, R: Wait>(
    rt: &R,
    gate: H,
    steps: S,
    turns: &Turns,
) -> (Done, S) {
    let mut worker = Worker::new(gate, steps);
    worker.write_log(rt);
    turns.reach(3);
    (without_commit(true), worker.into_steps())
}

// A session that sends, and is lost while another's send is under way.
fn lost<H: Gate + Drop, S: Steps + Drop, R: Wait>(
    rt: &R,
    alloc: Global,
    gate: H,
    steps: S,
    turns: &Turns,
) -> (Done, S) {
    let mut connection = connected(alloc, gate, steps);
    let is_brought = connection.take(rt, &ONE_SEND).is_ok();
    turns.reach(1);
    turns.comes(2);
    connection.end(rt);
    turns.reach(3);
    let is_done = is_brought && connection.has_written(&SENT_ONCE) && connection.is_over();
    let (_, steps) = connection.into_parts();
    (without_commit(is_done), steps)
}
