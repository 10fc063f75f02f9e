//! The calls that are made, through any step interface.
use rq_bytes::GhostList;
use rq_engine::event::{Event, Reply};
use rq_model::txn::Txn;
use rq_page::layout::SLOTS;
use rq_workers::gate::{BEFORE_AGAIN, Gate};
use rq_workers::steps::Steps;
use rq_workers::worker::Worker;
use std::alloc::{AllocError, Global};
use std::snapshot::Snapshot;
use std::sync::Wait;
use std::thread;

/// How many callers there are.
pub const CALLERS: u32 = 4;

/// How many rounds a sender goes through before the audit is taken.
const ROUNDS_A_BATCH: u32 = 64;

/// Lets its thread through, and others run before a call is tried again.
#[derive(Drop)]
struct Polite {
    answers: Snapshot<GhostList<(u32, bool)>>,
}

impl Gate for Polite {
    ghost answers = { λ gate. gate.answers.value };

    fn pass(&mut self, point: u32) -> bool {
        if point == BEFORE_AGAIN {
            thread::yield_now();
        }
        GhostList::push(&mut self.answers, &(point, true));
        true
    }
}

/// The sender for which a caller calls: each has a directory page of its own.
pub fn sender_of(caller: u32) -> u32 {
    SLOTS.wrapping_mul(caller)
}

/// So many rounds for a sender that the audit is to be taken.
pub fn batch<S: Steps + Drop, R: Wait>(rt: &R, alloc: Global, steps: S, sender: u32) -> Option<S> {
    let mut steps = steps;
    for _ in 0..ROUNDS_A_BATCH {
        steps = round(rt, alloc, steps, sender)?;
    }
    Some(steps)
}

// One transaction that sends for a sender, and one that receives what it sent.
fn round<S: Steps + Drop, R: Wait>(rt: &R, alloc: Global, steps: S, sender: u32) -> Option<S> {
    let mut steps = steps;
    let txn = begun(&mut steps)?;
    let send = send_of(alloc, txn, sender).ok()?;
    let mut steps = committed(rt, steps, txn, &send);
    let txn = begun(&mut steps)?;
    let receive = Event::StartReceiveFrom { txn, sender };
    Some(committed(rt, steps, txn, &receive))
}

// Begins a transaction.
fn begun<S: Steps>(steps: &mut S) -> Option<Txn> {
    let stamped = steps.call(Event::Begin);
    let txn = match stamped.reply() {
        Reply::Begun(txn) => Some(*txn),
        _ => None,
    };
    steps.seen(stamped);
    txn
}

// The start of a send of one byte.
fn send_of(alloc: Global, txn: Txn, sender: u32) -> Result<Event, AllocError> {
    let mut body = Vec::new(alloc);
    body.push(b'x')?;
    Ok(Event::StartSend {
        txn,
        sender,
        tag: 1,
        body,
    })
}

// Goes through the operation of a transaction, and commits.
fn committed<S: Steps + Drop, R: Wait>(rt: &R, steps: S, txn: Txn, start: &Event) -> S {
    let gate = Polite {
        answers: GhostList::empty(),
    };
    let mut worker = Worker::new(gate, steps);
    let _ = worker.run(rt, start);
    let mut steps = worker.into_steps();
    let stamped = steps.call(Event::Commit(txn));
    steps.seen(stamped);
    steps
}
