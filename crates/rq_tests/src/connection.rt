//! A connection: its bytes, its session over a store, and what was written to it.
use bytes::BytesMut;
use rq_bytes::GhostList;
use rq_model::refusal::NoMemory;
use rq_model::txn::Lsn;
use rq_serving::serving::{Served, ServedSession};
use rq_wire::{Answer, Fed, Frames, Request, answer};
use rq_workers::gate::Gate;
use rq_workers::steps::Steps;
use std::alloc::Global;
use std::snapshot::Snapshot;
use std::sync::Wait;

/// Lets its worker through so often, and then says no.
#[derive(Drop)]
pub struct Often {
    left: u32,
    asked: u32,
    answers: Snapshot<GhostList<(u32, bool)>>,
}

impl Often {
    pub fn new(times: u32) -> Self {
        Often {
            left: times,
            asked: 0,
            answers: GhostList::empty(),
        }
    }

    /// How often it was asked.
    pub fn asked(&self) -> u32 {
        self.asked
    }
}

impl Gate for Often {
    ghost answers = { λ gate. gate.answers.value };

    fn pass(&mut self, point: u32) -> bool {
        let passed = self.left > 0;
        self.left = self.left.saturating_sub(1);
        self.asked = self.asked.saturating_add(1);
        GhostList::push(&mut self.answers, &(point, passed));
        passed
    }
}

/// A connection, served behind a gate through these calls of a store.
#[derive(Drop)]
pub struct Connection<G: Gate, S: Steps> {
    frames: Frames,
    serving: ServedSession<G>,
    steps: S,
    written: BytesMut,
    is_over: bool,
}

/// A connection to these calls of a store.
pub fn connected<G: Gate, S: Steps>(alloc: Global, gate: G, steps: S) -> Connection<G, S> {
    Connection {
        frames: Frames::new(alloc),
        serving: ServedSession::new(gate),
        steps,
        written: BytesMut::new(alloc),
        is_over: false,
    }
}

// The functions that follow promise nothing, and know of no store: so a test of many calls is checked fast.

fn feed(frames: &mut Frames, piece: &[u8]) -> Result<Fed, NoMemory> {
    frames.feed(piece)
}

fn write(one: &Answer, out: &mut BytesMut) -> Result<(), NoMemory> {
    answer(one, out)
}

fn request<G: Gate, S: Steps, R: Wait>(
    rt: &R,
    serving: &mut ServedSession<G>,
    steps: &mut S,
    request: Request,
) -> Served {
    let came = serving.request(rt, steps, request);
    settled(rt, serving, steps, came)
}

// What comes once no call is held any more.
fn settled<G: Gate, S: Steps, R: Wait>(
    rt: &R,
    serving: &mut ServedSession<G>,
    steps: &mut S,
    came: Served,
) -> Served {
    let mut came = came;
    for _ in rt.forever() {
        if !matches!(came, Served::Held) {
            return came;
        }
        came = serving.go_on(rt, steps);
    }
    unreachable!()
}

fn ask_receipt<G: Gate, S: Steps, R: Wait>(
    rt: &R,
    serving: &mut ServedSession<G>,
    steps: &mut S,
) -> Served {
    serving.ask_receipt(rt, steps)
}

// Whether the session has ended once its connection is lost.
fn lose<G: Gate, S: Steps, R: Wait>(rt: &R, serving: &mut ServedSession<G>, steps: &mut S) -> bool {
    let came = serving.lose(rt, steps);
    matches!(settled(rt, serving, steps, came), Served::Ended)
}

// A force, as a log writer makes one while a commit waits: whether it was made.
fn force<G: Gate, S: Steps>(serving: &mut ServedSession<G>, steps: &mut S) -> bool {
    serving.force(steps)
}

fn into_gate<G: Gate>(serving: ServedSession<G>) -> G {
    serving.into_gate()
}

// The commit that waits for its receipt.
fn waiting(came: &Served) -> Option<Lsn> {
    match came {
        Served::Waits(lsn) => Some(*lsn),
        _ => None,
    }
}

// The answer, where there is one.
fn answered(came: Served) -> Option<Answer> {
    match came {
        Served::Answered(one) => Some(one),
        _ => None,
    }
}

// Serves a request until it is answered: none where the session is over. A commit that waits is answered once it was not durable,
// and then was forced; where it is answered before, or not forced, the session counts as over.
fn served<G: Gate, S: Steps, R: Wait>(
    rt: &R,
    serving: &mut ServedSession<G>,
    steps: &mut S,
    asked: Request,
) -> Option<Answer> {
    let came = request(rt, serving, steps, asked);
    let lsn = waiting(&came);
    if lsn.is_none() {
        return answered(came);
    }
    if waiting(&ask_receipt(rt, serving, steps)) == lsn && force(serving, steps) {
        answered(ask_receipt(rt, serving, steps))
    } else {
        None
    }
}

impl<G: Gate, S: Steps> Connection<G, S> {
    /// Serves what a piece completes.
    pub fn take<R: Wait>(&mut self, rt: &R, piece: &[u8]) -> Result<(), NoMemory> {
        let fed = feed(&mut self.frames, piece)?;
        for asked in fed.requests {
            self.serve(rt, asked)?;
        }
        if fed.fault && !self.is_over {
            self.end(rt);
        }
        Ok(())
    }

    /// Serves what these bytes complete, cut here; byte by byte where they are not so many.
    pub fn take_cut<R: Wait>(&mut self, rt: &R, stream: &[u8], cut: usize) -> Result<(), NoMemory> {
        let Some(first) = stream.get(..cut) else {
            return self.take_bytes(rt, stream);
        };
        self.take(rt, first)?;
        self.take(rt, stream.get(cut..).unwrap_or(&[]))
    }

    fn take_bytes<R: Wait>(&mut self, rt: &R, stream: &[u8]) -> Result<(), NoMemory> {
        for byte in stream {
            self.take(rt, &[*byte])?;
        }
        Ok(())
    }

    // Serves a request, and writes its answer.
    fn serve<R: Wait>(&mut self, rt: &R, asked: Request) -> Result<(), NoMemory> {
        match served(rt, &mut self.serving, &mut self.steps, asked) {
            Some(one) => write(&one, &mut self.written)?,
            None => self.is_over = true,
        }
        Ok(())
    }

    /// The connection has ended, or was at fault.
    pub fn end<R: Wait>(&mut self, rt: &R) {
        self.is_over = lose(rt, &mut self.serving, &mut self.steps);
    }

    /// Whether these bytes were written to it.
    pub fn has_written(&self, bytes: &[u8]) -> bool {
        self.written.as_slice() == bytes
    }

    /// Whether its session is over.
    pub fn is_over(&self) -> bool {
        self.is_over
    }

    /// The gate, and the calls of the store.
    pub fn into_parts(self) -> (G, S) {
        let Connection {
            frames: _,
            serving,
            steps,
            written: _,
            is_over: _,
        } = self;
        (into_gate(serving), steps)
    }
}
