//! One connection with its session.
ghost use Rattle.std.specs.Prelude.{◌≡◌};
ghost use Rattle.rq_server.specs.Heard.{IsHeard};

use crate::gates::Open;
use bytes::BytesMut;
use mio::net::TcpStream;
use rq_model::txn::Lsn;
use rq_serving::serving::{Served, ServedSession};
use rq_wire::{Fed, Frames, Request, answer};
use rq_workers::steps::Steps;
use std::alloc::Global;
use std::collections::VecDeque;
use std::io::{ErrorKind, Read, Write};
use std::net::Shutdown;
use std::sync::Wait;
use std::time::{Clock, Instant};

/// How many pieces are read in one round, at most, so that nobody else waits for a connection that says much.
const PIECES_A_ROUND: u32 = 4;

/// How many requests are carried out in one round, at most.
const REQUESTS_A_ROUND: u32 = 64;

/// How many pieces are read away of a connection that is not heard any more, at most.
const PIECES_AWAY: u32 = 256;

/// A connection: what was asked and not yet carried out, and answers that the system has not taken yet.
#[derive(Drop)]
pub(crate) struct Connection {
    pub(crate) stream: TcpStream,
    frames: Frames,
    serving: ServedSession<Open>,
    line: Line,
    // the client says no more than what is here already
    is_last: bool,
    asked: VecDeque<Request>,
    awaited: Option<Lsn>,
    // a call is to be made again
    is_held: bool,
    answers: BytesMut,
    // its transaction is being aborted, and no request is carried out
    is_lost: bool,
    // nothing more is carried out
    session_is_over: bool,
    // since when, and how many pieces more, what comes is read away
    parted: Option<Instant>,
    pieces_left: u32,
}

// How far a connection was read.
#[derive(Clone, Copy)]
enum Line {
    // all that was said so far: more is reported
    Quiet,
    // more may have been said, and is not reported again
    Unread,
    // nothing more is taken down: it is at fault, or there was no memory. More may have been said
    Deaf,
    // nothing more is read: it has ended
    Ended,
}

impl Connection {
    /// A connection with a new session.
    pub(crate) fn new(alloc: Global, stream: TcpStream) -> Self {
        Connection {
            stream,
            frames: Frames::new(alloc),
            serving: ServedSession::new(Open::new()),
            line: Line::Quiet,
            is_last: false,
            asked: VecDeque::new(alloc),
            awaited: None,
            is_held: false,
            answers: BytesMut::new(alloc),
            is_lost: false,
            session_is_over: false,
            parted: None,
            pieces_left: PIECES_AWAY,
        }
    }

    /// The commit that waits for its receipt.
    pub(crate) fn awaited(&self) -> Option<Lsn>
        ensures { result ≡ self.now.awaited }
    {
        self.awaited
    }

    /// Whether a call is to be made again, once others had their turn.
    pub(crate) fn is_held(&self) -> bool {
        self.is_held
    }

    /// Whether a call of it is left to be made: for what was asked, for a commit that waits, or to end its session.
    pub(crate) fn has_calls_left(&self) -> bool {
        !self.asked.is_empty() || self.awaited.is_some() || self.is_held || self.is_to_be_lost()
    }

    // Whether nothing more will be asked, and its session has not ended.
    fn is_to_be_lost(&self) -> bool {
        let is_ended = matches!(self.line, Line::Deaf | Line::Ended);
        is_ended && !self.is_lost && !self.session_is_over
    }

    /// Whether nothing is left to be read, carried out or written.
    pub(crate) fn is_over(&self) -> bool {
        self.session_is_over && !self.is_held_up() && !matches!(self.line, Line::Deaf)
    }

    /// Whether something is left to be read or carried out that the system does not report again.
    pub(crate) fn is_behind(&self) -> bool {
        let is_read = !matches!(self.line, Line::Unread) && self.asked.is_empty();
        !self.is_held_up() && (!is_read || self.awaited.is_some())
    }

    // Whether the system took no more answers. It reports when it does.
    fn is_held_up(&self) -> bool {
        !self.answers.is_empty()
    }

    /// The client says no more than what is here already.
    pub(crate) fn note_last(&mut self) {
        self.is_last = true;
    }

    /// Reads what was said, a few pieces of this length at most. A client that has asked more than was carried out is
    /// not heard. A client that does not read its answers is not heard either, unless it may have ended.
    pub(crate) fn hear(&mut self, piece: &mut [u8])
        ensures { IsHeard self.old self.new }
    {
        if self.parted.is_some() {
            self.read_away(piece);
            return;
        }
        if matches!(self.line, Line::Quiet) {
            self.line = Line::Unread;
        }
        if self.is_held_up() && !self.is_last || !self.asked.is_empty() {
            return;
        }
        for _ in 0..PIECES_A_ROUND {
            let is_more_heard = self.asked.is_empty() || !self.is_held_up();
            if !matches!(self.line, Line::Unread) || !is_more_heard {
                return;
            }
            self.line = self.read_piece(piece);
        }
    }

    fn read_piece(&mut self, piece: &mut [u8]) -> Line
        ensures { IsHeard self.old self.new }
    {
        match self.stream.read(piece) {
            Ok(0) => Line::Ended,
            Ok(count) => {
                let is_short = count < piece.len();
                self.take(&piece[..count], is_short)
            }
            Err(error) if error.kind() == ErrorKind::WouldBlock => Line::Quiet,
            Err(_) => Line::Ended,
        }
    }

    // Takes down what these bytes ask. After a fault, or where memory is wanting, that is all. Where fewer bytes came than there is
    // room for, no more are here.
    fn take(&mut self, piece: &[u8], is_short: bool) -> Line
        ensures { IsHeard self.old self.new }
    {
        let Ok(Fed { requests, fault }) = self.frames.feed(piece) else {
            return Line::Deaf;
        };
        for request in requests {
            if self.asked.push_back(request).is_err() {
                return Line::Deaf;
            }
        }
        if fault {
            return Line::Deaf;
        }
        if is_short && !self.is_last {
            Line::Quiet
        } else {
            Line::Unread
        }
    }

    /// Carries out what was asked, as much as a round takes. It stops at a commit that waits for its receipt, or a call
    /// that is to be made again. For a client that does not read its answers nothing is begun but its end.
    pub(crate) fn carry_out<S: Steps, R: Wait>(&mut self, rt: &R, steps: &mut S) {
        self.go_on(rt, steps);
        if self.is_held_up() {
            self.lose_if_ended(rt, steps);
            return;
        }
        for _ in 0..REQUESTS_A_ROUND {
            if self.session_is_over || self.awaited.is_some() || self.is_held {
                return;
            }
            let Some(request) = self.asked.pop_front() else {
                break;
            };
            let came = self.serving.request(rt, steps, request);
            self.take_down(came);
        }
        self.lose_if_ended(rt, steps);
    }

    /// Makes the call again that is to be, where there is one.
    pub(crate) fn go_on<S: Steps, R: Wait>(&mut self, rt: &R, steps: &mut S) {
        if self.is_held {
            let came = self.serving.go_on(rt, steps);
            self.take_down(came);
            self.lose_if_ended(rt, steps);
        }
    }

    /// Asks for the receipt of the commit that waits for it.
    pub(crate) fn ask_receipt<S: Steps, R: Wait>(&mut self, rt: &R, steps: &mut S) {
        if self.awaited.is_none() {
            return;
        }
        let came = self.serving.ask_receipt(rt, steps);
        self.take_down(came);
        self.lose_if_ended(rt, steps);
    }

    // Puts what came of a request behind the other answers. An answer that there is no memory for is the last.
    fn take_down(&mut self, came: Served) {
        self.awaited = None;
        self.is_held = false;
        match came {
            Served::Answered(one) => {
                if answer(&one, &mut self.answers).is_err() {
                    self.line = Line::Deaf;
                    self.asked.clear();
                }
            }
            Served::Waits(lsn) => self.awaited = Some(lsn),
            Served::Held => self.is_held = true,
            Served::Ended => self.session_is_over = true,
        }
    }

    // Where all is carried out, and nothing more will be asked, the session is lost.
    fn lose_if_ended<S: Steps, R: Wait>(&mut self, rt: &R, steps: &mut S) {
        let is_served = self.asked.is_empty() && self.awaited.is_none() && !self.is_held;
        if self.is_to_be_lost() && is_served {
            self.lose(rt, steps);
        }
    }

    /// Ends the session, where it has not: its transaction is aborted. Where that is held it ends later.
    pub(crate) fn lose<S: Steps, R: Wait>(&mut self, rt: &R, steps: &mut S) {
        if self.is_lost || self.session_is_over {
            return;
        }
        self.is_lost = true;
        self.asked.clear();
        let came = self.serving.lose(rt, steps);
        self.take_down(came);
    }

    /// Tells the client that nothing more is written, once all is of a connection that is not heard any more. What it still says is
    /// read away from then on: where a connection is closed with something unread, the system may take the answers back. True where
    /// that begins.
    pub(crate) fn part<R: Clock>(&mut self, rt: &R) -> bool {
        let is_due = self.session_is_over && !self.is_held_up() && matches!(self.line, Line::Deaf);
        if !is_due || self.parted.is_some() {
            return false;
        }
        self.parted = match self.stream.shutdown(Shutdown::Write) {
            Ok(()) => Instant::now(rt).ok(),
            Err(_) => None,
        };
        if self.parted.is_none() {
            self.line = Line::Ended;
        }
        self.parted.is_some()
    }

    // Reads away what was said.
    fn read_away(&mut self, piece: &mut [u8])
        ensures { IsHeard self.old self.new }
    {
        for _ in 0..PIECES_AWAY {
            if self.pieces_left == 0 {
                break;
            }
            self.pieces_left = self.pieces_left.saturating_sub(1);
            match self.stream.read(piece) {
                Ok(0) => break,
                Ok(_) => (),
                Err(error) if error.kind() == ErrorKind::WouldBlock => return,
                Err(_) => break,
            }
        }
        self.line = Line::Ended;
    }

    /// Since when what comes is read away.
    pub(crate) fn parted(&self) -> Option<Instant> {
        self.parted
    }

    /// Writes as many of the answers as the system takes. False where nobody reads them any more.
    pub(crate) fn write_answers<R: Wait>(&mut self, rt: &R) -> bool {
        for _ in rt.forever() {
            if self.answers.is_empty() {
                break;
            }
            match self.stream.write(&self.answers) {
                Ok(0) => return false,
                Ok(count) => self.answers.advance(count),
                Err(error) => return error.kind() == ErrorKind::WouldBlock,
            }
        }
        true
    }
}
