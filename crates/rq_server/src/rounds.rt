//! Rounds: a worker waits until some of its connections have said something, carries that out, has the commits among it
//! forced, and answers.
ghost use Rattle.std.specs.Prelude.{◌≡◌, ◌↔◌, ◌⊎◌, ◌<◌, ◌≤◌, ℕ, [], IfSome, Some, false, length, slice_get, true};
ghost use Rattle.slab.specs.Slab.{get};
ghost use Rattle.rq_server.specs.Heard.{AreHeard};
ghost use Rattle.rq_server.specs.Reached.{EndsForced};
ghost use Rattle.rq_server.specs.Waiting.{AreUpTo, IsLast, awaited, awaited_at, tokens};
ghost use Rattle.rq_server.specs.Wanting.{are_frames_wanting};

use crate::calls::Calls;
use crate::connection::Connection;
use crate::door::{Door, Entered};
use mio::net::{TcpListener, TcpStream};
use mio::unix::SourceFd;
use mio::{Events, Interest, Poll, Token};
use rq_model::txn::Lsn;
use rq_workers::steps::Steps;
use slab::Slab;
use std::alloc::{AllocError, Global};
use std::collections::VecDeque;
use std::io;
use std::net::Net;
use std::sync::{Mutex, Wait};
use std::time::{Clock, Duration, Instant};

/// How many connections are reported at once, at most.
const REPORTS: usize = 256;

/// How many bytes are read at once, at most.
const PIECE: usize = 4096;

/// For how many milliseconds what comes is read away of a connection that is not heard any more, at most.
const AWAY_MILLIS: u128 = 1000;

/// The token of the listener.
const DOOR: usize = 0xFFFF_FFFF;

/// The token of standard input, and its number.
const INPUT: usize = 0xFFFF_FFFE;

const STANDARD_INPUT: i32 = 0;

/// How many milliseconds pass before something is tried again. It is a connection that the system had no room for, a
/// call that is held, or a force that was refused.
const AGAIN_MILLIS: u64 = 10;

/// How often a call that is held is made again where all sessions are lost.
const LAST_TRIES: u32 = 100;

/// How many milliseconds a worker sleeps at most in two cases. There is an end to the sessions that another may come
/// to, or something is read away.
const LIMITED_MILLIS: u64 = 100;

/// Where a worker waits: for connections at this listener, and for what its own ones say.
pub(crate) fn poll_at<R: Net>(rt: &R, listener: &mut TcpListener) -> io::Result<Poll> {
    let poll = Poll::new(rt)?;
    poll.registry()
        .register(listener, Token(DOOR), Interest::READABLE)?;
    Ok(poll)
}

/// Has a worker wait for the end of standard input too: until nobody can write there any more. False where the system can't tell that,
/// as of a file.
pub(crate) fn hears_input(poll: &Poll) -> bool {
    let input = STANDARD_INPUT;
    poll.registry()
        .register(&mut SourceFd(&input), Token(INPUT), Interest::READABLE)
        .is_ok()
}

/// Where a worker waits, with room for what is reported to it there.
#[derive(Drop)]
pub(crate) struct Ears {
    poll: Poll,
    events: Events,
}

impl Ears {
    pub(crate) fn new(alloc: Global, poll: Poll) -> Result<Self, AllocError> {
        let events = Events::with_capacity(alloc, REPORTS)?;
        Ok(Ears { poll, events })
    }
}

// Who stands at the door.
#[derive(Clone, Copy)]
enum Queue {
    // nobody: the next one is reported
    Empty,
    // maybe somebody, who is not reported again
    Waiting,
    // somebody whom the system has no room for
    Stuck,
}

// What becomes of a connection behind a round.
#[derive(Clone, Copy)]
enum Fate {
    Stays,
    // it is not heard any more, and what it says is read away from now on
    Parts,
    Ends,
}

// A connection that parted: its token then, and when.
#[derive(Clone, Copy)]
struct Parted {
    token: usize,
    since: Instant,
}

/// The connections of a worker, by token.
#[derive(Drop)]
pub(crate) struct Connections {
    connections: Slab<Connection>,
    // the tokens of those that were reported
    active: Vec<usize>,
    // a call of one is to be made again: rounds go over all of them
    is_held: bool,
    // those that parted, the eldest first, and some that have ended since
    parted: VecDeque<Parted>,
    // where bytes are read into
    piece: Vec<u8>,
    queue: Queue,
    // there is an end to the sessions
    is_limited: bool,
    has_input_ended: bool,
    served: u64,
}

impl Connections {
    /// None yet.
    pub(crate) fn new(alloc: Global, is_limited: bool) -> Result<Self, AllocError> {
        Ok(Connections {
            connections: Slab::new(alloc),
            active: Vec::with_capacity(alloc, REPORTS)?,
            is_held: false,
            parted: VecDeque::new(alloc),
            piece: vec![in alloc; 0; PIECE]?,
            queue: Queue::Waiting,
            is_limited,
            has_input_ended: false,
            served: 0,
        })
    }

    /// Serves connections until no session may begin any more and all have ended, or are to. How many it served; None where the system
    /// reports nothing any more. Sessions that have not ended are lost then.
    pub(crate) fn serve<S: Steps, R: Wait + Clock + Eprint>(
        &mut self,
        rt: &R,
        alloc: Global,
        ears: Ears,
        door: &Mutex<Door>,
        calls: &mut Calls<'_, S>,
    ) -> Option<u64> {
        let Ears { poll, events } = ears;
        let (mut poll, mut events) = (poll, events);
        for _ in rt.forever() {
            if let Err(error) = poll.poll(&mut events, self.patience()) {
                calls.tell_deaf(rt, &error);
                self.lose_all(rt, calls);
                return None;
            }
            self.note(&events);
            self.round(rt, &poll, calls);
            self.end_late(rt);
            self.let_in(rt, alloc, &poll, door, calls);
            if self.is_limited && self.is_to_end(rt, door) {
                self.lose_all(rt, calls);
                let left = self.connections.len() as u64;
                return Some(self.served.saturating_add(left));
            }
        }
        unreachable!()
    }

    // Whether no session may begin any more and all have ended, or are to.
    fn is_to_end<R: Wait>(&self, rt: &R, door: &Mutex<Door>) -> bool {
        let mut door = door.lock(rt);
        if self.has_input_ended {
            door.shut();
        }
        door.is_shut() || door.is_closed() && self.connections.is_empty()
    }

    // How long to sleep at most, where nothing is reported; None where until something is.
    fn patience(&self) -> Option<Duration> {
        let wakes = self.is_limited || !self.parted.is_empty();
        match self.queue {
            Queue::Waiting => Some(Duration::from_millis(0)),
            Queue::Stuck => Some(Duration::from_millis(AGAIN_MILLIS)),
            Queue::Empty if self.is_held => Some(Duration::from_millis(AGAIN_MILLIS)),
            Queue::Empty if wakes => Some(Duration::from_millis(LIMITED_MILLIS)),
            Queue::Empty => None,
        }
    }

    // Notes what is reported.
    fn note(&mut self, events: &Events) {
        self.active.clear();
        for event in events.iter() {
            let Token(token) = event.token();
            if token == DOOR {
                self.queue = Queue::Waiting;
            } else if token == INPUT {
                self.has_input_ended |= event.is_read_closed();
            } else {
                let _ = self.active.push(token);
                self.note_last(token, event.is_read_closed());
            }
        }
    }

    fn note_last(&mut self, token: usize, is_last: bool) {
        if !is_last {
            return;
        }
        if let Some(connection) = self.connections.get_mut(token) {
            connection.note_last();
        }
    }

    // Nothing is done where nobody was reported and no call is held.
    fn round<S: Steps, R: Wait + Clock>(&mut self, rt: &R, poll: &Poll, calls: &mut Calls<'_, S>)
        ensures idle { self.old.active.items ≡ [] → self.old.is_held ≡ false → (self.new ≡ self.old) × (calls.new ≡ calls.old) }
    {
        if self.active.is_empty() && !self.is_held {
            return;
        }
        self.hear();
        let is_forced = !self.has_calls_left() || self.take_turn(rt, calls);
        self.answer(rt, poll, calls);
        self.is_held = self.is_any_held();
        calls.note_round();
        if !is_forced {
            calls.pause(rt, AGAIN_MILLIS);
        }
    }

    // How many connections a round goes over.
    fn count(&self) -> usize
        ensures { result ≡ length (tokens self.now) }
    {
        if self.is_held {
            self.connections.capacity()
        } else {
            self.active.len()
        }
    }

    // The token of one of them.
    fn token_at(&self, at: usize) -> usize
        ensures { at < length (tokens self.now) → slice_get (tokens self.now) at ≡ Some result }
    {
        if self.is_held {
            return at;
        }
        match self.active.get(at) {
            Some(token) => *token,
            None => DOOR,
        }
    }

    // Reads those that were reported. No session goes on by that, and no commit comes to wait.
    fn hear(&mut self)
        ensures { (token : ℕ) → AreHeard (get self.old.connections token) (get self.new.connections token) }
    {
        for at in 0..self.active.len() {
            let token = self.active.get(at).copied().unwrap_or(DOOR);
            if let Some(connection) = self.connections.get_mut(token) {
                connection.hear(&mut self.piece);
            }
        }
    }

    // Whether a call of one of them is left to be made.
    fn has_calls_left(&self) -> bool {
        for at in 0..self.count() {
            if let Some(connection) = self.connections.get(self.token_at(at)) {
                if connection.has_calls_left() {
                    return true;
                }
            }
        }
        false
    }

    // Carries out what was asked, up to commits that wait, and has these forced. Whether none waits any more: one does where there was no
    // memory for the force.
    fn take_turn<S: Steps, R: Wait>(&mut self, rt: &R, calls: &mut Calls<'_, S>) -> bool
        ensures { (result ≡ true) ↔ (awaited self.new ≡ []) }
    {
        let is_left = self.carry_out_in_turn(rt, calls);
        if let Some(lsn) = self.last_awaited() {
            if is_left {
                calls.await_force(rt, lsn);
            }
            self.ask_receipts(rt, &mut calls.steps);
        }
        self.last_awaited().is_none()
    }

    // Carries out what was asked, and forces once for the commits of all that left it to this turn. True where it leaves that too, or
    // nothing is to be forced. A call that is held is made again behind a force, which frees memory. Behind each call that was refused
    // for want of frames there is a force, before that is answered.
    fn carry_out_in_turn<S: Steps, R: Wait>(&mut self, rt: &R, calls: &mut Calls<'_, S>) -> bool
        ensures forced { result ≡ false → AreUpTo calls.new.reader.seat.saw (awaited self.new) ⊎ EndsForced S.made S.forced S.told calls.new.steps.inner }
        ensures left { result ≡ true → AreUpTo calls.new.reader.seat.saw (awaited self.new) ⊎ (0 < calls.old.turns.now.most_left) }
        ensures grown { calls.old.reader.seat.saw ≤ calls.new.reader.seat.saw }
        ensures frames { are_frames_wanting (S.made calls.new.steps.inner) ≡ false }
    {
        let turns = calls.turns;
        let mut owed = turns.take(rt);
        self.carry_out(rt, &mut calls.steps);
        if self.is_any_held() {
            calls.force(rt);
            self.go_on(rt, &mut calls.steps);
        }
        calls.force_for_frames(rt);
        let forced = calls.forced();
        let is_due = turns.is_due(&mut owed, forced, self.last_awaited(), turns.is_awaited());
        if is_due {
            calls.force_up_to(rt, owed.lsn());
        }
        !is_due
    }

    fn carry_out<S: Steps, R: Wait>(&mut self, rt: &R, steps: &mut S) {
        for at in 0..self.count() {
            let token = self.token_at(at);
            if let Some(connection) = self.connections.get_mut(token) {
                connection.carry_out(rt, steps);
            }
        }
    }

    fn go_on<S: Steps, R: Wait>(&mut self, rt: &R, steps: &mut S) {
        for at in 0..self.count() {
            let token = self.token_at(at);
            if let Some(connection) = self.connections.get_mut(token) {
                connection.go_on(rt, steps);
            }
        }
    }

    // Whether a call of one of them is held.
    fn is_any_held(&self) -> bool {
        let mut is_any_held = false;
        for at in 0..self.count() {
            if let Some(connection) = self.connections.get(self.token_at(at)) {
                is_any_held |= connection.is_held();
            }
        }
        is_any_held
    }

    // The last of the commits that wait.
    fn last_awaited(&self) -> Option<Lsn>
        ensures { IsLast (awaited self.now) result }
    {
        let mut last = None;
        for at in 0..self.count() {
            last = later(last, self.awaited_at(self.token_at(at)));
        }
        last
    }

    // The commit that waits there.
    fn awaited_at(&self, token: usize) -> Option<Lsn>
        ensures { result ≡ awaited_at self.now.connections token }
    {
        match self.connections.get(token) {
            Some(connection) => connection.awaited(),
            None => None,
        }
    }

    fn ask_receipts<S: Steps, R: Wait>(&mut self, rt: &R, steps: &mut S) {
        for at in 0..self.count() {
            let token = self.token_at(at);
            if let Some(connection) = self.connections.get_mut(token) {
                connection.ask_receipt(rt, steps);
            }
        }
    }

    // Writes the answers, and ends the connections that are over.
    fn answer<S: Steps, R: Wait + Clock>(&mut self, rt: &R, poll: &Poll, calls: &mut Calls<'_, S>) {
        for at in 0..self.count() {
            let token = self.token_at(at);
            match self.answer_one(rt, poll, calls, token) {
                Fate::Ends => self.end(token),
                Fate::Parts => self.await_end(token),
                Fate::Stays => (),
            }
        }
    }

    fn answer_one<S: Steps, R: Wait + Clock>(
        &mut self,
        rt: &R,
        poll: &Poll,
        calls: &mut Calls<'_, S>,
        token: usize,
    ) -> Fate {
        let Some(connection) = self.connections.get_mut(token) else {
            return Fate::Stays;
        };
        let fate = fate_of(rt, connection, calls);
        let is_to_be_reported = matches!(fate, Fate::Parts) || connection.is_behind();
        if is_to_be_reported && !report_again(poll, connection, token) {
            return cut_off(rt, connection, calls);
        }
        fate
    }

    // Notes one that parts. Where there is no memory for that, it ends.
    fn await_end(&mut self, token: usize) {
        let since = match self.connections.get(token) {
            Some(connection) => connection.parted(),
            None => None,
        };
        let is_noted = match since {
            Some(since) => self.parted.push_back(Parted { token, since }).is_ok(),
            None => false,
        };
        if !is_noted {
            self.end(token);
        }
    }

    // Ends those that parted long enough ago.
    fn end_late<R: Clock>(&mut self, rt: &R) {
        for _ in 0..self.parted.len() {
            let Some(Parted { token, since }) = self.parted.front().copied() else {
                return;
            };
            if !is_late(rt, since) {
                return;
            }
            self.parted.pop_front();
            let is_there = match self.connections.get(token) {
                Some(connection) => connection.parted() == Some(since),
                None => false,
            };
            if is_there {
                self.end(token);
            }
        }
    }

    // All sessions are lost. What is held for long is left as it is: the next start undoes it.
    fn lose_all<S: Steps, R: Wait>(&mut self, rt: &R, calls: &mut Calls<'_, S>) {
        for _ in 0..LAST_TRIES {
            if self.lose_each(rt, calls) {
                return;
            }
            calls.pause(rt, AGAIN_MILLIS);
        }
    }

    // Whether each is over then, and nothing is held.
    fn lose_each<S: Steps, R: Wait>(&mut self, rt: &R, calls: &mut Calls<'_, S>) -> bool {
        let turns = calls.turns;
        let _turn = turns.turn.lock(rt);
        let mut is_any_held = false;
        for token in 0..self.connections.capacity() {
            if let Some(connection) = self.connections.get_mut(token) {
                connection.go_on(rt, &mut calls.steps);
                connection.lose(rt, &mut calls.steps);
                is_any_held |= connection.is_held();
            }
        }
        if is_any_held {
            calls.force(rt);
        }
        !is_any_held
    }

    fn end(&mut self, token: usize) {
        drop(self.connections.try_remove(token));
        self.served = self.served.saturating_add(1);
    }

    // Takes one of the connections that stand at the door.
    fn let_in<S: Steps, R: Wait + Eprint>(
        &mut self,
        rt: &R,
        alloc: Global,
        poll: &Poll,
        door: &Mutex<Door>,
        calls: &Calls<'_, S>,
    ) {
        if matches!(self.queue, Queue::Empty) {
            return;
        }
        let entered = door.lock(rt).next();
        self.queue = match entered {
            Entered::Connection(stream) => self.take_in(alloc, poll, stream),
            Entered::Lost => Queue::Waiting,
            Entered::Nobody | Entered::Closed => Queue::Empty,
            Entered::NoRoom(error) => {
                calls.tell_no_room(rt, &error);
                Queue::Stuck
            }
        };
    }

    // Serves a connection from now on. Where the system has no room for that, or there is no memory, it has ended.
    fn take_in(&mut self, alloc: Global, poll: &Poll, stream: TcpStream) -> Queue {
        let mut stream = stream;
        let token = self.connections.vacant_key();
        let is_registered = stream.set_nodelay(true).is_ok()
            && register(poll, &mut stream, token).is_ok();
        let connection = Connection::new(alloc, stream);
        if !is_registered || self.connections.insert(connection).is_err() {
            self.served = self.served.saturating_add(1);
        }
        Queue::Waiting
    }
}

// Whether what came since then was read away for long enough.
fn is_late<R: Clock>(rt: &R, since: Instant) -> bool {
    match since.elapsed(rt) {
        Ok(passed) => passed.as_millis() >= AWAY_MILLIS,
        Err(_) => true,
    }
}

// The later of two, where there are any.
fn later(one: Option<Lsn>, other: Option<Lsn>) -> Option<Lsn>
    ensures one { IfSome one (λ lsn. (last : ℕ) × (result ≡ Some last) × (lsn ≤ last)) }
    ensures other { IfSome other (λ lsn. (last : ℕ) × (result ≡ Some last) × (lsn ≤ last)) }
    ensures among { IfSome result (λ last. (one ≡ Some last) ⊎ (other ≡ Some last)) }
{
    match (one, other) {
        (Some(one), Some(other)) => Some(one.max(other)),
        (None, other) => other,
        (one, None) => one,
    }
}

// Writes the answers of a connection: what becomes of it.
fn fate_of<S: Steps, R: Wait + Clock>(
    rt: &R,
    connection: &mut Connection,
    calls: &mut Calls<'_, S>,
) -> Fate {
    if connection.write_answers(rt) {
        return fate_behind_answers(rt, connection);
    }
    cut_off(rt, connection, calls)
}

// Ends a connection that nothing more can be said to or heard of, unless a call of it is held.
fn cut_off<S: Steps, R: Wait>(
    rt: &R,
    connection: &mut Connection,
    calls: &mut Calls<'_, S>,
) -> Fate {
    let turns = calls.turns;
    let _turn = turns.turn.lock(rt);
    connection.lose(rt, &mut calls.steps);
    if connection.is_held() {
        Fate::Stays
    } else {
        Fate::Ends
    }
}

fn fate_behind_answers<R: Clock>(rt: &R, connection: &mut Connection) -> Fate {
    if connection.part(rt) {
        Fate::Parts
    } else if connection.is_over() {
        Fate::Ends
    } else {
        Fate::Stays
    }
}

fn register(poll: &Poll, stream: &mut TcpStream, token: usize) -> io::Result<()> {
    let interest = Interest::READABLE | Interest::WRITABLE;
    poll.registry().register(stream, Token(token), interest)
}

// Has a connection reported again. False where the system can't.
fn report_again(poll: &Poll, connection: &mut Connection, token: usize) -> bool {
    let interest = Interest::READABLE | Interest::WRITABLE;
    poll.registry()
        .reregister(&mut connection.stream, Token(token), interest)
        .is_ok()
}
