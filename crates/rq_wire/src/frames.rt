//! Frames from pieces.
ghost use Rattle.std.specs.Prelude.{◌≡◌, ◌++◌, [], ◌≤◌, true, false, length, drop, IsOk, IfOk, OnOk, OnErr, List, ℕ};
ghost use Rattle.rq_wire.specs.Stream.{Begins, AreRequests, stop};
ghost use Rattle.rq_wire.specs.Notes.{fed_bytes, given};
ghost use Rattle.rq_wire.specs.Looks.{looks};

use crate::look::{Prefix, look};
use crate::request::Request;
use bytes::BytesMut;
use rq_model::refusal::NoMemory;
use std::alloc::{AllocError, Global};
use std::marker::Model;
use std::snapshot::Snapshot;

/// The requests of a piece, and whether a fault stands behind them.
#[derive(Drop)]
pub struct Fed {
    pub requests: Vec<Request>,
    pub fault: bool,
}

// A piece, as what it added to the bytes that were not taken, and its requests. Contracts alone see it: it has no
// bytes.
#[derive(Drop)]
pub(crate) struct Note {
    held: Snapshot<usize>,
    unread: Snapshot<BytesMut>,
    requests: Snapshot<Vec<Request>>,
}

/// The bytes that were fed and are no whole frame yet. Behind a fault no more are kept. Contracts see all bytes that
/// were fed, up to the piece with a fault, the requests given, and whether there was a fault.
#[derive(Drop)]
pub struct Frames {
    alloc: Global,
    unread: BytesMut,
    fault: bool,
    notes: Vec<Note>,
}

impl Model for Frames {
    ghost use Rattle.rq_wire.specs.Notes.{Wire, fed_bytes, given, Keeps};

    ghost Value = { Wire };

    ghost view = { λ f. record { bytes = fed_bytes f.notes.items; given = given f.notes.items; fault = f.fault } };

    ghost invariant = { λ f. Keeps (fed_bytes f.notes.items) (given f.notes.items) f.fault f.unread.items };
}

impl Frames {
    pub fn new(alloc: Global) -> Frames
        ensures { result ≡ record { bytes = []; given = []; fault = false } }
    {
        Frames {
            alloc,
            unread: BytesMut::new(alloc),
            fault: false,
            notes: Vec::new(alloc),
        }
    }

    /// The requests that a further piece completes. Of all bytes fed so far, the requests given so far are those of the
    /// longest list of whole good frames at their front. The fault is the one behind them. After a fault each piece
    /// gives no requests and the same fault, and changes nothing. Whatever stands behind a fault, the requests and the
    /// fault are the same.
    ///
    /// # Errors
    /// `NoMemory`, but not after a fault; the piece is then as if it had not been fed.
    pub fn feed(&mut self, piece: &[u8]) -> Result<Fed, NoMemory>
        ensures bytes { self.old.fault ≡ false → OnOk result (self.new.bytes ≡ self.old.bytes ++ piece.now) }
        ensures requests { IfOk result (λ fed. self.new.given ≡ self.old.given ++ fed.requests.items) }
        ensures fault { IfOk result (λ fed. fed.fault ≡ self.new.fault) }
        ensures exact { AreRequests self.new.bytes self.new.given self.new.fault }
        // After a fault.
        ensures faulty { self.old.fault ≡ true → IfOk result (λ fed. (fed.requests.items ≡ []) × (fed.fault ≡ true)) }
        ensures still { self.old.fault ≡ true → IsOk result × (self.new ≡ self.old) }
        ensures behind { self.new.fault ≡ true → (more : List ℕ)
            → AreRequests (self.new.bytes ++ more) self.new.given true }
        ensures err { OnErr result (self.new ≡ self.old) }
    {
        let alloc = self.alloc;
        if self.fault {
            return Ok(Fed {
                requests: Vec::new(alloc),
                fault: true,
            });
        }
        let held = self.unread.len();
        let Ok(()) = self.unread.extend_from_slice(piece) else {
            return Err(NoMemory);
        };
        match take_requests(alloc, &mut self.notes, held, &self.unread) {
            Ok((fed, taken)) => {
                self.unread.advance(taken);
                self.fault = fed.fault;
                Ok(fed)
            }
            Err(_) => {
                self.unread.truncate(held);
                Err(NoMemory)
            }
        }
    }
}

// What a piece gives, once it is noted. The piece is what stands in `unread` behind its first `held` bytes.
fn remembered(
    notes: &mut Vec<Note>,
    held: usize,
    unread: &BytesMut,
    fed: Fed,
) -> Result<Fed, NoMemory>
    ensures bytes { OnOk result (fed_bytes notes.new.items ≡ fed_bytes notes.old.items ++ drop held unread.now.items) }
    ensures requests { OnOk result (given notes.new.items ≡ given notes.old.items ++ fed.requests.items) }
    ensures same { IfOk result (λ told. told ≡ fed) }
    ensures err { OnErr result (notes.new.items ≡ notes.old.items) }
{
    let note = Note {
        held: Snapshot::of(&held),
        unread: Snapshot::of(unread),
        requests: Snapshot::of(&fed.requests),
    };
    match notes.push(note) {
        Ok(()) => Ok(fed),
        Err(_) => Err(NoMemory),
    }
}

// What the bytes behind those that were held complete, once it is noted, and how many bytes it takes.
fn take_requests(
    alloc: Global,
    notes: &mut Vec<Note>,
    held: usize,
    unread: &BytesMut,
) -> Result<(Fed, usize), NoMemory>
    ensures requests { IfOk result (λ r. Begins r.0.requests.items unread.now.items (drop r.1 unread.now.items)) }
    ensures stop { IfOk result (λ r. looks (drop r.1 unread.now.items) ≡ stop r.0.fault) }
    ensures within { IfOk result (λ r. r.1 ≤ length unread.now.items) }
    ensures fed { OnOk result (fed_bytes notes.new.items ≡ fed_bytes notes.old.items ++ drop held unread.now.items) }
    ensures given { IfOk result (λ r. given notes.new.items ≡ given notes.old.items ++ r.0.requests.items) }
    ensures err { OnErr result (notes.new.items ≡ notes.old.items) }
{
    let Ok((fed, taken)) = requests_of(alloc, unread.as_slice()) else {
        return Err(NoMemory);
    };
    match remembered(notes, held, unread, fed) {
        Ok(fed) => Ok((fed, taken)),
        Err(_) => Err(NoMemory),
    }
}

// The requests at the front of some bytes, with whether a fault stands behind them, and how many bytes they take.
fn requests_of(alloc: Global, bytes: &[u8]) -> Result<(Fed, usize), AllocError>
    ensures requests { IfOk result (λ r. Begins r.0.requests.items bytes.now (drop r.1 bytes.now)) }
    ensures stop { IfOk result (λ r. looks (drop r.1 bytes.now) ≡ stop r.0.fault) }
    ensures within { IfOk result (λ r. r.1 ≤ length bytes.now) }
{
    let mut requests = Vec::new(alloc);
    let mut taken = 0;
    let fault = loop {
        match look(alloc, behind(bytes, taken))? {
            Prefix::Frame(request, size) => {
                requests.push(request)?;
                taken += size;
            }
            Prefix::Fault => break true,
            Prefix::More => break false,
        }
    };
    Ok((Fed { requests, fault }, taken))
}

fn behind(bytes: &[u8], taken: usize) -> &[u8]
    requires { taken ≤ length bytes.now }
    ensures { result.now ≡ drop taken bytes.now }
{
    &bytes[taken..]
}
