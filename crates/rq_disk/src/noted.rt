//! The calls of a file, as contracts alone see them: they have no bytes.
ghost use Rattle.std.specs.Prelude.{◌≡◌, [], ◌∷◌};
ghost use Rattle.rq_disk.specs.FileCalls.FileCall.{Gave, Denied, Took, Tried, Cut, Uncut, Replaced, Unreplaced, Synced, Missed};

use rq_bytes::GhostList;
use std::marker::Model;
use std::snapshot::Snapshot;

/// A call of a file. It gave or wrote bytes from a place on. Or a read or a write there failed, and the write is noted
/// with what was to be written. Or it was a cut, a replacement or a sync, which was made or failed.
#[derive(Drop)]
pub(crate) enum Note {
    Gave(u64, Snapshot<GhostList<u8>>),
    Denied(u64),
    Took(u64, Snapshot<GhostList<u8>>),
    Tried(u64, Snapshot<GhostList<u8>>),
    Cut(u64),
    Uncut(u64),
    Replaced(Snapshot<GhostList<u8>>),
    Unreplaced(Snapshot<GhostList<u8>>),
    Synced,
    Missed,
}

/// The calls of a file, the newest first, for a type that makes them and notes each.
#[derive(Drop)]
pub struct Calls {
    notes: Snapshot<GhostList<Note>>,
}

impl Model for Calls {
    ghost use Rattle.std.specs.Prelude.{List, map};
    ghost use Rattle.rq_disk.specs.FileCalls.{FileCall};

    ghost Value = { List FileCall };

    ghost use Rattle.rq_disk.specs.Noted.{call_of};

    ghost view = { λ c. map call_of c.notes.value };
}

impl Calls {
    /// No call.
    pub fn none() -> Calls
        ensures { result ≡ [] }
    {
        Calls {
            notes: GhostList::empty(),
        }
    }

    /// It gave these bytes from a place on.
    pub fn gave(&mut self, at: u64, bytes: &[u8])
        ensures { self.new ≡ Gave at bytes.now ∷ self.old }
    {
        GhostList::push(&mut self.notes, &Note::Gave(at, listed(bytes)));
    }

    /// It failed to give the bytes from a place on.
    pub fn denied(&mut self, at: u64)
        ensures { self.new ≡ Denied at ∷ self.old }
    {
        GhostList::push(&mut self.notes, &Note::Denied(at));
    }

    /// It wrote these bytes to a place and what follows it.
    pub fn took(&mut self, at: u64, bytes: &[u8])
        ensures { self.new ≡ Took at bytes.now ∷ self.old }
    {
        GhostList::push(&mut self.notes, &Note::Took(at, listed(bytes)));
    }

    /// It failed to write these bytes there.
    pub fn tried(&mut self, at: u64, bytes: &[u8])
        ensures { self.new ≡ Tried at bytes.now ∷ self.old }
    {
        GhostList::push(&mut self.notes, &Note::Tried(at, listed(bytes)));
    }

    /// It lost what was behind its first `len` bytes.
    pub fn cut(&mut self, len: u64)
        ensures { self.new ≡ Cut len ∷ self.old }
    {
        GhostList::push(&mut self.notes, &Note::Cut(len));
    }

    /// It failed to lose that.
    pub fn uncut(&mut self, len: u64)
        ensures { self.new ≡ Uncut len ∷ self.old }
    {
        GhostList::push(&mut self.notes, &Note::Uncut(len));
    }

    /// Another took its place, which has these bytes alone.
    pub fn replaced(&mut self, bytes: &[u8])
        ensures { self.new ≡ Replaced bytes.now ∷ self.old }
    {
        GhostList::push(&mut self.notes, &Note::Replaced(listed(bytes)));
    }

    /// Another failed to take its place.
    pub fn unreplaced(&mut self, bytes: &[u8])
        ensures { self.new ≡ Unreplaced bytes.now ∷ self.old }
    {
        GhostList::push(&mut self.notes, &Note::Unreplaced(listed(bytes)));
    }

    /// It was synced.
    pub fn synced(&mut self)
        ensures { self.new ≡ Synced ∷ self.old }
    {
        GhostList::push(&mut self.notes, &Note::Synced);
    }

    /// It failed to sync.
    pub fn missed(&mut self)
        ensures { self.new ≡ Missed ∷ self.old }
    {
        GhostList::push(&mut self.notes, &Note::Missed);
    }
}

// These bytes.
fn listed(bytes: &[u8]) -> Snapshot<GhostList<u8>>
    ensures { result.value ≡ bytes.now }
{
    let mut content = GhostList::empty();
    let mut at = bytes.len();
    while at > 0 {
        at -= 1;
        GhostList::push(&mut content, &bytes[at]);
    }
    content
}
