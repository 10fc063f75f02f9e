//! Slots that a level is given, and sets of pages.
ghost use Rattle.std.specs.Prelude.{◌≡◌, ◌+◌, ◌<◌, ◌≤◌, ◌∷◌, ◌++◌, [], None, Some, nat_eq, not, OnOk, OnErr, MatchOption, length};
ghost use Rattle.std.specs.List.{filter};
ghost use Rattle.rq_level.specs.Given.{given_at, has_page};

use rq_model::record::Slot;
use rq_model::refusal::NoMemory;
use rq_page::addr::Addr;
use std::alloc::Global;
use std::marker::Model;

/// A slot, and where it stands.
#[derive(Clone, Copy)]
pub struct Given {
    pub at: Addr,
    pub bytes: Slot,
}

/// The slots that a level was given for an operation. Contracts see their list.
#[derive(Drop)]
pub struct Slots {
    given: Vec<Given>,
}

impl Model for Slots {
    ghost use Rattle.std.specs.Prelude.{List};
    ghost use Rattle.rq_level.specs.declared.slots.Given.{Given};

    ghost Value = { List Given };

    ghost view = { λ s. s.given.items };
}

impl Slots {
    /// No slot.
    pub fn new(alloc: Global) -> Self
        ensures { result ≡ [] }
    {
        Slots {
            given: Vec::new(alloc),
        }
    }

    /// Gives a slot.
    ///
    /// # Errors
    /// `NoMemory`: nothing changed.
    pub fn add(&mut self, at: Addr, bytes: &Slot) -> Result<(), NoMemory>
        ensures ok { OnOk result (self.new ≡ self.old ++ record { at = at; bytes = bytes.now } ∷ []) }
        ensures err { OnErr result (self.new ≡ self.old) }
    {
        match self.given.push(Given { at, bytes: *bytes }) {
            Ok(()) => Ok(()),
            Err(_) => Err(NoMemory),
        }
    }

    /// Has none given any more. What memory was taken for them is kept.
    pub fn clear(&mut self)
        ensures { self.new ≡ [] }
    {
        self.given.clear();
    }

    /// The slot at an address, where it was given.
    pub fn get(&self, at: Addr) -> Option<&Slot>
        ensures { MatchOption result (given_at at self.now ≡ None) (λ bytes. given_at at self.now ≡ Some bytes.now) }
    {
        for one in &self.given {
            if one.at == at {
                return Some(&one.bytes);
            }
        }
        None
    }
}

/// A set of pages, of which each may stand in it more than once. Contracts see the list of their numbers, and for how
/// many there is room.
#[derive(Drop)]
pub struct PageSet {
    pages: Vec<u32>,
}

impl Model for PageSet {
    ghost use Rattle.std.specs.Prelude.{vec_capacity};
    ghost use Rattle.rq_level.specs.Given.{Pages};

    ghost Value = { Pages };

    ghost view = { λ s. record { pages = s.pages.items; room = vec_capacity s.pages } };
}

impl PageSet {
    /// No page.
    pub fn new(alloc: Global) -> Self
        ensures { result.pages ≡ [] }
    {
        PageSet {
            pages: Vec::new(alloc),
        }
    }

    /// Adds a page.
    ///
    /// # Errors
    /// `NoMemory`: nothing changed.
    pub fn add(&mut self, page: u32) -> Result<(), NoMemory>
        ensures ok { OnOk result (self.new.pages ≡ self.old.pages ++ page ∷ []) }
        ensures err { OnErr result (self.new.pages ≡ self.old.pages) }
    {
        match self.pages.push(page) {
            Ok(()) => Ok(()),
            Err(_) => Err(NoMemory),
        }
    }

    /// Makes room for so many pages more.
    ///
    /// # Errors
    /// `NoMemory`: the pages stay.
    pub fn reserve(&mut self, count: usize) -> Result<(), NoMemory>
        ensures pages { self.new.pages ≡ self.old.pages }
        ensures room { OnOk result (length self.old.pages + count ≤ self.new.room) }
        ensures more { self.old.room ≤ self.new.room }
    {
        match self.pages.try_reserve(count) {
            Ok(()) => Ok(()),
            Err(_) => Err(NoMemory),
        }
    }

    /// Adds a page, for which there is room.
    pub fn put(&mut self, page: u32)
        requires { length self.old.pages < self.old.room }
        ensures pages { self.new.pages ≡ self.old.pages ++ page ∷ [] }
        ensures room { self.old.room ≤ self.new.room }
    {
        self.pages.push(page).unwrap();
    }

    /// Takes out a page.
    pub fn remove(&mut self, page: u32)
        ensures { self.new ≡ record { pages = filter (λ p. not (nat_eq p page)) self.old.pages; room = self.old.room } }
    {
        self.pages.retain(|one| *one != page);
    }

    /// Whether a page is in it.
    pub fn contains(&self, page: u32) -> bool
        ensures { result ≡ has_page page self.now.pages }
    {
        for one in &self.pages {
            if *one == page {
                return true;
            }
        }
        false
    }
}
