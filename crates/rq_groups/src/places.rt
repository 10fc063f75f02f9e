//! Who holds the ends of one side, by sender.
ghost use Rattle.std.specs.Prelude.{◌≡◌, ◌<◌, Some, None, IfOk, length, replicate, slice_set};
ghost use Rattle.rq_groups.specs.Chains.{AreHolders, held_at, next_of};

use rq_bitset::Index;
use rq_model::refusal::NoMemory;
use rq_model::txn::Txn;
use std::alloc::Global;
use std::marker::Model;

/// Who holds an end.
#[derive(Clone, Copy)]
pub(crate) struct Holding {
    /// The transaction that holds it.
    pub txn: Txn,
    /// The sender of the end that it took before this one, if it holds one.
    pub next: Option<u32>,
}

/// By sender, who holds its end. Contracts see the list.
#[derive(Drop)]
pub(crate) struct Holders {
    places: Vec<Option<Holding>>,
    // The senders whose end somebody holds.
    held: Index,
}

impl Model for Holders {
    ghost use Rattle.std.specs.Prelude.{List, Option, length, ◌*◌, ◌^◌, ◌<◌, ◌≤◌};
    ghost use Rattle.rq_groups.specs.declared.places.Holding.{Holding};
    ghost use Rattle.rq_groups.specs.Chains.{AreHolders};

    ghost Value = { List (Option Holding) };

    ghost view = { λ h. h.places.items };

    ghost invariant = { λ h. (length h.places.items ≤ 64 * length h.held) × (length h.places.items < 2 ^ 32)
        × AreHolders h.held h.places.items };
}

impl Holders {
    /// Nobody holds an end, of as many senders.
    ///
    /// # Errors
    /// `NoMemory`.
    pub(crate) fn new(alloc: Global, senders: u32) -> Result<Holders, NoMemory>
        ensures { IfOk result (λ holders. holders ≡ replicate senders None) }
    {
        let held = Index::new(alloc, senders)?;
        match vec![in alloc; None; senders as usize] {
            Ok(places) => Ok(Holders { places, held }),
            Err(_) => Err(NoMemory),
        }
    }

    /// How many ends have a place.
    pub(crate) fn len(&self) -> u32
        ensures { result ≡ length self.now }
    {
        self.places.len() as u32
    }

    /// Who holds the sender's end.
    pub(crate) fn of(&self, sender: u32) -> Option<Holding>
        ensures { result ≡ held_at self.now sender }
    {
        self.places.get(sender as usize).copied().unwrap_or(None)
    }

    /// Has this one hold the sender's end.
    pub(crate) fn put(&mut self, sender: u32, holding: Holding)
        requires { sender < length self.old }
        ensures { self.new ≡ slice_set self.old sender (Some holding) }
    {
        self.places[sender as usize] = Some(holding);
        self.held.put(sender as usize, true);
    }

    /// Has nobody hold the sender's end. Answers the one that its holder took before it.
    pub(crate) fn vacate(&mut self, sender: u32) -> Option<u32>
        ensures vacant { self.new ≡ slice_set self.old sender None }
        ensures next { result ≡ next_of (held_at self.old sender) }
    {
        let place = sender as usize;
        if place >= self.places.len() {
            return None;
        }
        match self.places[place] {
            Some(holding) => {
                self.places[place] = None;
                self.held.put(place, false);
                holding.next
            }
            None => None,
        }
    }

    /// The senders whose end somebody holds.
    pub(crate) fn held(&self) -> &Index
        ensures { AreHolders result.now self.now }
    {
        &self.held
    }
}
