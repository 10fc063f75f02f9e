//! How many committed messages of each sender wait to be taken.
ghost use Rattle.std.specs.Prelude.{◌≡◌, ◌+◌, ◌<◌, ◌≤◌, ◌^◌, ℕ, true, false, length, slice_set, IfOk, IfSome, IfNone};
ghost use Rattle.rq_groups.specs.Ends.{has_held, is_free_for, is_held};
ghost use Rattle.rq_groups.specs.Waiting.{waits, more_waiting, fewer_waiting};

use crate::Ends;
use rq_bitset::Index;
use rq_model::refusal::NoMemory;
use rq_model::txn::Txn;
use std::alloc::Global;
use std::marker::Model;

/// For each sender of a store, how many committed messages wait that nobody has taken. Contracts see the
/// list of these numbers, by sender.
#[derive(Drop)]
pub struct Waiting {
    counts: Vec<u64>,
    // The senders of which a message waits.
    index: Index,
}

impl Model for Waiting {
    ghost use Rattle.std.specs.Prelude.{ℕ, List, length, ◌*◌, ◌<◌, ◌≤◌, ◌^◌};
    ghost use Rattle.rq_bitset.specs.Flags.{AreFlags};

    ghost Value = { List ℕ };

    ghost view = { λ w. w.counts.items };

    ghost invariant = { λ w. (length w.counts.items < 2 ^ 32)
        × (length w.counts.items ≤ 64 * length w.index)
        × AreFlags w.index w.counts.items };
}

impl Waiting {
    /// No message waits, of as many senders.
    ///
    /// # Errors
    /// `NoMemory`.
    pub fn new(alloc: Global, senders: u32) -> Result<Waiting, NoMemory>
        ensures senders { IfOk result (λ waiting. length waiting ≡ senders) }
        ensures none { IfOk result (λ waiting. (s : ℕ) → waits waiting s ≡ 0) }
    {
        let index = Index::new(alloc, senders)?;
        match vec![in alloc; 0; senders as usize] {
            Ok(counts) => Ok(Waiting { counts, index }),
            Err(_) => Err(NoMemory),
        }
    }

    /// Of how many senders messages are counted.
    pub fn senders(&self) -> u32
        ensures { result ≡ length self.now }
    {
        self.counts.len() as u32
    }

    /// How many messages of a sender wait: none where it is no sender of the store.
    pub fn count(&self, sender: u32) -> u64
        ensures { result ≡ waits self.now sender }
    {
        self.counts.get(sender as usize).copied().unwrap_or(0)
    }

    /// Has so many messages more wait of a sender, as when its sends are committed. Nothing changes where it is no
    /// sender of the store.
    pub fn add(&mut self, sender: u32, count: u64)
        requires room { waits self.old sender + count < 2 ^ 64 }
        ensures { self.new ≡ more_waiting sender count self.old }
    {
        let place = sender as usize;
        if place < self.counts.len() {
            let waiting = self.counts[place] + count;
            self.set(place, waiting);
        }
    }

    /// Has one message less wait of a sender, as when it is taken. Nothing changes where none waits.
    pub fn take(&mut self, sender: u32)
        ensures { self.new ≡ fewer_waiting sender self.old }
    {
        let place = sender as usize;
        if place < self.counts.len() {
            let waiting = self.counts[place].saturating_sub(1);
            self.set(place, waiting);
        }
    }

    // Has so many messages of a sender wait.
    fn set(&mut self, place: usize, waiting: u64)
        requires { place < length self.old }
        ensures { self.new ≡ slice_set self.old place waiting }
    {
        self.counts[place] = waiting;
        self.index.put(place, waiting > 0);
    }

    /// The least sender at or after this one of which a message waits, and whose receiving end nobody holds. None where
    /// there is no such sender.
    pub fn next_free(&self, ends: &Ends, from: u32) -> Option<u32>
        ensures some { IfSome result (λ s. (from ≤ s) × (s < length self.now) × (1 ≤ waits self.now s)
            × (is_held s ends.now.receiving ≡ false) × ((t : ℕ) → from ≤ t → t < s
            → is_held t ends.now.receiving ≡ false → waits self.now t ≡ 0)) }
        ensures none { IfNone result ((t : ℕ) → from ≤ t → is_held t ends.now.receiving ≡ false
            → waits self.now t ≡ 0) }
        ensures few { length self.now < 2 ^ 32 }
    {
        let place = self.index.next_apart(ends.receiving.held(), from as usize)?;
        Some(place as u32)
    }

    /// A sender of which a message waits, and whose receiving end no other transaction holds; none where there
    /// is no such sender. (One whose end the transaction took last comes first, then one that nobody holds: no clause says
    /// so.)
    pub fn first_for(&self, ends: &Ends, txn: Txn) -> Option<u32>
        ensures some { IfSome result (λ s. (s < length self.now) × (1 ≤ waits self.now s)
            × (is_free_for txn s ends.now.receiving ≡ true)) }
        ensures none { IfNone result ((s : ℕ) → s < length self.now → is_free_for txn s ends.now.receiving ≡ true
            → waits self.now s ≡ 0) }
    {
        if let Some(sender) = ends.newest_received(txn) {
            if self.count(sender) > 0 {
                return Some(sender);
            }
        }
        match self.next_free(ends, 0) {
            Some(sender) => Some(sender),
            None => self.first_own(ends, txn),
        }
    }

    // A sender of which a message waits, and whose receiving end the transaction holds.
    fn first_own(&self, ends: &Ends, txn: Txn) -> Option<u32>
        ensures some { IfSome result (λ s. (s < length self.now) × (1 ≤ waits self.now s)
            × (has_held txn s ends.now.receiving ≡ true)) }
        ensures none { IfNone result ((s : ℕ) → has_held txn s ends.now.receiving ≡ true → waits self.now s ≡ 0) }
    {
        let mut next = ends.newest_received(txn);
        while let Some(sender) = next {
            if self.count(sender) > 0 {
                return Some(sender);
            }
            next = ends.received_before(sender);
        }
        None
    }
}
