//! The ends of one side: all sending ends, or all receiving ends.
ghost use Rattle.std.specs.Prelude.{◌≡◌, ◌≤◌, ◌∷◌, [], ℕ, List, true, false, cond, IfOk, OnErr, drop, take, not};
ghost use Rattle.rq_groups.specs.Changes.{held_after};
ghost use Rattle.rq_groups.specs.Chains.{AreEmptied, IsChain};
ghost use Rattle.rq_groups.specs.Ends.{AreApart, IsTail, first_of, has_held, held_by, is_free_for, is_held, released, with_held};
ghost use Rattle.rq_bitset.specs.Flags.{flag_at};

use crate::Held;
use crate::heads::{self, Head};
use crate::places::{Holders, Holding};
use rq_bitset::Index;
use rq_bytes::GhostList;
use rq_model::refusal::NoMemory;
use rq_model::txn::Txn;
use std::alloc::Global;
use std::marker::Model;
use std::snapshot::Snapshot;

/// A change of what is held.
#[derive(Drop)]
pub(crate) enum Change {
    /// An end was taken that nobody held.
    Took(Held),
    /// A transaction gave back all its ends.
    Released(Txn),
    /// What was taken last was given back.
    Undid,
}

/// The ends of one side. Contracts see those that are held, the newest first. No call goes over all of them. The holder
/// of an end stands at the place of its sender, and each transaction's ends are a chain. Places behind those of senders may
/// be of other groups.
#[derive(Drop)]
pub(crate) struct EndTable {
    holders: Holders,
    // The transactions that hold one, each with the newest.
    heads: Vec<Head>,
    changes: Snapshot<GhostList<Change>>,
}

impl Model for EndTable {
    ghost use Rattle.std.specs.Prelude.{List};
    ghost use Rattle.rq_groups.specs.declared.Held.{Held};

    ghost Value = { List Held };

    ghost use Rattle.rq_groups.specs.Changes.{held_after};
    ghost use Rattle.rq_groups.specs.Chains.{IsEndTable};

    ghost view = { λ s. held_after s.changes.value };

    ghost invariant = { λ s. IsEndTable s.holders s.heads.items (held_after s.changes.value) };
}

impl EndTable {
    /// No end is held, of as many senders. All memory is taken that so many transactions need.
    ///
    /// # Errors
    /// `NoMemory`.
    pub(crate) fn new(
        alloc: Global,
        senders: u32,
        transactions: usize,
    ) -> Result<EndTable, NoMemory>
        ensures { IfOk result (λ side. side ≡ []) }
    {
        let holders = Holders::new(alloc, senders)?;
        match Vec::with_capacity(alloc, transactions) {
            Ok(heads) => Ok(EndTable {
                holders,
                heads,
                changes: GhostList::empty(),
            }),
            Err(_) => Err(NoMemory),
        }
    }

    /// Whether no other transaction holds the sender's end.
    pub(crate) fn is_free(&self, txn: Txn, sender: u32) -> bool
        ensures { result ≡ is_free_for txn sender self.now }
    {
        match self.holders.of(sender) {
            Some(holding) => holding.txn == txn,
            None => true,
        }
    }

    /// Gives the sender's end to the transaction, and answers whether it did not hold it before.
    ///
    /// # Errors
    /// `NoMemory`: nothing changed, and the transaction does not hold it. So for a sender that there is no place for.
    pub(crate) fn take(&mut self, txn: Txn, sender: u32) -> Result<bool, NoMemory>
        requires { is_free_for txn sender self.old ≡ true }
        ensures taken { IfOk result (λ _. self.new ≡ with_held txn sender self.old) }
        ensures newly { IfOk result (λ new. new ≡ not (has_held txn sender self.old)) }
        ensures same { OnErr result (self.new ≡ self.old) }
        ensures own { OnErr result (has_held txn sender self.old ≡ false) }
    {
        if self.holders.of(sender).is_some() {
            return Ok(false);
        }
        if sender >= self.holders.len() {
            return Err(NoMemory);
        }
        let next = heads::put(&mut self.heads, txn, sender)?;
        self.holders.put(sender, Holding { txn, next });
        GhostList::push(&mut self.changes, &Change::Took(Held { txn, sender }));
        Ok(true)
    }

    /// Gives back the end that was taken last.
    pub(crate) fn undo_take(&mut self, txn: Txn, sender: u32)
        requires { take 1 self.old ≡ record { txn = txn; sender = sender } ∷ [] }
        ensures { self.new ≡ drop 1 self.old }
    {
        let next = self.holders.vacate(sender);
        heads::turn_back(&mut self.heads, txn, next);
        GhostList::push(&mut self.changes, &Change::Undid);
    }

    /// Gives back every end that the transaction holds.
    pub(crate) fn release(&mut self, txn: Txn)
        ensures { self.new ≡ released txn self.old }
    {
        let newest = heads::remove(&mut self.heads, txn);
        empty_chain(&mut self.holders, newest);
        GhostList::push(&mut self.changes, &Change::Released(txn));
    }

    /// How many ends have a place. Nobody holds another.
    pub(crate) fn places(&self) -> u32
        ensures { (s : ℕ) → result ≤ s → is_held s self.now ≡ false }
    {
        self.holders.len()
    }

    /// The senders whose end somebody holds.
    pub(crate) fn held(&self) -> &Index
        ensures { (s : ℕ) → flag_at result.now s ≡ cond (is_held s self.now) 1 0 }
    {
        self.holders.held()
    }

    /// The sender whose end the transaction took last, of those that it holds.
    pub(crate) fn newest(&self, txn: Txn) -> Option<u32>
        ensures newest { result ≡ first_of (held_by txn self.now) }
        ensures once { AreApart (held_by txn self.now) }
        ensures own { (s : ℕ) → has_held txn s self.now ≡ true → is_free_for txn s self.now ≡ true }
    {
        heads::newest(&self.heads, txn)
    }

    /// Of the transaction that holds this sender's end, the sender whose end it took before; none where this was its first.
    pub(crate) fn before(&self, sender: u32) -> Option<u32>
        ensures { (txn : Txn) (older : List ℕ) → IsTail (held_by txn self.now) (sender ∷ older)
            → result ≡ first_of older }
    {
        match self.holders.of(sender) {
            Some(holding) => holding.next,
            None => None,
        }
    }
}

// Has nobody hold the ends of a chain.
fn empty_chain(holders: &mut Holders, newest: Option<u32>)
    ensures { (t : Txn) (chain : List ℕ) → IsChain holders.old t newest chain
        → AreEmptied holders.old holders.new chain [] }
{
    let mut next = newest;
    while let Some(sender) = next {
        next = holders.vacate(sender);
    }
}
