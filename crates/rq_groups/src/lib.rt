//! Who holds which ends of groups, how many messages of each wait, what each sender has sent, and how each client was marked.
#![tactic(auto)]

ghost use Rattle.std.specs.Prelude.{◌≡◌, ◌+◌, ◌≤◌, [], ◌∷◌, ℕ, List, not, true, false, IfOk, IfSome, IfNone, OnErr};
ghost use Rattle.rq_model.specs.Vocabulary.{client_group};
ghost use Rattle.rq_groups.specs.Ends.{AreApart, IsTail, first_of, has_held, held_by, is_free_for, released, with_held};
ghost use Rattle.rq_groups.specs.Sides.{IsNewest, holds_end, is_free_end, with_end, without_newest};

mod end_table;
mod heads;
mod places;
mod sent;
mod waiting;

use end_table::EndTable;
use rq_model::limits::TRANSACTION_LIMIT;
use rq_model::refusal::NoMemory;
use rq_model::txn::Txn;
pub use sent::{LastTag, Sent};
use std::alloc::Global;
use std::marker::Model;
pub use waiting::Waiting;

/// An end that a transaction holds.
#[derive(Clone, Copy, PartialEq, Eq)]
pub struct Held {
    /// The transaction that holds it.
    pub txn: Txn,
    /// The group that it is of: a sender is its own number. In a table of ends it is the place.
    pub sender: u32,
}

/// One of the two ends of a sender's group, or the sending end of a client's.
#[derive(Clone, Copy, PartialEq, Eq)]
pub enum End {
    /// The end that messages are put in at, or the group is closed at.
    Sending(u32),
    /// The end that messages are taken out at.
    Receiving(u32),
    /// The end that marks of a client are put in at.
    Marking(u32),
}

/// The ends that transactions hold. Contracts see the lists of them, the newest first.
#[derive(Drop)]
pub struct Ends {
    // Those of senders, and behind them those of clients.
    sending: EndTable,
    receiving: EndTable,
    senders: u32,
}

impl Model for Ends {
    ghost use Rattle.std.specs.Prelude.{map, ◌<◌, ◌^◌};
    ghost use Rattle.rq_groups.specs.Ends.{HeldEnds, as_group};

    ghost Value = { HeldEnds };

    ghost view = { λ e. record {
      sending = map (as_group e.senders) e.sending;
      receiving = e.receiving;
    } };

    ghost invariant = { λ e. e.senders < 2 ^ 32 };
}

impl Ends {
    /// No end is held, of as many senders and clients. Takes all memory that ends of theirs will need.
    ///
    /// # Errors
    /// `NoMemory`, also where there are 2^32 of them and more.
    pub fn new(alloc: Global, senders: u32, clients: u32) -> Result<Ends, NoMemory>
        ensures sending { IfOk result (λ ends. ends.sending ≡ []) }
        ensures receiving { IfOk result (λ ends. ends.receiving ≡ []) }
    {
        let Some(groups) = senders.checked_add(clients) else {
            return Err(NoMemory);
        };
        let sending = EndTable::new(alloc, groups, TRANSACTION_LIMIT.min(groups as usize))?;
        let receiving = EndTable::new(alloc, senders, TRANSACTION_LIMIT.min(senders as usize))?;
        Ok(Ends {
            sending,
            receiving,
            senders,
        })
    }

    /// Whether no other transaction holds the sender's sending end.
    pub fn may_send(&self, txn: Txn, sender: u32) -> bool
        ensures { result ≡ is_free_for txn sender self.now.sending }
    {
        sender >= self.senders || self.sending.is_free(txn, sender)
    }

    /// Whether no other transaction holds the client's end.
    pub fn may_mark(&self, txn: Txn, client: u32) -> bool
        ensures { result ≡ is_free_for txn (client_group client) self.now.sending }
    {
        match client_place(self.senders, self.sending.places(), client) {
            Some(place) => self.sending.is_free(txn, place),
            None => true,
        }
    }

    /// Whether no other transaction holds the sender's receiving end.
    pub fn may_receive(&self, txn: Txn, sender: u32) -> bool
        ensures { result ≡ is_free_for txn sender self.now.receiving }
    {
        self.receiving.is_free(txn, sender)
    }

    /// The sender whose receiving end the transaction took last, of those that it holds.
    pub fn newest_received(&self, txn: Txn) -> Option<u32>
        ensures newest { result ≡ first_of (held_by txn self.now.receiving) }
        ensures once { AreApart (held_by txn self.now.receiving) }
        ensures own { (s : ℕ) → has_held txn s self.now.receiving ≡ true
            → is_free_for txn s self.now.receiving ≡ true }
    {
        self.receiving.newest(txn)
    }

    /// Of the transaction that holds this sender's receiving end, the sender whose end it took before; none where this was
    /// its first.
    pub fn received_before(&self, sender: u32) -> Option<u32>
        ensures { (txn : Txn) (older : List ℕ) → IsTail (held_by txn self.now.receiving) (sender ∷ older)
            → result ≡ first_of older }
    {
        self.receiving.before(sender)
    }

    /// Gives the sender's sending end, that no other transaction holds, to this one, and answers whether it did not hold
    /// it before.
    ///
    /// # Errors
    /// As `take`.
    pub fn take_send(&mut self, txn: Txn, sender: u32) -> Result<bool, NoMemory>
        requires free { is_free_for txn sender self.old.sending ≡ true }
        ensures taken { IfOk result (λ _. self.new ≡ record self.old
            { sending = with_held txn sender self.old.sending }) }
        ensures newly { IfOk result (λ new. new ≡ not (has_held txn sender self.old.sending)) }
        ensures same { OnErr result (self.new ≡ self.old) }
        ensures own { OnErr result (has_held txn sender self.old.sending ≡ false) }
    {
        if sender >= self.senders {
            return Err(NoMemory);
        }
        self.sending.take(txn, sender)
    }

    /// Gives the client's end, that no other transaction holds, to this one, and answers whether it did not hold it
    /// before.
    ///
    /// # Errors
    /// As `take`.
    pub fn take_client(&mut self, txn: Txn, client: u32) -> Result<bool, NoMemory>
        requires free { is_free_for txn (client_group client) self.old.sending ≡ true }
        ensures taken { IfOk result (λ _. self.new ≡ record self.old
            { sending = with_held txn (client_group client) self.old.sending }) }
        ensures newly { IfOk result (λ new. new ≡ not (has_held txn (client_group client) self.old.sending)) }
        ensures same { OnErr result (self.new ≡ self.old) }
        ensures own { OnErr result (has_held txn (client_group client) self.old.sending ≡ false) }
    {
        match client_place(self.senders, self.sending.places(), client) {
            Some(place) => self.sending.take(txn, place),
            None => Err(NoMemory),
        }
    }

    /// Gives the sender's receiving end, that no other transaction holds, to this one, and answers whether it did not
    /// hold it before.
    ///
    /// # Errors
    /// As `take`.
    pub fn take_receive(&mut self, txn: Txn, sender: u32) -> Result<bool, NoMemory>
        requires free { is_free_for txn sender self.old.receiving ≡ true }
        ensures taken { IfOk result (λ _. self.new ≡ record self.old
            { receiving = with_held txn sender self.old.receiving }) }
        ensures newly { IfOk result (λ new. new ≡ not (has_held txn sender self.old.receiving)) }
        ensures same { OnErr result (self.new ≡ self.old) }
        ensures own { OnErr result (has_held txn sender self.old.receiving ≡ false) }
    {
        self.receiving.take(txn, sender)
    }

    /// Gives an end that no other transaction holds to this one, and answers whether it did not hold it before.
    ///
    /// # Errors
    /// `NoMemory`: nothing changed, and the transaction does not hold the end. So where the sender or client is none of those
    /// that there is room for, or more transactions hold ends than a store may have.
    pub fn take(&mut self, txn: Txn, end: End) -> Result<bool, NoMemory>
        requires free { is_free_end txn end self.old ≡ true }
        ensures taken { IfOk result (λ _. self.new ≡ with_end txn end self.old) }
        ensures newly { IfOk result (λ new. new ≡ not (holds_end txn end self.old)) }
        ensures same { OnErr result (self.new ≡ self.old) }
        ensures own { OnErr result (holds_end txn end self.old ≡ false) }
    {
        match end {
            End::Sending(sender) => self.take_send(txn, sender),
            End::Receiving(sender) => self.take_receive(txn, sender),
            End::Marking(client) => self.take_client(txn, client),
        }
    }

    /// Undoes the last `take`, which was of this end by this transaction, and whose answer says whether the end was
    /// newly held.
    pub fn undo_take(&mut self, txn: Txn, end: End, newly: bool)
        requires newest { newly ≡ true → IsNewest txn end self.old }
        ensures { self.new ≡ without_newest end newly self.old }
    {
        if !newly {
            return;
        }
        match end {
            End::Sending(sender) => self.sending.undo_take(txn, sender),
            End::Receiving(sender) => self.receiving.undo_take(txn, sender),
            End::Marking(client) => {
                if let Some(place) = client_place(self.senders, self.sending.places(), client) {
                    self.sending.undo_take(txn, place);
                }
            }
        }
    }

    /// Gives back every end that the transaction holds.
    pub fn release(&mut self, txn: Txn)
        ensures { self.new ≡ record {
          sending = released txn self.old.sending;
          receiving = released txn self.old.receiving;
        } }
    {
        self.sending.release(txn);
        self.receiving.release(txn);
    }
}

// The place of the client's end, where so many senders come first and so many ends have a place.
fn client_place(senders: u32, places: u32, client: u32) -> Option<u32>
    ensures some { IfSome result (λ place. place ≡ senders + client) }
    ensures none { IfNone result (places ≤ senders + client) }
{
    if client < places.saturating_sub(senders) {
        Some(senders + client)
    } else {
        None
    }
}
