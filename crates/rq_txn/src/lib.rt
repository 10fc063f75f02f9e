//! The transactions that have not ended.
#![tactic(auto)]

ghost use Rattle.std.specs.Prelude.{◌≡◌, ◌<◌, ◌≤◌, IsSome, OnOk, vec_capacity, vec_len};

use rq_level::{PageSet, SlotWrite};
use rq_model::limits::TRANSACTION_LIMIT;
use rq_model::refusal::NoMemory;
use rq_model::txn::{Lsn, Txn};
use slab::Slab;
use std::alloc::Global;
use std::marker::Model;
use table::{Place, key_of, place_of};
use tally::Tally;

mod counts;
mod table;
mod tally;
mod told;

pub use told::ToldDeed;

/// An operation that is finished and not undone.
#[derive(Drop)]
pub struct Finished {
    /// The LSN of its OpEnd.
    pub lsn: Lsn,
    /// Its number.
    pub number: u64,
    /// What its OpEnd says was done.
    pub deed: ToldDeed,
}

impl Finished {
    ghost use Rattle.std.specs.Prelude.{◌≡◌, IfOk};

    /// A copy of it.
    ///
    /// # Errors
    /// `NoMemory`.
    pub fn copy(&self, alloc: Global) -> Result<Finished, NoMemory>
        ensures { IfOk result (λ done. done ≡ self.now) }
    {
        match self.deed.copy(alloc) {
            Ok(deed) => Ok(Finished {
                lsn: self.lsn,
                number: self.number,
                deed,
            }),
            Err(NoMemory) => Err(NoMemory),
        }
    }
}

/// What an operation under way is for.
#[derive(Drop)]
pub enum Aim {
    /// A deed.
    Doing(ToldDeed),
    /// To take back what the finished operation did whose OpEnd has this LSN.
    Undoing { lsn: Lsn, deed: ToldDeed },
}

impl Aim {
    ghost use Rattle.std.specs.Prelude.{◌≡◌};
    ghost use Rattle.rq_txn.specs.Rows.{deed_of};

    /// The deed that it is there to do or to take back.
    #[inline(always)]
    pub fn deed(&self) -> &ToldDeed
        ensures { result.now ≡ deed_of self.now }
    {
        match self {
            Aim::Doing(deed) => deed,
            Aim::Undoing { lsn: _, deed } => deed,
        }
    }

    // That deed, and no more of it.
    #[inline(always)]
    fn into_deed(self) -> ToldDeed
        ensures { result ≡ deed_of self }
    {
        match self {
            Aim::Doing(deed) => deed,
            Aim::Undoing { lsn: _, deed } => deed,
        }
    }
}

/// An operation under way.
#[derive(Drop)]
pub struct Operation {
    /// Its number, from 1.
    pub number: u64,
    /// Its slot writes, in order.
    pub writes: Vec<SlotWrite>,
    /// How many of them are made.
    pub made: usize,
    /// What it is for.
    pub aim: Aim,
    ghost numbered: { 1 ≤ number },
}

impl Operation {
    ghost use Rattle.std.specs.Prelude.{◌≡◌, MatchOption, None, Some};
    ghost use Rattle.std.specs.List.{slice_get};

    /// The slot write that it makes next; none where all are made.
    #[inline(always)]
    pub fn next_write(&self) -> Option<&SlotWrite>
        ensures { MatchOption result (slice_get self.now.writes.items self.now.made ≡ None)
            (λ write. slice_get self.now.writes.items self.now.made ≡ Some write.now) }
    {
        self.writes.get(self.made)
    }
}

/// A transaction that has not ended. While it has an operation under way there is room for one more that is
/// finished.
#[derive(Drop)]
pub struct Transaction {
    /// Its number.
    pub txn: Txn,
    /// Whether it is aborting.
    pub aborting: bool,
    /// Its operations that are finished and not undone, in order.
    pub finished: Vec<Finished>,
    /// The greatest number of its operations, 0 where it has none.
    pub number: u64,
    /// Its operation under way, if there is one.
    pub under_way: Option<Operation>,
    ghost incarnation: { 1 ≤ txn.incarnation },
    ghost count: { 1 ≤ txn.count },
    ghost room: { IsSome under_way → vec_len finished < vec_capacity finished },
}

impl Transaction {
    ghost use Rattle.std.specs.Prelude.{◌≡◌, ◌<◌, [], IfSome, IsSome, None, OnErr, OnOk, Some, length};
    ghost use Rattle.rq_txn.specs.Rows.{row_aborting, row_ended, row_of, row_started, row_stepped, row_taken_back, under_of};
    ghost use Rattle.rq_txn.specs.Tallies.{HasRoom, IsCounted, Latches, Moves};

    // The operation is under way, in place of one that was.
    #[inline(always)]
    fn start(&mut self, operation: Operation, tally: &mut Tally) -> Result<(), NoMemory>
        requires counted { IsCounted (row_of self.old).under tally.old }
        requires room { HasRoom tally.old }
        ensures ok { OnOk result (row_of self.new ≡ row_started (under_of operation) (row_of self.old)) }
        ensures moved { OnOk result (Moves (row_of self.old).under (Some (under_of operation)) tally.old tally.new) }
        ensures err { OnErr result (row_of self.new ≡ row_of self.old) }
        ensures same { OnErr result (Latches [] tally.old tally.new) }
    {
        make_room(&mut self.finished)?;
        tally.reserve(&operation.writes)?;
        tally.add(&operation.writes);
        self.number = operation.number;
        tally.release(self.under_way.replace(operation));
        Ok(())
    }

    // One more write of the operation under way is made.
    fn step(&mut self)
        requires { IfSome self.old.under_way (λ operation. operation.made < length operation.writes.items) }
        ensures { row_of self.new ≡ row_stepped (row_of self.old) }
    {
        if let Some(operation) = &mut self.under_way {
            operation.made += 1;
        }
    }

    // The operation under way is finished, and its end has this LSN.
    #[inline(always)]
    fn finish(&mut self, lsn: Lsn, tally: &mut Tally)
        requires busy { IsSome self.old.under_way }
        requires counted { IsCounted (row_of self.old).under tally.old }
        ensures row { row_of self.new ≡ row_ended lsn (row_of self.old) }
        ensures moved { Moves (row_of self.old).under None tally.old tally.new }
    {
        if let Some(operation) = self.under_way.take() {
            let Operation {
                number,
                writes,
                made: _,
                aim,
            } = operation;
            tally.end(writes);
            let deed = aim.into_deed();
            self.finished.push(Finished { lsn, number, deed }).unwrap();
        }
    }

    // It is aborting.
    fn abort(&mut self)
        ensures { row_of self.new ≡ row_aborting (row_of self.old) }
    {
        self.aborting = true;
    }

    // It is no more, nor is its operation under way.
    #[inline(always)]
    fn end(self, tally: &mut Tally)
        requires { IsCounted (row_of self).under tally.old }
        ensures { Moves (row_of self).under None tally.old tally.new }
    {
        tally.release(self.under_way);
    }

    // What it did last is undone, and nothing is under way.
    fn undo(&mut self, tally: &mut Tally)
        requires { IsCounted (row_of self.old).under tally.old }
        ensures row { row_of self.new ≡ row_taken_back (row_of self.old) }
        ensures moved { Moves (row_of self.old).under None tally.old tally.new }
    {
        let _ = self.finished.pop();
        tally.release(self.under_way.take());
    }
}

// Takes the memory for one more. The first takes that of the second too, so that the inverse of a transaction's one operation
// finds its room.
fn make_room(finished: &mut Vec<Finished>) -> Result<(), NoMemory>
    ensures items { finished.new.items ≡ finished.old.items }
    ensures room { OnOk result (vec_len finished.new < vec_capacity finished.new) }
    ensures kept { vec_len finished.old < vec_capacity finished.old → vec_len finished.new < vec_capacity finished.new }
{
    let taken = if finished.is_empty() {
        finished.try_reserve_exact(2)
    } else {
        finished.try_reserve(1)
    };
    match taken {
        Ok(()) => Ok(()),
        Err(_) => Err(NoMemory),
    }
}

/// The transactions that have not ended. Contracts see their rows, the newest first.
#[derive(Drop)]
pub struct Transactions {
    alloc: Global,
    rows: Slab<Transaction>,
    // Where they stand, in the order of their begins.
    places: Vec<Place>,
    // Their operations under way, counted.
    tally: Tally,
}

impl Model for Transactions {
    ghost use Rattle.std.specs.Prelude.{List, reverse};
    ghost use Rattle.rq_txn.specs.Rows.{Row};

    ghost Value = { List Row };

    ghost use Rattle.rq_txn.specs.Places.{IsKeptBy, rows_in};

    ghost view = { λ t. reverse (rows_in t.rows t.places.items) };

    ghost invariant = { λ t. IsKeptBy t.rows t.places.items t.tally };
}

impl Transactions {
    ghost use Rattle.std.specs.Prelude.{◌≡◌, ℕ, ◌<◌, ◌≤◌, [], ◌∷◌, IfSome, IsSome, MatchOption, OnErr, OnOk, length, nat_eq, nat_lt, not, reverse, slice_index_or};
    ghost use Rattle.rq_level.specs.Given.{has_page};
    ghost use Rattle.rq_model.specs.Vocabulary.{In, last};
    ghost use Rattle.rq_txn.specs.Rows.{AreDistinct, Row, any_under, change_row, finished_of, found_row, fresh_row, latched_in, row_aborting, row_ended, row_of, row_started, row_stepped, row_taken_back, under_of, without_row};

    /// No transaction.
    pub fn new(alloc: Global) -> Self
        ensures { result ≡ [] }
    {
        Transactions {
            alloc,
            rows: Slab::new(alloc),
            places: Vec::new(alloc),
            tally: Tally::new(alloc),
        }
    }

    /// Whether there are as many as there may be.
    pub fn is_full(&self) -> bool
        ensures { result ≡ not (nat_lt (length self.now) 4096) }
    {
        self.places.len() >= TRANSACTION_LIMIT
    }

    /// Whether there is none.
    pub fn is_empty(&self) -> bool
        ensures { result ≡ nat_eq (length self.now) 0 }
    {
        self.places.len() == 0
    }

    /// Adds a transaction that has done nothing, whose count is greater than those of the others.
    ///
    /// # Errors
    /// `NoMemory`: nothing changed.
    pub fn begin(&mut self, txn: Txn) -> Result<(), NoMemory>
        requires incarnation { 1 ≤ txn.incarnation }
        requires count { 1 ≤ txn.count }
        requires rising { (row : Row) → In row self.old → row.txn.count < txn.count }
        ensures ok { OnOk result (self.new ≡ fresh_row txn ∷ self.old) }
        ensures err { OnErr result (self.new ≡ self.old) }
    {
        if self.places.try_reserve(1).is_err() || self.rows.reserve(1).is_err() {
            return Err(NoMemory);
        }
        let key = self.rows.insert_reserved(Transaction {
            txn,
            aborting: false,
            finished: Vec::new(self.alloc),
            number: 0,
            under_way: None,
        });
        let count = txn.count;
        self.places.push(Place { count, key }).unwrap();
        Ok(())
    }

    /// How the transaction of this number stands, if it has not ended.
    pub fn state(&self, txn: Txn) -> Option<&Transaction>
        ensures found { MatchOption result (found_row txn self.now ≡ None)
            (λ row. found_row txn self.now ≡ Some (row_of row.now)) }
        ensures named { IfSome result (λ row. row.now.txn ≡ txn) }
        ensures incarnation { IfSome result (λ row. 1 ≤ row.now.txn.incarnation) }
        ensures count { IfSome result (λ row. 1 ≤ row.now.txn.count) }
        ensures numbered { IfSome result (λ row. IfSome row.now.under_way (λ operation. 1 ≤ operation.number)) }
        ensures distinct { AreDistinct self.now }
    {
        match key_of(&self.rows, &self.places, txn) {
            Some(key) => Some(&self.rows[key]),
            None => None,
        }
    }

    /// The operations of a transaction that are finished and not undone: none where it has ended.
    pub fn finished(&self, txn: Txn) -> &[Finished]
        ensures { result.now ≡ finished_of (found_row txn self.now) }
    {
        match self.state(txn) {
            Some(row) => &row.finished,
            None => &[],
        }
    }

    /// What the transaction did last and has not undone: none where nothing is left to undo, or it has ended.
    #[inline(always)]
    pub fn next_undo(&self, txn: Txn) -> Option<&Finished>
        ensures { MatchOption result (last (finished_of (found_row txn self.now)) ≡ None)
            (λ done. last (finished_of (found_row txn self.now)) ≡ Some done.now) }
    {
        self.finished(txn).last()
    }

    /// A vector for the writes of the next operation. It may have room for them.
    pub fn spare(&mut self) -> Vec<SlotWrite>
        ensures { self.new ≡ self.old }
    {
        self.tally.spare(self.alloc)
    }

    /// Puts an operation of the transaction under way, with room for its end.
    ///
    /// # Errors
    /// `NoMemory`: nothing changed.
    #[inline(always)]
    pub fn start(&mut self, txn: Txn, operation: Operation) -> Result<(), NoMemory>
        ensures ok { OnOk result (self.new ≡ change_row txn (row_started (under_of operation)) self.old) }
        ensures err { OnErr result (self.new ≡ self.old) }
    {
        let Some(key) = key_of(&self.rows, &self.places, txn) else {
            return Ok(());
        };
        self.rows[key].start(operation, &mut self.tally)
    }

    /// One more write of the transaction's operation under way is made.
    pub fn step(&mut self, txn: Txn)
        requires { IfSome (found_row txn self.old) (λ row.
            IfSome row.under (λ under. under.made < length under.writes)) }
        ensures { self.new ≡ change_row txn row_stepped self.old }
    {
        if let Some(key) = key_of(&self.rows, &self.places, txn) {
            self.rows[key].step();
        }
    }

    /// The transaction's operation under way is finished, and its end has this LSN.
    #[inline(always)]
    pub fn note(&mut self, txn: Txn, lsn: Lsn)
        requires { IfSome (found_row txn self.old) (λ row. IsSome row.under) }
        ensures { self.new ≡ change_row txn (row_ended lsn) self.old }
    {
        if let Some(key) = key_of(&self.rows, &self.places, txn) {
            self.rows[key].finish(lsn, &mut self.tally);
        }
    }

    /// The transaction is aborting.
    pub fn start_abort(&mut self, txn: Txn)
        ensures { self.new ≡ change_row txn row_aborting self.old }
    {
        if let Some(key) = key_of(&self.rows, &self.places, txn) {
            self.rows[key].abort();
        }
    }

    /// What the transaction finished last is undone, and its operation that undid it is no longer under way.
    pub fn undo(&mut self, txn: Txn)
        ensures { self.new ≡ change_row txn row_taken_back self.old }
    {
        if let Some(key) = key_of(&self.rows, &self.places, txn) {
            self.rows[key].undo(&mut self.tally);
        }
    }

    /// Takes the transaction out.
    #[inline(always)]
    pub fn end(&mut self, txn: Txn)
        ensures { self.new ≡ without_row txn self.old }
    {
        if let Some(place) = place_of(&self.rows, &self.places, txn) {
            let key = self.places.remove(place).key;
            self.rows.remove(key).end(&mut self.tally);
        }
    }

    /// Whether some transaction has an operation under way.
    pub fn any_under_way(&self) -> bool
        ensures { result ≡ any_under self.now }
    {
        self.tally.any()
    }

    /// Whether some operation under way has latched the page: it is that of one of its writes, made or not.
    pub fn has_latched(&self, page: u64) -> bool
        ensures { result ≡ latched_in self.now page }
    {
        self.tally.has_latched(page)
    }

    /// The pages that operations under way have latched.
    pub fn latched(&self) -> &PageSet
        ensures { (p : ℕ) → has_page p result.now.pages ≡ latched_in self.now p }
    {
        self.tally.latched()
    }

    /// How many there are.
    pub fn len(&self) -> usize
        ensures { result ≡ length self.now }
    {
        self.places.len()
    }

    /// The transaction at a place, in the order of the begins.
    pub fn at(&self, place: usize) -> &Transaction
        requires { place < length self.now }
        ensures { (d : Row) → slice_index_or (reverse self.now) place d ≡ row_of result.now }
    {
        &self.rows[self.places[place].key]
    }
}
