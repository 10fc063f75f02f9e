//! What the operations under way come to.
ghost use Rattle.std.specs.Prelude.{◌≡◌, ℕ, ◌+◌, ◌^◌, ◌<◌, ◌≤◌, [], None, OnOk, length, nat_lt};
ghost use Rattle.rq_level.specs.Given.{has_page};
ghost use Rattle.rq_txn.specs.Rows.{under_way_of};
ghost use Rattle.rq_txn.specs.Tallies.{AreWithin, HasPlaces, HasRoom, IsCounted, IsMore, IsRaised, Latches, Moves, TakesPlace, latches_at, one_if, pages_of};

use crate::Operation;
use crate::counts::Counts;
use rq_level::{PageSet, SlotWrite};
use rq_model::refusal::NoMemory;
use std::alloc::Global;
use std::mem;

/// How many operations are under way, how many of them have latched each page, and which pages some have latched.
#[derive(Drop)]
pub struct Tally {
    operations: usize,
    latched: Counts,
    // A vector in which the writes of an operation stood.
    spare: Vec<SlotWrite>,
}

impl Tally {
    /// No operation.
    pub fn new(alloc: Global) -> Self
        ensures operations { result.operations ≡ 0 }
        ensures latched { result.latched.counts.items ≡ [] }
    {
        Tally {
            operations: 0,
            latched: Counts::new(alloc),
            spare: Vec::new(alloc),
        }
    }

    /// Whether some operation is under way.
    pub fn any(&self) -> bool
        ensures { result ≡ nat_lt 0 self.now.operations }
    {
        self.operations > 0
    }

    /// Whether some operation under way has latched the page.
    pub fn has_latched(&self, page: u64) -> bool
        ensures { result ≡ nat_lt 0 (latches_at self.now page) }
    {
        self.latched.at(page) > 0
    }

    /// The pages that operations under way have latched.
    pub fn latched(&self) -> &PageSet
        ensures { (p : ℕ) → has_page p result.now.pages ≡ nat_lt 0 (latches_at self.now p) }
    {
        self.latched.pages()
    }

    /// Takes the memory for an operation of these writes.
    ///
    /// # Errors
    /// `NoMemory`: nothing that is counted changed.
    pub fn reserve(&mut self, writes: &[SlotWrite]) -> Result<(), NoMemory>
        ensures within { OnOk result (AreWithin (length self.new.latched.counts.items) writes.now) }
        ensures free { OnOk result (HasPlaces (length writes.now) self.new) }
        ensures same { Latches [] self.old self.new }
    {
        self.latched.reserve(writes.len())?;
        for write in writes {
            self.latched.reserve_page(write.at.page())?;
        }
        Ok(())
    }

    /// One operation more is under way, whose writes these are.
    pub fn add(&mut self, writes: &[SlotWrite])
        requires within { AreWithin (length self.old.latched.counts.items) writes.now }
        requires free { HasPlaces (length writes.now) self.old }
        requires room { HasRoom self.old }
        ensures { IsMore (pages_of writes.now) self.old self.new }
    {
        self.latch(writes);
        self.operations += 1;
    }

    /// The operation is no longer under way, where there was one.
    #[inline(always)]
    pub fn release(&mut self, was: Option<Operation>)
        requires { IsCounted (under_way_of was) self.old }
        ensures { Moves (under_way_of was) None self.old self.new }
    {
        if let Some(operation) = was {
            self.end(operation.writes);
        }
    }

    /// An operation of these writes is no longer under way.
    #[inline(always)]
    pub fn end(&mut self, writes: Vec<SlotWrite>)
        requires some { 1 ≤ self.old.operations }
        requires latched { (p : ℕ) → one_if (has_page p (pages_of writes.items)) ≤ latches_at self.old p }
        ensures { IsMore (pages_of writes.items) self.new self.old }
    {
        self.unlatch(&writes);
        self.operations -= 1;
        self.spare = writes;
    }

    /// A vector for the writes of an operation. It may have room for them.
    pub fn spare(&mut self, alloc: Global) -> Vec<SlotWrite>
        ensures { Latches [] self.old self.new }
    {
        mem::replace(&mut self.spare, Vec::new(alloc))
    }

    // One operation more has latched the pages of these writes.
    fn latch(&mut self, writes: &[SlotWrite])
        requires within { AreWithin (length self.old.latched.counts.items) writes.now }
        requires free { HasPlaces (length writes.now) self.old }
        requires room { (p : ℕ) → latches_at self.old p + 1 < 2 ^ 64 }
        ensures { Latches (pages_of writes.now) self.old self.new }
    {
        for place in 0..writes.len() {
            let page = writes[place].at.page();
            if !any_on(&writes[place + 1..], page) {
                self.raise(page);
            }
        }
    }

    // One operation less has latched the pages of these writes.
    fn unlatch(&mut self, writes: &[SlotWrite])
        requires { (p : ℕ) → one_if (has_page p (pages_of writes.now)) ≤ latches_at self.old p }
        ensures { Latches (pages_of writes.now) self.new self.old }
    {
        for place in 0..writes.len() {
            let page = writes[place].at.page();
            if !any_on(&writes[place + 1..], page) {
                self.lower(page);
            }
        }
    }

    // One more of a page.
    fn raise(&mut self, page: u64)
        requires number { page < 2 ^ 32 }
        requires within { page < length self.old.latched.counts.items }
        requires free { HasPlaces 1 self.old }
        requires room { latches_at self.old page + 1 < 2 ^ 64 }
        ensures raised { IsRaised page self.old self.new }
        ensures used { TakesPlace self.old self.new }
    {
        self.latched.raise(page);
    }

    // One less of a page.
    fn lower(&mut self, page: u64)
        requires number { page < 2 ^ 32 }
        requires some { 1 ≤ latches_at self.old page }
        ensures { IsRaised page self.new self.old }
    {
        self.latched.lower(page);
    }
}

// Whether one of the writes is on the page.
fn any_on(writes: &[SlotWrite], page: u64) -> bool
    ensures { result ≡ has_page page (pages_of writes.now) }
{
    for write in writes {
        if write.at.page() == page {
            return true;
        }
    }
    false
}
