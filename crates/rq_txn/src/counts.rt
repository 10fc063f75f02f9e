//! How many have latched each page, and which pages some have latched.
ghost use Rattle.std.specs.Prelude.{◌≡◌, ℕ, ◌+◌, ◌-◌, ◌^◌, ◌<◌, ◌≤◌, [], OnOk, length, nat_lt, slice_index_or, slice_set};
ghost use Rattle.rq_level.specs.Given.{has_page};

use rq_level::PageSet;
use rq_model::refusal::NoMemory;
use std::alloc::Global;

/// A number for each page, and the set of the pages whose number is not 0.
#[derive(Drop)]
pub struct Counts {
    // By page: none behind the end.
    counts: Vec<usize>,
    pages: PageSet,
    ghost agree: { (p : ℕ) → has_page p pages.pages ≡ nat_lt 0 (slice_index_or counts.items p 0) },
}

impl Counts {
    /// 0 for each page.
    pub fn new(alloc: Global) -> Self
        ensures { result.counts.items ≡ [] }
    {
        Counts {
            counts: Vec::new(alloc),
            pages: PageSet::new(alloc),
        }
    }

    /// The number of a page.
    pub fn at(&self, page: u64) -> usize
        ensures { result ≡ slice_index_or self.now.counts.items page 0 }
    {
        self.counts.get(page as usize).copied().unwrap_or(0)
    }

    /// The pages whose number is not 0.
    pub fn pages(&self) -> &PageSet
        ensures { (p : ℕ) → has_page p result.now.pages ≡ nat_lt 0 (slice_index_or self.now.counts.items p 0) }
    {
        &self.pages
    }

    /// Takes the memory for so many pages more in the set.
    ///
    /// # Errors
    /// `NoMemory`: no number changed.
    pub fn reserve(&mut self, count: usize) -> Result<(), NoMemory>
        ensures counts { self.new.counts ≡ self.old.counts }
        ensures room { OnOk result (length self.new.pages.pages + count ≤ self.new.pages.room) }
    {
        self.pages.reserve(count)
    }

    /// Takes the memory for the number of a page.
    ///
    /// # Errors
    /// `NoMemory`: no number changed.
    pub fn reserve_page(&mut self, page: u64) -> Result<(), NoMemory>
        requires { page < 2 ^ 32 }
        ensures within { OnOk result (page < length self.new.counts.items) }
        ensures grown { length self.old.counts.items ≤ length self.new.counts.items }
        ensures counts { (p : ℕ) → slice_index_or self.new.counts.items p 0 ≡ slice_index_or self.old.counts.items p 0 }
        ensures pages { self.new.pages ≡ self.old.pages }
    {
        let pages = page as usize + 1;
        if self.counts.len() < pages && self.counts.resize(pages, 0).is_err() {
            return Err(NoMemory);
        }
        Ok(())
    }

    /// One more of a page.
    pub fn raise(&mut self, page: u64)
        requires number { page < 2 ^ 32 }
        requires within { page < length self.old.counts.items }
        requires room { length self.old.pages.pages < self.old.pages.room }
        requires fits { slice_index_or self.old.counts.items page 0 + 1 < 2 ^ 64 }
        ensures counts { self.new.counts.items
            ≡ slice_set self.old.counts.items page (slice_index_or self.old.counts.items page 0 + 1) }
        ensures pages { length self.new.pages.pages ≤ length self.old.pages.pages + 1 }
        ensures kept { self.old.pages.room ≤ self.new.pages.room }
    {
        if self.counts[page as usize] > 0 {
            self.counts[page as usize] += 1;
            return;
        }
        self.pages.put(page as u32);
        self.counts[page as usize] = 1;
    }

    /// One less of a page.
    pub fn lower(&mut self, page: u64)
        requires number { page < 2 ^ 32 }
        requires some { 1 ≤ slice_index_or self.old.counts.items page 0 }
        ensures { self.new.counts.items
            ≡ slice_set self.old.counts.items page (slice_index_or self.old.counts.items page 0 - 1) }
    {
        if self.counts[page as usize] > 1 {
            self.counts[page as usize] -= 1;
            return;
        }
        self.counts[page as usize] = 0;
        self.pages.remove(page as u32);
    }
}
