//! Free cells, found without going through all of them.
ghost use Rattle.std.specs.Prelude.{◌≡◌, ◌<◌, ◌≤◌, ◌+◌, ◌*◌, ◌/◌, ℕ, IfSome, IfNone, None, Some, length, true, false};
ghost use Rattle.rq_page.specs.Sizes.{cell_at, cell_count};
ghost use Rattle.rq_level.specs.Given.{has_page};
ghost use Rattle.rq_level.specs.LevelState.{flag_at};
ghost use Rattle.rq_bitset.specs.Bits.{IsNextBit};
ghost use Rattle.rq_chain.specs.Cells.{Flags, IsLowestIn, NoneInPage, NoneToTakeIn, is_open, noted_flags, reserved_flags, takes};

use rq_bitset::BitSet;
use rq_level::PageSet;
use rq_model::refusal::NoMemory;
use rq_page::layout::{CELLS_LIMIT, Layout, SLOTS};
use std::alloc::Global;
use std::marker::Model;

/// Whether each cell is free, and whether a plan has chosen it, a bit for each, with an index by pages: one that is not
/// marked there has no cell to take. Contracts see the flags.
#[derive(Drop)]
pub(crate) struct FreeCells {
    free: BitSet,
    reserved: BitSet,
    pages: BitSet,
}

impl Model for FreeCells {
    ghost use Rattle.rq_chain.specs.Cells.{Flags, IsIndexed};

    ghost Value = { Flags };

    ghost view = { λ c. record { free = c.free; reserved = c.reserved } };

    ghost invariant = { λ c. IsIndexed (record { free = c.free; reserved = c.reserved }) c.pages };
}

impl FreeCells {
    /// No cell is free; there is room for the greatest store.
    ///
    /// # Errors
    /// `NoMemory`.
    pub fn new(alloc: Global) -> Result<FreeCells, NoMemory> {
        Ok(FreeCells {
            free: BitSet::new(alloc, CELLS_LIMIT * SLOTS)?,
            reserved: BitSet::new(alloc, CELLS_LIMIT * SLOTS)?,
            pages: BitSet::new(alloc, CELLS_LIMIT)?,
        })
    }

    /// There is room for the flags of the greatest store.
    pub fn shows_room(&self)
        ensures { (length self.now.free ≡ 983040) × (length self.now.reserved ≡ 983040) }
    {
        let _cells = self.free.has(0);
    }

    /// The lowest cell that is free.
    pub fn lowest_free(&self) -> Option<u32>
        ensures { IsNextBit self.now.free 0 result }
    {
        self.free.next(0)
    }

    /// A cell was read or written: whether it is free. No plan has chosen it then.
    pub fn note(&mut self, place: u32, free: bool)
        requires { place < 983040 }
        ensures { self.new ≡ noted_flags self.old place free }
    {
        self.free.put(place, free);
        self.reserved.put(place, false);
        if free {
            self.pages.put(place / SLOTS, true);
        }
    }

    /// A plan chooses the cell.
    pub fn reserve(&mut self, place: u32)
        ensures { self.new ≡ reserved_flags self.old place }
    {
        self.reserved.put(place, true);
    }

    /// The lowest cell of the store that may be taken and whose page is not latched.
    pub fn lowest(&mut self, layout: &Layout, latched: &PageSet) -> Option<u32>
        ensures kept { self.new ≡ self.old }
        ensures lowest { IfSome result (λ i. IsLowestIn layout.now self.old latched.now.pages 0 65536 i) }
        ensures below { IfSome result (λ i. i < cell_count layout.now) }
        ensures none { IfNone result (NoneToTakeIn layout.now self.old latched.now.pages 0 layout.now.cells) }
    {
        prove!(layout.cell_slots() <= CELLS_LIMIT * SLOTS);
        let mut from = 0;
        while let Some(page) = self.next_page(from) {
            if page >= layout.cells() {
                return None;
            }
            if let Some(place) = self.lowest_on(layout, latched, page) {
                return Some(place);
            }
            from = page + 1;
        }
        None
    }

    // The next page, from this one on, that may have a cell to take.
    fn next_page(&self, from: u32) -> Option<u32>
        ensures page { IfSome result (λ page. (from ≤ page) × (page < 65536)) }
        ensures passed { IfSome result (λ page. (i : ℕ) → from ≤ i / 15 → i / 15 < page
            → is_open self.now i ≡ false) }
        ensures none { IfNone result ((i : ℕ) → from ≤ i / 15 → is_open self.now i ≡ false) }
    {
        self.pages.next(from)
    }

    // The lowest cell of a page that may be taken, where it is not latched.
    fn lowest_on(&mut self, layout: &Layout, latched: &PageSet, page: u32) -> Option<u32>
        requires of_store { page < layout.now.cells }
        requires few { page < 65536 }
        ensures kept { self.new ≡ self.old }
        ensures lowest { IfSome result (λ i. (i / 15 ≡ page) × (takes layout.now self.old latched.now.pages i ≡ true)) }
        ensures others { IfSome result (λ i. (j : ℕ) → j / 15 ≡ page → j < i
            → takes layout.now self.old latched.now.pages j ≡ false) }
        ensures none { IfNone result ((i : ℕ) → i / 15 ≡ page → takes layout.now self.old latched.now.pages i ≡ false) }
    {
        if is_latched(layout, latched, page) {
            return None;
        }
        if let Some(place) = self.lowest_of_page(page) {
            return Some(place);
        }
        self.close_page(page);
        None
    }

    // A page has none.
    fn close_page(&mut self, page: u32)
        requires { NoneInPage self.old page }
        ensures { self.new ≡ self.old }
    {
        self.pages.put(page, false);
    }

    // The lowest cell of a page that may be taken.
    fn lowest_of_page(&self, page: u32) -> Option<u32>
        requires { page < 65536 }
        ensures open { IfSome result (λ i. (i / 15 ≡ page) × (is_open self.now i ≡ true)) }
        ensures others { IfSome result (λ i. (j : ℕ) → j / 15 ≡ page → j < i → is_open self.now j ≡ false) }
        ensures none { IfNone result (NoneInPage self.now page) }
    {
        let mut from = page * SLOTS;
        while let Some(place) = self.next_free(page, from) {
            if !self.reserved.has(place) {
                return Some(place);
            }
            from = place + 1;
        }
        None
    }

    // The next free cell of a page, from this place on, whether a plan has chosen it or not.
    fn next_free(&self, page: u32, from: u32) -> Option<u32>
        requires { page * 15 ≤ from }
        ensures free { IfSome result (λ i. (from ≤ i) × (i / 15 ≡ page) × (flag_at self.now.free i ≡ true)) }
        ensures bound { IfSome result (λ i. i < 983040) }
        ensures passed { IfSome result (λ i. (j : ℕ) → from ≤ j → j < i → is_open self.now j ≡ false) }
        ensures none { IfNone result ((j : ℕ) → j / 15 ≡ page → from ≤ j → is_open self.now j ≡ false) }
    {
        let place = self.free.next(from)?;
        if place / SLOTS == page {
            Some(place)
        } else {
            None
        }
    }
}

// Whether the page of these cells is latched.
fn is_latched(layout: &Layout, latched: &PageSet, page: u32) -> bool
    requires { page < layout.now.cells }
    ensures { (i : ℕ) → i / 15 ≡ page → has_page (cell_at layout.now i / 16) latched.now.pages ≡ result }
{
    latched.contains(1 + layout.directory() + page)
}
