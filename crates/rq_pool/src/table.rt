//! The table of pages: of each its image, as contracts see it, its LSN, and the frame in which it stands.
ghost use Rattle.std.specs.Prelude.{◌≡◌, ◌<◌, IfSome, length, slice_set};
ghost use Rattle.rq_page.specs.Pages.{lsn_of};
ghost use Rattle.rq_pool.specs.Frames.{changed_of, images_of, place_at, places_of};
ghost use Rattle.rq_pool.specs.Pooled.{image_at, is_changed};

use crate::Entry;
use rq_model::txn::Lsn;
use rq_page::page::Page;
use std::marker::Model;
use std::snapshot::Snapshot;

/// An LSN in two halves of four bytes, so that an entry of the table takes twelve.
#[derive(Drop)]
pub struct HalvedLsn {
    high: u32,
    low: u32,
}

impl Model for HalvedLsn {
    ghost use Rattle.std.specs.Prelude.{ℕ, ◌+◌, ◌*◌};

    ghost Value = { ℕ };

    ghost view = { λ h. h.high * 4294967296 + h.low };
}

impl HalvedLsn {
    /// The halves of an LSN.
    pub fn new(lsn: Lsn) -> HalvedLsn
        ensures { result ≡ lsn }
    {
        HalvedLsn {
            high: (lsn / 4_294_967_296) as u32,
            low: (lsn % 4_294_967_296) as u32,
        }
    }

    /// The LSN.
    #[inline(always)]
    pub fn lsn(&self) -> Lsn
        ensures { result ≡ self.now }
    {
        self.high as u64 * 4_294_967_296 + self.low as u64
    }
}

/// The frame in which a page stands, or none, and whether the page was changed, in four bytes.
#[derive(Drop)]
pub struct Seat {
    // Twice the frame's number counted from 1 on, or 0 where there is none; and 1 more where the page was changed.
    code: u32,
}

impl Model for Seat {
    ghost use Rattle.rq_pool.specs.Places.{Placed, placed_by};

    ghost Value = { Placed };

    ghost view = { λ s. placed_by s.code };
}

impl Seat {
    /// Of a page that stands in this frame, or in none.
    pub fn new(frame: Option<u32>, changed: bool) -> Seat
        requires { IfSome frame (λ i. i < 2147483647) }
        ensures { result ≡ record { frame = frame; changed = changed } }
    {
        let behind = match frame {
            Some(number) => number + 1,
            None => 0,
        };
        Seat {
            code: behind * 2 + if changed { 1 } else { 0 },
        }
    }

    /// The frame, if there is one.
    #[inline(always)]
    pub fn frame(&self) -> Option<u32>
        ensures { result ≡ self.now.frame }
    {
        if self.code < 2 {
            None
        } else {
            Some(self.code / 2 - 1)
        }
    }

    /// Has the page count as changed, or not.
    pub fn mark(&mut self, changed: bool)
        ensures { self.new ≡ record self.old { changed = changed } }
    {
        self.code = self.code - self.code % 2 + if changed { 1 } else { 0 };
    }

    /// Whether the page was changed.
    #[inline(always)]
    pub fn changed(&self) -> bool
        ensures { result ≡ self.now.changed }
    {
        self.code % 2 == 1
    }
}

/// The frame in which a page stands; none where it stands in none.
#[inline(always)]
pub(crate) fn place_of(entries: &[Entry], number: u32) -> Option<u32>
    requires { number < length entries.now }
    ensures { result ≡ place_at (places_of entries.now) number }
{
    let entry = &entries[number as usize];
    entry.seat.frame()
}

/// The LSN of a page.
pub(crate) fn lsn_of_page(entries: &[Entry], number: u32) -> Lsn
    requires { number < length entries.now }
    ensures { result ≡ lsn_of (image_at (images_of entries.now) number) }
{
    entries[number as usize].lsn.lsn()
}

/// Whether a page was changed since it was read or written.
pub(crate) fn was_changed(entries: &[Entry], number: u32) -> bool
    requires { number < length entries.now }
    ensures { result ≡ is_changed (changed_of entries.now) number }
{
    let entry = &entries[number as usize];
    entry.seat.changed()
}

/// Has a page count as changed, or not.
pub(crate) fn mark(entries: &mut Vec<Entry>, number: u32, changed: bool)
    requires { number < length entries.old.items }
    ensures images { images_of entries.new.items ≡ images_of entries.old.items }
    ensures changed { changed_of entries.new.items ≡ slice_set (changed_of entries.old.items) number changed }
    ensures places { places_of entries.new.items ≡ places_of entries.old.items }
    ensures count { length entries.new.items ≡ length entries.old.items }
{
    let entry = &mut entries[number as usize];
    entry.seat.mark(changed);
}

/// Has a page stand in a frame, or in none.
pub(crate) fn set_place(entries: &mut Vec<Entry>, number: u32, place: Option<u32>)
    requires number { number < length entries.old.items }
    requires place { IfSome place (λ i. i < 2147483647) }
    ensures images { images_of entries.new.items ≡ images_of entries.old.items }
    ensures changed { changed_of entries.new.items ≡ changed_of entries.old.items }
    ensures places { places_of entries.new.items ≡ slice_set (places_of entries.old.items) number place }
    ensures count { length entries.new.items ≡ length entries.old.items }
{
    let entry = &mut entries[number as usize];
    entry.seat = Seat::new(place, entry.seat.changed());
}

/// Has this be the image of a page. Of its bytes the LSN alone is kept.
pub(crate) fn set_image(entries: &mut Vec<Entry>, number: u32, page: &Page)
    requires { number < length entries.old.items }
    ensures images { images_of entries.new.items ≡ slice_set (images_of entries.old.items) number page.now }
    ensures changed { changed_of entries.new.items ≡ changed_of entries.old.items }
    ensures places { places_of entries.new.items ≡ places_of entries.old.items }
    ensures count { length entries.new.items ≡ length entries.old.items }
{
    let entry = &mut entries[number as usize];
    entry.image = Snapshot::of(page);
    entry.lsn = HalvedLsn::new(page.lsn());
}
