//! The frames.
ghost use Rattle.std.specs.Prelude.{◌≡◌, ◌≢◌, ◌/◌, ◌%◌, ◌<◌, ◌≤◌, ◌↔◌, ℕ, IfNone, IfSome, IsTrue, true, false, length, slice_set};
ghost use Rattle.rq_page.specs.Sizes.{Sizes};
ghost use Rattle.rq_page.specs.Pages.{IsWritten, lsn_of};
ghost use Rattle.rq_page.specs.Formatted.{IsHeaderOf};
ghost use Rattle.rq_level.specs.Meaning.{AppliesOnce, IsRedo, redo_of};
ghost use Rattle.rq_pool.specs.Held.{fixed_at, page_at};
ghost use Rattle.rq_pool.specs.Frames.{bytes_at, frames_of, pages_of};

use crate::Frame;
use rq_level::{Level, Levels};
use rq_model::record::{Record, Slot};
use rq_model::txn::Lsn;
use rq_page::page::Page;

/// Writes a slot of the page in a frame, by the record of this LSN.
pub(crate) fn write_slot(frames: &mut Vec<Frame>, place: u32, slot: u8, image: &Slot, lsn: Lsn)
    requires place { place < length frames.old.items }
    requires low { 1 ≤ slot }
    requires high { slot ≤ 15 }
    ensures frames { frames_of frames.new.items ≡ frames_of frames.old.items }
    ensures page { IsWritten (bytes_at (pages_of frames.old.items) place)
        (bytes_at (pages_of frames.new.items) place) slot image.now lsn }
    ensures header { (z : Sizes) (p : ℕ) → IsHeaderOf z p (bytes_at (pages_of frames.old.items) place)
        → IsHeaderOf z p (bytes_at (pages_of frames.new.items) place) }
    ensures pages { pages_of frames.new.items ≡ slice_set (pages_of frames.old.items) place
        (bytes_at (pages_of frames.new.items) place) }
    ensures count { length frames.new.items ≡ length frames.old.items }
{
    let frame = &mut frames[place as usize];
    frame.page.set_slot(slot, image, lsn);
}

/// Has the level of single slots apply a record to the page in a frame, where the page is older, and answers whether it did.
pub(crate) fn redo_frame<B: Level>(
    frames: &mut Vec<Frame>,
    levels: &mut Levels<B>,
    place: u32,
    lsn: Lsn,
    record: &Record,
) -> bool
    requires place { place < length frames.old.items }
    requires level { 0 < length levels.old }
    requires redo { IsRedo (redo_of «record».now) }
    ensures kept { levels.new ≡ levels.old }
    ensures frames { frames_of frames.new.items ≡ frames_of frames.old.items }
    ensures page { AppliesOnce (redo_of «record».now) (bytes_at (pages_of frames.old.items) place) lsn result
        (bytes_at (pages_of frames.new.items) place) }
    ensures pages { pages_of frames.new.items ≡ slice_set (pages_of frames.old.items) place
        (bytes_at (pages_of frames.new.items) place) }
    ensures same { result ≡ false → frames.new.items ≡ frames.old.items }
    ensures count { length frames.new.items ≡ length frames.old.items }
{
    let frame = &mut frames[place as usize];
    levels.redo(0, &mut frame.page, lsn, record)
}

/// Has the page in a frame be fixed there, or not.
pub(crate) fn hold(frames: &mut Vec<Frame>, place: u32, fixed: bool)
    requires { place < length frames.old.items }
    ensures frames { frames_of frames.new.items ≡ slice_set (frames_of frames.old.items) place (record {
      page = page_at (frames_of frames.old.items) place;
      fixed = fixed;
    }) }
    ensures pages { pages_of frames.new.items ≡ pages_of frames.old.items }
    ensures count { length frames.new.items ≡ length frames.old.items }
{
    let frame = &mut frames[place as usize];
    frame.fixed = fixed;
}

/// Puts a page into a frame and fixes it there.
pub(crate) fn put(frames: &mut Vec<Frame>, place: u32, number: u32, page: &Page)
    requires { place < length frames.old.items }
    ensures frames { frames_of frames.new.items ≡ slice_set (frames_of frames.old.items) place (record {
      page = number;
      fixed = true;
    }) }
    ensures pages { pages_of frames.new.items ≡ slice_set (pages_of frames.old.items) place page.now }
    ensures count { length frames.new.items ≡ length frames.old.items }
{
    let frame = &mut frames[place as usize];
    frame.number = number;
    frame.fixed = true;
    frame.page = Page::from_image(page.image());
}

/// A frame whose page may give way; the search begins at a place, and goes over all.
pub(crate) fn find_loose(frames: &[Frame], forced: Lsn, from: u32) -> Option<u32>
    requires { length frames.now < 4294967296 }
    ensures within { IfSome result (λ i. i < length frames.now) }
    ensures free { IfSome result (λ i. fixed_at (frames_of frames.now) i ≡ false) }
    ensures forced { IfSome result (λ i. lsn_of (bytes_at (pages_of frames.now) i) ≤ forced) }
    ensures none { IfNone result ((i : ℕ) → i < length frames.now → fixed_at (frames_of frames.now) i ≡ false
        → forced < lsn_of (bytes_at (pages_of frames.now) i)) }
{
    let count = frames.len() as u32;
    let middle = if from < count { from } else { 0 };
    match next_loose(frames, forced, middle, count) {
        Some(place) => Some(place),
        None => next_loose(frames, forced, 0, middle),
    }
}

// The first frame from one place on, up to another, whose page may give way: nobody has fixed it, and its LSN is forced.
fn next_loose(frames: &[Frame], forced: Lsn, from: u32, to: u32) -> Option<u32>
    requires { to ≤ length frames.now }
    ensures within { IfSome result (λ i. i < length frames.now) }
    ensures free { IfSome result (λ i. fixed_at (frames_of frames.now) i ≡ false) }
    ensures forced { IfSome result (λ i. lsn_of (bytes_at (pages_of frames.now) i) ≤ forced) }
    ensures none { IfNone result ((i : ℕ) → from ≤ i → i < to → fixed_at (frames_of frames.now) i ≡ false
        → forced < lsn_of (bytes_at (pages_of frames.now) i)) }
{
    for place in from..to {
        if may_give_way(frames, forced, place) {
            return Some(place);
        }
    }
    None
}

// Whether the page in a frame may give way.
fn may_give_way(frames: &[Frame], forced: Lsn, place: u32) -> bool
    requires { place < length frames.now }
    ensures { IsTrue result ↔ ((fixed_at (frames_of frames.now) place ≡ false)
        × (lsn_of (bytes_at (pages_of frames.now) place) ≤ forced)) }
{
    let frame = &frames[place as usize];
    !frame.fixed && frame.page.lsn() <= forced
}
