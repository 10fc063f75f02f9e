//! The pages of the store, in frames over their device.
#![tactic(auto)]

ghost use Rattle.std.specs.Prelude.{◌≡◌, ◌≢◌, ◌↔◌, ◌<◌, ◌≤◌, ◌+◌, ◌/◌, ◌%◌, ℕ, true, false, Err, Ok, IsSome, IsTrue, IfSome, IfNone, IfErr, IfOk, OnOk, length, min, replicate, slice_set};
ghost use Rattle.std.specs.Bool.{OnFalse};
ghost use Rattle.rq_page.specs.Sizes.{IsCellAddress, page_count, sender_count, client_count, client_slot_at, directory_at, place_of};
ghost use Rattle.rq_page.specs.Pages.{IsWritten, lsn_of};
ghost use Rattle.rq_page.specs.Slots.{Client, Free, Sender, held_in, IsSlotOf, IsCellOf, IsDirectoryOf};
ghost use Rattle.rq_views.specs.Log.{cell_in, put};
ghost use Rattle.rq_views.specs.Stored.{IsStoreSlot, slot_at, slots_in, is_used, count_used};
ghost use Rattle.rq_disk.specs.Device.{FailureIsCounted, Only};
ghost use Rattle.rq_disk.specs.Device.PageAsk.{Writes};
ghost use Rattle.rq_level.specs.Meaning.{AppliesOnce, redo_of};
ghost use Rattle.rq_pool.specs.Pooled.{IsPool, image_at, is_changed};
ghost use Rattle.rq_pool.specs.Indexed.{TellsClosed};

pub mod ahead;
mod fetching;
mod fixing;
pub mod formatting;
pub mod frame_count;
mod frames;
mod growing;
mod notes;
mod reading;
pub mod table;
mod writing;

use crate::ahead::Ahead;
use crate::frame_count::FrameCount;
use crate::frames::{redo_frame, write_slot};
use crate::notes::{note_cell, note_group};
use crate::reading::{read_frames, read_superblock};
use crate::table::{HalvedLsn, Seat, lsn_of_page, mark, set_image, was_changed};
use crate::writing::write;
use rq_bitset::Index;
use rq_disk::{PAGE, PageDevice};
use rq_level::{Level, Levels};
use rq_model::record::{Record, Slot};
use rq_model::refusal::Refusal;
use rq_model::txn::Lsn;
use rq_page::addr::Addr;
use rq_page::client::ClientSlot;
use rq_page::layout::Layout;
use rq_page::page::Page;
use std::alloc::Global;
use std::marker::Model;
use std::snapshot::Snapshot;

/// A page of the store, in the table of pages.
#[derive(Drop)]
pub struct Entry {
    /// Its image, as contracts alone see it.
    pub image: Snapshot<Page>,
    /// The LSN of its image.
    pub lsn: HalvedLsn,
    /// The frame in which it stands, and whether it was changed since it was read or written.
    pub seat: Seat,
    ghost stamp: { lsn ≡ lsn_of image.value },
}

/// A frame: a page in memory.
#[derive(Drop)]
pub struct Frame {
    /// The number of the page.
    pub number: u32,
    /// Whether an operation has fixed it.
    pub fixed: bool,
    /// The page.
    pub page: Page,
}

/// What was done for a page that was to be written.
#[derive(Clone, Copy, PartialEq, Eq)]
pub enum Written {
    /// It was written.
    Done,
    /// It has no change that was not written.
    Nothing,
}

/// The pages of a store. Contracts see the device, the sizes, and the images of all pages. Of each they see whether it was changed
/// since it was read or written. They see which page stands in each frame, whether it is fixed there, and which one was read apart
/// last. The superblock is fixed in its frame for good.
#[derive(Drop)]
pub struct Pages<P: PageDevice> {
    device: P,
    layout: Layout,
    // The table, by the numbers of pages.
    entries: Vec<Entry>,
    frames: Vec<Frame>,
    // The frame behind the one in which a page was put last. From there on another is looked for.
    hand: u32,
    // The page that stands apart, and its bytes.
    apart: Option<u32>,
    spare: Page,
    // The places of the free cells among the cells.
    free: Index,
    // The senders whose groups are closed.
    closed: Index,
}

impl<P: PageDevice> Model for Pages<P> {
    ghost use Rattle.rq_pool.specs.Pooled.{Pooled, AreOver};
    ghost use Rattle.rq_pool.specs.Frames.{AreTied, IsFirstFixed, MayBeApart, changed_of, frames_of, images_of, pages_of, places_of};
    ghost use Rattle.rq_pool.specs.Indexed.{IsIndex, closed_groups, free_cells};

    ghost Value = { Pooled P };

    ghost view = { λ p. record {
      device = p.device;
      sizes = p.layout;
      images = images_of p.entries.items;
      changed = changed_of p.entries.items;
      frames = frames_of p.frames.items;
      apart = p.apart;
    } };

    ghost invariant = { λ p. AreOver P.PageDevice p.device p.layout (images_of p.entries.items)
        (changed_of p.entries.items) × IsIndex (free_cells p.layout) p.layout (images_of p.entries.items) p.free
        × IsIndex (closed_groups p.layout) p.layout (images_of p.entries.items) p.closed
        × IsFirstFixed (frames_of p.frames.items)
        × AreTied (images_of p.entries.items) (changed_of p.entries.items) (places_of p.entries.items)
        (frames_of p.frames.items) (pages_of p.frames.items)
        × MayBeApart (images_of p.entries.items) (places_of p.entries.items) p.apart p.spare };
}

/// Pages that could not be had: why, and their device.
#[derive(Drop)]
pub struct RefusedPages<P> {
    /// Why.
    pub refusal: Refusal,
    /// Their device, which was only read.
    pub device: P,
}

impl<P: PageDevice + Drop> Pages<P> {
    ghost use Rattle.rq_pool.specs.Fetching.{AreAllFramed};
    ghost use Rattle.rq_pool.specs.Held.{IsFixed};
    ghost use Rattle.rq_pool.specs.Numbered.{AreNumbered};
    ghost use Rattle.rq_pool.specs.Reading.{ArePages, AreSeen, OnlyRead, StopsFor, device_of};

    /// Reads every page, and checks each as it is read: the superblock, then each page's header and slots. The first stand in so many
    /// frames beside that of the superblock, and the others in none. Answers, too, the pages whose number is greater than their LSN.
    ///
    /// # Errors
    /// `DiskRead`. `Damaged` with the number of the first page that is none of a store's. `NoMemory`, once the superblock has told the
    /// sizes.
    pub fn load(
        alloc: Global,
        mut device: P,
        frames: FrameCount,
    ) -> Result<(Pages<P>, Vec<Ahead>), RefusedPages<P>>
        ensures pages { IfOk result (λ read. ArePages read.0.sizes read.0.images) }
        ensures seen { IfOk result (λ read. P.honest read.0.device
            → AreSeen (P.seen device) read.0.images (page_count read.0.sizes)) }
        ensures changed { IfOk result (λ read. read.0.changed ≡ replicate (page_count read.0.sizes) false) }
        ensures framed { IfOk result (λ read. page_count read.0.sizes ≤ frames.count + 1 → AreAllFramed read.0) }
        ensures every { IfOk result (λ read. length read.0.frames ≡ min (page_count read.0.sizes) (frames.count + 1)) }
        ensures loose { IfOk result (λ read. (q : ℕ) → 1 ≤ q → IsFixed read.0.frames q → ⊥) }
        ensures numbers { IfOk result (λ read. AreNumbered read.0.sizes read.0.images read.1.items) }
        ensures stopped { IfErr result (λ stopped. StopsFor P.PageDevice stopped.refusal device stopped.device) }
        ensures cause { OnOk result (P.faults (device_of result) ≡ P.faults device) }
        ensures device { OnlyRead P.PageDevice device (device_of result) }
    {
        let (superblock, layout) = match read_superblock(&mut device) {
            Ok(first) => first,
            Err(refusal) => return Err(RefusedPages { refusal, device }),
        };
        match read_frames(alloc, &mut device, &layout, superblock, frames.count + 1) {
            Ok((entries, frames, free, closed, ahead)) => {
                let pages = Pages {
                    device,
                    layout,
                    entries,
                    frames,
                    hand: 0,
                    apart: None,
                    spare: Page::from_image(&[0; PAGE]),
                    free,
                    closed,
                };
                Ok((pages, ahead))
            }
            Err(refusal) => Err(RefusedPages { refusal, device }),
        }
    }

    /// The device, as it is.
    pub fn give_back(self) -> P
        ensures { result ≡ self.device }
    {
        let Pages {
            device,
            layout: _,
            entries: _,
            frames: _,
            hand: _,
            apart: _,
            spare: _,
            free: _,
            closed: _,
        } = self;
        device
    }
}

impl<P: PageDevice> Pages<P> {
    ghost use Rattle.rq_pool.specs.Writing.{AnswersWhen, DeviceAfter, HasChangeBeyond, IsRedoAt, IsUnwritten, MayHaveSynced, NoChangeBeyond, changed_after};
    ghost use Rattle.rq_pool.specs.Held.{IsFixed, IsFramed, StandOnce};
    ghost use Rattle.rq_pool.specs.Pooled.{AreOver};
    ghost use Rattle.rq_pool.specs.Fetching.{AreAllFramed, IsAtHand};
    ghost use Rattle.rq_pool.specs.Want.{CannotBeHad, OutnumberFrames};
    ghost use Rattle.std.specs.Prelude.{List};

    /// What is so of the pages of each store, for proofs: it runs no code. Where the device has been honest, each page
    /// that doesn't count as changed reads there as its image.
    pub fn shows_kept(&self)
        ensures { AreOver P.PageDevice self.now.device self.now.sizes self.now.images self.now.changed }
    {
        let _layout = self.layout;
    }

    /// Each page stands in one frame at most, and the superblock is fixed in its own. Pages cannot be had exactly where they and
    /// those that have to stay are more than the frames. For proofs: it runs no code.
    pub fn shows_frames(&self)
        ensures once { StandOnce self.now.frames }
        ensures superblock { IsFixed self.now.frames 0 }
        ensures counted { (forced : ℕ) (pages : List ℕ)
            → CannotBeHad self.now forced pages ↔ OutnumberFrames self.now forced pages }
    {
        let _layout = self.layout;
    }

    /// With as many frames as pages, each page stands in one. For proofs: it runs no code.
    pub fn shows_all(&self)
        ensures { page_count self.now.sizes ≤ length self.now.frames → AreAllFramed self.now }
    {
        let _layout = self.layout;
    }

    /// The layout of the store.
    pub fn layout(&self) -> Layout
        ensures sizes { result ≡ self.now.sizes }
        ensures pool { IsPool self.now.sizes self.now.images }
    {
        self.layout
    }

    /// The LSN of a page, which need not be at hand. Nothing is read.
    pub fn lsn(&self, number: u32) -> Lsn
        requires { number < page_count self.now.sizes }
        ensures { result ≡ lsn_of (image_at self.now.images number) }
    {
        let _layout = self.layout;
        lsn_of_page(&self.entries, number)
    }

    /// A page of the store that is at hand; none where the store has no such page.
    pub fn page(&self, number: u32) -> Option<&Page>
        requires { number < page_count self.now.sizes → IsAtHand self.now number }
        ensures known { IsSome result ↔ (number < page_count self.now.sizes) }
        ensures image { IfSome result (λ page. page.now ≡ image_at self.now.images number) }
    {
        if number >= self.layout().pages() {
            return None;
        }
        Some(self.at_hand(number))
    }

    /// What stands at an address of a page behind the first that is at hand; none where the store has no such slot.
    pub fn slot(&self, at: Addr) -> Option<&Slot>
        requires { IsStoreSlot self.now.sizes at → IsAtHand self.now (at / 16) }
        ensures known { IsSome result ↔ IsStoreSlot self.now.sizes at }
        ensures bytes { IfSome result (λ slot. slot.now ≡ slot_at self.now.images at) }
        ensures slot { IfSome result (λ slot. IsSlotOf self.now.sizes (at / 16) (at % 16) slot.now) }
    {
        let page = at.page();
        if page == 0 || page >= self.layout().pages() as u64 || at.slot() == 0 {
            return None;
        }
        Some(self.slot_at_hand(at))
    }

    /// Writes a slot of a page that stands in a frame, by the record of this LSN.
    pub fn set_slot(&mut self, at: Addr, image: &Slot, lsn: Lsn)
        requires place { IsStoreSlot self.old.sizes at }
        requires framed { IsFramed self.old.frames (at / 16) }
        requires image { IsSlotOf self.old.sizes (at / 16) (at % 16) image.now }
        ensures slots { (a : ℕ) → slots_in self.old.sizes self.new.images a
            ≡ put (slots_in self.old.sizes self.old.images) at (held_in self.old.sizes (at / 16) image.now) a }
        ensures page { IsWritten (image_at self.old.images (at / 16)) (image_at self.new.images (at / 16))
            (at % 16) image.now lsn }
        ensures others { (p : ℕ) → p ≢ at / 16 → image_at self.new.images p ≡ image_at self.old.images p }
        ensures changed { self.new.changed ≡ slice_set self.old.changed (at / 16) true }
        ensures sizes { self.new.sizes ≡ self.old.sizes }
        ensures device { self.new.device ≡ self.old.device }
        ensures frames { (self.new.frames ≡ self.old.frames) × (self.new.apart ≡ self.old.apart) }
        ensures pool { IsPool self.new.sizes self.new.images }
    {
        let _layout = self.layout();
        let number = at.page() as u32;
        let place = self.place(number);
        write_slot(&mut self.frames, place, at.slot(), image, lsn);
        let page = &self.frames[place as usize].page;
        set_image(&mut self.entries, number, page);
        mark(&mut self.entries, number, true);
        note_cell(&mut self.free, &self.layout, page, at);
        note_group(&mut self.closed, &self.layout, page, at);
    }

    /// Has the level of single slots apply a record to its page, which stands in a frame, where the page is older. The record
    /// writes the slot at this address. Whether it was applied.
    pub fn redo<B: Level>(
        &mut self,
        levels: &mut Levels<B>,
        at: Addr,
        lsn: Lsn,
        record: &Record,
    ) -> bool
        requires level { 0 < length levels.old }
        requires place { IsStoreSlot self.old.sizes at }
        requires framed { IsFramed self.old.frames (at / 16) }
        requires write { IsRedoAt self.old.sizes at (redo_of «record».now) }
        ensures kept { levels.new ≡ levels.old }
        ensures page { AppliesOnce (redo_of «record».now) (image_at self.old.images (at / 16)) lsn result
            (image_at self.new.images (at / 16)) }
        ensures others { (p : ℕ) → p ≢ at / 16 → image_at self.new.images p ≡ image_at self.old.images p }
        ensures changed { IsTrue result → self.new.changed ≡ slice_set self.old.changed (at / 16) true }
        ensures same { result ≡ false → self.new.changed ≡ self.old.changed }
        ensures sizes { self.new.sizes ≡ self.old.sizes }
        ensures device { self.new.device ≡ self.old.device }
        ensures frames { (self.new.frames ≡ self.old.frames) × (self.new.apart ≡ self.old.apart) }
    {
        let _layout = self.layout();
        let number = at.page() as u32;
        let place = self.place(number);
        let made = redo_frame(&mut self.frames, levels, place, lsn, record);
        if made {
            let page = &self.frames[place as usize].page;
            set_image(&mut self.entries, number, page);
            mark(&mut self.entries, number, true);
            note_cell(&mut self.free, &self.layout, page, at);
            note_group(&mut self.closed, &self.layout, page, at);
        }
        made
    }

    /// Writes a page to the device, where it has a change that was not written and the log is forced up to its
    /// LSN. What was written is durable only after a sync.
    ///
    /// # Errors
    /// `NotForced` where the page's LSN is over `forced`: nothing changed. `DiskWrite` where the device failed:
    /// the page still counts as changed.
    pub fn write_back(&mut self, page: u32, forced: Lsn) -> Result<Written, Refusal>
        ensures answer { AnswersWhen self.old page forced result }
        ensures changed { self.new.changed ≡ changed_after self.old.changed page result }
        ensures images { self.new.images ≡ self.old.images }
        ensures sizes { self.new.sizes ≡ self.old.sizes }
        ensures device { DeviceAfter P.PageDevice page
            (image_at self.old.images page) self.old.device self.new.device result }
        ensures frames { (self.new.frames ≡ self.old.frames) × (self.new.apart ≡ self.old.apart) }
        ensures excused { result ≡ Err Refusal.DiskWrite
            → P.excuse (Writes page (image_at self.old.images page)) self.old.device self.new.device }
    {
        if page >= self.layout.pages() || !was_changed(&self.entries, page) {
            return Ok(Written::Nothing);
        }
        self.shows_changed();
        let place = self.place(page);
        let frame = &self.frames[place as usize];
        if frame.page.lsn() > forced {
            return Err(Refusal::NotForced);
        }
        match write(&mut self.device, page, &frame.page) {
            Ok(()) => {
                mark(&mut self.entries, page, false);
                Ok(Written::Done)
            }
            Err(refusal) => Err(refusal),
        }
    }

    // Each page that was changed stands in a frame, for proofs: it runs no code.
    fn shows_changed(&self)
        ensures { (p : ℕ) → is_changed self.now.changed p ≡ true → IsFramed self.now.frames p }
    {
        let _layout = self.layout;
    }

    /// Whether some page behind the superblock has a change that was not written, by a record behind this LSN.
    pub fn has_change_beyond(&self, lsn: Lsn) -> bool
        ensures some { IsTrue result → HasChangeBeyond self.now lsn }
        ensures none { OnFalse result (NoChangeBeyond self.now lsn) }
    {
        for page in 1..self.layout.pages() {
            if self.is_beyond(page, lsn) {
                return true;
            }
        }
        false
    }

    // Whether the page has such a change.
    fn is_beyond(&self, page: u32, lsn: Lsn) -> bool
        requires { page < page_count self.now.sizes }
        ensures beyond { IsTrue result → IsUnwritten self.now page × (lsn < lsn_of (image_at self.now.images page)) }
        ensures within { OnFalse result (is_changed self.now.changed page ≡ true
            → lsn_of (image_at self.now.images page) ≤ lsn) }
    {
        self.shows_changed();
        was_changed(&self.entries, page) && self.at_hand(page).lsn() > lsn
    }

    /// Makes what was written to the device durable.
    ///
    /// # Errors
    /// `DiskWrite`: the device failed.
    #[tactic(auto, using(crate::proofs::Over::over_synced))]
    pub fn sync(&mut self) -> Result<(), Refusal>
        ensures same { self.new ≡ record self.old { device = self.new.device } }
        ensures durable { OnOk result ((p : ℕ) → Only (P.seen self.new.device p) (P.may_be self.new.device p)) }
        ensures device { MayHaveSynced P.PageDevice self.old.device self.new.device }
        ensures err { IfErr result (λ r. r ≡ Refusal.DiskWrite) }
        ensures cause { FailureIsCounted (P.faults self.old.device) (P.faults self.new.device) result }
    {
        match self.device.sync() {
            Ok(()) => Ok(()),
            Err(_) => Err(Refusal::DiskWrite),
        }
    }

    /// Whether a sender's group is closed, as its directory slot tells it. No page is read.
    pub fn is_closed(&self, sender: u32) -> bool
        requires { sender < sender_count self.now.sizes }
        ensures { TellsClosed self.now.sizes self.now.images sender result }
    {
        self.closed.has(sender as usize)
    }

    /// The free cell with the lowest address, from this place among the cells on; none where each of these is used.
    pub fn next_free(&self, from: u32) -> Option<Addr>
        ensures cell { IfSome result (λ a. IsCellAddress self.now.sizes a) }
        ensures free { IfSome result (λ a. slots_in self.now.sizes self.now.images a ≡ Free) }
        ensures from { IfSome result (λ a. from ≤ place_of self.now.sizes a) }
        ensures lowest { IfSome result (λ a. (b : ℕ) → IsCellAddress self.now.sizes b → from ≤ place_of self.now.sizes b
            → b < a → is_used (slots_in self.now.sizes self.now.images b) ≡ true) }
        ensures none { IfNone result ((b : ℕ) → IsCellAddress self.now.sizes b → from ≤ place_of self.now.sizes b
            → is_used (slots_in self.now.sizes self.now.images b) ≡ true) }
    {
        match self.free.next(from as usize) {
            Some(place) => Some(self.layout.cell_addr(place as u32)),
            None => None,
        }
    }

    /// How many cells are used.
    pub fn used_cells(&self) -> u32
        ensures { result ≡ count_used self.now.sizes (slots_in self.now.sizes self.now.images) }
    {
        let mut used = 0;
        let mut place = 0;
        while let Some(next) = self.free.next(place) {
            used += next - place;
            place = next + 1;
        }
        (used + (self.layout.cell_slots() as usize - place)) as u32
    }
}
