//! Pages that an operation has fixed in their frames.
ghost use Rattle.std.specs.Prelude.{◌≡◌, ◌≢◌, ◌↔◌, ◌-◌, ◌^◌, ◌<◌, ◌≤◌, ℕ, List, length, IfErr, IfNone, IfSome, IsOk, IsTrue, OnErr, OnOk, Some, false, slice_set, true};
ghost use Rattle.rq_disk.specs.Device.PageAsk.{Writes};
ghost use Rattle.rq_page.specs.Sizes.{page_count};
ghost use Rattle.rq_pool.specs.Fetching.{HasFailed};
ghost use Rattle.rq_pool.specs.Fixing.{AreHadTo, AreHeld, AreOnWay, AreSetTo, IsFull, IsHad, IsBrought, IsHeldStill, IsLoose, IsSetIn, NotBrought, NotBroughtIn};
ghost use Rattle.rq_pool.specs.Held.{IsFixed, IsFramed, fixed_at, page_at};
ghost use Rattle.rq_pool.specs.KeptUp.{IsForced, IsKeptUp, IsStill};
ghost use Rattle.rq_pool.specs.Pooled.{image_at, is_changed};
ghost use Rattle.rq_pool.specs.Want.{AreFramed, AreOfStore, CannotBeHad, NoneFixed, NotFixed, StayFixed, among};

use crate::Pages;
use crate::frames::{find_loose, hold, put};
use crate::table::{place_of, set_place};
use rq_disk::PageDevice;
use rq_model::refusal::Refusal;
use rq_model::txn::Lsn;

impl<P: PageDevice> Pages<P> {
    /// Has pages stand in frames and fixes them there; one may be named more than once. Others may give way, which are written out
    /// where they have a change. Nothing is read or written where each of them stands in a frame.
    ///
    /// # Errors
    /// `PoolFull`, only where pages in no frame are more than the frames that may give way. These are not fixed, have none of the
    /// pages, and have a page whose LSN is at most `forced`. There it is this, or what a device did: `DiskWrite`, `DiskRead`;
    /// `Damaged`, where the device has lied. None of the pages is fixed then.
    pub fn fix_all(&mut self, pages: &[u32], forced: Lsn) -> Result<(), Refusal>
        requires of_store { AreOfStore self.old.sizes pages.now }
        requires free { NoneFixed pages.now self.old.frames }
        ensures fixed { OnOk result ((q : ℕ) → among pages.now q ≡ true → IsFixed self.new.frames q) }
        ensures had { OnOk result (CannotBeHad self.old forced pages.now → ⊥) }
        ensures refused { IfErr result (λ e. NotFixed P.PageDevice forced pages.now e self.old self.new) }
        ensures counted { OnOk result (P.faults self.new.device ≡ P.faults self.old.device) }
        ensures left { OnErr result (NoneFixed pages.now self.new.frames) }
        ensures stay { StayFixed pages.now self.old.frames self.new.frames }
        ensures count { length self.new.frames ≡ length self.old.frames }
        ensures stood { AreFramed self.old.frames pages.now → IsOk result × IsHeldStill self.old self.new }
        ensures others { (p : ℕ) → IsFixed self.old.frames p → image_at self.new.images p ≡ image_at self.old.images p }
        ensures kept { IsKeptUp P.PageDevice forced self.old self.new }
    {
        self.hold_all(pages, true);
        match self.bring_all(pages, forced) {
            Ok(()) => Ok(()),
            Err(refusal) => {
                self.let_all(pages);
                Err(refusal)
            }
        }
    }

    /// Has a page stand in a frame. It is called where no page is fixed and the log is forced up to each page's LSN. So another
    /// gives way, which is written out where it has a change.
    ///
    /// # Errors
    /// What a device did: `DiskWrite`, `DiskRead`; `Damaged`, where the device has lied.
    pub fn bring_in(&mut self, number: u32) -> Result<(), Refusal>
        requires low { 1 ≤ number }
        requires high { number < page_count self.old.sizes }
        requires loose { (q : ℕ) → 1 ≤ q → IsFixed self.old.frames q → ⊥ }
        requires more { 1 < length self.old.frames }
        ensures framed { OnOk result (IsFramed self.new.frames number) }
        ensures stood { IsFramed self.old.frames number → IsOk result × (self.new ≡ self.old) }
        ensures refused { IfErr result (λ e. NotBroughtIn P.PageDevice number e self.old self.new) }
        ensures counted { OnOk result (P.faults self.new.device ≡ P.faults self.old.device) }
        ensures loose { (q : ℕ) → 1 ≤ q → IsFixed self.new.frames q → ⊥ }
        ensures count { length self.new.frames ≡ length self.old.frames }
        ensures others { (p : ℕ) → p ≢ number → image_at self.new.images p ≡ image_at self.old.images p }
        ensures kept { IsKeptUp P.PageDevice (2 ^ 64 - 1) self.old self.new }
    {
        match place_of(&self.entries, number) {
            Some(_place) => Ok(()),
            None => self.exchange(number),
        }
    }

    // Has a page that stands in no frame stand in one.
    fn exchange(&mut self, number: u32) -> Result<(), Refusal>
        requires low { 1 ≤ number }
        requires high { number < page_count self.old.sizes }
        requires outside { IsFramed self.old.frames number → ⊥ }
        requires loose { (q : ℕ) → 1 ≤ q → IsFixed self.old.frames q → ⊥ }
        requires more { 1 < length self.old.frames }
        ensures framed { OnOk result (IsFramed self.new.frames number) }
        ensures refused { IfErr result (λ e. NotBroughtIn P.PageDevice number e self.old self.new) }
        ensures counted { OnOk result (P.faults self.new.device ≡ P.faults self.old.device) }
        ensures loose { (q : ℕ) → 1 ≤ q → IsFixed self.new.frames q → ⊥ }
        ensures count { length self.new.frames ≡ length self.old.frames }
        ensures others { (p : ℕ) → p ≢ number → image_at self.new.images p ≡ image_at self.old.images p }
        ensures kept { IsKeptUp P.PageDevice (2 ^ 64 - 1) self.old self.new }
    {
        let forced = self.lsn_at_hand();
        match self.replace(number, forced) {
            Ok(()) => {
                self.hold_page(number, false);
                Ok(())
            }
            Err(refusal) => Err(refusal),
        }
    }

    // The LSN of the page in the frame that gives way next, where none is fixed.
    fn lsn_at_hand(&self) -> Lsn
        requires loose { (q : ℕ) → 1 ≤ q → IsFixed self.now.frames q → ⊥ }
        requires more { 1 < length self.now.frames }
        ensures { (at : ℕ) × IsLoose self.now.images result self.now.frames at }
    {
        let mut place = self.hand as usize;
        if place == 0 || place >= self.frames.len() {
            place = 1;
        }
        self.frames[place].page.lsn()
    }

    /// Whether a page stands in a frame.
    pub fn stands(&self, number: u32) -> bool
        requires { number < page_count self.now.sizes }
        ensures { IsTrue result ↔ IsFramed self.now.frames number }
    {
        place_of(&self.entries, number).is_some()
    }

    /// Lets go of pages that were fixed.
    pub fn let_all(&mut self, pages: &[u32])
        requires of_store { AreOfStore self.old.sizes pages.now }
        ensures free { NoneFixed pages.now self.new.frames }
        ensures stay { StayFixed pages.now self.old.frames self.new.frames }
        ensures count { length self.new.frames ≡ length self.old.frames }
        ensures still { IsStill self.old self.new }
    {
        self.hold_all(pages, false);
    }

    // Fixes those of these pages that stand in frames, or lets go of them.
    fn hold_all(&mut self, pages: &[u32], fixed: bool)
        requires of_store { AreOfStore self.old.sizes pages.now }
        ensures { AreSetTo fixed self.old self.new pages.now (length pages.now) }
    {
        for place in 0..pages.len() {
            self.hold_page(pages[place], fixed);
        }
    }

    // Has a page be fixed in its frame, or not, where it stands in one.
    fn hold_page(&mut self, number: u32, fixed: bool)
        requires low { 1 ≤ number }
        requires high { number < page_count self.old.sizes }
        ensures frames { IsSetIn fixed self.old.frames number self.new.frames }
        ensures still { IsStill self.old self.new }
    {
        match place_of(&self.entries, number) {
            Some(place) => hold(&mut self.frames, place, fixed),
            None => {}
        }
    }

    // Has these pages stand in frames and fixes them there, where those that stand in some are fixed.
    fn bring_all(&mut self, pages: &[u32], forced: Lsn) -> Result<(), Refusal>
        requires of_store { AreOfStore self.old.sizes pages.now }
        requires held { AreHeld pages.now self.old.frames }
        ensures had { OnOk result (AreHadTo P.PageDevice forced self.old self.new pages.now (length pages.now)) }
        ensures refused { IfErr result (λ e. NotFixed P.PageDevice forced pages.now e self.old self.new) }
        ensures way { AreOnWay P.PageDevice forced self.old self.new pages.now }
        ensures stood { AreFramed self.old.frames pages.now → IsOk result × (self.new ≡ self.old) }
    {
        for place in 0..pages.len() {
            match self.bring(pages[place], forced) {
                Ok(()) => {}
                Err(refusal) => return Err(refusal),
            }
        }
        Ok(())
    }

    // Has a page stand in a frame, and fixes it there where it stands in none.
    fn bring(&mut self, number: u32, forced: Lsn) -> Result<(), Refusal>
        requires low { 1 ≤ number }
        requires high { number < page_count self.old.sizes }
        ensures had { OnOk result (IsHad forced self.old number self.new) }
        ensures counted { OnOk result (P.faults self.new.device ≡ P.faults self.old.device) }
        ensures refused { IfErr result (λ e. NotBrought P.PageDevice forced number e self.old self.new) }
        ensures left { OnErr result (self.new.frames ≡ self.old.frames) }
        ensures others { (p : ℕ) → p ≢ number → image_at self.new.images p ≡ image_at self.old.images p }
        ensures kept { IsKeptUp P.PageDevice forced self.old self.new }
    {
        match place_of(&self.entries, number) {
            Some(_place) => Ok(()),
            None => self.replace(number, forced),
        }
    }

    // Has a page that stands in no frame take the place of one that may give way, and fixes it there. That one is written first
    // where it has a change; at most two device calls.
    fn replace(&mut self, number: u32, forced: Lsn) -> Result<(), Refusal>
        requires low { 1 ≤ number }
        requires high { number < page_count self.old.sizes }
        requires outside { IsFramed self.old.frames number → ⊥ }
        ensures brought { OnOk result (IsBrought self.old.images forced self.old.frames number self.new.frames) }
        ensures counted { OnOk result (P.faults self.new.device ≡ P.faults self.old.device) }
        ensures refused { IfErr result (λ e. NotBrought P.PageDevice forced number e self.old self.new) }
        ensures left { OnErr result (self.new.frames ≡ self.old.frames) }
        ensures others { (p : ℕ) → p ≢ number → image_at self.new.images p ≡ image_at self.old.images p }
        ensures kept { IsKeptUp P.PageDevice forced self.old self.new }
    {
        match self.loose(forced) {
            Some(place) => {
                self.write_out(place, forced)?;
                match self.fetch(number) {
                    Ok(()) => {
                        self.seat(place, number);
                        Ok(())
                    }
                    Err(refusal) => Err(refusal),
                }
            }
            None => Err(Refusal::PoolFull),
        }
    }

    // A frame whose page may give way.
    fn loose(&self, forced: Lsn) -> Option<u32>
        ensures some { IfSome result (λ at. IsLoose self.now.images forced self.now.frames at) }
        ensures none { IfNone result ((at : ℕ) → IsLoose self.now.images forced self.now.frames at → ⊥) }
    {
        find_loose(&self.frames, forced, self.hand)
    }

    // Writes the page in a frame, whose LSN is forced, where it has a change.
    pub(crate) fn write_out(&mut self, place: u32, forced: Lsn) -> Result<(), Refusal>
        requires { IsLoose self.old.images forced self.old.frames place }
        ensures clean { OnOk result (is_changed self.new.changed (page_at self.old.frames place) ≡ false) }
        ensures counted { OnOk result (P.faults self.new.device ≡ P.faults self.old.device) }
        ensures refused { IfErr result (λ e. (e ≡ Refusal.DiskWrite) × ((page : ℕ) × (image : List ℕ)
            × IsForced P.PageDevice forced self.new page image
            × HasFailed P.PageDevice (Writes page image) self.old.device self.new.device)) }
        ensures images { self.new.images ≡ self.old.images }
        ensures frames { (self.new.frames ≡ self.old.frames) × (self.new.apart ≡ self.old.apart) }
        ensures sizes { self.new.sizes ≡ self.old.sizes }
        ensures kept { IsKeptUp P.PageDevice forced self.old self.new }
    {
        let number = self.frames[place as usize].number;
        match self.write_back(number, forced) {
            Ok(_) => Ok(()),
            Err(_) => Err(Refusal::DiskWrite),
        }
    }

    // Puts the page that was read apart into a frame whose page has no change, and fixes it there.
    fn seat(&mut self, place: u32, number: u32)
        requires within { place < length self.old.frames }
        requires free { fixed_at self.old.frames place ≡ false }
        requires clean { is_changed self.old.changed (page_at self.old.frames place) ≡ false }
        requires apart { self.old.apart ≡ Some number }
        ensures frames { self.new.frames ≡ slice_set self.old.frames place (record { page = number; fixed = true }) }
        ensures images { self.new.images ≡ self.old.images }
        ensures changed { self.new.changed ≡ self.old.changed }
        ensures sizes { self.new.sizes ≡ self.old.sizes }
        ensures device { self.new.device ≡ self.old.device }
    {
        let gone = self.frames[place as usize].number;
        set_place(&mut self.entries, gone, None);
        put(&mut self.frames, place, number, &self.spare);
        set_place(&mut self.entries, number, Some(place));
        self.apart = None;
        self.hand = place + 1;
    }
}
