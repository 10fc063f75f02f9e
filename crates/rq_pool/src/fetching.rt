//! Pages that are at hand, in a frame or apart.
ghost use Rattle.std.specs.Prelude.{◌≡◌, ◌≢◌, ◌↔◌, ◌<◌, ◌≤◌, ◌/◌, ◌%◌, ℕ, Ok, IfOk, IsTrue, IfSome, OnOk, Some, false, length};
ghost use Rattle.rq_page.specs.Sizes.{IsCellAddress, client_count, client_slot_at, directory_at, page_count, sender_count};
ghost use Rattle.rq_page.specs.Slots.{Client, IsCellOf, IsDirectoryOf, IsSlotOf, Sender};
ghost use Rattle.rq_views.specs.Log.{cell_in};
ghost use Rattle.rq_views.specs.Stored.{IsStoreSlot, slot_at, slots_in};
ghost use Rattle.rq_pool.specs.Fetching.{Fetches, IsAtHand};
ghost use Rattle.rq_pool.specs.Held.{IsFramed, page_at};
ghost use Rattle.rq_pool.specs.Pooled.{image_at};

use crate::Pages;
use crate::reading::read_again;
use crate::table::{lsn_of_page, place_of, set_image};
use rq_disk::PageDevice;
use rq_model::record::Slot;
use rq_model::refusal::Refusal;
use rq_page::addr::Addr;
use rq_page::cell::{Cell, CellSlot};
use rq_page::client::ClientSlot;
use rq_page::directory::{Directory, DirectorySlot};
use rq_page::page::Page;

impl<P: PageDevice> Pages<P> {
    /// Has a page be at hand, in a frame or apart. What stands in no frame is read.
    ///
    /// # Errors
    /// `DiskRead`. `Damaged`, where the device has lied: what it gave is no page of the store, or has another LSN, other free cells or
    /// closed groups.
    #[inline(always)]
    pub fn look(&mut self, number: u32) -> Result<(), Refusal>
        requires low { 1 ≤ number }
        requires high { number < page_count self.old.sizes }
        ensures { Fetches P.PageDevice number self.old result self.new }
    {
        match place_of(&self.entries, number) {
            Some(_place) => Ok(()),
            None => self.fetch(number),
        }
    }

    /// Has the page of a slot be at hand, as `look` does. Whether the store has such a slot; nothing happens where it has none.
    ///
    /// # Errors
    /// As of `look`.
    #[inline(always)]
    pub fn look_at(&mut self, at: Addr) -> Result<bool, Refusal>
        ensures stands { IsStoreSlot self.old.sizes at → Fetches P.PageDevice (at / 16) self.old result self.new }
        ensures known { IfOk result (λ stands. IsTrue stands ↔ IsStoreSlot self.old.sizes at) }
        ensures none { (IsStoreSlot self.old.sizes at → ⊥) → (result ≡ Ok false) × (self.new ≡ self.old) }
    {
        let page = at.page();
        if page == 0 || page >= self.layout().pages() as u64 || at.slot() == 0 {
            return Ok(false);
        }
        match self.look(page as u32) {
            Ok(()) => Ok(true),
            Err(refusal) => Err(refusal),
        }
    }

    /// What stands at an address whose page is at hand.
    #[inline(always)]
    pub fn slot_at_hand(&self, at: Addr) -> &Slot
        requires place { IsStoreSlot self.now.sizes at }
        requires hand { IsAtHand self.now (at / 16) }
        ensures bytes { result.now ≡ slot_at self.now.images at }
        ensures slot { IsSlotOf self.now.sizes (at / 16) (at % 16) result.now }
    {
        let _layout = self.layout;
        self.at_hand(at.page() as u32).slot(at.slot())
    }

    /// What the directory says of a sender, whose page is at hand or is read, as by `look`.
    ///
    /// # Errors
    /// As of `look`.
    pub fn read_group(&mut self, sender: u32) -> Result<Directory, Refusal>
        requires { sender < sender_count self.old.sizes }
        ensures held { IfOk result (λ d. slots_in self.new.sizes self.new.images (directory_at sender) ≡ Sender sender d) }
        ensures fits { IfOk result (λ d. IsDirectoryOf self.new.sizes sender (record { sender = sender; directory = d })) }
        ensures fetched { Fetches P.PageDevice (directory_at sender / 16) self.old result self.new }
    {
        let at = self.layout().directory_of(sender);
        match self.look(at.page() as u32) {
            Ok(()) => Ok(self.group_at_hand(sender)),
            Err(refusal) => Err(refusal),
        }
    }

    /// What a client's slot holds, whose page is at hand or is read, as by `look`.
    ///
    /// # Errors
    /// As of `look`.
    pub fn read_client(&mut self, client: u32) -> Result<ClientSlot, Refusal>
        requires { client < client_count self.old.sizes }
        ensures held { IfOk result (λ held. slots_in self.new.sizes self.new.images (client_slot_at self.new.sizes client)
            ≡ Client held) }
        ensures fetched { Fetches P.PageDevice (client_slot_at self.old.sizes client / 16) self.old result self.new }
    {
        let at = self.layout().client_slot_of(client);
        match self.look(at.page() as u32) {
            Ok(()) => Ok(self.client_at_hand(client)),
            Err(refusal) => Err(refusal),
        }
    }

    /// The cell at an address, whose page is at hand or is read, as by `look`; none where it is free.
    ///
    /// # Errors
    /// As of `look`.
    pub fn read_cell(&mut self, at: Addr) -> Result<Option<Cell>, Refusal>
        requires { IsCellAddress self.old.sizes at }
        ensures held { IfOk result (λ cell. cell_in (slots_in self.new.sizes self.new.images at) ≡ cell) }
        ensures fits { IfOk result (λ cell. IfSome cell (λ c. IsCellOf self.new.sizes c)) }
        ensures fetched { Fetches P.PageDevice (at / 16) self.old result self.new }
    {
        let _layout = self.layout();
        match self.look(at.page() as u32) {
            Ok(()) => Ok(self.cell_at_hand(at)),
            Err(refusal) => Err(refusal),
        }
    }

    // What the directory says of a sender, whose page is at hand.
    fn group_at_hand(&self, sender: u32) -> Directory
        requires known { sender < sender_count self.now.sizes }
        requires hand { IsAtHand self.now (directory_at sender / 16) }
        ensures held { slots_in self.now.sizes self.now.images (directory_at sender) ≡ Sender sender result }
        ensures fits { IsDirectoryOf self.now.sizes sender (record { sender = sender; directory = result }) }
    {
        let at = self.layout().directory_of(sender);
        DirectorySlot::read(self.slot_at_hand(at)).directory
    }

    // What a client's slot holds, whose page is at hand.
    fn client_at_hand(&self, client: u32) -> ClientSlot
        requires known { client < client_count self.now.sizes }
        requires hand { IsAtHand self.now (client_slot_at self.now.sizes client / 16) }
        ensures { slots_in self.now.sizes self.now.images (client_slot_at self.now.sizes client) ≡ Client result }
    {
        let at = self.layout().client_slot_of(client);
        ClientSlot::read(self.slot_at_hand(at))
    }

    // The cell at an address whose page is at hand; none where it is free.
    fn cell_at_hand(&self, at: Addr) -> Option<Cell>
        requires cell { IsCellAddress self.now.sizes at }
        requires hand { IsAtHand self.now (at / 16) }
        ensures held { cell_in (slots_in self.now.sizes self.now.images at) ≡ result }
        ensures fits { IfSome result (λ cell. IsCellOf self.now.sizes cell) }
    {
        match CellSlot::read(self.slot_at_hand(at)) {
            Some(CellSlot::Used(cell)) => Some(cell),
            _ => None,
        }
    }

    // A page that is at hand.
    #[inline(always)]
    pub(crate) fn at_hand(&self, number: u32) -> &Page
        requires high { number < page_count self.now.sizes }
        requires hand { IsAtHand self.now number }
        ensures { result.now ≡ image_at self.now.images number }
    {
        match place_of(&self.entries, number) {
            Some(place) => &self.frames[place as usize].page,
            None => &self.spare,
        }
    }

    // The frame in which a page stands.
    #[inline(always)]
    pub(crate) fn place(&self, number: u32) -> u32
        requires high { number < page_count self.now.sizes }
        requires framed { IsFramed self.now.frames number }
        ensures page { page_at self.now.frames result ≡ number }
        ensures within { result < length self.now.frames }
    {
        place_of(&self.entries, number).unwrap()
    }

    // Has a page that stands in no frame be at hand apart.
    #[inline(never)]
    pub(crate) fn fetch(&mut self, number: u32) -> Result<(), Refusal>
        requires low { 1 ≤ number }
        requires high { number < page_count self.old.sizes }
        requires outside { IsFramed self.old.frames number → ⊥ }
        ensures apart { OnOk result (self.new.apart ≡ Some number) }
        ensures fetched { Fetches P.PageDevice number self.old result self.new }
    {
        if is_page(self.apart, number) {
            return Ok(());
        }
        self.read_apart(number)
    }

    // Reads a page that stands in no frame, and not apart, over the one that stands apart.
    fn read_apart(&mut self, number: u32) -> Result<(), Refusal>
        requires low { 1 ≤ number }
        requires high { number < page_count self.old.sizes }
        requires outside { IsFramed self.old.frames number → ⊥ }
        requires away { self.old.apart ≢ Some number }
        ensures apart { OnOk result (self.new.apart ≡ Some number) }
        ensures fetched { Fetches P.PageDevice number self.old result self.new }
    {
        let lsn = lsn_of_page(&self.entries, number);
        self.apart = None;
        let read = read_again(
            &mut self.device,
            &self.layout,
            &self.free,
            &self.closed,
            number,
            lsn,
            &mut self.spare,
        );
        match read {
            Ok(()) => {
                set_image(&mut self.entries, number, &self.spare);
                self.apart = Some(number);
                Ok(())
            }
            Err(refusal) => Err(refusal),
        }
    }
}

// Whether the page that stands apart, if there is one, is this one.
fn is_page(apart: Option<u32>, number: u32) -> bool
    ensures { IsTrue result ↔ (apart ≡ Some number) }
{
    match apart {
        Some(page) => page == number,
        None => false,
    }
}
