//! Whether the pages and slots of a store are well formed.
ghost use Rattle.std.specs.Prelude.{◌≡◌, ◌<◌, ◌↔◌, IsTrue};
ghost use Rattle.rq_page.specs.Sizes.{IsLink};
ghost use Rattle.rq_page.specs.Cells.{IsCell, IsCellSlot};
ghost use Rattle.rq_page.specs.Slots.{IsCellOf, IsDirectoryOf, IsSlotOf, SpellingTells, SlotIsSpelling, HoldsCell, HoldsDirectory, HoldsClient, MayStand};
ghost use Rattle.rq_page.specs.Formatted.{IsHeaderOf, count_in};
ghost use Rattle.rq_page.specs.Directories.{IsDirectorySlot};

use crate::addr::Addr;
use crate::cell::{Cell, CellSlot};
use crate::client::ClientSlot;
use crate::directory::DirectorySlot;
use crate::layout::{Layout, PageKind};
use crate::numbers::u64_at;
use crate::page::Page;
use rq_model::record::Slot;

impl Layout {
    /// Whether a page's header has the number and the kind of its place, and zeros behind them.
    pub fn check_header(&self, page: u32, image: &Page) -> bool
        ensures { IsTrue result ↔ IsHeaderOf self.now page image.now }
    {
        match self.kind(page) {
            Some(kind) => image.has_header(image.lsn(), page, kind),
            None => false,
        }
    }

    /// Whether these bytes are a slot of a page of the store behind the first, at this place.
    ///
    /// Of the superblock's page no slot is: `check_superblock` reads it whole.
    pub fn check_slot(&self, page: u32, slot: u8, bytes: &Slot) -> bool
        ensures { IsTrue result ↔ IsSlotOf self.now page slot bytes.now }
    {
        if slot < 1 || slot > 15 {
            return false;
        }
        match self.kind(page) {
            Some(PageKind::Directory) => {
                self.check_directory_slot(self.sender_at(page, slot), bytes)
            }
            Some(PageKind::Cells) => self.check_cell_slot(bytes),
            Some(PageKind::Tags) => check_client_slot(self.client_at(page, slot), bytes),
            _ => false,
        }
    }

    /// The number in a slot that the length of the log bounds. Of a directory slot: how many messages were sent. Of a client's
    /// slot: how often it was marked. Of any other: 0.
    pub fn count(&self, page: u32, bytes: &Slot) -> u64
        ensures { result ≡ count_in self.now page bytes.now }
    {
        match self.kind(page) {
            Some(PageKind::Directory) | Some(PageKind::Tags) => u64_at(bytes, 8),
            Some(PageKind::Superblock) | Some(PageKind::Cells) | None => 0,
        }
    }

    /// A slot is the one spelling of something that may stand there, and tells what that is.
    pub fn slots_are_spellings()
        ensures tells { SpellingTells }
        ensures spells { SlotIsSpelling }
    {}

    // Whether these bytes are a cell's slot.
    fn check_cell_slot(&self, bytes: &Slot) -> bool
        ensures { IsTrue result ↔ HoldsCell self.now bytes.now }
    {
        match CellSlot::decode(bytes) {
            None => false,
            Some(held) => self.fits_cell_slot(&held),
        }
    }

    // Whether the store may hold this in a cell's slot.
    fn fits_cell_slot(&self, held: &CellSlot) -> bool
        requires { IsCellSlot held.now }
        ensures { IsTrue result ↔ MayStand self.now held.now }
    {
        match held {
            CellSlot::Free => true,
            CellSlot::Used(cell) => self.fits_cell(cell),
        }
    }

    // Whether a cell's sender is one of the store's, and its links name cells.
    fn fits_cell(&self, cell: &Cell) -> bool
        requires { IsCell cell.now }
        ensures { IsTrue result ↔ IsCellOf self.now cell.now }
    {
        cell.sender < self.senders() && self.is_link(cell.next) && self.is_link(cell.prev)
    }

    // Whether these bytes are the directory slot of a sender.
    fn check_directory_slot(&self, sender: u32, bytes: &Slot) -> bool
        ensures { IsTrue result ↔ HoldsDirectory self.now sender bytes.now }
    {
        match DirectorySlot::decode(bytes) {
            None => false,
            Some(held) => self.fits_directory(sender, &held),
        }
    }

    // Whether a directory slot is that of a sender, and its chain's ends are cells.
    fn fits_directory(&self, sender: u32, held: &DirectorySlot) -> bool
        requires { IsDirectorySlot held.now }
        ensures { IsTrue result ↔ IsDirectoryOf self.now sender held.now }
    {
        held.sender == sender
            && self.is_link(held.directory.head)
            && self.is_link(held.directory.tail)
    }

    // Whether an address may stand in a slot: that of a cell, or none.
    fn is_link(&self, addr: Addr) -> bool
        ensures { IsTrue result ↔ IsLink self.now addr }
    {
        addr.is_none() || self.is_cell_address(addr)
    }
}

// Whether these bytes are a client's slot.
fn check_client_slot(client: u32, bytes: &Slot) -> bool
    ensures { IsTrue result ↔ HoldsClient client bytes.now }
{
    match ClientSlot::decode(bytes) {
        None => false,
        Some(held) => held.client == client,
    }
}
