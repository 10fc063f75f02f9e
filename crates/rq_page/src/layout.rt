//! Where the pages, senders, cells and clients of a store stand.
ghost use Rattle.std.specs.Prelude.{◌≡◌, ◌↔◌, ◌≤◌, ◌<◌, IsTrue, IsSome, IfSome};
ghost use Rattle.rq_page.specs.Sizes.{Sizes, IsInRange, IsCellAddress, page_count, tags_from, sender_count, cell_count, client_count, directory_at, sender_at, client_slot_at, client_at, cell_at, place_of};

use crate::addr::Addr;
use std::marker::Model;

/// The slots of a page, numbered from 1.
pub const SLOTS: u32 = 15;

/// The most directory pages that a store may have.
pub const DIRECTORY_LIMIT: u32 = 1024;

/// The most cell pages that a store may have.
pub const CELLS_LIMIT: u32 = 65536;

/// The most tag pages that a store may have.
pub const TAGS_LIMIT: u32 = 1024;

/// What a page is for.
#[derive(Clone, Copy, PartialEq, Eq)]
pub enum PageKind {
    /// The page that says how large the store is.
    Superblock,
    /// Each slot is that of one sender.
    Directory,
    /// Each slot holds one message, or is free.
    Cells,
    /// Each slot is that of one client.
    Tags,
}

impl PageKind {
    ghost use Rattle.rq_page.specs.Kinds.{kind_byte};

    /// The byte that stands for the kind in a page's header.
    pub fn byte(self) -> u8
        ensures { result ≡ kind_byte self }
    {
        match self {
            PageKind::Superblock => 0,
            PageKind::Directory => 1,
            PageKind::Cells => 2,
            PageKind::Tags => 3,
        }
    }
}

/// How many directory, cell and tag pages a store has: 1 to 1,024, 1 to 65,536 and at most 1,024. Contracts see the numbers.
///
/// Page 0 is the superblock, then come the directory pages, then the cell pages, then the tag pages.
#[derive(Clone, Copy, PartialEq, Eq)]
pub struct Layout {
    directory: u32,
    cells: u32,
    tags: u32,
}

impl Model for Layout {
    ghost use Rattle.rq_page.specs.Sizes.{Sizes, IsInRange};

    ghost Value = { Sizes };

    ghost view = { λ l. record { directory = l.directory; cells = l.cells; tags = l.tags } };

    ghost invariant = { λ l. IsInRange (record { directory = l.directory; cells = l.cells; tags = l.tags }) };

    ghost inverse = { λ l. record { directory = l.directory; cells = l.cells; tags = l.tags } };
}

impl Layout {
    ghost use Rattle.rq_page.specs.Kinds.{kind_of};

    /// The layout of so many directory, cell and tag pages; none where a number is out of range.
    pub fn new(directory: u32, cells: u32, tags: u32) -> Option<Self>
        ensures fits { IsSome result ↔ IsInRange (record { directory = directory; cells = cells; tags = tags }) }
        ensures sizes { IfSome result (λ l. l ≡ record { directory = directory; cells = cells; tags = tags }) }
    {
        let in_range = directory >= 1
            && directory <= DIRECTORY_LIMIT
            && cells >= 1
            && cells <= CELLS_LIMIT
            && tags <= TAGS_LIMIT;
        if in_range {
            Some(Layout {
                directory,
                cells,
                tags,
            })
        } else {
            None
        }
    }

    /// How many directory pages there are.
    pub fn directory(&self) -> u32
        ensures number { result ≡ self.now.directory }
        ensures in_range { IsInRange self.now }
    {
        self.directory
    }

    /// How many cell pages there are.
    pub fn cells(&self) -> u32
        ensures number { result ≡ self.now.cells }
        ensures in_range { IsInRange self.now }
    {
        self.cells
    }

    /// How many tag pages there are.
    pub fn tags(&self) -> u32
        ensures number { result ≡ self.now.tags }
        ensures in_range { IsInRange self.now }
    {
        self.tags
    }

    /// The page behind the cells, where the tag pages begin.
    pub fn tags_from(&self) -> u32
        ensures number { result ≡ tags_from self.now }
        ensures in_range { IsInRange self.now }
    {
        1 + self.directory + self.cells
    }

    /// How many pages there are.
    pub fn pages(&self) -> u32
        ensures number { result ≡ page_count self.now }
        ensures in_range { IsInRange self.now }
    {
        1 + self.directory + self.cells + self.tags
    }

    /// How many senders there are. They are numbered from 0.
    pub fn senders(&self) -> u32
        ensures number { result ≡ sender_count self.now }
        ensures in_range { IsInRange self.now }
    {
        SLOTS * self.directory
    }

    /// How many clients there are. They are numbered from 0.
    pub fn clients(&self) -> u32
        ensures number { result ≡ client_count self.now }
        ensures in_range { IsInRange self.now }
    {
        SLOTS * self.tags
    }

    /// How many cells there are.
    pub fn cell_slots(&self) -> u32
        ensures number { result ≡ cell_count self.now }
        ensures in_range { IsInRange self.now }
    {
        SLOTS * self.cells
    }

    /// What a page is for; none where the store has no such page.
    pub fn kind(&self, page: u32) -> Option<PageKind>
        ensures kind { result ≡ kind_of self.now page }
        ensures known { IsSome result ↔ (page < page_count self.now) }
    {
        if page == 0 {
            Some(PageKind::Superblock)
        } else if page <= self.directory {
            Some(PageKind::Directory)
        } else if page < self.tags_from() {
            Some(PageKind::Cells)
        } else if page < self.pages() {
            Some(PageKind::Tags)
        } else {
            None
        }
    }

    /// Where a sender's directory slot stands.
    pub fn directory_of(&self, sender: u32) -> Addr
        requires { sender < sender_count self.now }
        ensures { result ≡ directory_at sender }
    {
        Addr::new(1 + sender / SLOTS, (1 + sender % SLOTS) as u8)
    }

    /// The sender whose directory slot this is.
    pub fn sender_at(&self, page: u32, slot: u8) -> u32
        requires page_low { 1 ≤ page }
        requires page_high { page ≤ self.now.directory }
        requires slot_low { 1 ≤ slot }
        requires slot_high { slot ≤ 15 }
        ensures number { result ≡ sender_at page slot }
        ensures below { result < sender_count self.now }
    {
        prove!(page <= self.directory);
        SLOTS * (page - 1) + (slot as u32 - 1)
    }

    /// Where a client's slot of a tag page stands.
    pub fn client_slot_of(&self, client: u32) -> Addr
        ensures { result ≡ client_slot_at self.now client }
    {
        Addr::new(
            self.tags_from() + client / SLOTS,
            (1 + client % SLOTS) as u8,
        )
    }

    /// The client whose slot of a tag page this is.
    pub fn client_at(&self, page: u32, slot: u8) -> u32
        requires page_low { tags_from self.now ≤ page }
        requires page_high { page < page_count self.now }
        requires slot_low { 1 ≤ slot }
        requires slot_high { slot ≤ 15 }
        ensures { result ≡ client_at self.now page slot }
    {
        let from = self.tags_from();
        prove!(from <= page && page - from <= TAGS_LIMIT);
        SLOTS * (page - from) + (slot as u32 - 1)
    }

    /// Whether an address is that of a cell.
    pub fn is_cell_address(&self, addr: Addr) -> bool
        ensures { IsTrue result ↔ IsCellAddress self.now addr }
    {
        addr.page() > self.directory as u64
            && addr.page() < self.tags_from() as u64
            && addr.slot() != 0
    }

    /// The address of the cell with a place among the cells, counted from 0 in rising address.
    pub fn cell_addr(&self, place: u32) -> Addr
        requires { place < cell_count self.now }
        ensures value { result ≡ cell_at self.now place }
        ensures cell { IsCellAddress self.now result }
    {
        Addr::new(
            1 + self.directory + place / SLOTS,
            (1 + place % SLOTS) as u8,
        )
    }

    /// The place of a cell among the cells.
    pub fn cell_place(&self, addr: Addr) -> u32
        requires { IsCellAddress self.now addr }
        ensures value { result ≡ place_of self.now addr }
        ensures below { result < cell_count self.now }
    {
        SLOTS * ((addr.page() - (1 + self.directory) as u64) as u32) + (addr.slot() as u32 - 1)
    }
}
