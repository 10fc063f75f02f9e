//! What a formatted store holds, page by page, and the superblock, which says how large a store is.
ghost use Rattle.std.specs.Prelude.{◌≡◌, ◌≤◌, ◌<◌, ◌↔◌, IfSome, IsTrue, Some};
ghost use Rattle.rq_page.specs.Sizes.{Sizes, IsInRange, page_count};
ghost use Rattle.rq_page.specs.Formatted.{version_of, superblock_front, superblock_bytes, formatted_slot, IsFormatted};

use crate::cell::CellSlot;
use crate::client::ClientSlot;
use crate::directory::{Directory, DirectorySlot};
use crate::layout::{Layout, PageKind, SLOTS};
use crate::numbers::u32_at;
use crate::page::Page;
use byteorder::{BigEndian, ByteOrder};
use rq_bytes::Fields;
use rq_model::record::{SLOT_BYTES, Slot};

// The bytes of the superblock's slot before its zeros.
const FRONT_BYTES: usize = 24;

// The slot of the superblock that is not zeros.
const SUPERBLOCK_SLOT: u8 = 1;

impl Layout {
    ghost use Rattle.rq_page.specs.Kinds.{kind_of};

    /// Makes a page that of a formatted store. No record was applied, groups are open and empty, cells are free, and no client
    /// marked a tag.
    pub fn format(&self, page: u32, out: &mut Page)
        requires { page < page_count self.now }
        ensures { IsFormatted self.now page out.new }
    {
        let kind = self.kind(page).unwrap();
        out.set_header(page, kind);
        for slot in 1..SLOTS as u8 + 1 {
            out.put_slot(slot, &self.formatted_slot(page, slot));
        }
    }

    /// The image of a slot in a formatted store.
    pub fn formatted_slot(&self, page: u32, slot: u8) -> Slot
        requires page { page < page_count self.now }
        requires low { 1 ≤ slot }
        requires high { slot ≤ 15 }
        ensures { result ≡ formatted_slot self.now page slot }
    {
        if page == 0 {
            if slot == SUPERBLOCK_SLOT {
                self.superblock()
            } else {
                CellSlot::Free.encode()
            }
        } else if page <= self.directory() {
            let held = DirectorySlot {
                sender: self.sender_at(page, slot),
                directory: Directory::new(),
            };
            held.encode()
        } else if page < self.tags_from() {
            CellSlot::Free.encode()
        } else {
            ClientSlot::new(self.client_at(page, slot)).encode()
        }
    }

    /// The layout that a superblock tells; none where the page is no superblock.
    pub fn check_superblock(image: &Page) -> Option<Layout>
        ensures some { IfSome result (λ l. IsInRange l × IsFormatted l 0 image.now) }
        ensures only { (l : Sizes) → IsInRange l → IsFormatted l 0 image.now → result ≡ Some l }
    {
        let told = image.slot(SUPERBLOCK_SLOT);
        let layout = Layout::new(u32_at(told, 12), u32_at(told, 16), u32_at(told, 20))?;
        if layout.is_formatted(0, PageKind::Superblock, image) {
            Some(layout)
        } else {
            None
        }
    }

    // Whether a page is that of a formatted store.
    fn is_formatted(&self, page: u32, kind: PageKind, image: &Page) -> bool
        requires page { page < page_count self.now }
        requires kind { kind_of self.now page ≡ Some kind }
        ensures { IsTrue result ↔ IsFormatted self.now page image.now }
    {
        if !image.has_header(0, page, kind) {
            return false;
        }
        for slot in 1..SLOTS as u8 + 1 {
            if *image.slot(slot) != self.formatted_slot(page, slot) {
                return false;
            }
        }
        true
    }

    // The version of the format.
    fn version(&self) -> u32
        ensures { result ≡ version_of self.now }
    {
        if self.tags() == 0 { 1 } else { 2 }
    }

    // Slot 1 of the superblock.
    fn superblock(&self) -> Slot
        ensures { result ≡ superblock_bytes self.now }
    {
        let mut out = [0; SLOT_BYTES];
        Fields::place(&mut out, 0, &self.superblock_front());
        out
    }

    // What the superblock says before its zeros.
    #[tactic(auto, unfolding(crate::specs::Formatted::superblock_front))]
    fn superblock_front(&self) -> [u8; FRONT_BYTES]
        ensures { result ≡ superblock_front self.now }
    {
        let mut out = [0; FRONT_BYTES];
        out[..8].copy_from_slice(b"RQMSTORE");
        BigEndian::write_u32(&mut out[8..], self.version());
        BigEndian::write_u32(&mut out[12..], self.directory());
        BigEndian::write_u32(&mut out[16..], self.cells());
        BigEndian::write_u32(&mut out[20..], self.tags());
        out
    }
}
