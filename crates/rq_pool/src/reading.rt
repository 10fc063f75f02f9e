//! Reads the pages of a device.
ghost use Rattle.std.specs.Prelude.{ℕ, ◌≡◌, ◌↔◌, ◌<◌, ◌≤◌, ◌+◌, ◌%◌, ◌^◌, ◌++◌, ◌∷◌, [], false, length, min, nat_eq, replicate, IsTrue, IfOk, IfErr, OnOk, Some};
ghost use Rattle.std.specs.Bool.{OnTrue};
ghost use Rattle.rq_page.specs.Sizes.{page_count};
ghost use Rattle.rq_page.specs.Kinds.{kind_of};
ghost use Rattle.rq_page.specs.Cells.{free_bytes};
ghost use Rattle.rq_page.specs.Pages.{lsn_of};
ghost use Rattle.rq_page.specs.Slots.{IsSlotOf};
ghost use Rattle.rq_page.specs.declared.layout.PageKind.TheVariants as kind;
ghost use Rattle.rq_disk.specs.Device.PageAsk.{Reads};
ghost use Rattle.rq_pool.specs.Indexed.{AreNotedOn, IsIndex, closed_groups, free_cells};
ghost use Rattle.rq_pool.specs.Fetching.{HasFailed, NotReadAgain};
ghost use Rattle.rq_pool.specs.Frames.{AllStand, AreTied, IsFirstFixed, changed_of, first_frame, first_page, first_place, frames_of, images_of, pages_of, places_of};
ghost use Rattle.rq_pool.specs.Held.{IsFixed};
ghost use Rattle.rq_pool.specs.Numbered.{AreNumbered};
ghost use Rattle.rq_pool.specs.Reading.{OnlyRead, IsSuperblock, IsSoundPage, ArePages, AreSeen, StopsFor};

use crate::ahead::{Ahead, note_ahead};
use crate::notes::{are_noted, note_page};
use crate::table::{HalvedLsn, Seat};
use crate::{Entry, Frame};
use rq_bitset::Index;
use rq_bytes::equal::are_equal;
use rq_disk::{PAGE, PageDevice};
use rq_model::record::Slot;
use rq_model::refusal::{Damage, Refusal};
use rq_model::txn::Lsn;
use rq_page::cell::CellSlot;
use rq_page::layout::{Layout, PageKind, SLOTS};
use rq_page::page::Page;
use std::alloc::Global;
use std::snapshot::Snapshot;

/// Reads the first page, and the sizes that it tells.
pub(crate) fn read_superblock<P: PageDevice>(device: &mut P) -> Result<(Page, Layout), Refusal>
    ensures ok { IfOk result (λ first. (P.honest device.new → first.0 ≡ P.seen device.old 0)
        × IsSuperblock first.1 first.0) }
    ensures cause { OnOk result (P.faults device.new ≡ P.faults device.old) }
    ensures err { IfErr result (λ e. StopsFor P.PageDevice e device.old device.new) }
    ensures device { OnlyRead P.PageDevice device.old device.new }
{
    let superblock = read_page(device, 0)?;
    match Layout::check_superblock(&superblock) {
        Some(layout) => Ok((superblock, layout)),
        None => Err(Refusal::Damaged(Damage::Page(0))),
    }
}

/// Reads the pages behind the first, and checks each as it is read. Answers the table of pages, and the frames, in which the first so
/// many of them stand. Answers, too, the free cells, the closed groups, and the pages with a greater number than their LSN.
pub(crate) fn read_frames<P: PageDevice>(
    alloc: Global,
    device: &mut P,
    layout: &Layout,
    superblock: Page,
    most: u32,
) -> Result<(Vec<Entry>, Vec<Frame>, Index, Index, Vec<Ahead>), Refusal>
    requires superblock { IsSuperblock layout.now superblock }
    requires first { P.honest device.old → superblock ≡ P.seen device.old 0 }
    requires some { 1 ≤ most }
    ensures ok { IfOk result (λ read. ArePages layout.now (images_of read.0.items)) }
    ensures seen { IfOk result (λ read. P.honest device.new
        → AreSeen (P.seen device.old) (images_of read.0.items) (page_count layout.now)) }
    ensures changed { IfOk result (λ read. changed_of read.0.items ≡ replicate (page_count layout.now) false) }
    ensures tied { IfOk result (λ read. AreTied (images_of read.0.items) (changed_of read.0.items)
        (places_of read.0.items) (frames_of read.1.items) (pages_of read.1.items)) }
    ensures stand { IfOk result (λ read. page_count layout.now ≤ most → AllStand (places_of read.0.items)) }
    ensures every { IfOk result (λ read. length (frames_of read.1.items) ≡ min (page_count layout.now) most) }
    ensures first { IfOk result (λ read. IsFirstFixed (frames_of read.1.items)) }
    ensures loose { IfOk result (λ read. (q : ℕ) → 1 ≤ q → IsFixed (frames_of read.1.items) q → ⊥) }
    ensures free { IfOk result (λ read. IsIndex (free_cells layout.now) layout.now (images_of read.0.items) read.2) }
    ensures closed { IfOk result (λ read. IsIndex (closed_groups layout.now) layout.now (images_of read.0.items) read.3) }
    ensures numbers { IfOk result (λ read. AreNumbered layout.now (images_of read.0.items) read.4.items) }
    ensures cause { OnOk result (P.faults device.new ≡ P.faults device.old) }
    ensures err { IfErr result (λ e. StopsFor P.PageDevice e device.old device.new) }
    ensures device { OnlyRead P.PageDevice device.old device.new }
{
    let count = layout.pages();
    let Ok(mut entries) = Vec::with_capacity(alloc, count as usize) else {
        return Err(Refusal::NoMemory);
    };
    let Ok(mut frames) = Vec::with_capacity(alloc, count.min(most) as usize) else {
        return Err(Refusal::NoMemory);
    };
    let Ok(mut free) = Index::new(alloc, layout.cell_slots()) else {
        return Err(Refusal::NoMemory);
    };
    let Ok(mut closed) = Index::new(alloc, layout.senders()) else {
        return Err(Refusal::NoMemory);
    };
    let mut ahead = Vec::new(alloc);
    let mut page = superblock;
    add_page(&mut entries, &mut frames, 0, &page, most)?;
    for number in 1..count {
        read_sound_page(device, layout, number, &mut page)?;
        add_page(&mut entries, &mut frames, number, &page, most)?;
        note_page(&mut free, &mut closed, layout, &page, number);
        note_ahead(&mut ahead, layout, number, &page)?;
    }
    Ok((entries, frames, free, closed, ahead))
}

/// Reads a page behind the first once more, over another. It has to be one of the store, with the LSN that it had. Its free cells and
/// closed groups have to be those that the indexes tell of.
pub(crate) fn read_again<P: PageDevice>(
    device: &mut P,
    layout: &Layout,
    free: &Index,
    closed: &Index,
    number: u32,
    lsn: Lsn,
    page: &mut Page,
) -> Result<(), Refusal>
    ensures ok { OnOk result ((P.honest device.new → page.new ≡ P.seen device.old number)
        × IsSoundPage layout.now number page.new) }
    ensures lsn { OnOk result (lsn_of page.new ≡ lsn) }
    ensures free { OnOk result (AreNotedOn (free_cells layout.now) layout.now number page.new free.now) }
    ensures closed { OnOk result (AreNotedOn (closed_groups layout.now) layout.now number page.new closed.now) }
    ensures cause { OnOk result (P.faults device.new ≡ P.faults device.old) }
    ensures err { IfErr result (λ e. NotReadAgain P.PageDevice layout.now free.now closed.now number lsn e device.old device.new) }
    ensures device { OnlyRead P.PageDevice device.old device.new }
{
    read_into(device, number, page)?;
    if page.lsn() == lsn
        && is_sound(layout, number, page)
        && are_noted(free, closed, layout, page, number)
    {
        Ok(())
    } else {
        Err(Refusal::Damaged(Damage::Page(number)))
    }
}

// Reads a page behind the first over another, and checks it.
fn read_sound_page<P: PageDevice>(
    device: &mut P,
    layout: &Layout,
    number: u32,
    page: &mut Page,
) -> Result<(), Refusal>
    requires superblock { P.honest device.old → IsSuperblock layout.now (P.seen device.old 0) }
    requires low { 0 < number }
    requires high { number < page_count layout.now }
    requires earlier { P.honest device.old → (q : ℕ) → 1 ≤ q → q < number → IsSoundPage layout.now q (P.seen device.old q) }
    ensures ok { OnOk result ((P.honest device.new → page.new ≡ P.seen device.old number)
        × IsSoundPage layout.now number page.new) }
    ensures cause { OnOk result (P.faults device.new ≡ P.faults device.old) }
    ensures err { IfErr result (λ e. StopsFor P.PageDevice e device.old device.new) }
    ensures device { OnlyRead P.PageDevice device.old device.new }
{
    read_into(device, number, page)?;
    if is_sound(layout, number, page) {
        Ok(())
    } else {
        Err(Refusal::Damaged(Damage::Page(number)))
    }
}

// Puts a page into the table, and into a frame more where so many are not there yet. The superblock is fixed in its frame.
fn add_page(
    entries: &mut Vec<Entry>,
    frames: &mut Vec<Frame>,
    number: u32,
    page: &Page,
    most: u32,
) -> Result<(), Refusal>
    requires { number < 2147483647 }
    ensures images { OnOk result (images_of entries.new.items ≡ images_of entries.old.items ++ page.now ∷ []) }
    ensures changed { OnOk result (changed_of entries.new.items ≡ changed_of entries.old.items ++ false ∷ []) }
    ensures places { OnOk result (places_of entries.new.items ≡ places_of entries.old.items ++ first_place most number ∷ []) }
    ensures frames { OnOk result (frames_of frames.new.items ≡ frames_of frames.old.items ++ first_frame most number) }
    ensures pages { OnOk result (pages_of frames.new.items ≡ pages_of frames.old.items ++ first_page most number page.now) }
    ensures err { IfErr result (λ e. e ≡ Refusal.NoMemory) }
{
    if number >= most {
        let entry = Entry {
            image: Snapshot::of(page),
            lsn: HalvedLsn::new(page.lsn()),
            seat: Seat::new(None, false),
        };
        return match entries.push(entry) {
            Ok(()) => Ok(()),
            Err(_) => Err(Refusal::NoMemory),
        };
    }
    let entry = Entry {
        image: Snapshot::of(page),
        lsn: HalvedLsn::new(page.lsn()),
        seat: Seat::new(Some(number), false),
    };
    let frame = Frame {
        number,
        fixed: number == 0,
        page: Page::from_image(page.image()),
    };
    match frames.push(frame) {
        Ok(()) => {}
        Err(_) => return Err(Refusal::NoMemory),
    }
    match entries.push(entry) {
        Ok(()) => Ok(()),
        Err(_) => Err(Refusal::NoMemory),
    }
}

// Reads a page.
fn read_page<P: PageDevice>(device: &mut P, number: u32) -> Result<Page, Refusal>
    ensures ok { IfOk result (λ page. P.honest device.new → page ≡ P.seen device.old number) }
    ensures cause { OnOk result (P.faults device.new ≡ P.faults device.old) }
    ensures err { IfErr result (λ e. (e ≡ Refusal.DiskRead)
        × (P.faults device.new ≡ (P.faults device.old + 1) % 2 ^ 64)) }
    ensures device { OnlyRead P.PageDevice device.old device.new }
{
    let mut page = Page::from_image(&[0; PAGE]);
    match read_into(device, number, &mut page) {
        Ok(()) => Ok(page),
        Err(refusal) => Err(refusal),
    }
}

// Reads a page over another.
fn read_into<P: PageDevice>(device: &mut P, number: u32, page: &mut Page) -> Result<(), Refusal>
    ensures ok { OnOk result (P.honest device.new → page.new ≡ P.seen device.old number) }
    ensures cause { OnOk result (P.faults device.new ≡ P.faults device.old) }
    ensures err { IfErr result (λ e. (e ≡ Refusal.DiskRead) × HasFailed P.PageDevice (Reads number) device.old device.new) }
    ensures device { OnlyRead P.PageDevice device.old device.new }
{
    match device.read(number, page.image_mut()) {
        Ok(()) => Ok(()),
        Err(_) => Err(Refusal::DiskRead),
    }
}

// Whether a page's header and slots are those of its place.
fn is_sound(layout: &Layout, number: u32, page: &Page) -> bool
    ensures { IsTrue result ↔ IsSoundPage layout.now number page.now }
{
    if !layout.check_header(number, page) {
        return false;
    }
    let free = CellSlot::Free.encode();
    for slot in 1..SLOTS as u8 + 1 {
        if !is_slot(layout, number, slot, page.slot(slot), &free) {
            return false;
        }
    }
    true
}

// Whether these bytes are those of a slot at its place. A free cell is known by its bytes, which are given.
fn is_slot(layout: &Layout, number: u32, slot: u8, bytes: &Slot, free: &Slot) -> bool
    requires low { 1 ≤ slot }
    requires high { slot ≤ 15 }
    requires free { free.now ≡ free_bytes }
    ensures { IsTrue result ↔ IsSlotOf layout.now number slot bytes.now }
{
    if has_cells(layout, number) && are_equal(bytes, free) {
        Layout::slots_are_spellings();
        return true;
    }
    layout.check_slot(number, slot, bytes)
}

// Whether a page is one of cells.
fn has_cells(layout: &Layout, number: u32) -> bool
    ensures { OnTrue result (kind_of layout.now number ≡ Some kind.Cells) }
{
    match layout.kind(number) {
        Some(PageKind::Cells) => true,
        _ => false,
    }
}
