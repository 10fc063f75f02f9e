//! Writes of single slots.
ghost use Rattle.std.specs.Prelude.{◌≡◌, ◌≤◌, ◌++◌, [], ◌∷◌, OnOk};
ghost use Rattle.rq_bytes.specs.Number.{with_number};
ghost use Rattle.rq_page.specs.Cells.{cell_bytes, cell_in};
ghost use Rattle.rq_page.specs.Sizes.{IsCellAddress};
ghost use Rattle.rq_page.specs.declared.cell.Cell.{Cell};
ghost use Rattle.rq_page.specs.Slots.{Free, IsCellOf, IsDirectoryOf, Used};
ghost use Rattle.rq_views.specs.Items.{layout_of};
ghost use Rattle.rq_views.specs.Plans.{directory_write, with_next, with_prev};
ghost use Rattle.rq_level.specs.Writes.{write_of, IsSlotWrite};
ghost use Rattle.rq_chain.specs.CellEntries.{IsGroupOf, IsCellEntryAt};

use crate::{CellEntry, DirectoryEntry};
use rq_bytes::Fields;
use rq_level::{SlotWrite, put_only};
use rq_model::record::Slot;
use rq_model::refusal::NoMemory;
use rq_page::addr::Addr;
use rq_page::cell::CellSlot;
use rq_page::directory::{Directory, DirectorySlot};
use rq_page::layout::Layout;

/// The write that has the slot of a free cell spell one that is used.
#[inline(always)]
pub(crate) fn filled(layout: &Layout, at: Addr, after: Slot) -> SlotWrite
    requires { IsCellAddress layout.now at }
    ensures write { (c : Cell) → IsCellOf layout.now c → after ≡ cell_bytes c
        → write_of layout.now result ≡ record { at = at; before = Free; after = Used c } }
    ensures slots { (c : Cell) → IsCellOf layout.now c → after ≡ cell_bytes c → IsSlotWrite layout.now result }
{
    prove!(at.page() < layout.pages() as u64);
    SlotWrite {
        at,
        before: CellSlot::Free.encode(),
        after,
    }
}

/// The write that empties a cell.
#[inline(always)]
pub(crate) fn emptied(layout: &Layout, entry: &CellEntry) -> SlotWrite
    requires { IsCellEntryAt layout.now entry.now.at entry.now }
    ensures write { write_of layout.now result ≡ record {
      at = entry.now.at;
      before = Used (cell_in entry.now.bytes.now);
      after = Free;
    } }
    ensures slots { IsSlotWrite layout.now result }
{
    prove!(entry.at.page() < layout.pages() as u64);
    SlotWrite {
        at: entry.at,
        before: *entry.bytes,
        after: CellSlot::Free.encode(),
    }
}

/// The write that has a group's directory slot say something else.
#[inline(always)]
pub(crate) fn group_write(layout: &Layout, group: &DirectoryEntry, after: &Directory) -> SlotWrite
    requires group { IsGroupOf layout.now group.now }
    requires after { IsDirectoryOf layout.now group.now.sender
        (record { sender = group.now.sender; directory = after.now }) }
    ensures write { write_of layout.now result ≡ directory_write
        (layout_of layout.now) group.now.sender group.now.directory after.now }
    ensures slots { IsSlotWrite layout.now result }
{
    prove!(group.at.page() < layout.pages() as u64);
    SlotWrite {
        at: group.at,
        before: directory_slot(group.sender, &group.directory).encode(),
        after: directory_slot(group.sender, after).encode(),
    }
}

// The directory slot of a sender that says this.
fn directory_slot(sender: u32, directory: &Directory) -> DirectorySlot
    ensures { result ≡ record { sender = sender; directory = directory.now } }
{
    DirectorySlot {
        sender,
        directory: *directory,
    }
}

/// The write that has the slot of a cell beside spell something else.
#[inline(always)]
pub(crate) fn beside_write(layout: &Layout, beside: &CellEntry, after: Slot) -> SlotWrite
    requires beside { IsCellEntryAt layout.now beside.now.at beside.now }
    ensures write { (c : Cell) → IsCellOf layout.now c → after ≡ cell_bytes c → write_of layout.now result ≡ record {
      at = beside.now.at;
      before = Used (cell_in beside.now.bytes.now);
      after = Used c;
    } }
    ensures slots { (c : Cell) → IsCellOf layout.now c → after ≡ cell_bytes c → IsSlotWrite layout.now result }
{
    prove!(beside.at.page() < layout.pages() as u64);
    SlotWrite {
        at: beside.at,
        before: *beside.bytes,
        after,
    }
}

/// The bytes of a cell's slot, followed by another one.
#[inline(always)]
pub(crate) fn followed(bytes: &Slot, next: Addr) -> Slot
    ensures { (c : Cell) → cell_bytes c ≡ bytes.now → result ≡ cell_bytes (with_next next c) }
{
    relinked(bytes, 24, next)
}

/// The bytes of a cell's slot, preceded by another one.
#[inline(always)]
pub(crate) fn preceded(bytes: &Slot, prev: Addr) -> Slot
    ensures { (c : Cell) → cell_bytes c ≡ bytes.now → result ≡ cell_bytes (with_prev prev c) }
{
    relinked(bytes, 32, prev)
}

// The bytes of a slot, with a link at a place.
#[inline(always)]
fn relinked(bytes: &Slot, at: usize, link: Addr) -> Slot
    requires { at ≤ 248 }
    ensures { result ≡ with_number 8 at link bytes.now }
{
    let mut out = *bytes;
    Fields::put_u64(&mut out, at, link.number());
    out
}

/// Puts two writes into a vector, in place of what stands there.
#[inline(always)]
pub(crate) fn put_pair(
    writes: &mut Vec<SlotWrite>,
    first: SlotWrite,
    last: SlotWrite,
) -> Result<(), NoMemory>
    ensures { OnOk result (writes.new.items ≡ first ∷ last ∷ []) }
{
    put_only(writes, first)?;
    put_last(writes, last)
}

/// Puts three writes into a vector, in place of what stands there.
#[inline(always)]
pub(crate) fn put_triple(
    writes: &mut Vec<SlotWrite>,
    first: SlotWrite,
    second: SlotWrite,
    last: SlotWrite,
) -> Result<(), NoMemory>
    ensures { OnOk result (writes.new.items ≡ first ∷ second ∷ last ∷ []) }
{
    put_pair(writes, first, second)?;
    put_last(writes, last)
}

// Puts one write more.
#[inline(always)]
fn put_last(writes: &mut Vec<SlotWrite>, last: SlotWrite) -> Result<(), NoMemory>
    ensures { OnOk result (writes.new.items ≡ writes.old.items ++ last ∷ []) }
{
    match writes.push(last) {
        Ok(()) => Ok(()),
        Err(_) => Err(NoMemory),
    }
}
