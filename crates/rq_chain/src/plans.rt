//! The plans of chain operations.
ghost use Rattle.std.specs.Prelude.{◌≡◌, ◌+◌, ◌-◌, ◌^◌, ◌<◌, ◌≤◌, OnOk, length, reverse, [], ◌∷◌};
ghost use Rattle.rq_page.specs.Cells.{cell_bytes, cell_in};
ghost use Rattle.rq_page.specs.Sizes.{IsCellAddress};
ghost use Rattle.rq_page.specs.Slots.{IsCellOf, IsDirectoryOf, Used};
ghost use Rattle.rq_views.specs.Chain.{directory_appended};
ghost use Rattle.rq_views.specs.Items.{layout_of};
ghost use Rattle.rq_views.specs.Plans.{append_writes, unlink_head_writes, unlink_tail_writes, put_back_writes, directory_write, directory_head_unlinked, directory_tail_unlinked, directory_put_back, with_next, with_prev};
ghost use Rattle.rq_level.specs.Writes.{write_of, writes_of, IsSlotWrite, AreSlotWrites};
ghost use Rattle.rq_chain.specs.CellEntries.{cell_appended, cell_beside, IsCellEntryAt, IsGroupOf, IsNeighbour};

use crate::wants::{next_in, prev_in};
use crate::writes::{
    beside_write, emptied, filled, followed, group_write, preceded, put_pair, put_triple,
};
use crate::{CellEntry, DirectoryEntry};
use rq_level::{SlotWrite, put_only};
use rq_model::message::{BODY_LIMIT, Body};
use rq_model::record::Slot;
use rq_model::refusal::NoMemory;
use rq_page::addr::Addr;
use rq_page::cell::{Cell, spell_cell};
use rq_page::directory::Directory;
use rq_page::layout::Layout;

/// Puts a group's next cell at the end of its chain: into the free slot, which the tail, if there is one, then names.
pub fn append(
    writes: &mut Vec<SlotWrite>,
    layout: &Layout,
    group: &DirectoryEntry,
    tail: &Option<CellEntry>,
    free: Addr,
    tag: u64,
    body: &[u8],
) -> Result<(), NoMemory>
    requires room { group.now.directory.sent < 2 ^ 64 - 1 }
    requires short { length body.now ≤ 216 }
    requires group { IsGroupOf layout.now group.now }
    requires tail { IsNeighbour layout.now group.now.directory.tail tail.now }
    requires free { IsCellAddress layout.now free }
    ensures writes { OnOk result (reverse (writes_of layout.now writes.new.items)
        ≡ append_writes (layout_of layout.now) group.now.sender group.now.directory free tag body.now (cell_beside tail.now)) }
    ensures slots { OnOk result (AreSlotWrites layout.now writes.new.items) }
{
    let first = filled(layout, free, next_slot(layout, group, tag, body));
    let last = group_write(layout, group, &appended(layout, group, free, tag));
    match tail {
        None => put_pair(writes, first, last),
        Some(before) => put_triple(writes, first, link_write(layout, before, free), last),
    }
}

/// Takes the first message off a chain: frees its cell, and has the next one, if there is one, come first.
pub fn unlink_head(
    writes: &mut Vec<SlotWrite>,
    layout: &Layout,
    group: &DirectoryEntry,
    head: &CellEntry,
    next: &Option<CellEntry>,
) -> Result<(), NoMemory>
    requires some { group.now.directory.received < group.now.directory.sent }
    requires group { IsGroupOf layout.now group.now }
    requires head { IsCellEntryAt layout.now group.now.directory.head head.now }
    requires next { IsNeighbour layout.now (cell_in head.now.bytes.now).next next.now }
    ensures writes { OnOk result (reverse (writes_of layout.now writes.new.items)
        ≡ unlink_head_writes (layout_of layout.now) group.now.sender group.now.directory (cell_in head.now.bytes.now)
        (cell_beside next.now)) }
    ensures slots { OnOk result (AreSlotWrites layout.now writes.new.items) }
{
    let first = emptied(layout, head);
    let last = group_write(layout, group, &head_unlinked(layout, group, head));
    match next {
        None => put_pair(writes, first, last),
        Some(after) => put_triple(writes, first, unlink_write(layout, after), last),
    }
}

/// Takes the last message off a chain: frees its cell, and has the one before it, if there is one, come last.
pub fn unlink_tail(
    writes: &mut Vec<SlotWrite>,
    layout: &Layout,
    group: &DirectoryEntry,
    tail: &CellEntry,
    front: &Option<CellEntry>,
    previous: u64,
) -> Result<(), NoMemory>
    requires some { group.now.directory.received < group.now.directory.sent }
    requires group { IsGroupOf layout.now group.now }
    requires tail { IsCellEntryAt layout.now group.now.directory.tail tail.now }
    requires front { IsNeighbour layout.now (cell_in tail.now.bytes.now).prev front.now }
    ensures writes { OnOk result (reverse (writes_of layout.now writes.new.items)
        ≡ unlink_tail_writes (layout_of layout.now) group.now.sender group.now.directory (cell_in tail.now.bytes.now) previous
        (cell_beside front.now)) }
    ensures slots { OnOk result (AreSlotWrites layout.now writes.new.items) }
{
    let first = emptied(layout, tail);
    let after = tail_unlinked(layout, group, tail, previous);
    let last = group_write(layout, group, &after);
    match front {
        None => put_pair(writes, first, last),
        Some(before) => put_triple(writes, first, cut_write(layout, before), last),
    }
}

/// Puts a message back in front of a chain: into the free cell, which the head, if there is one, then follows.
pub fn put_back(
    writes: &mut Vec<SlotWrite>,
    layout: &Layout,
    group: &DirectoryEntry,
    head: &Option<CellEntry>,
    free: Addr,
    tag: u64,
    body: &Body,
) -> Result<(), NoMemory>
    requires some { 0 < group.now.directory.received }
    requires group { IsGroupOf layout.now group.now }
    requires head { IsNeighbour layout.now group.now.directory.head head.now }
    requires free { IsCellAddress layout.now free }
    ensures writes { OnOk result (reverse (writes_of layout.now writes.new.items)
        ≡ put_back_writes (layout_of layout.now) group.now.sender group.now.directory free tag body.now (cell_beside head.now)) }
    ensures slots { OnOk result (AreSlotWrites layout.now writes.new.items) }
{
    let new = returned_cell(layout, group, tag, body);
    let first = filled(layout, free, new.encode());
    let last = group_write(layout, group, &returned(layout, group, free));
    match head {
        None => put_pair(writes, first, last),
        Some(after) => put_triple(writes, first, lead_write(layout, after, free), last),
    }
}

/// Closes a group, or opens it again.
pub fn set_closed(
    writes: &mut Vec<SlotWrite>,
    layout: &Layout,
    group: &DirectoryEntry,
    closed: bool,
) -> Result<(), NoMemory>
    requires group { IsGroupOf layout.now group.now }
    ensures writes { OnOk result (reverse (writes_of layout.now writes.new.items)
        ≡ directory_write (layout_of layout.now) group.now.sender group.now.directory
        (record group.now.directory { closed = closed }) ∷ []) }
    ensures slots { OnOk result (AreSlotWrites layout.now writes.new.items) }
{
    let write = group_write(layout, group, &with_closed(layout, group, closed));
    put_only(writes, write)
}

// The slot of a group's next message.
#[inline(always)]
fn next_slot(layout: &Layout, group: &DirectoryEntry, tag: u64, body: &[u8]) -> Slot
    requires room { group.now.directory.sent < 2 ^ 64 - 1 }
    requires group { IsGroupOf layout.now group.now }
    requires short { length body.now ≤ 216 }
    ensures bytes { result ≡ cell_bytes (cell_appended group.now tag body.now) }
    ensures fits { IsCellOf layout.now (cell_appended group.now tag body.now) }
{
    prove!(group.sender < layout.senders());
    spell_cell(
        group.sender,
        group.directory.sent + 1,
        tag,
        Addr::NONE,
        group.directory.tail,
        body,
    )
}

// What the directory says of a group with one message more, which stands in this cell.
fn appended(layout: &Layout, group: &DirectoryEntry, cell: Addr, tag: u64) -> Directory
    requires room { group.now.directory.sent < 2 ^ 64 - 1 }
    requires group { IsGroupOf layout.now group.now }
    requires cell { IsCellAddress layout.now cell }
    ensures directory { result ≡ directory_appended group.now.directory cell tag }
    ensures fits { IsDirectoryOf layout.now group.now.sender
        (record { sender = group.now.sender; directory = result }) }
{
    prove!(cell.page() < layout.pages() as u64);
    let old = &group.directory;
    Directory {
        closed: old.closed,
        sent: old.sent + 1,
        received: old.received,
        last_tag: tag,
        head: if old.tail.is_none() { cell } else { old.head },
        tail: cell,
    }
}

// What the directory says of a group without its first message, which stands in this cell.
fn head_unlinked(layout: &Layout, group: &DirectoryEntry, head: &CellEntry) -> Directory
    requires some { group.now.directory.received < group.now.directory.sent }
    requires group { IsGroupOf layout.now group.now }
    requires head { IsCellEntryAt layout.now group.now.directory.head head.now }
    ensures directory { result ≡ directory_head_unlinked group.now.directory (cell_in head.now.bytes.now) }
    ensures fits { IsDirectoryOf layout.now group.now.sender
        (record { sender = group.now.sender; directory = result }) }
{
    let old = &group.directory;
    let next = next_in(head.bytes);
    Directory {
        closed: old.closed,
        sent: old.sent,
        received: old.received + 1,
        last_tag: old.last_tag,
        head: next,
        tail: if next.is_none() { Addr::NONE } else { old.tail },
    }
}

// The cell of a message that comes back to the front of its group.
fn returned_cell(layout: &Layout, group: &DirectoryEntry, tag: u64, body: &Body) -> Cell
    requires some { 0 < group.now.directory.received }
    requires group { IsGroupOf layout.now group.now }
    ensures cell { result ≡ record {
      sender = group.now.sender;
      sequence = group.now.directory.received;
      tag = tag;
      next = group.now.directory.head;
      prev = 0;
      body = body.now;
    } }
    ensures fits { IsCellOf layout.now result }
{
    prove!(body.as_slice().len() <= BODY_LIMIT);
    prove!(group.sender < layout.senders());
    Cell {
        sender: group.sender,
        sequence: group.directory.received,
        tag,
        next: group.directory.head,
        prev: Addr::NONE,
        body: *body,
    }
}

// What the directory says of a group without its last message, which stands in this cell.
fn tail_unlinked(
    layout: &Layout,
    group: &DirectoryEntry,
    tail: &CellEntry,
    previous: u64,
) -> Directory
    requires some { group.now.directory.received < group.now.directory.sent }
    requires group { IsGroupOf layout.now group.now }
    requires tail { IsCellEntryAt layout.now group.now.directory.tail tail.now }
    ensures directory { result ≡ directory_tail_unlinked group.now.directory (cell_in tail.now.bytes.now) previous }
    ensures fits { IsDirectoryOf layout.now group.now.sender
        (record { sender = group.now.sender; directory = result }) }
{
    let old = &group.directory;
    let front = prev_in(tail.bytes);
    Directory {
        closed: old.closed,
        sent: old.sent - 1,
        received: old.received,
        last_tag: previous,
        head: if front.is_none() {
            Addr::NONE
        } else {
            old.head
        },
        tail: front,
    }
}

// What the directory says of a group with a message back in front, which stands in this cell.
fn returned(layout: &Layout, group: &DirectoryEntry, cell: Addr) -> Directory
    requires some { 0 < group.now.directory.received }
    requires group { IsGroupOf layout.now group.now }
    requires cell { IsCellAddress layout.now cell }
    ensures directory { result ≡ directory_put_back group.now.directory cell }
    ensures fits { IsDirectoryOf layout.now group.now.sender
        (record { sender = group.now.sender; directory = result }) }
{
    prove!(cell.page() < layout.pages() as u64);
    let old = &group.directory;
    Directory {
        closed: old.closed,
        sent: old.sent,
        received: old.received - 1,
        last_tag: old.last_tag,
        head: cell,
        tail: if old.head.is_none() { cell } else { old.tail },
    }
}

// What the directory says of a group that is closed or not.
fn with_closed(layout: &Layout, group: &DirectoryEntry, closed: bool) -> Directory
    requires group { IsGroupOf layout.now group.now }
    ensures directory { result ≡ record group.now.directory { closed = closed } }
    ensures fits { IsDirectoryOf layout.now group.now.sender
        (record { sender = group.now.sender; directory = result }) }
{
    let old = &group.directory;
    Directory {
        closed,
        sent: old.sent,
        received: old.received,
        last_tag: old.last_tag,
        head: old.head,
        tail: old.tail,
    }
}

// The write that has a cell followed by another one.
fn link_write(layout: &Layout, before: &CellEntry, next: Addr) -> SlotWrite
    requires before { IsCellEntryAt layout.now before.now.at before.now }
    requires next { IsCellAddress layout.now next }
    ensures write { write_of layout.now result ≡ record {
      at = before.now.at;
      before = Used (cell_in before.now.bytes.now);
      after = Used (with_next next (cell_in before.now.bytes.now));
    } }
    ensures slots { IsSlotWrite layout.now result }
{
    prove!(next.page() < layout.pages() as u64);
    beside_write(layout, before, followed(before.bytes, next))
}

// The write that has no cell before a cell.
fn unlink_write(layout: &Layout, after: &CellEntry) -> SlotWrite
    requires after { IsCellEntryAt layout.now after.now.at after.now }
    ensures write { write_of layout.now result ≡ record {
      at = after.now.at;
      before = Used (cell_in after.now.bytes.now);
      after = Used (with_prev 0 (cell_in after.now.bytes.now));
    } }
    ensures slots { IsSlotWrite layout.now result }
{
    beside_write(layout, after, preceded(after.bytes, Addr::NONE))
}

// The write that has no cell behind a cell.
fn cut_write(layout: &Layout, before: &CellEntry) -> SlotWrite
    requires before { IsCellEntryAt layout.now before.now.at before.now }
    ensures write { write_of layout.now result ≡ record {
      at = before.now.at;
      before = Used (cell_in before.now.bytes.now);
      after = Used (with_next 0 (cell_in before.now.bytes.now));
    } }
    ensures slots { IsSlotWrite layout.now result }
{
    beside_write(layout, before, followed(before.bytes, Addr::NONE))
}

// The write that has another cell before a cell.
fn lead_write(layout: &Layout, after: &CellEntry, first: Addr) -> SlotWrite
    requires after { IsCellEntryAt layout.now after.now.at after.now }
    requires first { IsCellAddress layout.now first }
    ensures write { write_of layout.now result ≡ record {
      at = after.now.at;
      before = Used (cell_in after.now.bytes.now);
      after = Used (with_prev first (cell_in after.now.bytes.now));
    } }
    ensures slots { IsSlotWrite layout.now result }
{
    prove!(first.page() < layout.pages() as u64);
    beside_write(layout, after, preceded(after.bytes, first))
}
