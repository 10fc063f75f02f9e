//! What stands in slots that were given.
ghost use Rattle.std.specs.Prelude.{◌≡◌, ◌<◌, IfSome, IfNone, None, Option};
ghost use Rattle.rq_page.specs.Sizes.{IsCellAddress, IsLink, directory_at, sender_count};
ghost use Rattle.rq_page.specs.Cells.{cell_in};
ghost use Rattle.rq_page.specs.Slots.{Used, Sender};
ghost use Rattle.rq_chain.specs.CellEntries.{cell_beside, IsCellEntryAt, IsGroupOf, IsNeighbour};
ghost use Rattle.rq_page.specs.declared.cell.Cell.{Cell};
ghost use Rattle.rq_level.specs.Given.{given_at, AreGiven, GivenHolds};
ghost use Rattle.rq_level.specs.ChainPlans.{Beside};

use crate::{CellEntry, DirectoryEntry};
use rq_level::Slots;
use rq_page::addr::Addr;
use rq_page::directory::DirectorySlot;
use rq_page::layout::Layout;

/// The most messages that a group may have been sent.
pub(crate) const SENT_LIMIT: u64 = 1 << 50;

/// A sender's group, where its directory slot was given.
pub(crate) fn group_given(layout: &Layout, given: &Slots, sender: u32) -> Option<DirectoryEntry>
    requires sender { sender < sender_count layout.now }
    requires given { AreGiven layout.now given.now }
    ensures group { IfSome result (λ g. IsGroupOf layout.now g × (g.sender ≡ sender)) }
    ensures holds { IfSome result (λ g. GivenHolds layout.now given.now (directory_at sender) (Sender sender g.directory)) }
    ensures none { IfNone result (given_at (directory_at sender) given.now ≡ None) }
{
    let at = layout.directory_of(sender);
    let bytes = given.get(at)?;
    let held = DirectorySlot::read(bytes);
    Some(DirectoryEntry {
        at,
        sender,
        directory: held.directory,
    })
}

/// The cell at an address of a cell page, where its slot was given and is used.
pub(crate) fn cell_given<'a>(layout: &Layout, given: &'a Slots, at: Addr) -> Option<CellEntry<'a>>
    requires at { IsCellAddress layout.now at }
    requires given { AreGiven layout.now given.now }
    ensures cell { IfSome result (λ n. IsCellEntryAt layout.now at n) }
    ensures holds { IfSome result (λ n. GivenHolds layout.now given.now at (Used (cell_in n.bytes.now))) }
    ensures none { IfNone result ((c : Cell) → GivenHolds layout.now given.now at (Used c) → ⊥) }
{
    let bytes = given.get(at)?;
    if bytes[0] == 0 {
        return None;
    }
    Some(CellEntry { at, bytes })
}

/// The cell that a link names: none where it names none. Not there where its slot was not given or is free.
pub(crate) fn beside_given<'a>(
    layout: &Layout,
    given: &'a Slots,
    at: Addr,
) -> Option<Option<CellEntry<'a>>>
    requires at { IsLink layout.now at }
    requires given { AreGiven layout.now given.now }
    ensures neighbour { IfSome result (λ b. IsNeighbour layout.now at b) }
    ensures beside { IfSome result (λ b. Beside layout.now given.now at (cell_beside b)) }
    ensures none { IfNone result ((c : Option Cell) → Beside layout.now given.now at c → ⊥) }
{
    if at.is_none() {
        return Some(None);
    }
    match cell_given(layout, given, at) {
        Some(cell) => Some(Some(cell)),
        None => None,
    }
}

/// The cell of a group's last message, or none.
pub(crate) fn tail_of(group: &DirectoryEntry) -> Addr
    ensures { result ≡ group.now.directory.tail }
{
    group.directory.tail
}

/// The cell of a group's first message, or none.
pub(crate) fn head_of(group: &DirectoryEntry) -> Addr
    ensures { result ≡ group.now.directory.head }
{
    group.directory.head
}
