//! Tells levels of slots as they are.
ghost use Rattle.std.specs.Prelude.{◌≡◌, ◌↔◌, ◌*◌, ◌<◌, ℕ, IfErr, IfOk, IfSome, IsTrue, OnOk, Some, length, slice_get};
ghost use Rattle.rq_page.specs.Cells.{free_bytes};
ghost use Rattle.rq_page.specs.Sizes.{IsCellAddress, cell_at, client_slot_at, directory_at};
ghost use Rattle.rq_views.specs.InStore.{IsClientAddress};
ghost use Rattle.rq_views.specs.Stored.{IsStoreSlot, slot_at};
ghost use Rattle.rq_level.specs.Meaning.{AreTold, kept_at, meaning_of};
ghost use Rattle.rq_level.specs.Writes.{with_plan};
ghost use Rattle.rq_pool.specs.Fetching.{HasReadFor, IsUnread};
ghost use Rattle.rq_planner.specs.Answered.{IsFreeCell, IsOverFree, KnowsBelow, KnowsCells, MayBeTold};
ghost use Rattle.rq_planner.specs.Handed.{AreForStores};

use rq_disk::PageDevice;
use rq_level::{Level, Levels, Plan, SlotWrite};
use rq_model::record::Slot;
use rq_model::refusal::Refusal;
use rq_page::addr::Addr;
use rq_page::cell::CellSlot;
use rq_page::layout::Layout;
use rq_pool::Pages;

/// Gives back the cell of what was planned, where there is a plan and it chose one.
pub(crate) fn give_back<P: PageDevice, B: Level>(
    pages: &Pages<P>,
    levels: &mut Levels<B>,
    answer: &Result<(), Refusal>,
    plan: &Plan,
)
    ensures planned { IfOk (with_plan plan.now answer.now) (λ p. MayBeTold pages.now.sizes pages.now.images (slice_get p.writes.items 0)
        levels.old levels.new) }
    ensures refused { IfErr (with_plan plan.now answer.now) (λ _. levels.new ≡ levels.old) }
{
    match answer {
        Ok(()) => unreserve(pages, levels, &plan.writes),
        Err(_) => {}
    }
}

// Tells the levels of the first slot of a plan, where a free cell stands there. No page is read: a plan that chooses a cell is over
// what that holds.
fn unreserve<P: PageDevice, B: Level>(
    pages: &Pages<P>,
    levels: &mut Levels<B>,
    writes: &[SlotWrite],
)
    ensures { MayBeTold pages.now.sizes pages.now.images (slice_get writes.now 0) levels.old levels.new }
{
    let Some(write) = writes.first() else {
        return;
    };
    if is_over_free(pages, write) {
        levels.noted(write.at, &write.before);
    }
}

// Whether the write is over a free cell, and one stands there.
fn is_over_free<P: PageDevice>(pages: &Pages<P>, write: &SlotWrite) -> bool
    ensures { IsTrue result ↔ IsOverFree pages.now.sizes pages.now.images write.now }
{
    write.before[0] == 0 && is_free(pages, write.at)
}

// Whether the store has a cell at this address, and it is free. No page is read.
fn is_free<P: PageDevice>(pages: &Pages<P>, at: Addr) -> bool
    ensures { IsTrue result ↔ IsFreeCell pages.now.sizes pages.now.images at }
{
    let layout = pages.layout();
    if !layout.is_cell_address(at) {
        return false;
    }
    is_at(&pages.next_free(layout.cell_place(at)), at)
}

/// Tells levels a store in which nothing is under way: the superblock's slot that tells the sizes, and then each slot of
/// the directory pages, of the cells and of the tag pages.
///
/// # Errors
/// `DiskRead`; `Damaged` with a page that a device gave that has lied.
pub(crate) fn tell_store<P: PageDevice, B: Level>(
    pages: &mut Pages<P>,
    levels: &mut Levels<B>,
) -> Result<(), Refusal>
    requires { AreForStores levels.old }
    ensures count { length levels.new ≡ length levels.old }
    ensures read { HasReadFor P.PageDevice pages.old result pages.new }
    ensures known { OnOk result (KnowsCells pages.new.sizes pages.new.images levels.new) }
    ensures causes { IfErr result (λ e. IsUnread P.PageDevice pages.old e pages.new) }
{
    tell_sizes(pages, levels);
    match tell_senders(pages, levels) {
        Ok(()) => {}
        Err(refusal) => return Err(refusal),
    }
    match tell_cells(pages, levels) {
        Ok(()) => {}
        Err(refusal) => return Err(refusal),
    }
    tell_clients(pages, levels)
}

// Tells them each slot of the directory pages.
fn tell_senders<P: PageDevice, B: Level>(
    pages: &mut Pages<P>,
    levels: &mut Levels<B>,
) -> Result<(), Refusal>
    requires { KnowsBelow pages.old.sizes pages.old.images (directory_at 0) levels.old }
    ensures count { length levels.new ≡ length levels.old }
    ensures read { HasReadFor P.PageDevice pages.old result pages.new }
    ensures known { OnOk result (KnowsBelow pages.new.sizes pages.new.images (cell_at pages.new.sizes 0) levels.new) }
    ensures causes { IfErr result (λ e. IsUnread P.PageDevice pages.old e pages.new) }
{
    let layout = pages.layout();
    for sender in 0..layout.senders() {
        match tell(pages, levels, layout.directory_of(sender)) {
            Ok(()) => {}
            Err(refusal) => return Err(refusal),
        }
    }
    Ok(())
}

// Tells them each cell's slot.
fn tell_cells<P: PageDevice, B: Level>(
    pages: &mut Pages<P>,
    levels: &mut Levels<B>,
) -> Result<(), Refusal>
    requires { KnowsBelow pages.old.sizes pages.old.images (cell_at pages.old.sizes 0) levels.old }
    ensures count { length levels.new ≡ length levels.old }
    ensures read { HasReadFor P.PageDevice pages.old result pages.new }
    ensures known { OnOk result (KnowsBelow pages.new.sizes pages.new.images (client_slot_at pages.new.sizes 0) levels.new) }
    ensures causes { IfErr result (λ e. IsUnread P.PageDevice pages.old e pages.new) }
{
    let layout = pages.layout();
    let empty = CellSlot::Free.encode();
    let mut free = free_from(pages, 0);
    for place in 0..layout.cell_slots() {
        let at = layout.cell_addr(place);
        match tell_cell(pages, levels, at, &free, &empty) {
            Ok(()) => {}
            Err(refusal) => return Err(refusal),
        }
        let next = free_behind(pages, &free, at, place + 1);
        free = next;
    }
    Ok(())
}

// Tells them each slot of the tag pages.
fn tell_clients<P: PageDevice, B: Level>(
    pages: &mut Pages<P>,
    levels: &mut Levels<B>,
) -> Result<(), Refusal>
    requires { KnowsBelow pages.old.sizes pages.old.images (client_slot_at pages.old.sizes 0) levels.old }
    ensures count { length levels.new ≡ length levels.old }
    ensures read { HasReadFor P.PageDevice pages.old result pages.new }
    ensures known { OnOk result (KnowsCells pages.new.sizes pages.new.images levels.new) }
    ensures causes { IfErr result (λ e. IsUnread P.PageDevice pages.old e pages.new) }
{
    let layout = pages.layout();
    for client in 0..layout.clients() {
        match tell(pages, levels, client_addr(&layout, client)) {
            Ok(()) => {}
            Err(refusal) => return Err(refusal),
        }
    }
    Ok(())
}

// Where a client's slot stands: on a tag page, and each client's by itself.
fn client_addr(layout: &Layout, client: u32) -> Addr
    requires { client < 15 * layout.now.tags }
    ensures value { result ≡ client_slot_at layout.now client }
    ensures own { IsClientAddress layout.now client result }
{
    layout.client_slot_of(client)
}

// The first free cell whose place is this one or a later one.
fn free_from<P: PageDevice>(pages: &Pages<P>, place: u32) -> Option<Addr>
    ensures { IfSome result (IsFreeCell pages.now.sizes pages.now.images) }
{
    pages.next_free(place)
}

// The same, where the cell at this address was passed, and the next place is this one.
fn free_behind<P: PageDevice>(
    pages: &Pages<P>,
    free: &Option<Addr>,
    at: Addr,
    place: u32,
) -> Option<Addr>
    requires { IfSome free.now (IsFreeCell pages.now.sizes pages.now.images) }
    ensures { IfSome result (IsFreeCell pages.now.sizes pages.now.images) }
{
    if is_at(free, at) {
        return free_from(pages, place);
    }
    *free
}

// Tells levels of a cell's slot as it is. That of the next free cell is not read: its bytes are given.
fn tell_cell<P: PageDevice, B: Level>(
    pages: &mut Pages<P>,
    levels: &mut Levels<B>,
    at: Addr,
    free: &Option<Addr>,
    empty: &Slot,
) -> Result<(), Refusal>
    requires cell { IsCellAddress pages.old.sizes at }
    requires free { IfSome free.now (IsFreeCell pages.old.sizes pages.old.images) }
    requires empty { empty.now ≡ free_bytes }
    ensures count { length levels.new ≡ length levels.old }
    ensures read { HasReadFor P.PageDevice pages.old result pages.new }
    ensures told { OnOk result (AreTold at (slot_at pages.new.images at) levels.old levels.new) }
    ensures causes { IfErr result (λ e. IsUnread P.PageDevice pages.old e pages.new) }
{
    if is_at(free, at) {
        pages.layout();
        Layout::slots_are_spellings();
        levels.noted(at, empty);
        return Ok(());
    }
    tell(pages, levels, at)
}

// Whether this is the next free cell's address.
fn is_at(free: &Option<Addr>, at: Addr) -> bool
    ensures { IsTrue result ↔ (free.now ≡ Some at) }
{
    match free {
        Some(free) => free.number() == at.number(),
        None => false,
    }
}

// Tells levels the sizes of the store.
fn tell_sizes<P: PageDevice, B: Level>(pages: &Pages<P>, levels: &mut Levels<B>)
    requires { AreForStores levels.old }
    ensures count { length levels.new ≡ length levels.old }
    ensures ready { (i : ℕ) → i < length levels.new → (meaning_of i).ready pages.now.sizes (kept_at levels.new i) }
{
    pages.shows_kept();
    pages.shows_frames();
    let superblock = pages.page(0).unwrap();
    levels.noted(Addr::new(0, 1), superblock.slot(1));
}

// Tells levels of a slot as it is.
fn tell<P: PageDevice, B: Level>(
    pages: &mut Pages<P>,
    levels: &mut Levels<B>,
    at: Addr,
) -> Result<(), Refusal>
    requires { IsStoreSlot pages.old.sizes at }
    ensures count { length levels.new ≡ length levels.old }
    ensures read { HasReadFor P.PageDevice pages.old result pages.new }
    ensures told { OnOk result (AreTold at (slot_at pages.new.images at) levels.old levels.new) }
    ensures causes { IfErr result (λ e. IsUnread P.PageDevice pages.old e pages.new) }
{
    let _layout = pages.layout();
    match pages.look(at.page() as u32) {
        Ok(()) => {
            levels.noted(at, pages.slot_at_hand(at));
            Ok(())
        }
        Err(refusal) => Err(refusal),
    }
}
