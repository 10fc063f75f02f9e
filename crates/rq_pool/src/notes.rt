//! Which cells are free and which groups are closed, by an index of each.
ghost use Rattle.std.specs.Prelude.{◌≡◌, ◌≢◌, ◌↔◌, ◌*◌, ◌/◌, ◌%◌, ◌<◌, ◌≤◌, ℕ, IfSome, IfNone, IsTrue, cond, length};
ghost use Rattle.rq_bitset.specs.Flags.{flag_at};
ghost use Rattle.rq_page.specs.Pages.{slot_of};
ghost use Rattle.rq_page.specs.Sizes.{IsCellAddress, cell_count, cell_at, directory_at, sender_count};
ghost use Rattle.rq_page.specs.Slots.{held_in};
ghost use Rattle.rq_pool.specs.Indexed.{AreNotedOn, IsNotedOn, closed_flag, closed_groups, free_cells, free_flag};

use rq_bitset::Index;
use rq_page::addr::Addr;
use rq_page::directory::DirectorySlot;
use rq_page::layout::{Layout, SLOTS};
use rq_page::page::Page;

/// Notes of each slot of a page what the indexes tell of it.
pub(crate) fn note_page(
    free: &mut Index,
    closed: &mut Index,
    layout: &Layout,
    page: &Page,
    number: u32,
)
    requires cells { cell_count layout.now ≤ 64 * length free.old }
    requires groups { sender_count layout.now ≤ 64 * length closed.old }
    ensures free { AreNotedOn (free_cells layout.now) layout.now number page.now free.new }
    ensures free_others { (k : ℕ) → (k < cell_count layout.now → cell_at layout.now k / 16 ≢ number)
        → flag_at free.new k ≡ flag_at free.old k }
    ensures free_same { length free.new ≡ length free.old }
    ensures closed { AreNotedOn (closed_groups layout.now) layout.now number page.now closed.new }
    ensures closed_others { (k : ℕ) → (k < sender_count layout.now → directory_at k / 16 ≢ number)
        → flag_at closed.new k ≡ flag_at closed.old k }
    ensures closed_same { length closed.new ≡ length closed.old }
{
    for slot in 1..SLOTS as u8 + 1 {
        let at = Addr::new(number, slot);
        note_cell(free, layout, page, at);
        note_group(closed, layout, page, at);
    }
}

/// Notes of the cell at an address of this page whether it is free. Nothing changes where it is that of no cell.
pub(crate) fn note_cell(free: &mut Index, layout: &Layout, page: &Page, at: Addr)
    requires room { cell_count layout.now ≤ 64 * length free.old }
    ensures noted { (k : ℕ) → k < cell_count layout.now → cell_at layout.now k ≡ at
        → IsNotedOn (free_cells layout.now) layout.now page.now free.new k }
    ensures others { (k : ℕ) → (k < cell_count layout.now → cell_at layout.now k ≢ at)
        → flag_at free.new k ≡ flag_at free.old k }
    ensures same { length free.new ≡ length free.old }
{
    if layout.is_cell_address(at) {
        let place = layout.cell_place(at);
        free.put(place as usize, is_free(layout, page, at));
    }
}

/// Notes of the group whose directory slot stands at an address of this page whether it is closed. Nothing changes where none
/// does.
pub(crate) fn note_group(closed: &mut Index, layout: &Layout, page: &Page, at: Addr)
    requires room { sender_count layout.now ≤ 64 * length closed.old }
    ensures noted { (s : ℕ) → s < sender_count layout.now → directory_at s ≡ at
        → IsNotedOn (closed_groups layout.now) layout.now page.now closed.new s }
    ensures others { (s : ℕ) → (s < sender_count layout.now → directory_at s ≢ at)
        → flag_at closed.new s ≡ flag_at closed.old s }
    ensures same { length closed.new ≡ length closed.old }
{
    if let Some(sender) = sender_of(layout, at) {
        let is_closed = is_closed(layout, page, at);
        closed.put(sender as usize, is_closed);
    }
}

/// Whether the indexes tell of each slot of a page what it holds.
pub(crate) fn are_noted(
    free: &Index,
    closed: &Index,
    layout: &Layout,
    page: &Page,
    number: u32,
) -> bool
    ensures { IsTrue result ↔ (AreNotedOn (free_cells layout.now) layout.now number page.now free.now
        × AreNotedOn (closed_groups layout.now) layout.now number page.now closed.now) }
{
    for slot in 1..SLOTS as u8 + 1 {
        let at = Addr::new(number, slot);
        if !is_cell_noted(free, layout, page, at) || !is_group_noted(closed, layout, page, at) {
            return false;
        }
    }
    true
}

// Whether the index tells of the cell at an address of this page whether it is free.
fn is_cell_noted(free: &Index, layout: &Layout, page: &Page, at: Addr) -> bool
    ensures { IsTrue result ↔ ((k : ℕ) → k < cell_count layout.now → cell_at layout.now k ≡ at
        → IsNotedOn (free_cells layout.now) layout.now page.now free.now k) }
{
    if !layout.is_cell_address(at) {
        return true;
    }
    let place = layout.cell_place(at);
    free.has(place as usize) == is_free(layout, page, at)
}

// Whether the index tells of the group whose directory slot stands at an address of this page whether it is closed.
fn is_group_noted(closed: &Index, layout: &Layout, page: &Page, at: Addr) -> bool
    ensures { IsTrue result ↔ ((s : ℕ) → s < sender_count layout.now → directory_at s ≡ at
        → IsNotedOn (closed_groups layout.now) layout.now page.now closed.now s) }
{
    match sender_of(layout, at) {
        Some(sender) => closed.has(sender as usize) == is_closed(layout, page, at),
        None => true,
    }
}

// Whether the cell at an address of this page is free.
fn is_free(layout: &Layout, page: &Page, at: Addr) -> bool
    requires { IsCellAddress layout.now at }
    ensures { cond result 1 0 ≡ free_flag (held_in layout.now (at / 16) (slot_of (at % 16) page.now)) }
{
    let _layout = *layout;
    page.slot(at.slot())[0] == 0
}

// Whether the directory slot at an address of this page is that of a closed group.
fn is_closed(layout: &Layout, page: &Page, at: Addr) -> bool
    requires low { 1 ≤ at / 16 }
    requires high { at / 16 ≤ layout.now.directory }
    requires slot { 1 ≤ at % 16 }
    ensures { cond result 1 0 ≡ closed_flag (held_in layout.now (at / 16) (slot_of (at % 16) page.now)) }
{
    let _layout = *layout;
    DirectorySlot::tells_closed(page.slot(at.slot()))
}

// The sender whose directory slot stands at an address; none where it is no such slot's.
fn sender_of(layout: &Layout, at: Addr) -> Option<u32>
    ensures below { IfSome result (λ s. s < sender_count layout.now) }
    ensures at { IfSome result (λ s. directory_at s ≡ at) }
    ensures none { IfNone result ((s : ℕ) → s < sender_count layout.now → directory_at s ≢ at) }
{
    if at.page() == 0 || at.page() > layout.directory() as u64 || at.slot() == 0 {
        return None;
    }
    Some(layout.sender_at(at.page() as u32, at.slot()))
}
