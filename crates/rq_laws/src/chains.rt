//! Plans on the chain of a group. A plan is compared as writes over what the slots hold.
ghost use Rattle.std.specs.Prelude.{◌≡◌, ◌-◌, ◌<◌, ◌≤◌, ◌^◌, IfOk, length, reverse};
ghost use Rattle.rq_page.specs.Cells.{cell_in};
ghost use Rattle.rq_page.specs.Sizes.{IsCellAddress};
ghost use Rattle.rq_level.specs.Writes.{writes_of};
ghost use Rattle.rq_views.specs.Items.{layout_of};
ghost use Rattle.rq_views.specs.Plans.{append_writes, put_back_writes, unlink_head_writes};
ghost use Rattle.rq_chain.specs.CellEntries.{IsGroupOf, IsCellEntryAt, IsNeighbour, cell_beside};

use rq_chain::{CellEntry, DirectoryEntry, append, put_back, unlink_head};
use rq_level::SlotWrite;
use rq_model::message::Body;
use rq_model::refusal::NoMemory;
use rq_page::addr::Addr;
use rq_page::layout::Layout;
use std::alloc::Global;

/// A send writes the same slots. Excludes a plan that links the new cell elsewhere than behind the tail.
pub fn sends(
    alloc: Global,
    layout: &Layout,
    group: &DirectoryEntry,
    tail: &Option<CellEntry>,
    tail_again: &Option<CellEntry>,
    free: Addr,
    tag: u64,
    body: &[u8],
    body_again: &[u8],
) -> (
    Result<Vec<SlotWrite>, NoMemory>,
    Result<Vec<SlotWrite>, NoMemory>,
)
    requires room { group.now.directory.sent < 2 ^ 64 - 1 }
    requires group { IsGroupOf layout.now group.now }
    requires tail { IsNeighbour layout.now group.now.directory.tail tail.now }
    requires again { IsNeighbour layout.now group.now.directory.tail tail_again.now }
    requires same { cell_beside tail_again.now ≡ cell_beside tail.now }
    requires short { length body.now ≤ 216 }
    requires body { body_again.now ≡ body.now }
    requires free { IsCellAddress layout.now free }
    ensures { IfOk result.0 (λ a. IfOk result.1
        (λ b. reverse (writes_of layout.now a.items) ≡ reverse (writes_of layout.now b.items))) }
{
    (
        sent(alloc, layout, group, tail, free, tag, body),
        sent(alloc, layout, group, tail_again, free, tag, body_again),
    )
}

/// A receive writes the same slots. Excludes a plan that leaves the first cell at the head, so that it is received again.
pub fn takes(
    alloc: Global,
    layout: &Layout,
    group: &DirectoryEntry,
    head: &CellEntry,
    next: &Option<CellEntry>,
    next_again: &Option<CellEntry>,
) -> (
    Result<Vec<SlotWrite>, NoMemory>,
    Result<Vec<SlotWrite>, NoMemory>,
)
    requires some { group.now.directory.received < group.now.directory.sent }
    requires group { IsGroupOf layout.now group.now }
    requires head { IsCellEntryAt layout.now group.now.directory.head head.now }
    requires next { IsNeighbour layout.now (cell_in head.now.bytes.now).next next.now }
    requires again { IsNeighbour layout.now (cell_in head.now.bytes.now).next next_again.now }
    requires same { cell_beside next_again.now ≡ cell_beside next.now }
    ensures { IfOk result.0 (λ a. IfOk result.1
        (λ b. reverse (writes_of layout.now a.items) ≡ reverse (writes_of layout.now b.items))) }
{
    (
        taken(alloc, layout, group, head, next),
        taken(alloc, layout, group, head, next_again),
    )
}

/// What takes a receive back writes the same slots. Excludes a plan that puts the message anywhere but in front.
pub fn puts_back(
    alloc: Global,
    layout: &Layout,
    group: &DirectoryEntry,
    head: &Option<CellEntry>,
    head_again: &Option<CellEntry>,
    free: Addr,
    tag: u64,
    body: Body,
    body_again: Body,
) -> (
    Result<Vec<SlotWrite>, NoMemory>,
    Result<Vec<SlotWrite>, NoMemory>,
)
    requires some { 0 < group.now.directory.received }
    requires group { IsGroupOf layout.now group.now }
    requires head { IsNeighbour layout.now group.now.directory.head head.now }
    requires again { IsNeighbour layout.now group.now.directory.head head_again.now }
    requires same { cell_beside head_again.now ≡ cell_beside head.now }
    requires body { body_again ≡ body }
    requires free { IsCellAddress layout.now free }
    ensures { IfOk result.0 (λ a. IfOk result.1
        (λ b. reverse (writes_of layout.now a.items) ≡ reverse (writes_of layout.now b.items))) }
{
    (
        taken_back(alloc, layout, group, head, free, tag, &body),
        taken_back(alloc, layout, group, head_again, free, tag, &body_again),
    )
}

// The writes of a send.
fn sent(
    alloc: Global,
    layout: &Layout,
    group: &DirectoryEntry,
    tail: &Option<CellEntry>,
    free: Addr,
    tag: u64,
    body: &[u8],
) -> Result<Vec<SlotWrite>, NoMemory>
    requires room { group.now.directory.sent < 2 ^ 64 - 1 }
    requires short { length body.now ≤ 216 }
    requires group { IsGroupOf layout.now group.now }
    requires tail { IsNeighbour layout.now group.now.directory.tail tail.now }
    requires free { IsCellAddress layout.now free }
    ensures { IfOk result (λ all. reverse (writes_of layout.now all.items) ≡ append_writes (layout_of layout.now)
        group.now.sender group.now.directory free tag body.now (cell_beside tail.now)) }
{
    let mut writes = Vec::new(alloc);
    match append(&mut writes, layout, group, tail, free, tag, body) {
        Ok(()) => Ok(writes),
        Err(wanting) => Err(wanting),
    }
}

// The writes of a receive.
fn taken(
    alloc: Global,
    layout: &Layout,
    group: &DirectoryEntry,
    head: &CellEntry,
    next: &Option<CellEntry>,
) -> Result<Vec<SlotWrite>, NoMemory>
    requires some { group.now.directory.received < group.now.directory.sent }
    requires group { IsGroupOf layout.now group.now }
    requires head { IsCellEntryAt layout.now group.now.directory.head head.now }
    requires next { IsNeighbour layout.now (cell_in head.now.bytes.now).next next.now }
    ensures { IfOk result (λ all. reverse (writes_of layout.now all.items) ≡ unlink_head_writes (layout_of layout.now)
        group.now.sender group.now.directory (cell_in head.now.bytes.now) (cell_beside next.now)) }
{
    let mut writes = Vec::new(alloc);
    match unlink_head(&mut writes, layout, group, head, next) {
        Ok(()) => Ok(writes),
        Err(wanting) => Err(wanting),
    }
}

// The writes of what takes a receive back.
fn taken_back(
    alloc: Global,
    layout: &Layout,
    group: &DirectoryEntry,
    head: &Option<CellEntry>,
    free: Addr,
    tag: u64,
    body: &Body,
) -> Result<Vec<SlotWrite>, NoMemory>
    requires some { 0 < group.now.directory.received }
    requires group { IsGroupOf layout.now group.now }
    requires head { IsNeighbour layout.now group.now.directory.head head.now }
    requires free { IsCellAddress layout.now free }
    ensures { IfOk result (λ all. reverse (writes_of layout.now all.items) ≡ put_back_writes (layout_of layout.now)
        group.now.sender group.now.directory free tag body.now (cell_beside head.now)) }
{
    let mut writes = Vec::new(alloc);
    match put_back(&mut writes, layout, group, head, free, tag, body) {
        Ok(()) => Ok(writes),
        Err(wanting) => Err(wanting),
    }
}
