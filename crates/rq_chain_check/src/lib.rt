//! Whether each sender's chain of cells is whole, and each used cell in one of them.
#![tactic(auto)]

ghost use Rattle.std.specs.Prelude.{◌≡◌, ◌↔◌, ◌*◌, ◌+◌, ◌<◌, ◌≤◌, ◌⊎◌, ℕ, List, Some, length, true, IsTrue, IfOk, IfErr, IfSome, IfNone};
ghost use Rattle.std.specs.Bool.{OnTrue, OnFalse};
ghost use Rattle.rq_bitset.specs.Flags.{flag_at};
ghost use Rattle.rq_page.specs.Sizes.{IsCellAddress, IsLink, cell_at, cell_count, directory_at, page_count, sender_count};
ghost use Rattle.rq_page.specs.Slots.{Sender};
ghost use Rattle.rq_views.specs.Chain.{Node};
ghost use Rattle.rq_views.specs.Log.{cells_of};
ghost use Rattle.rq_views.specs.Stored.{slots_in};
ghost use Rattle.rq_pool.specs.Fetching.{HasReadFor, IsReadAsStored, IsUnread, ReadsTruly};
ghost use Rattle.rq_chain_check.specs.Follows.{AreFollowed, EndsSo, IsFollowed, IsLinkedCell, IsNextFree};
ghost use Rattle.rq_chain_check.specs.Links.{AreLinked, IsChain, IsFault, IsFirstBroken, IsFirstUnmet};
ghost use Rattle.rq_chain_check.specs.Stops.{ChecksNot};
ghost use Rattle.rq_chain_check.specs.Theorems.{FaultsAreExact, SoundStoresAreLinked};

use rq_bitset::Index;
use rq_disk::PageDevice;
use rq_model::refusal::Refusal;
use rq_page::addr::Addr;
use rq_page::directory::Directory;
use rq_pool::Pages;
use std::alloc::Global;

/// Where the chains of the senders are not whole, the page to be named; none where they are.
///
/// A sender's chain is whole where the cells from its head on, each by the link of the one before, are as follows. They
/// are used and carry the sender. Their sequence numbers go from received + 1 to sent in order. Each names the one
/// before, and the last one is the tail. Where nothing is left, the chain has neither head nor tail. Each used cell is
/// to stand in one chain.
///
/// The page is that of the directory slot of the first sender whose chain is not whole. Else it is the first page with
/// a used cell that is in no chain.
///
/// # Errors
/// `NoMemory`; `DiskRead`, where a page stands in no frame; `Damaged` with a page that a device gave that has lied.
pub fn first_broken<P: PageDevice>(
    alloc: Global,
    pages: &mut Pages<P>,
) -> Result<Option<u32>, Refusal>
    ensures whole { ReadsTruly P.PageDevice pages.old result pages.new → IfOk result (λ page. IfNone page
        (AreLinked pages.old.sizes (slots_in pages.old.sizes pages.old.images))) }
    ensures fault { ReadsTruly P.PageDevice pages.old result pages.new → IfOk result (λ page. IfSome page
        (λ number. IsFault pages.old.sizes (slots_in pages.old.sizes pages.old.images) number)) }
    ensures named { IfOk result (λ page. IfSome page (λ number. number < page_count pages.old.sizes)) }
    ensures refused { IfErr result (λ e. ChecksNot P.PageDevice pages.old e pages.new) }
    ensures read { HasReadFor P.PageDevice pages.old result pages.new }
{
    let Ok(mut met) = Index::new(alloc, pages.layout().cell_slots()) else {
        return Err(Refusal::NoMemory);
    };
    match first_unlinked(pages, &mut met) {
        Ok(Some(page)) => Ok(Some(page)),
        Ok(None) => Ok(first_unmet(pages, &met)),
        Err(refusal) => Err(refusal),
    }
}

// Follows each sender's chain and notes its cells; or the page of the first sender that has none.
fn first_unlinked<P: PageDevice>(
    pages: &mut Pages<P>,
    met: &mut Index,
) -> Result<Option<u32>, Refusal>
    requires room { cell_count pages.old.sizes ≤ 64 * length met.old }
    requires none { (k : ℕ) → flag_at met.old k ≡ 0 }
    ensures whole { IsReadAsStored P.PageDevice pages.old pages.new → IfOk result (λ broken. IfNone broken
        (AreFollowed pages.old.sizes (slots_in pages.old.sizes pages.old.images) (sender_count pages.old.sizes)
        met.new)) }
    ensures broken { IsReadAsStored P.PageDevice pages.old pages.new → IfOk result (λ broken. IfSome broken
        (λ page. IsFirstBroken pages.old.sizes (slots_in pages.old.sizes pages.old.images) page)) }
    ensures named { IfOk result (λ broken. IfSome broken (λ page. page < page_count pages.old.sizes)) }
    ensures refused { IfErr result (λ e. IsUnread P.PageDevice pages.old e pages.new) }
    ensures read { HasReadFor P.PageDevice pages.old result pages.new }
{
    for sender in 0..pages.layout().senders() {
        match follow(pages, sender, met) {
            Ok(true) => {}
            Ok(false) => {
                let at = pages.layout().directory_of(sender);
                return Ok(Some(at.page() as u32));
            }
            Err(refusal) => return Err(refusal),
        }
    }
    Ok(None)
}

// Follows a sender's chain, and notes its cells. Whether it is whole.
fn follow<P: PageDevice>(
    pages: &mut Pages<P>,
    sender: u32,
    met: &mut Index,
) -> Result<bool, Refusal>
    requires sender { sender < sender_count pages.old.sizes }
    requires room { cell_count pages.old.sizes ≤ 64 * length met.old }
    ensures whole { IsReadAsStored P.PageDevice pages.old pages.new → IfOk result (λ whole. OnTrue whole
        (IsFollowed pages.old.sizes (slots_in pages.old.sizes pages.old.images) sender met.old met.new)) }
    ensures broken { IsReadAsStored P.PageDevice pages.old pages.new → IfOk result (λ whole. OnFalse whole
        ((nodes : List Node) → IsChain (slots_in pages.old.sizes pages.old.images) sender nodes → ⊥)) }
    ensures same { length met.new ≡ length met.old }
    ensures refused { IfErr result (λ e. IsUnread P.PageDevice pages.old e pages.new) }
    ensures read { HasReadFor P.PageDevice pages.old result pages.new }
{
    match pages.read_group(sender) {
        Ok(group) => follow_cells(pages, sender, &group, met),
        Err(refusal) => Err(refusal),
    }
}

// The same of a sender whose directory slot says this.
fn follow_cells<P: PageDevice>(
    pages: &mut Pages<P>,
    sender: u32,
    group: &Directory,
    met: &mut Index,
) -> Result<bool, Refusal>
    requires held { slots_in pages.old.sizes pages.old.images (directory_at sender) ≡ Sender sender group.now }
    requires head { IsLink pages.old.sizes group.now.head }
    requires room { cell_count pages.old.sizes ≤ 64 * length met.old }
    ensures whole { IsReadAsStored P.PageDevice pages.old pages.new → IfOk result (λ whole. OnTrue whole
        (IsFollowed pages.old.sizes (slots_in pages.old.sizes pages.old.images) sender met.old met.new)) }
    ensures broken { IsReadAsStored P.PageDevice pages.old pages.new → IfOk result (λ whole. OnFalse whole
        ((nodes : List Node) → IsChain (slots_in pages.old.sizes pages.old.images) sender nodes → ⊥)) }
    ensures same { length met.new ≡ length met.old }
    ensures refused { IfErr result (λ e. IsUnread P.PageDevice pages.old e pages.new) }
    ensures read { HasReadFor P.PageDevice pages.old result pages.new }
{
    let layout = pages.layout();
    let mut before = Addr::NONE;
    let mut at = group.head;
    for received in group.received..group.sent {
        let next = match linked_cell(pages, sender, received + 1, before, at) {
            Ok(Some(next)) => next,
            Ok(None) => return Ok(false),
            Err(refusal) => return Err(refusal),
        };
        met.put(layout.cell_place(at) as usize, true);
        before = at;
        at = next;
    }
    Ok(is_end(group, before, at))
}

// Whether a chain that was followed to its last cell ends as the directory says.
fn is_end(group: &Directory, last: Addr, next: Addr) -> bool
    ensures { IsTrue result ↔ EndsSo group.now last next }
{
    group.received <= group.sent && next.is_none() && last == group.tail
}

// The link of the cell at an address. That cell has to be used, to carry the sender and this number, and to name the one
// before it; else none.
fn linked_cell<P: PageDevice>(
    pages: &mut Pages<P>,
    sender: u32,
    sequence: u64,
    before: Addr,
    at: Addr,
) -> Result<Option<Addr>, Refusal>
    requires { IsLink pages.old.sizes at }
    ensures cell { IfOk result (λ found. IfSome found (λ next.
        IsLinkedCell (cells_of (slots_in pages.new.sizes pages.new.images)) sender sequence before at next)) }
    ensures place { IfOk result (λ found. IfSome found (λ next. IsCellAddress pages.old.sizes at)) }
    ensures link { IfOk result (λ found. IfSome found (λ next. IsLink pages.new.sizes next)) }
    ensures none { IfOk result (λ found. IfNone found ((next : ℕ)
        → IsLinkedCell (cells_of (slots_in pages.new.sizes pages.new.images)) sender sequence before at next → ⊥)) }
    ensures refused { IfErr result (λ e. IsUnread P.PageDevice pages.old e pages.new) }
    ensures read { HasReadFor P.PageDevice pages.old result pages.new }
{
    if at.is_none() {
        return Ok(None);
    }
    match pages.read_cell(at) {
        Ok(Some(cell)) => {
            if cell.sender == sender && cell.sequence == sequence && cell.prev == before {
                Ok(Some(cell.next))
            } else {
                Ok(None)
            }
        }
        Ok(None) => Ok(None),
        Err(refusal) => Err(refusal),
    }
}

// The first page with a used cell that is not noted. No page is read.
fn first_unmet<P: PageDevice>(pages: &Pages<P>, met: &Index) -> Option<u32>
    ensures whole { AreFollowed pages.now.sizes (slots_in pages.now.sizes pages.now.images)
        (sender_count pages.now.sizes) met.now → IfNone result (AreLinked pages.now.sizes
        (slots_in pages.now.sizes pages.now.images)) }
    ensures unmet { AreFollowed pages.now.sizes (slots_in pages.now.sizes pages.now.images)
        (sender_count pages.now.sizes) met.now → IfSome result (λ page. IsFirstUnmet pages.now.sizes
        (slots_in pages.now.sizes pages.now.images) page) }
    ensures named { IfSome result (λ page. page < page_count pages.now.sizes) }
{
    let layout = pages.layout();
    let mut free = next_free(pages, 0);
    for place in 0..layout.cell_slots() {
        let at = layout.cell_addr(place);
        if is_unmet(met, place, &free, at) {
            return Some(at.page() as u32);
        }
        let next = passed(pages, &free, at, place, place + 1);
        free = next;
    }
    None
}

// The free cell with the lowest address whose place is this one or a later one.
fn next_free<P: PageDevice>(pages: &Pages<P>, from: u32) -> Option<Addr>
    ensures { IsNextFree pages.now.sizes (slots_in pages.now.sizes pages.now.images) from result }
{
    pages.next_free(from)
}

// The same from the place behind this one on.
fn passed<P: PageDevice>(
    pages: &Pages<P>,
    free: &Option<Addr>,
    at: Addr,
    place: u32,
    from: u32,
) -> Option<Addr>
    requires at { at ≡ cell_at pages.now.sizes place }
    requires from { from ≡ place + 1 }
    requires free { IsNextFree pages.now.sizes (slots_in pages.now.sizes pages.now.images) place free.now }
    ensures { IsNextFree pages.now.sizes (slots_in pages.now.sizes pages.now.images) from result }
{
    if is_at(free, at) {
        return next_free(pages, from);
    }
    *free
}

// Whether a cell is not the next free one, and not noted.
fn is_unmet(met: &Index, place: u32, free: &Option<Addr>, at: Addr) -> bool
    ensures unmet { OnTrue result ((free.now ≡ Some at → ⊥) × (flag_at met.now place ≡ 1 → ⊥)) }
    ensures met { OnFalse result ((free.now ≡ Some at) ⊎ (flag_at met.now place ≡ 1)) }
{
    if is_at(free, at) {
        return false;
    }
    if is_noted(met, place as usize) {
        return false;
    }
    true
}

// Whether the next free cell stands at an address.
fn is_at(free: &Option<Addr>, at: Addr) -> bool
    ensures { IsTrue result ↔ (free.now ≡ Some at) }
{
    match free {
        Some(free) => free.number() == at.number(),
        None => false,
    }
}

// Whether a place is noted.
fn is_noted(met: &Index, place: usize) -> bool
    ensures { IsTrue result ↔ (flag_at met.now place ≡ 1) }
{
    match met.next(place) {
        Some(next) => next == place,
        None => false,
    }
}

/// A page is named only where the chains are not whole, and then it is one page.
pub fn faults_are_exact()
    ensures { FaultsAreExact }
{}

/// The chains of a sound store are whole while no operation is under way.
pub fn sound_stores_are_linked()
    ensures { SoundStoresAreLinked }
{}
