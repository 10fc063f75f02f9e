//! Pages, and the pages of a store in memory.
ghost use Rattle.std.specs.Prelude.{◌≡◌, ◌≤◌, IfOk};
ghost use Rattle.rq_pool.specs.Fetching.{ReadsTruly};
ghost use Rattle.rq_laws.specs.Alike.{PagesAlike};

use rq_chain_check::first_broken;
use rq_disk::PageDevice;
use rq_model::record::Slot;
use rq_model::refusal::Refusal;
use rq_model::txn::Lsn;
use rq_page::addr::Addr;
use rq_page::page::Page;
use rq_pool::Pages;
use std::alloc::Global;

/// A slot is written alike, with its page's LSN. Excludes a write that leaves the LSN as it was.
pub fn set_slot(first: &mut Page, second: &mut Page, n: u8, image: &Slot, lsn: Lsn)
    requires low { 1 ≤ n }
    requires high { n ≤ 15 }
    requires same { first.old ≡ second.old }
    ensures { PagesAlike first.new second.new }
{
    first.set_slot(n, image, lsn);
    second.set_slot(n, image, lsn);
}

/// The lowest free cell from a place on is one. Excludes an index that keeps the free cells of the opening.
pub fn next_free<P: PageDevice>(
    first: &Pages<P>,
    second: &Pages<P>,
    from: u32,
) -> (Option<Addr>, Option<Addr>)
    requires sizes { first.now.sizes ≡ second.now.sizes }
    requires images { first.now.images ≡ second.now.images }
    ensures { result.0 ≡ result.1 }
{
    (first.next_free(from), second.next_free(from))
}

/// The page that is named for chains that are not whole is one, or none is named, where each page that was read is the
/// store's. Excludes a walk that lets a broken chain through, and one that names a page where all chains are whole.
pub fn names_broken<P: PageDevice>(
    alloc: Global,
    first: &mut Pages<P>,
    second: &mut Pages<P>,
) -> (Result<Option<u32>, Refusal>, Result<Option<u32>, Refusal>)
    requires sizes { first.old.sizes ≡ second.old.sizes }
    requires images { first.old.images ≡ second.old.images }
    ensures { ReadsTruly P.PageDevice first.old result.0 first.new → ReadsTruly P.PageDevice second.old result.1 second.new
        → IfOk result.0 (λ a. IfOk result.1 (λ b. a ≡ b)) }
{
    (first_broken(alloc, first), first_broken(alloc, second))
}
