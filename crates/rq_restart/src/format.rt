//! A new store.
ghost use Rattle.std.specs.Prelude.{◌≡◌, ◌<◌, ◌+◌, ◌%◌, ◌^◌, ℕ, [], OnOk, IfErr};
ghost use Rattle.rq_disk.specs.Device.{Only, NoMore, Leaves, Elapses};
ghost use Rattle.rq_page.specs.Sizes.{page_count};
ghost use Rattle.rq_page.specs.Formatted.{IsFormatted};
ghost use Rattle.rq_store.specs.Fitting.{AllFit, FitsLog};
ghost use Rattle.rq_pool.specs.Writing.{HasRun};
ghost use Rattle.rq_restart.specs.Formatting.{KeepsOthers, SuperblockIsLast, WritesItsPages};

use rq_disk::{PAGE, PageDevice};
use rq_model::refusal::Refusal;
use rq_page::layout::Layout;
use rq_page::page::Page;
use rq_pool::formatting::write_formatted;

/// Writes the pages of an empty store with so many directory, cell and tag pages, and syncs them. The superblock comes last, behind
/// a sync of the others, so a store that was not formatted to its end does not open. No other page is touched.
///
/// # Errors
/// `DiskWrite` exactly where the device fails: format again.
pub fn format<P: PageDevice>(pages: &mut P, layout: &Layout) -> Result<(), Refusal>
    // What was formatted.
    ensures formatted { OnOk result ((p : ℕ) → p < page_count layout.now
        → IsFormatted layout.now p (P.seen pages.new p)) }
    ensures fits { OnOk result (FitsLog layout.now (P.seen pages.new) []) }
    ensures durable { OnOk result (AllFit (P.may_be pages.new) layout.now []) }
    // What a crash at any moment leaves, and what is written at all.
    ensures any_moment { SuperblockIsLast P.PageDevice layout.now pages.old pages.new }
    ensures only { WritesItsPages P.PageDevice layout.now pages.old pages.new }
    ensures others { KeepsOthers P.PageDevice layout.now pages.old pages.new }
    // The device, and failures.
    ensures honest { P.honest pages.new → P.honest pages.old }
    ensures runs { OnOk result (HasRun P.PageDevice pages.old pages.new) }
    ensures cause { OnOk result (P.faults pages.new ≡ P.faults pages.old) }
    ensures err { IfErr result (λ e. (e ≡ Refusal.DiskWrite)
        × (P.faults pages.new ≡ (P.faults pages.old + 1) % 2 ^ 64)) }
{
    let mut page = Page::from_image(&[0; PAGE]);
    for number in 1..layout.pages() {
        write_formatted(pages, layout, number, &mut page)?;
    }
    sync(pages)?;
    write_formatted(pages, layout, 0, &mut page)?;
    sync(pages)
}

fn sync<P: PageDevice>(pages: &mut P) -> Result<(), Refusal>
    ensures seen { P.seen pages.new ≡ P.seen pages.old }
    ensures honest { P.honest pages.new → P.honest pages.old }
    ensures runs { OnOk result (HasRun P.PageDevice pages.old pages.new) }
    ensures crash { NoMore (P.may_be pages.old) (P.may_be pages.new) }
    ensures time { Elapses (P.moment pages.old) (P.moment pages.new) (P.left_since pages.old) (P.left_since pages.new)
        (Leaves (P.may_be pages.new)) }
    ensures durable { OnOk result ((p : ℕ) → Only (P.seen pages.old p) (P.may_be pages.new p)) }
    ensures cause { OnOk result (P.faults pages.new ≡ P.faults pages.old) }
    ensures err { IfErr result (λ e. (e ≡ Refusal.DiskWrite)
        × (P.faults pages.new ≡ (P.faults pages.old + 1) % 2 ^ 64)) }
{
    match pages.sync() {
        Ok(()) => Ok(()),
        Err(_) => Err(Refusal::DiskWrite),
    }
}
