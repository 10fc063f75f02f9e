//! Writes pages as a store is formatted.
ghost use Rattle.std.specs.Prelude.{◌≡◌, ◌≢◌, ◌<◌, ◌+◌, ◌%◌, ◌^◌, ℕ, OnOk, IfErr};
ghost use Rattle.rq_disk.specs.Device.{Holds, Written, Leaves, Elapses};
ghost use Rattle.rq_page.specs.Sizes.{page_count};
ghost use Rattle.rq_page.specs.Formatted.{IsFormatted};
ghost use Rattle.rq_pool.specs.Writing.{HasRun};

use rq_disk::PageDevice;
use rq_model::refusal::Refusal;
use rq_page::layout::Layout;
use rq_page::page::Page;

/// Makes a page that of a formatted store, and writes it to a device. It is durable only after a sync.
///
/// # Errors
/// `DiskWrite`: the device failed.
pub fn write_formatted<P: PageDevice>(
    pages: &mut P,
    layout: &Layout,
    number: u32,
    page: &mut Page,
) -> Result<(), Refusal>
    requires { number < page_count layout.now }
    ensures formatted { IsFormatted layout.now number page.new }
    ensures others { (p : ℕ) → p ≢ number → P.seen pages.new p ≡ P.seen pages.old p }
    ensures honest { P.honest pages.new → P.honest pages.old }
    ensures runs { OnOk result (HasRun P.PageDevice pages.old pages.new) }
    ensures crash { Written number page.new (P.may_be pages.old) (P.may_be pages.new) }
    ensures time { Elapses (P.moment pages.old) (P.moment pages.new) (P.left_since pages.old) (P.left_since pages.new)
        (Leaves (P.may_be pages.new)) }
    ensures written { OnOk result (Holds (P.seen pages.old) number page.new (P.seen pages.new)) }
    ensures cause { OnOk result (P.faults pages.new ≡ P.faults pages.old) }
    ensures err { IfErr result (λ e. (e ≡ Refusal.DiskWrite)
        × (P.faults pages.new ≡ (P.faults pages.old + 1) % 2 ^ 64)) }
{
    layout.format(number, page);
    match pages.write(number, page.image()) {
        Ok(()) => Ok(()),
        Err(_) => Err(Refusal::DiskWrite),
    }
}
