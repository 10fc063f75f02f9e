//! Writes the pages of a store that is to have more tag pages.
ghost use Rattle.std.specs.Prelude.{◌≡◌, ◌≢◌, ◌<◌, ◌≤◌, ℕ, true, IfErr, slice_set};
ghost use Rattle.rq_page.specs.Sizes.{page_count};
ghost use Rattle.rq_pool.specs.Writing.{IsFormattedAfter};

use crate::table::mark;
use crate::{Pages, formatting};
use rq_disk::{PAGE, PageDevice};
use rq_model::refusal::Refusal;
use rq_page::layout::Layout;
use rq_page::page::Page;

impl<P: PageDevice> Pages<P> {
    /// Writes a page that a store with more tag pages has behind the last of this one, as it is formatted. It is durable only
    /// after a sync.
    ///
    /// # Errors
    /// `DiskWrite`: the device failed, or has no room for it.
    #[tactic(auto, using(crate::proofs::Over::over_beyond))]
    pub fn write_formatted(&mut self, grown: &Layout, page: u32) -> Result<(), Refusal>
        requires behind { page_count self.old.sizes ≤ page }
        requires within { page < page_count grown.now }
        ensures same { self.new ≡ record self.old { device = self.new.device } }
        ensures device { IsFormattedAfter P.PageDevice grown.now page self.old.device self.new.device result }
        ensures err { IfErr result (λ r. r ≡ Refusal.DiskWrite) }
    {
        write_page(&mut self.device, grown, page)
    }

    /// Writes the superblock of the store that it is to be. The one in memory stays, and counts as changed from then on,
    /// whatever is answered. It is durable only after a sync.
    ///
    /// # Errors
    /// `DiskWrite`: the device failed.
    pub fn write_superblock(&mut self, grown: &Layout) -> Result<(), Refusal>
        ensures same { self.new ≡ record self.old { device = self.new.device; changed = slice_set self.old.changed 0 true } }
        ensures device { IsFormattedAfter P.PageDevice grown.now 0 self.old.device self.new.device result }
        ensures err { IfErr result (λ r. r ≡ Refusal.DiskWrite) }
    {
        mark(&mut self.entries, 0, true);
        write_page(&mut self.device, grown, 0)
    }
}

// Writes a page of a formatted store to a device.
#[tactic(auto, using(crate::proofs::Growths::formatted_after))]
fn write_page<P: PageDevice>(device: &mut P, layout: &Layout, number: u32) -> Result<(), Refusal>
    requires { number < page_count layout.now }
    ensures others { (p : ℕ) → p ≢ number → P.seen device.new p ≡ P.seen device.old p }
    ensures honest { P.honest device.new → P.honest device.old }
    ensures device { IsFormattedAfter P.PageDevice layout.now number device.old device.new result }
    ensures err { IfErr result (λ r. r ≡ Refusal.DiskWrite) }
{
    let mut page = Page::from_image(&[0; PAGE]);
    formatting::write_formatted(device, layout, number, &mut page)
}
