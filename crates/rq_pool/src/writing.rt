//! Writes a page out.
ghost use Rattle.std.specs.Prelude.{◌≡◌, ◌+◌, ◌%◌, ◌^◌, IfErr, OnErr, OnOk};
ghost use Rattle.rq_disk.specs.Device.{Holds};
ghost use Rattle.rq_disk.specs.Device.PageAsk.{Writes};
ghost use Rattle.rq_pool.specs.Writing.{MayHaveWritten};

use rq_disk::PageDevice;
use rq_model::refusal::Refusal;
use rq_page::page::Page;

/// Writes a page to its device.
pub(crate) fn write<P: PageDevice>(device: &mut P, number: u32, page: &Page) -> Result<(), Refusal>
    ensures wrote { MayHaveWritten P.PageDevice number page.now device.old device.new }
    ensures holds { OnOk result (Holds (P.seen device.old) number page.now (P.seen device.new)) }
    ensures cause { OnOk result (P.faults device.new ≡ P.faults device.old) }
    ensures failed { OnErr result (P.faults device.new ≡ (P.faults device.old + 1) % 2 ^ 64) }
    ensures err { IfErr result (λ e. e ≡ Refusal.DiskWrite) }
    ensures excused { OnErr result (P.excuse (Writes number page.now) device.old device.new) }
{
    match device.write(number, page.image()) {
        Ok(()) => Ok(()),
        Err(_) => Err(Refusal::DiskWrite),
    }
}
