//! The numbers of pages: none may be beyond the log, whose length is known once it was gone through.
ghost use Rattle.std.specs.Prelude.{◌≡◌, ◌<◌, ℕ, List, IfErr, IfNone, IfSome, OnOk, length};
ghost use Rattle.rq_disk.specs.Device.{Images};
ghost use Rattle.rq_model.specs.declared.record.Record.{Record as AnyRecord};
ghost use Rattle.rq_page.specs.Sizes.{page_count};
ghost use Rattle.rq_pool.specs.Numbered.{number_in};
ghost use Rattle.rq_restart.specs.Numbers.{AreNumbersOf, IsFirstBeyond, NamesFirst, NoneBeyond};
ghost use Rattle.rq_restart.specs.Repeating.{HaveLsnsWithin, ArePagesCounted, Repeats, paged};

use rq_disk::PageDevice;
use rq_model::refusal::{Damage, Refusal};
use rq_pool::Pages;
use rq_pool::ahead::Ahead;

/// That no number of the pages as they were read is beyond so many records, which were repeated on them since. Else it is refused
/// with the first page of which one is. What slots counted beyond their page's LSN, as it was read, is handed in.
pub(crate) fn check_page_numbers<P: PageDevice>(
    pages: &Pages<P>,
    ahead: &[Ahead],
    records: u64,
) -> Result<(), Refusal>
    ensures counted { OnOk result ((log : List AnyRecord) (first : Images) → records ≡ length log
        → Repeats pages.now.sizes log first (paged pages.now) → AreNumbersOf pages.now.sizes first ahead.now
        → ArePagesCounted pages.now.sizes (length log) first) }
    ensures within { OnOk result (HaveLsnsWithin pages.now.sizes records (paged pages.now)) }
    ensures names { IfErr result (λ e. (log : List AnyRecord) (first : Images) → records ≡ length log
        → Repeats pages.now.sizes log first (paged pages.now) → AreNumbersOf pages.now.sizes first ahead.now
        → NamesFirst pages.now.sizes (length log) first e) }
    ensures err { IfErr result (λ e. (page : ℕ) × (e ≡ Refusal.Damaged (Damage.Page page))) }
{
    match first_beyond(pages, ahead, records) {
        Some(page) => Err(Refusal::Damaged(Damage::Page(page))),
        None => Ok(()),
    }
}

// The first page with a number beyond so many records.
fn first_beyond<P: PageDevice>(pages: &Pages<P>, ahead: &[Ahead], records: u64) -> Option<u32>
    ensures some { IfSome result (λ page. IsFirstBeyond pages.now.sizes records ahead.now (paged pages.now) page) }
    ensures none { IfNone result (NoneBeyond records ahead.now (paged pages.now) (page_count pages.now.sizes)) }
{
    for page in 1..pages.layout().pages() {
        if pages.lsn(page).max(number_of(ahead, page)) > records {
            return Some(page);
        }
    }
    None
}

// The greatest number that is told of a page, or 0.
fn number_of(ahead: &[Ahead], page: u32) -> u64
    ensures { result ≡ number_in ahead.now page }
{
    let mut greatest = 0u64;
    for place in 0..ahead.len() {
        if ahead[place].page == page {
            greatest = greatest.max(ahead[place].number);
        }
    }
    greatest
}
