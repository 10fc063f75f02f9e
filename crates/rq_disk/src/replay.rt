//! Calls of pages in memory, made again after a crash.
ghost use Rattle.std.specs.Prelude.{◌≡◌, ◌≤◌, ◌<◌, [], ℕ, length, take, drop, get_or, slice_set};
ghost use Rattle.rq_disk.specs.Choice.{place_of};
ghost use Rattle.rq_disk.specs.Memory.{image_after, pages_after, crashed_page};
ghost use Rattle.rq_disk.specs.Replay.{AllWrites, StartsFresh, replayed, page_writes};

use crate::choice::PageChoice;
use crate::device::PAGE;
use crate::mem_pages::PageCall;

// Leaves of each page the chosen image, where these calls were made since the images were synced.
pub(crate) fn outlive(images: &mut [[u8; PAGE]], calls: &[PageCall], choice: PageChoice)
    ensures { (p : ℕ) → p < length images.old → get_or images.new p []
        ≡ crashed_page (place_of choice p) (pages_after images.old calls.now) p }
{
    let synced = calls_synced(calls);
    replay(images, &calls[..synced]);
    survive(images, &calls[synced..], choice);
}

// How many calls there are up to the last sync, and with it.
fn calls_synced(calls: &[PageCall]) -> usize
    ensures within { result ≤ length calls.now }
    ensures fresh { StartsFresh (take result calls.now) }
    ensures writes { AllWrites (drop result calls.now) }
{
    let mut synced = 0;
    for (index, call) in calls.iter().enumerate() {
        if let PageCall::Sync = call {
            synced = index + 1;
        }
    }
    synced
}

// Makes each write.
fn replay(pages: &mut [[u8; PAGE]], calls: &[PageCall])
    ensures { pages.new ≡ replayed pages.old calls.now }
{
    for call in calls {
        if let PageCall::Write(page, image) = call {
            put(pages, *page, image);
        }
    }
}

// Makes those writes that outlive a crash.
fn survive(pages: &mut [[u8; PAGE]], calls: &[PageCall], choice: PageChoice)
    ensures { (p : ℕ) → p < length pages.old → get_or pages.new p []
        ≡ image_after (page_writes calls.now) (get_or pages.old p []) p (place_of choice p) }
{
    let mut choice = choice;
    for call in calls {
        if let PageCall::Write(page, image) = call {
            if choice.takes(*page) {
                put(pages, *page, image);
            }
        }
    }
}

// Writes an image over that of its page, if there is such a page.
fn put(pages: &mut [[u8; PAGE]], page: u32, image: &[u8; PAGE])
    ensures { pages.new ≡ slice_set pages.old page image.now }
{
    let place = page as usize;
    if place < pages.len() {
        pages[place].copy_from_slice(image);
    }
}
