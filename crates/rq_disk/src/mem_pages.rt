//! Pages in memory. They keep what they were at first and each call since, so that their past is real data.
ghost use Rattle.std.specs.Prelude.{⊤, ◌≡◌, ◌≤◌, ◌<◌, ◌++◌, ◌∷◌, [], ℕ, length, get_or, replicate, if◌then◌else◌, IfOk, OnOk, OnErr, true, false};
ghost use Rattle.rq_disk.specs.Memory.{pages_after, reads};

use crate::choice::PageChoice;
use crate::device::{DeviceFailed, PAGE, PageDevice};
use crate::replay::outlive;
use crate::switch::{CallKind, Switch};
use std::alloc::{AllocError, Global};

/// A call that changed pages in memory.
#[derive(Drop)]
pub enum PageCall {
    Write(u32, Box<[u8; PAGE]>),
    Sync,
}

/// Pages in memory. There are as many as it was made with: a read or a write past the last one fails.
#[derive(Drop)]
pub struct MemPages {
    alloc: Global,
    first: Vec<[u8; PAGE]>,
    // what reads give
    newest: Vec<[u8; PAGE]>,
    calls: Vec<PageCall>,
    failures: u64,
    // the machine stopped in a write, which was made
    stopped: bool,
    switch: Switch,
    ghost count: { length newest.items ≡ length first.items },
    ghost cached: { (p : ℕ) → get_or newest.items p [] ≡ reads (pages_after first.items calls.items) p },
}

impl PageDevice for MemPages {
    ghost use Rattle.rq_disk.specs.Shown.{pages_of, pages_moment, pages_faults};
    ghost use Rattle.rq_disk.specs.Memory.{MayBe, PagesSince, pages_seen, pages_count, pages_only};

    ghost seen = { λ m. reads (pages_of m) };

    ghost honest = { λ m. ⊤ };

    ghost may_be = { λ m. MayBe (pages_of m) };

    ghost stopped = { λ m. m.stopped ≡ true };

    ghost moment = { λ m. pages_moment m };

    ghost left_since = { λ m. PagesSince m.first.items m.calls.items };

    ghost faults = { λ m. pages_faults m };

    ghost seen_may_be = { λ m. pages_seen (pages_of m) };

    ghost counts_now = { λ m. pages_count m.first.items m.calls.items };

    ghost only_now = { λ m. pages_only m.first.items m.calls.items };

    fn failures(&self) -> u64 {
        self.failures
    }

    fn read(&mut self, page: u32, into: &mut [u8; PAGE]) -> Result<(), DeviceFailed> {
        let place = page as usize;
        if self.switch.fails(CallKind::Read) || self.stopped || place >= self.newest.len() {
            self.failures = self.failures.wrapping_add(1);
            return Err(DeviceFailed);
        }
        into.copy_from_slice(&self.newest[place]);
        Ok(())
    }

    fn write(&mut self, page: u32, image: &[u8; PAGE]) -> Result<(), DeviceFailed> {
        let place = page as usize;
        if self.switch.fails(CallKind::Write) || self.stopped || place >= self.newest.len() {
            self.failures = self.failures.wrapping_add(1);
            return Err(DeviceFailed);
        }
        match add_write(self.alloc, &mut self.calls, page, image) {
            Ok(()) => {
                self.newest[place].copy_from_slice(image);
                if self.switch.cuts_off() {
                    self.stopped = true;
                    self.failures = self.failures.wrapping_add(1);
                    return Err(DeviceFailed);
                }
                Ok(())
            }
            Err(_) => {
                self.failures = self.failures.wrapping_add(1);
                Err(DeviceFailed)
            }
        }
    }

    fn sync(&mut self) -> Result<(), DeviceFailed> {
        if self.switch.fails(CallKind::Force) || self.stopped {
            self.failures = self.failures.wrapping_add(1);
            return Err(DeviceFailed);
        }
        match add_sync(&mut self.calls) {
            Ok(()) => Ok(()),
            Err(_) => {
                self.failures = self.failures.wrapping_add(1);
                Err(DeviceFailed)
            }
        }
    }
}

// So many images of zeros.
fn blank_images(alloc: Global, pages: u32) -> Result<Vec<[u8; PAGE]>, AllocError>
    ensures count { IfOk result (λ images. length images.items ≡ pages) }
    ensures blank { IfOk result (λ images. (p : ℕ) → p < pages → get_or images.items p [] ≡ replicate PAGE 0) }
    ensures all { IfOk result (λ images. images.items ≡ replicate pages (replicate PAGE 0)) }
{
    let mut images = Vec::with_capacity(alloc, pages as usize)?;
    for _page in 0..pages {
        images.push([0; PAGE])?;
    }
    Ok(images)
}

fn add_write(
    alloc: Global,
    calls: &mut Vec<PageCall>,
    page: u32,
    image: &[u8; PAGE],
) -> Result<(), AllocError>
    ensures ok { OnOk result ((kept : _) × (kept.value ≡ image.now)
        × (calls.new.items ≡ calls.old.items ++ PageCall.Write page kept ∷ [])) }
    ensures err { OnErr result (calls.new.items ≡ calls.old.items) }
{
    let kept = Box::new(alloc, *image)?;
    calls.push(PageCall::Write(page, kept))?;
    Ok(())
}

fn add_sync(calls: &mut Vec<PageCall>) -> Result<(), AllocError>
    ensures ok { OnOk result (calls.new.items ≡ calls.old.items ++ PageCall.Sync ∷ []) }
    ensures err { OnErr result (calls.new.items ≡ calls.old.items) }
{
    calls.push(PageCall::Sync)?;
    Ok(())
}

impl MemPages {
    ghost use Rattle.rq_disk.specs.Choice.{place_of};
    ghost use Rattle.rq_disk.specs.Device.{Leaves, Only};
    ghost use Rattle.rq_disk.specs.Memory.{fresh_pages, MayBe, crashed_page};
    ghost use Rattle.rq_disk.specs.Shown.{pages_of, page_count, pages_moment, pages_faults, pages_stopped, pages_switch};

    /// Pages with these images, all of them synced. They run.
    pub fn new(alloc: Global, images: Vec<[u8; PAGE]>, switch: Switch) -> Result<Self, AllocError>
        ensures pages { IfOk result (λ m. pages_of m ≡ fresh_pages images.items) }
        ensures count { IfOk result (λ m. page_count m ≡ length images.items) }
        ensures moment { IfOk result (λ m. pages_moment m ≡ 0) }
        ensures failures { IfOk result (λ m. pages_faults m ≡ 0) }
        ensures runs { IfOk result (λ m. pages_stopped m ≡ false) }
        ensures switch { IfOk result (λ m. pages_switch m ≡ switch) }
    {
        let newest = Vec::from_slice(alloc, &images)?;
        Ok(MemPages {
            alloc,
            first: images,
            newest,
            calls: Vec::new(alloc),
            failures: 0,
            stopped: false,
            switch,
        })
    }

    /// So many pages of zeros, all of them synced. They run.
    pub fn zeroed(alloc: Global, pages: u32, switch: Switch) -> Result<Self, AllocError>
        ensures pages { IfOk result (λ m. (p : ℕ) → p < pages → reads (pages_of m) p ≡ replicate PAGE 0) }
        ensures fresh { IfOk result (λ m. pages_of m ≡ fresh_pages (replicate pages (replicate PAGE 0))) }
        ensures count { IfOk result (λ m. page_count m ≡ pages) }
        ensures moment { IfOk result (λ m. pages_moment m ≡ 0) }
        ensures failures { IfOk result (λ m. pages_faults m ≡ 0) }
        ensures runs { IfOk result (λ m. pages_stopped m ≡ false) }
        ensures switch { IfOk result (λ m. pages_switch m ≡ switch) }
    {
        let images = blank_images(alloc, pages)?;
        MemPages::new(alloc, images, switch)
    }

    /// What a crash leaves where of each page the chosen image outlives it. All of it counts as synced from
    /// then on, and the pages run. The count of failures and the switch stay.
    pub fn crash(self, choice: PageChoice) -> MemPages
        ensures pages { (p : ℕ) → p < page_count self → reads (pages_of result) p
            ≡ crashed_page (place_of choice p) (pages_of self) p }
        ensures past { (p : ℕ) → page_count self ≤ p → reads (pages_of result) p ≡ [] }
        ensures may_be { Leaves (MayBe (pages_of self)) (reads (pages_of result)) }
        ensures synced { (p : ℕ) → Only (reads (pages_of result) p) (MayBe (pages_of result) p) }
        ensures since { (pages_of result).since ≡ [] }
        ensures count { page_count result ≡ page_count self }
        ensures moment { pages_moment result ≡ 0 }
        ensures failures { pages_faults result ≡ pages_faults self }
        ensures runs { pages_stopped result ≡ false }
        ensures switch { pages_switch result ≡ pages_switch self }
    {
        let MemPages {
            alloc,
            mut first,
            mut newest,
            calls,
            failures,
            stopped: _,
            switch,
        } = self;
        outlive(&mut first, &calls, choice);
        newest.copy_from_slice(&first);
        MemPages {
            alloc,
            first,
            newest,
            calls: Vec::new(alloc),
            failures,
            stopped: false,
            switch,
        }
    }
}
