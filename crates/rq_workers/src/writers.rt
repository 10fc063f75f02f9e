//! The loops of the log writer and of the page writer, and the one that makes checkpoints.
ghost use Rattle.std.specs.Prelude.{◌≡◌};
ghost use Rattle.rq_workers.specs.Acts.{Did};
ghost use Rattle.rq_workers.specs.Loops.{IsLogWriting, IsPageWriting, IsCheckpointing, page_after};

use crate::gate::{BEFORE_CHECKPOINT, BEFORE_FORCE, BEFORE_WRITE, Gate};
use crate::steps::Steps;
use crate::worker::Worker;
use rq_engine::event::Event;
use std::sync::Wait;

impl<G: Gate + Drop, S: Steps> Worker<G, S> {
    /// Forces the log whenever the gate lets it through, until the gate says no. A force that is refused is made again
    /// in the next round.
    pub fn write_log<R: Wait>(&mut self, rt: &R)
        ensures { Did IsLogWriting self.old self.new }
    {
        for _ in rt.forever() {
            if !self.asks(BEFORE_FORCE) {
                return;
            }
            self.forces();
        }
        unreachable!()
    }

    /// Writes the pages of a store of so many, by rising number and again from the first. It writes one whenever the
    /// gate lets it through, until the gate says no. A page that cannot go out yet has its turn again in the next
    /// round.
    pub fn write_pages<R: Wait>(&mut self, rt: &R, pages: u32)
        ensures { Did (IsPageWriting pages) self.old self.new }
    {
        let mut page = 0;
        for _ in rt.forever() {
            if !self.asks(BEFORE_WRITE) {
                return;
            }
            self.calls(Event::WritePage(page));
            page = behind(page, pages);
        }
        unreachable!()
    }

    /// Makes a checkpoint whenever the gate lets it through, until the gate says no. One that is refused, as where a transaction
    /// is open, is tried again in the next round.
    pub fn make_checkpoints<R: Wait>(&mut self, rt: &R)
        ensures { Did IsCheckpointing self.old self.new }
    {
        for _ in rt.forever() {
            if !self.asks(BEFORE_CHECKPOINT) {
                return;
            }
            self.calls(Event::Checkpoint);
        }
        unreachable!()
    }
}

// The page behind this one, and the first behind the last.
fn behind(page: u32, pages: u32) -> u32
    ensures { result ≡ page_after pages page }
{
    match page.checked_add(1) {
        Some(next) if next < pages => next,
        _ => 0,
    }
}
