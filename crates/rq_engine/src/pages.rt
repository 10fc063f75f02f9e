//! Pages that go out.
ghost use Rattle.std.specs.Prelude.{◌≡◌, ◌≢◌, ◌↔◌, IfErr, length, true};
ghost use Rattle.rq_model.specs.History.Call.{Write_page};
ghost use Rattle.rq_model.specs.Replay.Reply.{Gave_written};
ghost use Rattle.rq_pool.specs.Pooled.{image_at};
ghost use Rattle.rq_pool.specs.Writing.{DeviceAfter, changed_after};
ghost use Rattle.rq_engine.specs.Answers.{AnswersLegally};
ghost use Rattle.rq_engine.specs.Crash.{KeepsFit};
ghost use Rattle.rq_engine.specs.Opened.{WritesWhen, state_after};
ghost use Rattle.rq_engine.specs.Says.{is_done};

use crate::engine::Engine;
use rq_disk::{LogDevice, PageDevice};
use rq_level::Level;
use rq_model::refusal::Refusal;
use rq_pool::Written;

impl<P: PageDevice, L: LogDevice, B: Level> Engine<P, L, B> {
    /// Writes a page out to its device, where it has a change that was not written and the record of its last change is
    /// forced. `Nothing` where it has no such change, or the store has no such page. What was written is durable only
    /// after a sync of the device.
    ///
    /// # Errors
    /// `Failed`, `NotForced`, `DiskWrite`.
    pub fn write_page(&mut self, page: u32) -> Result<Written, Refusal>
        // The entry that it is, and when it is which answer.
        ensures answered { AnswersLegally P.PageDevice L.LogDevice self.old (Write_page page)
            (λ written. Gave_written (is_done written)) result self.new }
        ensures sizes { self.new.state.sizes ≡ self.old.state.sizes }
        ensures answer { WritesWhen self.old page result }
        // What becomes of state, marks and device.
        ensures state { self.new.state ≡ state_after self.old.state result }
        ensures changed { self.new.changed ≡ changed_after self.old.changed page result }
        ensures device { DeviceAfter P.PageDevice page
            (image_at self.old.state.images page) self.old.pages self.new.pages result }
        // What stays, and refusals.
        ensures count { length self.new.frames ≡ length self.old.frames }
        ensures honest { P.honest self.new.pages → P.honest self.old.pages }
        ensures log { self.new.log ≡ self.old.log }
        ensures replacing { self.new.replacing ≡ self.old.replacing }
        ensures refused { IfErr result (λ r. r ≢ Refusal.DiskWrite → self.new ≡ self.old) }
        ensures failed { (result ≡ Err Refusal.Failed) ↔ (self.old.state.failed ≡ true) }
        // What a crash at any moment leaves.
        ensures fit { KeepsFit P.PageDevice L.LogDevice self.old self.new }
    {
        self.shows_kept();
        self.check_running()?;
        match self.pages.write_back(page, self.log.forced()) {
            Ok(written) => Ok(written),
            Err(Refusal::DiskWrite) => {
                self.failed = true;
                Err(Refusal::DiskWrite)
            }
            Err(refusal) => Err(refusal),
        }
    }
}
