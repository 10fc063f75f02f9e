//! Records that are looked up in the log.
ghost use Rattle.std.specs.Prelude.{◌≡◌, ◌↔◌, Err, IfOk, IfErr, OnOk, true};
ghost use Rattle.rq_log.specs.Places.{StandsAt};
ghost use Rattle.rq_log.specs.Reading.{IsRead};
ghost use Rattle.rq_engine.specs.Opened.{NotTold};

use crate::engine::Engine;
use rq_disk::{LogDevice, PageDevice};
use rq_level::Level;
use rq_model::record::Record;
use rq_model::refusal::Refusal;

impl<P: PageDevice, L: LogDevice, B: Level> Engine<P, L, B> {
    /// The record that stands at a place of the log, and the place behind it. None at the log's end. A place is counted
    /// in bytes from the log's front. Buffered records are there, too. The first place is 0, and each other one was
    /// answered since the last checkpoint: nothing is said of one where no record begins. It is no event: it changes
    /// nothing.
    ///
    /// # Errors
    /// `Failed`, `DiskRead`; `Damaged`, with no number, where the device gave other bytes than it was handed.
    pub fn record_at(&mut self, place: u64) -> Result<Option<(Record, u64)>, Refusal>
        // What it answers, and why not.
        ensures found { IfOk result (λ found. L.honest self.new.log → StandsAt self.old.state.records place found) }
        ensures refusal { IfErr result (λ r. NotTold L.LogDevice self.old place self.new r) }
        ensures failed { (result ≡ Err Refusal.Failed) ↔ (self.old.state.failed ≡ true) }
        ensures cause { OnOk result (L.faults self.new.log ≡ L.faults self.old.log) }
        // The device of the log was read, and nothing else happened.
        ensures same { self.new ≡ record self.old { log = self.new.log } }
        ensures read { IsRead L.LogDevice self.old.log self.new.log }
    {
        self.check_running()?;
        self.log.shows_kept();
        self.log.record_at(place)
    }
}
