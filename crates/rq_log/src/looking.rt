//! Records that are looked up in a log, handed over or not.
ghost use Rattle.std.specs.Prelude.{◌≡◌, ◌-◌, ◌^◌, ◌<◌, ◌≤◌, IfOk, IfErr, OnOk, Err, length, drop, true, false};
ghost use Rattle.rq_record.specs.Decoding.{IsFront};
ghost use Rattle.rq_record.specs.Spelling.{HoldsRecord};
ghost use Rattle.rq_log.specs.Places.{NoneHeldFor, NoneReadFor, NotToldFor, StandsAt};
ghost use Rattle.rq_log.specs.Reading.{IsRead};
ghost use Rattle.rq_log.specs.Spelled.{spelled};

use crate::Log;
use rq_disk::LogDevice;
use rq_model::record::Record;
use rq_model::refusal::{Damage, Refusal};
use rq_record::{PAGE_OP_BYTES, Step, decode};

impl<L: LogDevice> Log<L> {
    /// The record that stands at a place, and the place behind it. None at the log's end. A place is counted in bytes
    /// from the log's front. Records that are not handed over are there, too. Nothing is said of a place where no
    /// record begins.
    ///
    /// # Errors
    /// `Failed`, `DiskRead`; `Damaged`, with no number, where the device gave other bytes than it was handed.
    pub fn record_at(&mut self, place: u64) -> Result<Option<(Record, u64)>, Refusal>
        ensures failed { self.old.failed ≡ true → (result ≡ Err Refusal.Failed) × (self.new ≡ self.old) }
        ensures found { IfOk result (λ found. L.honest self.new.device → length (spelled self.old.records) < 2 ^ 64
            → StandsAt self.old.records place found) }
        ensures err { self.old.failed ≡ false → IfErr result (λ e. NotToldFor L.LogDevice e self.old.records place
            self.old.device self.new.device) }
        ensures cause { OnOk result (L.faults self.new.device ≡ L.faults self.old.device) }
        // Nothing changes, but that the device was read.
        ensures same { self.new ≡ record self.old { device = self.new.device } }
        ensures read { IsRead L.LogDevice self.old.device self.new.device }
    {
        if self.failed {
            return Err(Refusal::Failed);
        }
        if place == self.size {
            return Ok(None);
        }
        let handed = self.size.saturating_sub(self.buffer.len() as u64);
        match record_in(&mut self.device, &self.buffer, handed, place) {
            Ok((record, used)) => Ok(Some((record, place.saturating_add(used as u64)))),
            Err(refusal) => Err(refusal),
        }
    }
}

// The record at a place of what a device holds, so many bytes, with a buffer behind it, and how many bytes it takes.
fn record_in<L: LogDevice>(
    device: &mut L,
    buffer: &[u8],
    handed: u64,
    place: u64,
) -> Result<(Record, usize), Refusal>
    ensures on_device { place < handed → IfOk result (λ found. L.honest device.new
        → IsFront found.0 found.1 (drop place (L.seen device.old))) }
    ensures buffered { handed ≤ place → IfOk result (λ found. IsFront found.0 found.1 (drop (place - handed) buffer.now)) }
    ensures none_on_device { place < handed → IfErr result (λ e. NoneReadFor L.LogDevice e (drop place (L.seen device.old))
        device.old device.new) }
    ensures none_buffered { handed ≤ place → IfErr result (λ e. NoneHeldFor L.LogDevice e (drop (place - handed) buffer.now)
        device.old device.new) }
    ensures cause { OnOk result (L.faults device.new ≡ L.faults device.old) }
    ensures read { IsRead L.LogDevice device.old device.new }
{
    if place < handed {
        record_on(device, place)
    } else {
        front(bytes_from(buffer, place - handed))
    }
}

/// The record at a place of what a device holds, and how many bytes it takes.
pub(crate) fn record_on<L: LogDevice>(
    device: &mut L,
    place: u64,
) -> Result<(Record, usize), Refusal>
    ensures found { IfOk result (λ found. L.honest device.new
        → IsFront found.0 found.1 (drop place (L.seen device.old))) }
    ensures none { IfErr result (λ e. NoneReadFor L.LogDevice e (drop place (L.seen device.old)) device.old device.new) }
    ensures cause { OnOk result (L.faults device.new ≡ L.faults device.old) }
    ensures read { IsRead L.LogDevice device.old device.new }
{
    let mut bytes = [0; PAGE_OP_BYTES];
    match device.read(place, &mut bytes) {
        Ok(count) => front(&bytes[..count]),
        Err(_) => Err(Refusal::DiskRead),
    }
}

// The bytes behind the first so many.
fn bytes_from(bytes: &[u8], count: u64) -> &[u8]
    ensures { result.now ≡ drop count bytes.now }
{
    match bytes.get(count as usize..) {
        Some(rest) => rest,
        None => &[],
    }
}

// The record at the front of bytes.
fn front(bytes: &[u8]) -> Result<(Record, usize), Refusal>
    ensures found { IfOk result (λ found. IsFront found.0 found.1 bytes.now) }
    ensures none { IfErr result (λ e. (e ≡ Refusal.Damaged (Damage.Record 0)) × (HoldsRecord bytes.now → ⊥)) }
{
    match decode(bytes) {
        Step::Record(record, used) => Ok((record, used)),
        Step::Short | Step::Bad => Err(Refusal::Damaged(Damage::Record(0))),
    }
}
