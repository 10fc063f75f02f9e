//! Bytes of a device, from its front on, a window at a time.
ghost use Rattle.std.specs.Prelude.{◌≡◌, ◌+◌, ◌-◌, ◌<◌, ◌≤◌, ◌++◌, IfOk, IfErr, OnOk, OnErr, length, take, drop, min};
ghost use Rattle.rq_disk.specs.Device.{FailureIsCounted, Only};
ghost use Rattle.rq_record.specs.Decoding.{IsFront};
ghost use Rattle.rq_log.specs.Places.{NoneReadFor};
ghost use Rattle.rq_log.specs.Reading.{HasMost, HasRoomToRead, IsRead, left_of};

use crate::RefusedLog;
use crate::looking::record_on;
use rq_disk::LogDevice;
use rq_model::record::Record;
use rq_model::refusal::Refusal;
use rq_record::PAGE_OP_BYTES;
use std::alloc::Global;
use std::marker::Model;

/// A device that is read from its front, and the bytes that were read of it and are not taken yet.
#[derive(Drop)]
pub(crate) struct Stream<L: LogDevice> {
    device: L,
    window: Vec<u8>,
    // where these bytes begin and end in the window
    start: usize,
    end: usize,
    // how many bytes were read
    at: u64,
    // a read gave fewer bytes than were asked for
    ended: bool,
}

impl<L: LogDevice> Model for Stream<L> {
    ghost use Rattle.std.specs.Prelude.{◌-◌, drop, take};
    ghost use Rattle.rq_log.specs.Reading.{Streamed, KeepsStream};

    ghost Value = { Streamed L };

    ghost view = { λ s. record {
      unread = take (s.end - s.start) (drop s.start s.window.items);
      at = s.at;
      ended = s.ended;
      device = s.device;
    } };

    ghost invariant = { λ s. KeepsStream L.LogDevice (record {
      unread = take (s.end - s.start) (drop s.start s.window.items);
      at = s.at;
      ended = s.ended;
      device = s.device;
    }) s.window.items s.start s.end };
}

impl<L: LogDevice + Drop> Stream<L> {
    ghost use Rattle.std.specs.Prelude.{[], false};

    /// Nothing is read yet. So many bytes are read at a time, the longest record at least.
    pub(crate) fn new(alloc: Global, device: L, window: usize) -> Result<Stream<L>, RefusedLog<L>>
        requires { 546 ≤ window }
        ensures ok { IfOk result (λ s. s ≡ record { unread = []; at = 0; ended = false; device = device }) }
        ensures err { IfErr result (λ stopped. (stopped.refusal ≡ Refusal.NoMemory) × (stopped.device ≡ device)) }
    {
        match vec![in alloc; 0; window] {
            Ok(window) => Ok(Stream {
                device,
                window,
                start: 0,
                end: 0,
                at: 0,
                ended: false,
            }),
            Err(_) => Err(RefusedLog {
                refusal: Refusal::NoMemory,
                device,
            }),
        }
    }

    /// The device, as it is.
    pub(crate) fn give_back(self) -> L
        ensures { result ≡ self.device }
    {
        let Stream {
            device,
            window: _,
            start: _,
            end: _,
            at: _,
            ended: _,
        } = self;
        device
    }
}

impl<L: LogDevice> Stream<L> {
    /// The bytes that were read and are not taken.
    pub(crate) fn unread(&self) -> &[u8]
        ensures { result.now ≡ self.now.unread }
    {
        &self.window[self.start..self.end]
    }

    /// How many bytes were taken.
    pub(crate) fn taken(&self) -> u64
        requires { length self.now.unread ≤ self.now.at }
        ensures { result ≡ self.now.at - length self.now.unread }
    {
        self.at - (self.end - self.start) as u64
    }

    /// Takes the first so many of them.
    pub(crate) fn skip(&mut self, count: usize)
        requires { count ≤ length self.old.unread }
        ensures { self.new ≡ record self.old { unread = drop count self.old.unread } }
    {
        self.start += count;
    }

    /// The record at a place of the device, taken or not, and how many bytes it takes.
    ///
    /// # Errors
    /// `DiskRead`; `Damaged`, with no number, where none stands there.
    pub(crate) fn record_at(&mut self, place: u64) -> Result<(Record, usize), Refusal>
        ensures found { IfOk result (λ found. L.honest self.new.device
            → IsFront found.0 found.1 (drop place (L.seen self.old.device))) }
        ensures none { IfErr result (λ e. NoneReadFor L.LogDevice e (drop place (L.seen self.old.device))
            self.old.device self.new.device) }
        ensures same { self.new ≡ record self.old { device = self.new.device } }
        ensures cause { OnOk result (L.faults self.new.device ≡ L.faults self.old.device) }
        ensures read { IsRead L.LogDevice self.old.device self.new.device }
    {
        record_on(&mut self.device, place)
    }

    /// Makes durable what the device reads as.
    ///
    /// # Errors
    /// `DiskWrite`: the device failed.
    pub(crate) fn force(&mut self) -> Result<(), Refusal>
        ensures durable { OnOk result (Only (L.seen self.new.device) (L.may_leave self.new.device)) }
        ensures why { IfErr result (λ e. e ≡ Refusal.DiskWrite) }
        ensures cause { FailureIsCounted (L.faults self.old.device) (L.faults self.new.device) result }
        ensures same { self.new ≡ record self.old { device = self.new.device } }
        ensures read { IsRead L.LogDevice self.old.device self.new.device }
    {
        match self.device.force() {
            Ok(()) => Ok(()),
            Err(_) => Err(Refusal::DiskWrite),
        }
    }

    /// Reads on where fewer bytes than the longest record has are left of what was read.
    ///
    /// # Errors
    /// `DiskRead`.
    pub(crate) fn fill(&mut self) -> Result<(), Refusal>
        requires { HasRoomToRead self.old }
        ensures most { OnOk result (HasMost L.LogDevice 546 self.new) }
        ensures left { OnOk result (L.honest self.new.device → left_of L.LogDevice self.new ≡ left_of L.LogDevice self.old) }
        ensures place { self.new.at + length self.old.unread ≡ self.old.at + length self.new.unread }
        ensures err { OnErr result ((self.new.unread ≡ self.old.unread) × (self.new.at ≡ self.old.at)) }
        ensures why { IfErr result (λ e. e ≡ Refusal.DiskRead) }
        ensures cause { FailureIsCounted (L.faults self.old.device) (L.faults self.new.device) result }
        ensures read { IsRead L.LogDevice self.old.device self.new.device }
    {
        if self.ended || self.end - self.start >= PAGE_OP_BYTES {
            return Ok(());
        }
        self.window.copy_within(self.start..self.end, 0);
        self.end -= self.start;
        self.start = 0;
        let count = read_behind(&mut self.device, self.at, &mut self.window, self.end)?;
        self.at += count as u64;
        self.end += count;
        self.ended = self.end < self.window.len();
        Ok(())
    }
}

// Reads from the byte `at` on, into what is behind the first bytes of a window, and answers how many bytes.
fn read_behind<L: LogDevice>(
    device: &mut L,
    at: u64,
    window: &mut [u8],
    end: usize,
) -> Result<usize, Refusal>
    requires { end ≤ length window.old }
    ensures length { length window.new ≡ length window.old }
    ensures front { take end window.new ≡ take end window.old }
    ensures within { IfOk result (λ n. end + n ≤ length window.old) }
    ensures count { IfOk result (λ n. L.honest device.new
        → n ≡ min (length window.old - end) (length (L.seen device.old) - at)) }
    ensures bytes { IfOk result (λ n. L.honest device.new
        → take (end + n) window.new ≡ take end window.old ++ take n (drop at (L.seen device.old))) }
    ensures err { IfErr result (λ e. e ≡ Refusal.DiskRead) }
    ensures cause { FailureIsCounted (L.faults device.old) (L.faults device.new) result }
    ensures read { IsRead L.LogDevice device.old device.new }
{
    match device.read(at, &mut window[end..]) {
        Ok(count) => Ok(count),
        Err(_) => Err(Refusal::DiskRead),
    }
}
