//! Stores over devices in memory. What is here promises nothing, so that the proofs above speak of no engine.
use crate::log::text_of_device;
use crate::machine::Medium;
use rq_disk::{LogDevice, MemLog, MemPages, PageChoice, PageDevice, Switch};
use rq_engine::event::{Event, Reply};
use rq_level::Level;
use rq_log::last_lsn;
use rq_model::record::Record;
use rq_model::refusal::Refusal;
use rq_model::txn::Lsn;
use rq_page::layout::Layout;
use rq_planner::StoreLevels;
use rq_pool::frame_count::FrameCount;
use rq_restart::format::format;
use rq_restart::restart::{Report, Stopped, restart};
use rq_shared::kept::Kept;
use std::alloc::{AllocError, Global};

/// The pass under which a script's calls are kept.
const PASS: u64 = 1;

/// What opens a store over devices in memory.
#[derive(Drop)]
pub struct Memory<B: Level> {
    alloc: Global,
    switch: Switch,
    /// In how many frames an opening has the store.
    frames: FrameCount,
    /// The sets of levels that are left; each opening takes the last of them.
    sets: Vec<StoreLevels<B>>,
}

impl<B: Level> Memory<B> {
    /// A formatted store that is opened in so many frames with these sets, and its devices. They have room for so many pages
    /// more.
    pub fn formatted(
        alloc: Global,
        layout: &Layout,
        room: u32,
        frames: FrameCount,
        sets: Vec<StoreLevels<B>>,
    ) -> Result<(Memory<B>, (MemPages, MemLog)), Refusal> {
        let Ok((switch, mut pages, log)) = devices(alloc, layout.pages().saturating_add(room))
        else {
            return Err(Refusal::NoMemory);
        };
        format_all(&mut pages, layout)?;
        let memory = Memory {
            alloc,
            switch,
            frames,
            sets,
        };
        Ok((memory, (pages, log)))
    }

    // Opens the store with the last set of levels, in so many frames.
    fn open_in(
        &mut self,
        devices: (MemPages, MemLog),
        frames: FrameCount,
    ) -> Result<(Kept<MemPages, MemLog, B>, Report), (Refusal, (MemPages, MemLog))> {
        let (pages, log) = devices;
        match self.sets.pop() {
            Some(levels) => open(self.alloc, pages, log, levels, frames),
            None => Err((Refusal::NoMemory, (pages, log))),
        }
    }
}

impl<B: Level> Medium<Kept<MemPages, MemLog, B>, (MemPages, MemLog)> for Memory<B> {
    fn open(
        &mut self,
        devices: (MemPages, MemLog),
    ) -> Result<(Kept<MemPages, MemLog, B>, Report), (Refusal, (MemPages, MemLog))> {
        let frames = self.frames;
        self.open_in(devices, frames)
    }

    fn open_framed(
        &mut self,
        devices: (MemPages, MemLog),
    ) -> Result<(Kept<MemPages, MemLog, B>, Report), (Refusal, (MemPages, MemLog))> {
        self.open_in(devices, FrameCount::most())
    }

    fn ask(&mut self, kept: &mut Kept<MemPages, MemLog, B>, event: Event) -> Reply {
        reply_of(kept, event)
    }

    fn record_at(
        &mut self,
        kept: &mut Kept<MemPages, MemLog, B>,
        place: u64,
    ) -> Result<Option<(Record, u64)>, Refusal> {
        record_of(kept, place)
    }

    fn text_of_log(
        &mut self,
        devices: (MemPages, MemLog),
    ) -> ((MemPages, MemLog), Result<Vec<u8>, Refusal>) {
        let (pages, log) = devices;
        let (log, text) = text_of_device(self.alloc, log);
        ((pages, log), text)
    }

    fn shut(&mut self, kept: Kept<MemPages, MemLog, B>) -> (MemPages, MemLog) {
        handed_over(kept, &self.switch)
    }

    fn crash(
        &mut self,
        devices: (MemPages, MemLog),
        choice: PageChoice,
        keep: u64,
        torn: u64,
    ) -> ((MemPages, MemLog), Lsn) {
        let (pages, log) = devices;
        let log = log.crash(keep, torn);
        let last = last_of(&log);
        ((pages.crash(choice), log), last)
    }

    fn last(&self, devices: &(MemPages, MemLog)) -> Lsn {
        last_of(&devices.1)
    }

    fn left(&self, devices: &(MemPages, MemLog)) -> u64 {
        devices.1.left() as u64
    }

    fn switch(&self) -> &Switch {
        &self.switch
    }
}

// Devices in memory with so many pages, both under one switch.
fn devices(alloc: Global, count: u32) -> Result<(Switch, MemPages, MemLog), AllocError> {
    let switch = Switch::new(alloc)?;
    let pages = MemPages::zeroed(alloc, count, switch.share()?)?;
    let log = MemLog::new(alloc, Vec::new(alloc), switch.share()?);
    Ok((switch, pages, log))
}

fn format_all<P: PageDevice>(pages: &mut P, layout: &Layout) -> Result<(), Refusal> {
    format(pages, layout)
}

// Opens the store that the devices hold, in so many frames.
fn open<P: PageDevice + Drop, L: LogDevice + Drop, B: Level>(
    alloc: Global,
    pages: P,
    log: L,
    levels: StoreLevels<B>,
    frames: FrameCount,
) -> Result<(Kept<P, L, B>, Report), (Refusal, (P, L))> {
    match restart(alloc, pages, log, levels, frames) {
        Ok((engine, report)) => Ok((Kept::new(alloc, engine), report)),
        Err(
            Stopped {
                refusal,
                pages,
                log,
            },
        ) => Err((refusal, (pages, log))),
    }
}

fn reply_of<P: PageDevice + Drop, L: LogDevice + Drop, B: Level>(
    kept: &mut Kept<P, L, B>,
    event: Event,
) -> Reply {
    kept.step(PASS, event).into_reply()
}

fn record_of<P: PageDevice + Drop, L: LogDevice + Drop, B: Level>(
    kept: &mut Kept<P, L, B>,
    place: u64,
) -> Result<Option<(Record, u64)>, Refusal> {
    kept.record_at(place)
}

// The LSN of the last record that a log holds.
fn last_of(log: &MemLog) -> Lsn {
    last_lsn(log.bytes())
}

// The devices of a store whose buffered records are handed over, which no failure meets.
fn handed_over<P: PageDevice + Drop, L: LogDevice + Drop, B: Level>(
    kept: Kept<P, L, B>,
    switch: &Switch,
) -> (P, L) {
    let mut engine = kept.give_back();
    switch.suspend();
    let _ = engine.hand_over();
    switch.resume();
    engine.give_back()
}
