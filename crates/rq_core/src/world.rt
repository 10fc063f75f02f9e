//! A store over devices in memory, and what happens to it: calls, failures of devices, crashes at any device
//! call, restarts.
ghost use Rattle.std.specs.Prelude.{◌≡◌, ◌++◌, [], ◌∷◌, IfOk, IfErr, IsTrue, Some, None, length, map, option_map, slice_get, true};
ghost use Rattle.rq_model.specs.History.{Call};
ghost use Rattle.rq_model.specs.History.Call.{Acknowledge};
ghost use Rattle.rq_engine.specs.Says.{call_of};
ghost use Rattle.rq_disk.specs.Choice.{place_of};
ghost use Rattle.rq_core.specs.Devices.{mem_log, mem_pages};
ghost use Rattle.rq_restart.specs.Opens.{Refuses};
ghost use Rattle.rq_core.specs.Chosen.{all_outlives, HasFrames, IfCrashed, IsRefusedIn, IsAsChosen, IsChosen, IsRunAsChosen, OpenAsChosen, OpenLeavesChosen, ShutAsChosen, ShutLeavesChosen};
ghost use Rattle.rq_core.specs.Happenings.{Course, acknowledging, answers_of, is_of_device, nth};
ghost use Rattle.rq_core.specs.Happenings.Happening.{Crashes, Restarts, Stops_in, Stops_restart};
ghost use Rattle.rq_core.specs.Runs.{GivesUp, Happened, HappensIn, Is, IsFresh, IsHeadline, IsLeftBy, IsOpened, IsRefused, IsRun, Makes};
ghost use Rattle.rq_core.specs.Views.{answer_in, commit_told, course, happens, world_of};
ghost use Rattle.rq_core.specs.World.World.{Is_open, Is_shut};
ghost use Rattle.rq_core.specs.declared.happening.Entry.{Entry};

use crate::happening::{Choice, Entry, Happening};
use crate::laws::a_run_is_told;
use rq_disk::{MemLog, MemPages, Mishap, PageChoice, Switch};
use rq_engine::engine::Engine;
use rq_engine::event::{CommitNo, Event, Reply};
use rq_level::Level;
use rq_log::last_lsn;
use rq_model::refusal::Refusal;
use rq_page::layout::Layout;
use rq_planner::StoreLevels;
use rq_pool::frame_count::FrameCount;
use rq_restart::format::format;
use rq_restart::restart::{Report, Stopped, restart};
use std::alloc::{AllocError, Global};
use std::marker::Model;

/// A store of which nothing has happened: it is formatted, and not open.
#[derive(Drop)]
pub struct World {
    alloc: Global,
    switch: Switch,
    layout: Layout,
    frames: FrameCount,
    pages: MemPages,
    log: MemLog,
}

impl Model for World {
    ghost use Rattle.rq_core.specs.Runs.{Fresh, IsFresh};

    ghost Value = { Fresh };

    ghost view = { λ w. record { sizes = w.layout; frames = w.frames.count } };

    ghost invariant = { λ w. IsFresh w.layout w.pages w.log };
}

/// What a run came to: an entry for each happening, in order, and both devices as they are at its end.
#[derive(Drop)]
pub struct RunResult {
    pub entries: Vec<Entry>,
    pub pages: MemPages,
    pub log: MemLog,
}

#[derive(Drop)]
enum WorldState<B: Level> {
    Shut(MemPages, MemLog),
    Open(Engine<MemPages, MemLog, B>),
}

impl World {
    /// A formatted store with these pages, over devices in memory, which have room for so many pages more. It is not open.
    /// Each restart opens it in so many frames.
    ///
    /// # Errors
    /// Where memory is wanting.
    pub fn new(
        alloc: Global,
        layout: Layout,
        room: u32,
        frames: FrameCount,
    ) -> Result<World, AllocError>
        ensures { IfOk result (λ w. w ≡ record { sizes = layout; frames = frames.count }) }
    {
        let switch = Switch::new(alloc)?;
        let count = layout.pages().saturating_add(room);
        let mut pages = MemPages::zeroed(alloc, count, switch.share()?)?;
        let log = MemLog::new(alloc, Vec::new(alloc), switch.share()?);
        match format(&mut pages, &layout) {
            Ok(()) => Ok(World {
                alloc,
                switch,
                layout,
                frames,
                pages,
                log,
            }),
            Err(_) => Err(AllocError),
        }
    }

    /// All of this happens to the store, one after the other. There is an entry for each, in order: what the call, the
    /// crash or the restart came to at the store that it met. What they tell is a history in which each reply is legal,
    /// each crash keeps what it must, and each restart opens what was left. Whatever a crash at its end leaves is a
    /// store with exactly the content of the commits that it keeps. Each acknowledged commit is one of them. Each
    /// restart of a store that is not open takes the last of the sets of levels; those that are left over are dropped.
    /// It opens the store in as many frames as were asked for.
    ///
    /// # Errors
    /// Where memory is wanting, or no set of levels is left for a restart.
    pub fn run<B: Level>(
        self,
        happenings: &[Happening],
        mut sets: Vec<StoreLevels<B>>,
    ) -> Result<RunResult, AllocError>
        ensures each { IfOk result (λ o. length o.entries.items ≡ length happenings.now) }
        ensures run { IfOk result (λ o. IsRun self.sizes (course happenings.now o.entries.items) o.pages o.log) }
        ensures chosen { IfOk result (λ o. IsRunAsChosen self happenings.now o.entries.items o.pages o.log) }
        ensures headline { IfOk result (λ o. IsHeadline self.sizes (course happenings.now o.entries.items) o.pages o.log) }
    {
        let mut entries = Vec::with_capacity(self.alloc, happenings.len())?;
        let World {
            alloc,
            switch,
            layout: _,
            frames,
            pages,
            log,
        } = self;
        let mut store = WorldState::Shut(pages, log);
        for happening in happenings {
            store = happen_next(
                alloc,
                &switch,
                frames,
                store,
                happening,
                &mut entries,
                &mut sets,
            )?;
        }
        a_run_is_told();
        let (pages, log) = given_up(store);
        Ok(RunResult {
            entries,
            pages,
            log,
        })
    }
}

// One happening more, and its entry.
fn happen_next<B: Level>(
    alloc: Global,
    switch: &Switch,
    frames: FrameCount,
    store: WorldState<B>,
    happening: &Happening,
    entries: &mut Vec<Entry>,
    sets: &mut Vec<StoreLevels<B>>,
) -> Result<WorldState<B>, AllocError>
    ensures { IfOk result (λ next. (entry : Entry) × (entries.new.items ≡ entries.old.items ++ entry ∷ [])
        × ((c : Course) → answers_of c ≡ map answer_in entries.old.items
        → Happened c (happens happening.now) (world_of store) (answer_in entry) (world_of next))
        × IsAsChosen frames.count happening.now (world_of store) (answer_in entry) (world_of next)) }
{
    let (next, entry) = happen(alloc, switch, frames, store, happening, entries, sets)?;
    match entries.push(entry) {
        Ok(()) => Ok(next),
        Err(_) => {
            drop(next);
            Err(AllocError)
        }
    }
}

// One happening, after those that were answered so.
fn happen<B: Level>(
    alloc: Global,
    switch: &Switch,
    frames: FrameCount,
    store: WorldState<B>,
    happening: &Happening,
    entries: &[Entry],
    sets: &mut Vec<StoreLevels<B>>,
) -> Result<(WorldState<B>, Entry), AllocError>
    ensures happened { IfOk result (λ r. (c : Course) → answers_of c ≡ map answer_in entries.now
        → Happened c (happens happening.now) (world_of store) (answer_in r.1) (world_of r.0)) }
    ensures chosen { IfOk result (λ r. IsAsChosen frames.count happening.now (world_of store) (answer_in r.1)
        (world_of r.0)) }
{
    match store {
        WorldState::Open(engine) => happen_to_open(switch, engine, happening, entries),
        WorldState::Shut(pages, log) => happen_to_shut(
            alloc, switch, frames, pages, log, happening, entries, sets,
        ),
    }
}

fn happen_to_open<B: Level>(
    switch: &Switch,
    engine: Engine<MemPages, MemLog, B>,
    happening: &Happening,
    entries: &[Entry],
) -> Result<(WorldState<B>, Entry), AllocError>
    ensures happened { IfOk result (λ r. (c : Course) → answers_of c ≡ map answer_in entries.now
        → Happened c (happens happening.now) (Is_open engine) (answer_in r.1) (world_of r.0)) }
    ensures chosen { IfOk result (λ r. OpenAsChosen happening.now engine (answer_in r.1) (world_of r.0)) }
{
    match happening {
        Happening::Call(event) => Ok(ask(engine, event)),
        Happening::Ack(n) => match committed(entries, *n) {
            Some(number) => Ok(ask(engine, &Event::Acknowledged(number))),
            None => Ok((WorldState::Open(engine), Entry::Nothing)),
        },
        Happening::Fail(n) => {
            switch.arm_call(*n, Mishap::Fail);
            Ok((WorldState::Open(engine), Entry::Nothing))
        }
        Happening::Crash(choice) => match images(choice) {
            Ok(images) => Ok(crash_open(switch, engine, choice.keep, choice.bytes, images)),
            Err(error) => {
                drop(engine);
                Err(error)
            }
        },
        Happening::StopIn(event, n, choice) => match images(choice) {
            Ok(images) => Ok(stop_in(switch, engine, event, *n, choice.keep, choice.bytes, images)),
            Err(error) => {
                drop(engine);
                Err(error)
            }
        },
        Happening::Restart | Happening::RestartStop(..) => {
            Ok((WorldState::Open(engine), Entry::Running))
        }
    }
}

fn happen_to_shut<B: Level>(
    alloc: Global,
    switch: &Switch,
    frames: FrameCount,
    pages: MemPages,
    log: MemLog,
    happening: &Happening,
    entries: &[Entry],
    sets: &mut Vec<StoreLevels<B>>,
) -> Result<(WorldState<B>, Entry), AllocError>
    ensures happened { IfOk result (λ r. (c : Course) → answers_of c ≡ map answer_in entries.now
        → Happened c (happens happening.now) (Is_shut pages log) (answer_in r.1) (world_of r.0)) }
    ensures chosen { IfOk result (λ r. ShutAsChosen frames.count happening.now pages log (answer_in r.1)
        (world_of r.0)) }
{
    match happening {
        Happening::Call(_) | Happening::StopIn(..) => Ok(not_open(pages, log)),
        Happening::Ack(n) => match committed(entries, *n) {
            Some(_) => Ok(not_open(pages, log)),
            None => Ok((WorldState::Shut(pages, log), Entry::Nothing)),
        },
        Happening::Fail(n) => {
            switch.arm_call(*n, Mishap::Fail);
            Ok((WorldState::Shut(pages, log), Entry::Nothing))
        }
        Happening::Crash(_) => Ok(crash_shut(pages, log)),
        Happening::Restart => {
            let levels = next_set(sets)?;
            Ok(reopen(alloc, pages, log, levels, frames))
        }
        Happening::RestartStop(n, choice) => {
            let images = images(choice)?;
            let levels = next_set(sets)?;
            Ok(reopen_stopped(
                alloc,
                switch,
                pages,
                log,
                levels,
                frames,
                *n,
                choice.keep,
                choice.bytes,
                images,
            ))
        }
    }
}

// The levels of the next restart.
fn next_set<B: Level>(sets: &mut Vec<StoreLevels<B>>) -> Result<StoreLevels<B>, AllocError> {
    match sets.pop() {
        Some(levels) => Ok(levels),
        None => Err(AllocError),
    }
}

// The answer to a call of a store that is not open.
fn not_open<B: Level>(pages: MemPages, log: MemLog) -> (WorldState<B>, Entry)
    ensures { (call : Call) → HappensIn (Makes call) (Is_shut pages log) (answer_in result.1) (world_of result.0) }
{
    (
        WorldState::Shut(pages, log),
        Entry::Answered(Reply::Refused(Refusal::Failed)),
    )
}

// The power fails while the store is not open: all that its devices hold outlives it.
fn crash_shut<B: Level>(pages: MemPages, log: MemLog) -> (WorldState<B>, Entry)
    ensures happened { HappensIn (Is Crashes) (Is_shut pages log) (answer_in result.1) (world_of result.0) }
    ensures chosen { IsChosen all_outlives pages log (world_of result.0) }
{
    crash(pages, log, u64::MAX, 0, PageChoice::Newest)
}

// Makes a call of an open store.
fn ask<B: Level>(engine: Engine<MemPages, MemLog, B>, event: &Event) -> (WorldState<B>, Entry)
    ensures { HappensIn (Makes (call_of event.now)) (Is_open engine) (answer_in result.1) (world_of result.0) }
{
    let mut engine = engine;
    let answer = engine.apply(event);
    (WorldState::Open(engine), Entry::Answered(answer))
}

// The power fails. What was not handed over yet may outlive it too, as if it had been.
fn crash_open<B: Level>(
    switch: &Switch,
    engine: Engine<MemPages, MemLog, B>,
    keep: u64,
    torn: u64,
    images: PageChoice,
) -> (WorldState<B>, Entry)
    ensures happened { HappensIn (Is Crashes) (Is_open engine) (answer_in result.1) (world_of result.0) }
    ensures chosen { OpenLeavesChosen (record { keep = keep; torn = torn; places = place_of images }) Event.HandOver
        engine (world_of result.0) }
{
    let mut engine = engine;
    switch.suspend();
    let _ = engine.apply(&Event::HandOver);
    switch.resume();
    let (pages, log) = engine.give_back();
    crash(pages, log, keep, torn, images)
}

// Makes a call; the power fails at its nth device call.
fn stop_in<B: Level>(
    switch: &Switch,
    engine: Engine<MemPages, MemLog, B>,
    event: &Event,
    n: u64,
    keep: u64,
    torn: u64,
    images: PageChoice,
) -> (WorldState<B>, Entry)
    ensures happened { HappensIn (Is (Stops_in (call_of event.now))) (Is_open engine) (answer_in result.1)
        (world_of result.0) }
    ensures chosen { IfCrashed (answer_in result.1) (OpenLeavesChosen (record {
      keep = keep;
      torn = torn;
      places = place_of images;
    }) event.now engine (world_of result.0)) }
{
    let mut engine = engine;
    switch.arm_call(n, Mishap::Stop);
    let reply = engine.apply(event);
    if is_stopped(switch) && has_failed(&reply) {
        let (pages, log) = engine.give_back();
        return crash(pages, log, keep, torn, images);
    }
    (WorldState::Open(engine), Entry::Answered(reply))
}

// Whether the machine stopped since the switch was armed; it is not armed any more.
fn is_stopped(switch: &Switch) -> bool {
    let stopped = switch.is_stopped();
    switch.arm_call(0, Mishap::Stop);
    switch.reset();
    stopped
}

// Opens the store, in so many frames.
fn reopen<B: Level>(
    alloc: Global,
    pages: MemPages,
    log: MemLog,
    levels: StoreLevels<B>,
    frames: FrameCount,
) -> (WorldState<B>, Entry)
    ensures happened { HappensIn (Is Restarts) (Is_shut pages log) (answer_in result.1) (world_of result.0) }
    ensures frames { HasFrames frames.count (world_of result.0) }
    ensures refused { IsRefusedIn frames.count pages log (answer_in result.1) (world_of result.0) }
{
    match try_restart(alloc, pages, log, levels, frames) {
        Ok((engine, report)) => (WorldState::Open(engine), Entry::Restarted(report)),
        Err(stopped) => (
            WorldState::Shut(stopped.pages, stopped.log),
            Entry::Refused(stopped.refusal),
        ),
    }
}

// Opens the store, in so many frames; the power fails at the nth device call of that.
fn reopen_stopped<B: Level>(
    alloc: Global,
    switch: &Switch,
    pages: MemPages,
    log: MemLog,
    levels: StoreLevels<B>,
    frames: FrameCount,
    n: u64,
    keep: u64,
    torn: u64,
    images: PageChoice,
) -> (WorldState<B>, Entry)
    ensures happened { HappensIn (Is Stops_restart) (Is_shut pages log) (answer_in result.1) (world_of result.0) }
    ensures chosen { IfCrashed (answer_in result.1) (ShutLeavesChosen frames.count (record {
      keep = keep;
      torn = torn;
      places = place_of images;
    }) pages log (world_of result.0)) }
    ensures frames { HasFrames frames.count (world_of result.0) }
    ensures refused { IsRefusedIn frames.count pages log (answer_in result.1) (world_of result.0) }
{
    switch.arm_call(n, Mishap::Stop);
    let restarted = try_restart(alloc, pages, log, levels, frames);
    let power_failed = is_stopped(switch);
    match restarted {
        Ok((engine, report)) => (WorldState::Open(engine), Entry::Restarted(report)),
        Err(stopped) if power_failed && is_of_device(stopped.refusal) => {
            crash(stopped.pages, stopped.log, keep, torn, images)
        }
        Err(stopped) => (
            WorldState::Shut(stopped.pages, stopped.log),
            Entry::Refused(stopped.refusal),
        ),
    }
}

// A restart.
fn try_restart<B: Level>(
    alloc: Global,
    pages: MemPages,
    log: MemLog,
    levels: StoreLevels<B>,
    frames: FrameCount,
) -> Result<(Engine<MemPages, MemLog, B>, Report), Stopped<MemPages, MemLog>>
    ensures opened { IfOk result (λ o. IsOpened pages log o.1 o.0) }
    ensures frames { IfOk result (λ o. HasFrames frames.count (Is_open o.0)) }
    ensures refused { IfErr result (λ s. IsRefused pages log s.refusal s.pages s.log) }
    ensures refused_in { IfErr result (λ s. Refuses mem_pages mem_log pages log frames.count s.refusal s.pages s.log) }
{
    restart(alloc, pages, log, levels, frames)
}

// Both devices as the crash leaves them.
fn crash<B: Level>(
    pages: MemPages,
    log: MemLog,
    keep: u64,
    torn: u64,
    images: PageChoice,
) -> (WorldState<B>, Entry)
    ensures left { IsLeftBy pages log (answer_in result.1) (world_of result.0) }
    ensures chosen { IsChosen (record { keep = keep; torn = torn; places = place_of images }) pages log
        (world_of result.0) }
{
    let pages = pages.crash(images);
    let log = log.crash(keep, torn);
    let lsn = last_lsn(log.bytes());
    (WorldState::Shut(pages, log), Entry::Crashed(lsn))
}

// The devices of a store that is given up.
fn given_up<B: Level>(store: WorldState<B>) -> (MemPages, MemLog)
    ensures { GivesUp (world_of store) result.0 result.1 }
{
    match store {
        WorldState::Shut(pages, log) => (pages, log),
        WorldState::Open(engine) => {
            engine.shows_kept();
            engine.give_back()
        }
    }
}

// A device has failed in the call.
fn has_failed(reply: &Reply) -> bool
    ensures { IsTrue result → (r : _) × (reply.now ≡ Reply.Refused r) × (is_of_device r ≡ true) }
{
    match reply {
        Reply::Refused(refusal) => is_of_device(*refusal),
        _ => false,
    }
}

fn is_of_device(refusal: Refusal) -> bool
    ensures { result ≡ is_of_device refusal }
{
    matches!(refusal, Refusal::DiskRead | Refusal::DiskWrite)
}

// The commit that the nth of these answered.
fn committed(entries: &[Entry], n: u64) -> Option<CommitNo>
    ensures { acknowledging (nth n (map answer_in entries.now))
        ≡ option_map (λ number. Acknowledge number.txn number.lsn) result }
{
    if n == 0 || n > entries.len() as u64 {
        return None;
    }
    commit_of(&entries[(n - 1) as usize])
}

// The commit that this answered.
fn commit_of(entry: &Entry) -> Option<CommitNo>
    ensures { result ≡ commit_told entry.now }
{
    match entry {
        Entry::Answered(Reply::Committed(number)) => Some(*number),
        _ => None,
    }
}

// Which image of each page outlives the crash.
fn images(choice: &Choice) -> Result<PageChoice, AllocError>
    ensures { IfOk result (λ images. place_of images ≡ slice_get choice.now.pages.items) }
{
    Ok(PageChoice::Places(choice.pages.clone()?))
}
