//! Stores and calls for tests. They promise nothing, so that what makes many of them is checked fast.
use rq_bytes::GhostList;
use rq_disk::{CallKind, LogDevice, MemLog, MemPages, Mishap, PageChoice, PageDevice, Switch};
use rq_engine::engine::Engine;
use rq_engine::event::{CommitNo, Event, Outcome, Receipt, Reply};
use rq_level::Level;
use rq_levels::{StoreLevel, levels_of_store};
use rq_model::txn::{Sub, Txn};
use rq_page::layout::Layout;
use rq_pool::frame_count::FrameCount;
use rq_restart::format::format;
use rq_restart::restart::restart;
use rq_shared::kept::{AuditEntry, Kept, Stamped};
use rq_workers::acts::RunEnd;
use rq_workers::gate::Gate;
use rq_workers::kept::KeptSteps;
use rq_workers::shared::StampSink;
use rq_workers::steps::Steps;
use rq_workers::worker::Worker;
use std::alloc::{AllocError, Global};
use std::snapshot::Snapshot;
use std::sync::Wait;

type Small = Engine<MemPages, MemLog, StoreLevel>;

/// A store of one directory and one cell page over devices in memory, formatted and opened.
pub fn small_engine(alloc: Global) -> Result<Small, &'static str> {
    let layout = Layout::new(1, 1, 0).ok_or("a small store")?;
    engine_over(alloc, layout, Switch::new(alloc).map_err(|_| "memory")?)
}

/// One of two directory and two cell pages.
pub fn wide_engine(alloc: Global) -> Result<Small, &'static str> {
    let layout = Layout::new(2, 2, 0).ok_or("a wide store")?;
    engine_over(alloc, layout, Switch::new(alloc).map_err(|_| "memory")?)
}

// A small store whose next force fails.
fn failing_engine(alloc: Global) -> Result<Small, &'static str> {
    let layout = Layout::new(1, 1, 0).ok_or("a small store")?;
    let switch = Switch::new(alloc).map_err(|_| "memory")?;
    let Ok(for_store) = switch.share() else {
        return Err("memory");
    };
    let engine = engine_over(alloc, layout, for_store)?;
    switch.arm_kind(CallKind::Force, Mishap::Fail);
    Ok(engine)
}

fn engine_over(alloc: Global, layout: Layout, switch: Switch) -> Result<Small, &'static str> {
    let Ok(for_log) = switch.share() else {
        return Err("memory");
    };
    let Ok(mut pages) = MemPages::zeroed(alloc, layout.pages(), switch) else {
        return Err("memory");
    };
    if format(&mut pages, &layout).is_err() {
        return Err("format");
    }
    opened(alloc, pages, MemLog::new(alloc, Vec::new(alloc), for_log))
}

/// What the devices hold, opened.
pub fn opened<P: PageDevice + Drop, L: LogDevice + Drop>(
    alloc: Global,
    pages: P,
    log: L,
) -> Result<Engine<P, L, StoreLevel>, &'static str> {
    let Ok(levels) = levels_of_store(alloc) else {
        return Err("memory");
    };
    match restart(alloc, pages, log, levels, FrameCount::most()) {
        Ok((engine, _)) => Ok(engine),
        Err(_) => Err("restart"),
    }
}

/// The calls of a small store, under its audit; its next force may fail.
pub fn small_steps(
    alloc: Global,
    fails: bool,
) -> Result<KeptSteps<MemPages, MemLog, StoreLevel>, &'static str> {
    let engine = if fails {
        failing_engine(alloc)?
    } else {
        small_engine(alloc)?
    };
    Ok(KeptSteps::new(Kept::new(alloc, engine), 1))
}

/// The devices of a kept engine, as a crash leaves them that takes what was not synced or forced.
pub fn crashed<B: Level>(kept: Kept<MemPages, MemLog, B>) -> (MemPages, MemLog) {
    let (pages, log) = devices_of(kept);
    (pages.crash(PageChoice::Synced), log.crash(0, 0))
}

fn devices_of<P: PageDevice + Drop, L: LogDevice + Drop, B: Level>(kept: Kept<P, L, B>) -> (P, L) {
    kept.give_back().give_back()
}

/// The start of a send of this byte.
pub fn send_of(alloc: Global, txn: Txn, sender: u32, byte: u8) -> Result<Event, AllocError> {
    let mut body = Vec::new(alloc);
    body.push(byte)?;
    Ok(Event::StartSend {
        txn,
        sender,
        tag: 1,
        body,
    })
}

/// The stamp of a call.
pub fn called<S: Steps>(steps: &mut S, event: Event) -> Stamped {
    steps.call(event)
}

/// Begins a transaction.
pub fn begun<S: Steps>(steps: &mut S) -> Option<Txn> {
    let stamped = steps.call(Event::Begin);
    let txn = match stamped.reply() {
        Reply::Begun(txn) => Some(*txn),
        _ => None,
    };
    steps.seen(stamped);
    txn
}

/// The operation that the stamp says is started.
pub fn started(stamped: &Stamped) -> Option<Sub> {
    match stamped.reply() {
        Reply::Started(sub) => Some(*sub),
        _ => None,
    }
}

/// Commits a transaction.
pub fn committed<S: Steps>(steps: &mut S, txn: Txn) -> Option<CommitNo> {
    let stamped = steps.call(Event::Commit(txn));
    let number = match stamped.reply() {
        Reply::Committed(number) => Some(*number),
        _ => None,
    };
    steps.seen(stamped);
    number
}

/// Begins a transaction: it, and the start of its send of this byte.
pub fn start_of_send<S: Steps>(
    alloc: Global,
    steps: &mut S,
    sender: u32,
    byte: u8,
) -> Option<(Txn, Event)> {
    let txn = begun(steps)?;
    let start = send_of(alloc, txn, sender, byte).ok()?;
    Some((txn, start))
}

/// Whether a send came to its end.
pub fn is_sent(ended: &RunEnd) -> bool {
    matches!(ended, RunEnd::Finished(Outcome::Sent))
}

/// Carries out the operation that this call starts, behind a gate: what came of it, and whether the worker goes on.
pub fn carried_out<G: Gate + Drop, S: Steps, R: Wait>(
    rt: &R,
    gate: G,
    steps: S,
    start: &Event,
) -> (RunEnd, bool, S) {
    let mut worker = Worker::new(gate, steps);
    let ended = worker.run(rt, start);
    let goes_on = worker.goes_on();
    (ended, goes_on, worker.into_steps())
}

/// The receipt that the stamp gives.
pub fn receipt(stamped: &Stamped) -> Option<Receipt> {
    match stamped.reply() {
        Reply::Acknowledged(given) => *given,
        _ => None,
    }
}

/// Stamps are kept, where there is memory for them.
#[derive(Drop)]
pub struct KeepStamps {
    pub stamps: Vec<Stamped>,
    handed: Snapshot<GhostList<Stamped>>,
}

impl KeepStamps {
    pub fn new(alloc: Global) -> Self {
        KeepStamps {
            stamps: Vec::new(alloc),
            handed: GhostList::empty(),
        }
    }
}

impl StampSink for KeepStamps {
    ghost handed = { λ k. k.handed.value };

    fn keep(&mut self, stamped: Stamped) {
        GhostList::push(&mut self.handed, &stamped);
        let _ = self.stamps.push(stamped);
    }
}

/// Whether this sender's group is open and has sent one message, of this byte, which nobody has received.
pub fn has_sent<P: PageDevice + Drop, L: LogDevice + Drop>(
    engine: &mut Engine<P, L, StoreLevel>,
    sender: usize,
    byte: u8,
) -> Result<bool, &'static str> {
    let Ok(groups) = engine.content() else {
        return Err("content");
    };
    let group = groups.get(sender).ok_or("a sender")?;
    let waiting = group.rest.first().ok_or("a message")?;
    let is_one = group.sent == 1 && group.received == 0 && group.rest.len() == 1;
    Ok(is_one && !group.closed && waiting.body.as_slice() == [byte].as_slice())
}

/// How many senders have sent something.
pub fn senders_of<P: PageDevice + Drop, L: LogDevice + Drop>(
    engine: &mut Engine<P, L, StoreLevel>,
) -> Result<usize, &'static str> {
    let Ok(groups) = engine.content() else {
        return Err("content");
    };
    let mut senders = 0usize;
    for group in &groups {
        if group.sent > 0 {
            senders = senders.saturating_add(1);
        }
    }
    Ok(senders)
}

/// What a store holds behind its calls: how many were made, where that is told; whether the last one ended an abort; and how many
/// messages of the first sender are committed, how many were received, and whether no other sender has any.
#[derive(Clone, Copy)]
pub struct EndState {
    pub calls: Option<usize>,
    pub has_aborted: bool,
    pub messages: Option<(u64, u64, bool)>,
}

/// Whether these calls leave that.
pub fn leave<P: PageDevice + Drop, L: LogDevice + Drop, B: Level>(
    steps: KeptSteps<P, L, B>,
    left: &EndState,
) -> bool {
    let kept = steps.into_kept();
    let is_called = are_called(kept.entries(), left);
    messages_of(&mut kept.give_back()) == left.messages && is_called
}

fn are_called(audit: &[AuditEntry], left: &EndState) -> bool {
    let is_counted = match left.calls {
        Some(calls) => audit.len() == calls,
        None => true,
    };
    is_counted && has_aborted(audit) == left.has_aborted
}

fn messages_of<P: PageDevice + Drop, L: LogDevice + Drop, B: Level>(
    engine: &mut Engine<P, L, B>,
) -> Option<(u64, u64, bool)> {
    let groups = engine.content().ok()?;
    let mut others = 0u64;
    for group in &groups {
        others |= group.sent;
    }
    let first = groups.first()?;
    Some((first.sent, first.received, others == first.sent))
}

/// Whether the last of these calls ended an abort.
pub fn has_aborted(audit: &[AuditEntry]) -> bool {
    match audit.last() {
        Some(entry) => matches!(entry.reply(), Reply::Aborted),
        None => false,
    }
}
