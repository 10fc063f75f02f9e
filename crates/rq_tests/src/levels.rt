//! What each level of a store is asked, and one behind them to which the table of levels gives no meaning. The level of tags is the
//! tests' own.
ghost use Rattle.std.specs.Prelude.{◌≡◌, None};
ghost use Rattle.rq_level.specs.LevelState.{HasRoom};

use crate::counted::{Asks, Bystander, Counted, Counts};
use crate::own_level::ClientCounter;
use rq_bytes::equal::are_equal;
use rq_chain::ChainLevel;
use rq_disk::{MemLog, MemPages, PAGE, PageChoice, PageDevice, Switch};
use rq_engine::engine::Engine;
use rq_engine::event::{Event, Outcome, Progress, Reply, Written};
use rq_level::Level;
use rq_levels::levels_of_store;
use rq_model::txn::{Sub, Txn};
use rq_page::layout::Layout;
use rq_pageops::PageLevel;
use rq_planner::StoreLevels;
use rq_pool::frame_count::FrameCount;
use rq_restart::format::format;
use rq_restart::restart::restart;
use std::alloc::{AllocError, Global};
use std::sync::Arc;
use std::test::Fail;

// A call. A transaction is told by its count, in the incarnation that runs, and an operation by its number in that.
#[derive(Clone, Copy)]
enum Act {
    Begin,
    /// Of a message with no body, under the first sender.
    Send(u64),
    Receive(u64),
    /// A transaction, a client and a tag.
    Mark(u64, u32, u64),
    Step(u64, u64),
    Finish(u64, u64),
    Commit(u64),
    StartAbort(u64),
    Undo(u64),
    EndAbort(u64),
    Force,
    Write(u32),
    LastTag(u32),
    ClientTag(u32),
}

/// A call, and what it answers as a number: a count, an operation's number or an LSN; of a sender or a client its last tag and a
/// hundred times how often it sent or was marked; 0 where all slots are written; `REFUSED` and the number of a refusal; `RECEIVED`
/// and the tag of a message; and one of the words below.
type Row = (Act, u64);

const REFUSED: u64 = 1000;

const SENT: u64 = 2000;

const MARKED: u64 = 2001;

const UNDONE: u64 = 2002;

const ABORTING: u64 = 2003;

const NOTHING_LEFT: u64 = 2004;

const ABORTED: u64 = 2005;

const WRITTEN: u64 = 2006;

const UNCHANGED: u64 = 2007;

const RECEIVED: u64 = 3000;

const OTHER: u64 = u64::MAX;

// A send and a mark are committed. One mark and one send are taken back by aborts, one mark is lost with its transaction, and one
// has no end. Then the pages are written, of senders, of cells and of clients.
const BEFORE: [Row; 46] = [
    (Act::Begin, 1),
    (Act::Send(1), 1),
    (Act::Step(1, 1), 2),
    (Act::Step(1, 1), 3),
    (Act::Step(1, 1), 0),
    (Act::Finish(1, 1), SENT),
    (Act::Mark(1, 0, 70), 2),
    (Act::Step(1, 2), 5),
    (Act::Finish(1, 2), MARKED),
    (Act::Commit(1), 7),
    (Act::Begin, 2),
    (Act::Mark(2, 0, 71), 1),
    (Act::Step(2, 1), 8),
    (Act::Finish(2, 1), MARKED),
    (Act::StartAbort(2), ABORTING),
    (Act::Undo(2), 2),
    (Act::Step(2, 2), 10),
    (Act::Finish(2, 2), UNDONE),
    (Act::Undo(2), NOTHING_LEFT),
    (Act::EndAbort(2), ABORTED),
    (Act::Begin, 3),
    (Act::Send(3), 1),
    (Act::Step(3, 1), 13),
    (Act::Step(3, 1), 14),
    (Act::Step(3, 1), 15),
    (Act::Step(3, 1), 0),
    (Act::Finish(3, 1), SENT),
    (Act::StartAbort(3), ABORTING),
    (Act::Undo(3), 2),
    (Act::Step(3, 2), 17),
    (Act::Step(3, 2), 18),
    (Act::Step(3, 2), 19),
    (Act::Finish(3, 2), UNDONE),
    (Act::Undo(3), NOTHING_LEFT),
    (Act::EndAbort(3), ABORTED),
    (Act::Begin, 4),
    (Act::Mark(4, 0, 72), 1),
    (Act::Step(4, 1), 22),
    (Act::Finish(4, 1), MARKED),
    (Act::Begin, 5),
    (Act::Mark(5, 1, 73), 1),
    (Act::Step(5, 1), 24),
    (Act::Force, 24),
    (Act::Write(1), WRITTEN),
    (Act::Write(2), WRITTEN),
    (Act::Write(3), WRITTEN),
];

// What is left of them: what was committed. The message is received.
const BEHIND: [Row; 8] = [
    (Act::LastTag(0), 107),
    (Act::ClientTag(0), 170),
    (Act::ClientTag(1), 0),
    (Act::Begin, 1),
    (Act::Receive(1), 1),
    (Act::Step(1, 1), 31),
    (Act::Step(1, 1), 32),
    (Act::Finish(1, 1), RECEIVED + 7),
];

// Over pages as they were written last the restart takes marks back, and else makes nothing again.
const BEHIND_WRITTEN: [Row; 6] = [
    (Act::LastTag(0), 107),
    (Act::ClientTag(0), 170),
    (Act::ClientTag(1), 0),
    (Act::Write(1), UNCHANGED),
    (Act::Write(2), UNCHANGED),
    (Act::Write(3), WRITTEN),
];

// What each level was asked.
#[derive(Drop)]
struct Asked {
    slots: Arc<Asks, Global>,
    chains: Arc<Asks, Global>,
    tags: Arc<Asks, Global>,
    bystander: Arc<Asks, Global>,
}

fn all_asks(alloc: Global) -> Result<Asked, AllocError> {
    Ok(Asked {
        slots: Arc::new(alloc, Asks::new())?,
        chains: Arc::new(alloc, Asks::new())?,
        tags: Arc::new(alloc, Asks::new())?,
        bystander: Arc::new(alloc, Asks::new())?,
    })
}

// The devices behind some calls, and whether each of these was answered as it should.
#[derive(Drop)]
struct Left {
    pages: MemPages,
    log: MemLog,
    is_answered: bool,
}

fn event_of(alloc: Global, incarnation: u64, act: Act) -> Event {
    let of = |count| Txn { incarnation, count };
    match act {
        Act::Begin => Event::Begin,
        Act::Send(count) => Event::StartSend {
            txn: of(count),
            sender: 0,
            tag: 7,
            body: Vec::new(alloc),
        },
        Act::Receive(count) => Event::StartReceive(of(count)),
        Act::Mark(count, client, tag) => Event::StartMark {
            txn: of(count),
            client,
            tag,
        },
        Act::Step(count, number) => Event::Step(Sub {
            txn: of(count),
            number,
        }),
        Act::Finish(count, number) => Event::Finish(Sub {
            txn: of(count),
            number,
        }),
        Act::Commit(count) => Event::Commit(of(count)),
        Act::StartAbort(count) => Event::StartAbort(of(count)),
        Act::Undo(count) => Event::UndoNext(of(count)),
        Act::EndAbort(count) => Event::EndAbort(of(count)),
        Act::Force => Event::Force,
        Act::Write(page) => Event::WritePage(page),
        Act::LastTag(sender) => Event::LastTag(sender),
        Act::ClientTag(client) => Event::ClientTag(client),
    }
}

fn number_of(reply: &Reply) -> u64 {
    match reply {
        Reply::Begun(txn) => txn.count,
        Reply::Started(sub) => sub.number,
        Reply::Stepped(Progress::Done(lsn)) => *lsn,
        Reply::Stepped(Progress::Ready) => 0,
        Reply::Finished(Outcome::Sent) => SENT,
        Reply::Finished(Outcome::Message(message)) => RECEIVED.saturating_add(message.tag),
        Reply::Finished(Outcome::Marked) => MARKED,
        Reply::Finished(Outcome::Undone) => UNDONE,
        Reply::Committed(number) => number.lsn(),
        Reply::Aborting => ABORTING,
        Reply::NothingLeft => NOTHING_LEFT,
        Reply::Aborted => ABORTED,
        Reply::Forced(lsn) => *lsn,
        Reply::Written(Written::Done) => WRITTEN,
        Reply::Written(Written::Nothing) => UNCHANGED,
        Reply::LastTag(last) => with_tag(last.sent, last.tag),
        Reply::ClientTag(last) => with_tag(last.count, last.tag),
        Reply::Refused(refusal) => REFUSED.saturating_add(u64::from(refusal.number())),
        _ => OTHER,
    }
}

fn with_tag(count: u64, tag: u64) -> u64 {
    count.saturating_mul(100).saturating_add(tag)
}

fn are_answered<B: Level>(
    alloc: Global,
    engine: &mut Engine<MemPages, MemLog, B>,
    incarnation: u64,
    rows: &[Row],
) -> bool {
    for (act, wanted) in rows {
        if number_of(&engine.apply(&event_of(alloc, incarnation, *act))) != *wanted {
            return false;
        }
    }
    true
}

fn left_by<B: Level>(
    alloc: Global,
    mut engine: Engine<MemPages, MemLog, B>,
    incarnation: u64,
    rows: &[Row],
) -> Left {
    let is_answered = are_answered(alloc, &mut engine, incarnation, rows);
    let (pages, log) = engine.give_back();
    Left {
        pages,
        log,
        is_answered,
    }
}

// Opens a store with these levels, and makes the calls.
fn run_with<B: Level>(
    alloc: Global,
    pages: MemPages,
    log: MemLog,
    levels: StoreLevels<B>,
    rows: &[Row],
) -> Result<Left, &'static str> {
    match restart(alloc, pages, log, levels, FrameCount::most()) {
        Ok((engine, report)) => Ok(left_by(alloc, engine, report.incarnation, rows)),
        Err(_) => Err("restart"),
    }
}

fn four<B: Level>(
    alloc: Global,
    slots: B,
    chains: B,
    tags: B,
    bystander: B,
) -> Result<StoreLevels<B>, AllocError>
    requires slots { B.level slots ≡ 0 }
    requires operations { B.level chains ≡ 1 }
    requires clients { B.level tags ≡ 2 }
    requires behind { B.level bystander ≡ 3 }
    requires sizes { (B.kept slots).sizes ≡ None }
    requires room { HasRoom (B.kept chains) }
    requires nothing { (B.kept bystander).sizes ≡ None }
{
    let mut levels = Vec::with_capacity(alloc, 4)?;
    levels.push(slots)?;
    levels.push(chains)?;
    levels.push(tags)?;
    levels.push(bystander)?;
    Ok(StoreLevels::new(levels))
}

fn run_four<B: Level>(
    alloc: Global,
    pages: MemPages,
    log: MemLog,
    slots: B,
    chains: B,
    tags: B,
    bystander: B,
    rows: &[Row],
) -> Result<Result<Left, &'static str>, AllocError>
    requires slots { B.level slots ≡ 0 }
    requires operations { B.level chains ≡ 1 }
    requires clients { B.level tags ≡ 2 }
    requires behind { B.level bystander ≡ 3 }
    requires sizes { (B.kept slots).sizes ≡ None }
    requires room { HasRoom (B.kept chains) }
    requires nothing { (B.kept bystander).sizes ≡ None }
{
    let levels = four(alloc, slots, chains, tags, bystander)?;
    Ok(run_with(alloc, pages, log, levels, rows))
}

// The same with levels in boxes, which count what they are asked.
fn run(
    alloc: Global,
    pages: MemPages,
    log: MemLog,
    asked: &Asked,
    rows: &[Row],
) -> Result<Left, &'static str> {
    match in_boxes(alloc, asked, pages, log, rows) {
        Ok(ran) => ran,
        Err(_) => Err("memory"),
    }
}

fn in_boxes(
    alloc: Global,
    asked: &Asked,
    pages: MemPages,
    log: MemLog,
    rows: &[Row],
) -> Result<Result<Left, &'static str>, AllocError> {
    let slots: Box<dyn Level + Send> = Box::new(alloc, Counted::new(PageLevel, &asked.slots)?)?;
    let Ok(chains) = ChainLevel::new(alloc) else {
        return Err(AllocError);
    };
    let chains: Box<dyn Level + Send> = Box::new(alloc, Counted::new(chains, &asked.chains)?)?;
    let tags: Box<dyn Level + Send> = Box::new(
        alloc,
        Counted::new(ClientCounter::new(), &asked.tags)?,
    )?;
    let bystander: Box<dyn Level + Send> = Box::new(alloc, Bystander::new(&asked.bystander)?)?;
    run_four(alloc, pages, log, slots, chains, tags, bystander, rows)
}

// The same with the levels that `rqm` has, in an enum.
fn run_three(
    alloc: Global,
    pages: MemPages,
    log: MemLog,
    rows: &[Row],
) -> Result<Left, &'static str> {
    match levels_of_store(alloc) {
        Ok(levels) => run_with(alloc, pages, log, levels, rows),
        Err(_) => Err("memory"),
    }
}

// What a crash leaves of the devices.
fn crashed(left: Left, choice: PageChoice) -> (MemPages, MemLog) {
    let Left { pages, log, .. } = left;
    (pages.crash(choice), log.crash(0, 0))
}

// Whether both were answered as they should, and left the same devices.
fn are_alike(first: &mut Left, second: &mut Left) -> bool {
    if !first.is_answered || !second.is_answered || first.log.bytes() != second.log.bytes() {
        return false;
    }
    let mut one = [0; PAGE];
    let mut other = [0; PAGE];
    for page in 0..4 {
        if first.pages.read(page, &mut one).is_err()
            || second.pages.read(page, &mut other).is_err()
        {
            return false;
        }
        if !are_equal(&one, &other) {
            return false;
        }
    }
    true
}

// The devices of a store of one directory page, one cell page and one tag page, formatted.
fn store(alloc: Global) -> Result<(MemPages, MemLog), &'static str> {
    let layout = Layout::new(1, 1, 1).ok_or("a small store")?;
    let Ok(switch) = Switch::new(alloc) else {
        return Err("memory");
    };
    let Ok(for_pages) = switch.share() else {
        return Err("memory");
    };
    let Ok(mut pages) = MemPages::zeroed(alloc, layout.pages(), for_pages) else {
        return Err("memory");
    };
    match format(&mut pages, &layout) {
        Ok(()) => Ok((pages, MemLog::new(alloc, Vec::new(alloc), switch))),
        Err(_) => Err("format"),
    }
}

// What a level was asked that was dropped once, and read no deed.
fn counts(plans: u64, undos: u64, redos: u64, notes: u64, outcomes: u64) -> Counts {
    Counts {
        plans,
        undos,
        redos,
        notes,
        outcomes,
        reads: 0,
        wants: false,
        drops: 1,
    }
}

// The same of one that was asked so often whether it reads a deed, and perhaps what it wants.
fn reading(counts: Counts, reads: u64, wants: bool) -> Counts {
    let mut now = counts;
    now.reads = reads;
    now.wants = wants;
    now
}

#[test]
fn each_level_is_told_what_it_may_keep(rt: HostRuntime) -> Result<(), Fail> {
    let (pages, log) = store(rt.alloc())?;
    let asked = all_asks(rt.alloc()).map_err(|_| "memory")?;
    let _ = run(rt.alloc(), pages, log, &asked, &[])?;
    // The slot that tells the sizes, and then 15 slots of each of three pages. The first level keeps nothing, and the last one says
    // that it does, so all between are told.
    assert!(rt; asked.slots.counts() == counts(0, 0, 0, 1, 0));
    assert!(rt; asked.chains.counts() == counts(0, 0, 0, 46, 0));
    assert!(rt; asked.tags.counts() == counts(0, 0, 0, 46, 0));
    assert!(rt; asked.bystander.counts() == counts(0, 0, 0, 46, 0));
    Ok(())
}

#[test]
fn each_level_is_asked_what_is_its_own(rt: HostRuntime) -> Result<(), Fail> {
    let (pages, log) = store(rt.alloc())?;
    let first = all_asks(rt.alloc()).map_err(|_| "memory")?;
    let left = run(rt.alloc(), pages, log, &first, &BEFORE)?;
    assert!(rt; left.is_answered);
    // Two sends, of which one is taken back; four marks, of which one is taken back and three have ends. Thirteen writes are told
    // behind the opening, and the cell that each send's plan gave back. What is planned or taken back wants slots. No message is
    // received, so no level is asked what an end answers.
    assert!(rt; first.slots.counts() == counts(0, 0, 0, 1, 0));
    assert!(rt; first.chains.counts() == reading(counts(2, 1, 0, 61, 0), 0, true));
    assert!(rt; first.tags.counts() == reading(counts(4, 1, 0, 61, 0), 0, true));
    assert!(rt; first.bystander.counts() == counts(0, 0, 0, 61, 0));
    let (pages, log) = crashed(left, PageChoice::Synced);
    let second = all_asks(rt.alloc()).map_err(|_| "memory")?;
    let left = run(rt.alloc(), pages, log, &second, &BEHIND)?;
    assert!(rt; left.is_answered);
    // Thirteen writes are made again, one is undone, and one takes back the lost mark, behind what the opening tells. Two ends of
    // sends and three of marks are read, and the lost mark's is again where it is taken back. Then a message is received with two
    // writes, and the level of chains is asked which.
    assert!(rt; second.slots.counts() == counts(0, 1, 15, 1, 0));
    assert!(rt; second.chains.counts() == reading(counts(1, 0, 0, 49, 1), 2, true));
    assert!(rt; second.tags.counts() == reading(counts(0, 1, 0, 49, 0), 4, true));
    assert!(rt; second.bystander.counts() == counts(0, 0, 0, 49, 0));
    Ok(())
}

#[test]
fn levels_go_on_where_others_left(rt: HostRuntime) -> Result<(), Fail> {
    let asked = all_asks(rt.alloc()).map_err(|_| "memory")?;
    let (pages, log) = store(rt.alloc())?;
    let mut first = run(rt.alloc(), pages, log, &asked, &BEFORE)?;
    let (pages, log) = store(rt.alloc())?;
    let mut second = run_three(rt.alloc(), pages, log, &BEFORE)?;
    assert!(rt; are_alike(&mut first, &mut second));
    // Each is opened by the levels that did not write it.
    let (pages, log) = crashed(first, PageChoice::Newest);
    let mut first = run_three(rt.alloc(), pages, log, &BEHIND_WRITTEN)?;
    let (pages, log) = crashed(second, PageChoice::Newest);
    let mut second = run(rt.alloc(), pages, log, &asked, &BEHIND_WRITTEN)?;
    assert!(rt; are_alike(&mut first, &mut second));
    // The tests' own level planned four marks, and took back one in an abort and one that was lost.
    let own = asked.tags.counts();
    assert!(rt; own.plans == 4 && own.undos == 2 && own.drops == 2);
    Ok(())
}
