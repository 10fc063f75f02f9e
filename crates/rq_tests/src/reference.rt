//! The queue as plain lists: what each call comes to. A store is asked the same in `tests/worlds`.
use rq_model::message::Message;
use rq_model::refusal::Refusal;
use rq_model::txn::{Lsn, Txn};
use rq_reference::Reference;
use rq_reference::rows::{Act, GroupContent};
use std::test::Fail;

/// A call. A transaction is told by its count, in the incarnation that runs.
#[derive(Clone, Copy)]
enum Call {
    Begin,
    /// A transaction, a sender and a tag.
    Send(u64, u32, u64),
    /// A body that is too long by a byte, of this transaction.
    SendLong(u64),
    Take(u64),
    TakeFrom(u64, u32),
    Close(u64, u32),
    /// A transaction, a client and a tag.
    Mark(u64, u32, u64),
    /// A transaction, and the number of its operation.
    Step(u64, u64),
    Finish(u64, u64),
    StartAbort(u64),
    Undo(u64),
    EndAbort(u64),
    Commit(u64),
    /// Of the last commit.
    Acknowledge,
    HandOver,
    Force,
    Checkpoint,
    /// Pages of tags.
    Migrate(u32),
    /// A sender.
    LastTag(u32),
    /// A client.
    ClientTag(u32),
    Content,
    /// Pages of tags that a migration leaves, before a crash.
    Grow(u32),
    /// A crash that leaves so many records.
    Crash(u64),
    /// An incarnation, and how many records there are then.
    Restart(u64, u64),
}

/// A call, and what it answers as a number: a count, an operation's number, an LSN, a message's tag; of a last tag that and a
/// hundred times how many were sent, of a client's the same of its marks; of a content how many messages are left, ten times how many were received, a hundred times
/// how many were sent, and a thousand for each closed group; `REFUSED` and the number of a refusal; 1 for yes, and 0 where nothing
/// is told. A message that says something else than what was sent comes to `OTHER`.
type Row = (Call, u64);

const REFUSED: u64 = 100;

const OTHER: u64 = u64::MAX;

/// What the message with the tag 7 says.
const HELLO: &[u8] = b"hello";

/// What every other message says.
const BODY: &[u8] = b"m";

const LONG: &[u8] = &[b'm'; 217];

fn body_of(tag: u64) -> &'static [u8] {
    if tag == 7 { HELLO } else { BODY }
}

fn told_by(message: &Message) -> u64 {
    if message.sender == 0 && message.body.as_slice() == body_of(message.tag) {
        message.tag
    } else {
        OTHER
    }
}

fn number(told: Result<u64, Refusal>) -> u64 {
    match told {
        Ok(number) => number,
        Err(refusal) => REFUSED.saturating_add(u64::from(refusal.number())),
    }
}

fn of(incarnation: u64, count: u64) -> Txn {
    Txn { incarnation, count }
}

fn ask(queue: &mut Reference, call: Call, commit: Option<(Txn, Lsn)>) -> Result<u64, Refusal> {
    let now = queue.incarnation();
    match call {
        Call::Begin => Ok(queue.begin()?.count),
        Call::Send(count, sender, tag) => {
            queue.start_send(of(now, count), sender, tag, body_of(tag))
        }
        Call::SendLong(count) => queue.start_send(of(now, count), 0, 1, LONG),
        Call::Take(count) => take(queue, of(now, count)),
        Call::TakeFrom(count, sender) => Ok(
            queue
                .start_receive_from(of(now, count), sender)?
                .unwrap_or(0),
        ),
        Call::Close(count, sender) => queue.start_close(of(now, count), sender),
        Call::Mark(count, client, tag) => queue.start_mark(of(now, count), client, tag),
        Call::Step(count, asked) => Ok(queue.step(of(now, count), asked)?.unwrap_or(0)),
        Call::Finish(count, asked) => finish(queue, of(now, count), asked),
        Call::Commit(count) => queue.commit(of(now, count)),
        Call::Acknowledge => acknowledge(queue, commit),
        call => ask_other(queue, call, now),
    }
}

fn ask_other(queue: &mut Reference, call: Call, now: u64) -> Result<u64, Refusal> {
    match call {
        Call::StartAbort(count) => queue.start_abort(of(now, count))?,
        Call::Undo(count) => return Ok(queue.undo_next(of(now, count))?.unwrap_or(0)),
        Call::EndAbort(count) => queue.end_abort(of(now, count))?,
        Call::HandOver => queue.hand_over()?,
        Call::Force => return queue.force(),
        Call::Checkpoint => return queue.checkpoint(),
        Call::Migrate(pages) => return queue.migrate(pages),
        Call::LastTag(sender) => return Ok(with_tag(queue.last_tag(sender)?)),
        Call::ClientTag(client) => return Ok(with_tag(queue.client_tag(client)?)),
        Call::Content => return content(queue),
        Call::Grow(pages) => return Ok(grow(queue, pages)),
        Call::Crash(records) => return Ok(crash(queue, records)),
        Call::Restart(incarnation, records) => return Ok(restart(queue, incarnation, records)),
        _ => return Ok(OTHER),
    }
    Ok(0)
}

fn take(queue: &mut Reference, txn: Txn) -> Result<u64, Refusal> {
    match queue.start_receive(txn, 0)? {
        Some((_, number)) => Ok(number),
        None => Ok(0),
    }
}

fn finish(queue: &mut Reference, txn: Txn, number: u64) -> Result<u64, Refusal> {
    match queue.finish(txn, number)? {
        Some(Act::Taken(message)) => Ok(told_by(&message)),
        _ => Ok(0),
    }
}

fn acknowledge(queue: &Reference, commit: Option<(Txn, Lsn)>) -> Result<u64, Refusal> {
    match commit {
        Some((txn, lsn)) => Ok(u64::from(queue.acknowledged(txn, lsn)?)),
        None => Ok(OTHER),
    }
}

// How many there are, and the last one's tag.
fn with_tag((count, tag): (u64, u64)) -> u64 {
    count.saturating_mul(100).saturating_add(tag)
}

fn content(queue: &Reference) -> Result<u64, Refusal> {
    let mut all: u64 = 0;
    for group in queue.content()? {
        all = all.saturating_add(sum_of(&group));
    }
    Ok(all)
}

fn sum_of(group: &GroupContent) -> u64 {
    if group.rest.iter().any(|message| told_by(message) == OTHER) {
        return OTHER;
    }
    (group.rest.len() as u64)
        .saturating_add(group.received.saturating_mul(10))
        .saturating_add(group.sent.saturating_mul(100))
        .saturating_add(if group.closed { 1000 } else { 0 })
}

// Whether a crash may leave so many tag pages, and did.
fn grow(queue: &mut Reference, pages: u32) -> u64 {
    let may = queue.may_grow(pages);
    if may {
        queue.grow(pages);
    }
    u64::from(may)
}

// Whether it may crash so, and did.
fn crash(queue: &mut Reference, records: u64) -> u64 {
    let may = queue.may_crash(records);
    if may {
        queue.crash(records);
    }
    u64::from(may)
}

fn restart(queue: &mut Reference, incarnation: u64, records: u64) -> u64 {
    let may = queue.may_restart(incarnation, records);
    if may {
        queue.restart(incarnation, records);
    }
    u64::from(may)
}

// The commit that was made last, behind this answer.
fn commit_behind(queue: &Reference, call: Call, told: u64) -> Option<(Txn, Lsn)> {
    match call {
        Call::Commit(count) if told < REFUSED => Some((of(queue.incarnation(), count), told)),
        _ => None,
    }
}

// The number of the first row, from 1, that comes to something else, and to what.
fn first_other(queue: &mut Reference, rows: &[Row]) -> Option<(usize, u64)> {
    let mut commit = None;
    for (place, (call, wanted)) in rows.iter().enumerate() {
        let told = number(ask(queue, *call, commit));
        if told != *wanted {
            return Some((place, told));
        }
        commit = commit_behind(queue, *call, told).or(commit);
    }
    None
}

// Two messages, each with a body of its own, are committed; one is received and put back, and then received for good. What is
// begun is undone, a close too; and one is closed. A checkpoint is made where none is open, and one is stopped by a crash. A
// client is marked and the mark committed; another mark of it is undone.
const ROWS: [Row; 109] = [
    (Call::Begin, 102),
    (Call::Restart(1, 1), 1),
    (Call::Begin, 1),
    (Call::Send(1, 0, 7), 1),
    (Call::Finish(1, 1), 106),
    (Call::Commit(1), 106),
    (Call::Content, 106),
    (Call::Step(1, 1), 2),
    (Call::Step(1, 1), 3),
    (Call::Step(1, 1), 0),
    (Call::Step(1, 2), 120),
    (Call::Finish(1, 1), 0),
    (Call::Send(1, 0, 8), 2),
    (Call::Step(1, 2), 5),
    (Call::Step(1, 2), 6),
    (Call::Step(1, 2), 7),
    (Call::Finish(1, 2), 0),
    (Call::Send(1, 15, 1), 107),
    (Call::SendLong(1), 108),
    (Call::Begin, 2),
    (Call::Send(2, 0, 9), 109),
    (Call::Take(2), 0),
    (Call::Commit(1), 9),
    (Call::Commit(1), 104),
    (Call::LastTag(0), 208),
    (Call::Content, 202),
    (Call::TakeFrom(2, 0), 1),
    (Call::Step(2, 1), 10),
    (Call::Step(2, 1), 11),
    (Call::Step(2, 1), 12),
    (Call::Finish(2, 1), 7),
    (Call::Begin, 3),
    (Call::TakeFrom(3, 0), 111),
    (Call::Close(2, 1), 2),
    (Call::Step(2, 2), 14),
    (Call::Finish(2, 2), 0),
    (Call::Send(2, 1, 1), 110),
    (Call::StartAbort(2), 0),
    (Call::EndAbort(2), 106),
    (Call::Undo(2), 3),
    (Call::Step(2, 3), 16),
    (Call::Finish(2, 3), 0),
    (Call::Undo(2), 4),
    (Call::Step(2, 4), 18),
    (Call::Step(2, 4), 19),
    (Call::Step(2, 4), 20),
    (Call::Finish(2, 4), 0),
    (Call::Undo(2), 0),
    (Call::EndAbort(2), 0),
    (Call::Take(3), 1),
    (Call::Step(3, 1), 23),
    (Call::Step(3, 1), 24),
    (Call::Step(3, 1), 25),
    (Call::Finish(3, 1), 7),
    (Call::HandOver, 0),
    (Call::Commit(3), 27),
    (Call::Acknowledge, 0),
    (Call::Force, 27),
    (Call::Acknowledge, 1),
    (Call::Begin, 4),
    (Call::Close(4, 0), 1),
    (Call::Step(4, 1), 28),
    (Call::Finish(4, 1), 0),
    (Call::Commit(4), 30),
    (Call::Force, 30),
    (Call::Crash(30), 1),
    (Call::Begin, 102),
    (Call::Restart(2, 31), 1),
    (Call::Content, 1211),
    (Call::LastTag(0), 208),
    (Call::Begin, 1),
    (Call::Send(1, 0, 9), 110),
    (Call::Take(1), 1),
    (Call::Checkpoint, 121),
    (Call::Crash(32), 0),
    (Call::Crash(31), 1),
    (Call::Checkpoint, 102),
    (Call::Restart(3, 33), 1),
    (Call::Checkpoint, 34),
    (Call::Content, 1211),
    (Call::Crash(33), 0),
    (Call::Crash(34), 1),
    (Call::Restart(4, 36), 1),
    (Call::Crash(38), 0),
    (Call::Crash(37), 1),
    (Call::Mark(1, 3, 70), 102),
    (Call::ClientTag(3), 102),
    (Call::Restart(5, 40), 1),
    (Call::Begin, 1),
    (Call::Mark(1, 15, 70), 122),
    (Call::Mark(1, 3, 70), 1),
    (Call::Step(1, 1), 41),
    (Call::Step(1, 1), 0),
    (Call::Finish(1, 1), 0),
    (Call::ClientTag(3), 0),
    (Call::Begin, 2),
    (Call::Mark(2, 3, 71), 123),
    (Call::Commit(1), 43),
    (Call::ClientTag(3), 170),
    (Call::Mark(2, 3, 71), 1),
    (Call::Step(2, 1), 44),
    (Call::Finish(2, 1), 0),
    (Call::StartAbort(2), 0),
    (Call::Undo(2), 2),
    (Call::Step(2, 2), 46),
    (Call::Finish(2, 2), 0),
    (Call::EndAbort(2), 0),
    (Call::ClientTag(3), 170),
    (Call::ClientTag(15), 122),
];

// A store without clients gets some, where no transaction is open, and answers nothing more before it is opened again. Then its
// clients can be marked, and it gets no others.
const MIGRATED_ROWS: [Row; 33] = [
    (Call::Migrate(1), 102),
    (Call::Restart(1, 1), 1),
    (Call::Begin, 1),
    (Call::Mark(1, 3, 70), 122),
    (Call::Migrate(1), 121),
    (Call::Migrate(0), 124),
    (Call::Migrate(1025), 124),
    (Call::Send(1, 0, 7), 1),
    (Call::Step(1, 1), 2),
    (Call::Step(1, 1), 3),
    (Call::Finish(1, 1), 0),
    (Call::Commit(1), 5),
    (Call::ClientTag(0), 122),
    (Call::Migrate(1), 6),
    (Call::Acknowledge, 102),
    (Call::Content, 102),
    (Call::Migrate(1), 102),
    (Call::Grow(2), 0),
    (Call::Restart(2, 7), 0),
    (Call::Crash(5), 0),
    (Call::Crash(6), 0),
    (Call::Grow(1), 1),
    (Call::Restart(2, 7), 1),
    (Call::Content, 101),
    (Call::ClientTag(14), 0),
    (Call::ClientTag(15), 122),
    (Call::Begin, 1),
    (Call::Mark(1, 3, 70), 1),
    (Call::Step(1, 1), 8),
    (Call::Migrate(2), 124),
    (Call::Finish(1, 1), 0),
    (Call::Commit(1), 10),
    (Call::ClientTag(3), 170),
];

// A crash cuts a migration off, and leaves its record and the tag pages that it wrote.
const GROWN_ROWS: [Row; 16] = [
    (Call::Grow(1), 0),
    (Call::Restart(1, 1), 1),
    (Call::Begin, 1),
    (Call::Grow(1), 0),
    (Call::Commit(1), 2),
    (Call::Grow(0), 0),
    (Call::Grow(1025), 0),
    (Call::Grow(1024), 1),
    (Call::Force, 102),
    (Call::Crash(1), 0),
    (Call::Restart(2, 3), 0),
    (Call::Crash(3), 1),
    (Call::Grow(1), 0),
    (Call::Restart(2, 4), 1),
    (Call::ClientTag(15359), 0),
    (Call::ClientTag(15360), 122),
];

// A log of the greatest length has no room for the record of a migration or a checkpoint that a crash would cut off.
const FULL_ROWS: [Row; 4] = [
    (Call::Restart(1, 1 << 50), 1),
    (Call::Grow(1), 0),
    (Call::Crash((1 << 50) + 1), 0),
    (Call::Crash(1 << 50), 1),
];

// A store of one directory, one cell and one tag page.
#[test]
fn lists_answer_each_call(rt: HostRuntime) {
    let mut queue = Reference::new(rt.alloc(), 15, 15, 15);
    assert_eq!(rt; first_other(&mut queue, &ROWS), None);
}

// A store of one directory and one cell page, which gets tag pages.
#[test]
fn lists_answer_migrations(rt: HostRuntime) {
    let mut queue = Reference::new(rt.alloc(), 15, 15, 0);
    assert_eq!(rt; first_other(&mut queue, &MIGRATED_ROWS), None);
    let mut queue = Reference::new(rt.alloc(), 15, 15, 0);
    assert_eq!(rt; first_other(&mut queue, &GROWN_ROWS), None);
    let mut queue = Reference::new(rt.alloc(), 15, 15, 0);
    assert_eq!(rt; first_other(&mut queue, &FULL_ROWS), None);
}
