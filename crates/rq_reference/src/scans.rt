//! Looks over the rows of the reference.
ghost use Rattle.rq_model.specs.Ledger.{add_number, any_ends, ended_in, group_in, own_sends, own_takes, rest_in, tag_of, kept_in};
ghost use Rattle.rq_model.specs.Tests.{any_busy, below, count_rest, free_to_receive, free_to_send, is_sending, owed, pending};
ghost use Rattle.rq_reference.specs.Plain.{PlaceOf, done_of, job_of, moved_for, moved_in, op_in, op_of, open_of, ops_with, pick, receiving_with, sending_with, tag_for, tags_in};
ghost use Rattle.rq_model.specs.Vocabulary.{first, front, has_number, is_some, last, last_or};
ghost use Rattle.std.specs.List.{filter_map, slice_get, sum_by};
ghost use Rattle.std.specs.Prelude.{[], ◌∷◌, ◌≡◌, ◌+◌, ◌-◌, ◌++◌, ◌^◌, ◌≤◌, IfOk, OnOk, drop, length, map, min, nat_eq, nat_lt};

use crate::rows::{Act, CommittedTxn, GroupContent, OpenTxn, Work, client_group};
use rq_model::limits::LOG_LIMIT;
use rq_model::message::Message;
use rq_model::txn::{Lsn, Txn};
use std::alloc::{AllocError, Global};

/// Where the transaction stands among those that have not ended.
pub fn place_of(rows: &[OpenTxn], txn: Txn) -> Option<usize>
    ensures { PlaceOf rows.now txn result }
{
    for (i, row) in rows.iter().enumerate() {
        if row.txn == txn {
            return Some(i);
        }
    }
    None
}

/// How many commits stand in the first `records` records.
pub fn kept_in(committed: &[CommittedTxn], records: Lsn) -> usize
    ensures kept { result ≡ kept_in records (map done_of committed.now) }
    ensures within { result ≤ length committed.now }
{
    let mut kept = 0;
    for row in committed {
        if row.lsn <= records {
            kept += 1;
        }
    }
    kept
}

/// The records that the operation under way has yet to log.
fn owed(row: &OpenTxn) -> u64
    ensures { result ≡ owed (open_of row.now) }
{
    if row.work.is_some() {
        u64::from(row.left) + 1
    } else {
        0
    }
}

/// Whether `more` records, with those that operations under way have yet to log, would pass the
/// greatest log.
pub fn log_full(rows: &[OpenTxn], records: u64, more: u64) -> bool
    ensures { result ≡ nat_lt (2 ^ 50) (records + sum_by owed (map open_of rows.now) + more) }
{
    let mut total = records.saturating_add(more);
    for row in rows {
        total = total.saturating_add(owed(row));
    }
    total > LOG_LIMIT
}

/// Which messages: those that were sent, or those that were received.
#[derive(Clone, Copy)]
pub enum Way {
    Sent,
    Taken,
}

/// The message, if it went this way through the sender's group.
fn moved_by(act: &Act, sender: u32, way: Way) -> Option<Message>
    ensures { result ≡ moved_for way sender (op_of act.now) }
{
    match (way, act) {
        (Way::Sent, Act::Sent(message)) if message.sender == sender => Some(*message),
        (Way::Taken, Act::Taken(message)) if message.sender == sender => Some(*message),
        _ => None,
    }
}

/// What has tags: the messages that were sent for a sender, or the marks of a client.
#[derive(Clone, Copy)]
pub enum Tagged {
    Sends,
    Marks,
}

/// The tag, if it is one of these and of this number.
fn tag_by(act: &Act, number: u32, tagged: Tagged) -> Option<u64>
    ensures { result ≡ tag_for tagged number (op_of act.now) }
{
    match (tagged, act) {
        (Tagged::Sends, Act::Sent(message)) if message.sender == number => Some(message.tag),
        (Tagged::Marks, Act::Marked { client, tag }) if *client == number => Some(*tag),
        _ => None,
    }
}

/// Adds what went this way through the sender's group.
pub fn push_moved(
    all: &mut Vec<Message>,
    acts: &[Act],
    sender: u32,
    way: Way,
) -> Result<(), AllocError>
    ensures { OnOk result (all.new.items ≡ all.old.items ++ filter_map (moved_for way sender) (map op_of acts.now)) }
{
    for act in acts {
        if let Some(message) = moved_by(act, sender, way) {
            all.push(message)?;
        }
    }
    Ok(())
}

/// How many of these tags there are, with those told before and no further than `u64::MAX`, and the last of all.
fn told_with(told: (u64, u64), acts: &[Act], number: u32, tagged: Tagged) -> (u64, u64)
    ensures count { result.0 ≡ min (2 ^ 64 - 1) (told.0 + length (filter_map (tag_for tagged number) (map op_of acts.now))) }
    ensures last { result.1 ≡ last_or told.1 (filter_map (tag_for tagged number) (map op_of acts.now)) }
{
    let (mut count, mut last) = told;
    for act in acts {
        if let Some(tag) = tag_by(act, number, tagged) {
            count = count.saturating_add(1);
            last = tag;
        }
    }
    (count, last)
}

/// How many of these tags committed transactions have, no further than `u64::MAX`, and the last; 0 where there is none.
pub fn told(committed: &[CommittedTxn], number: u32, tagged: Tagged) -> (u64, u64)
    ensures count { result.0 ≡ min (2 ^ 64 - 1) (length (tags_in tagged (map done_of committed.now) number)) }
    ensures last { result.1 ≡ last_or 0 (tags_in tagged (map done_of committed.now) number) }
{
    let mut told = (0, 0);
    for row in committed {
        told = told_with(told, &row.acts, number, tagged);
    }
    told
}

/// What committed transactions moved this way through the sender's group, in order.
pub fn moved(
    alloc: Global,
    committed: &[CommittedTxn],
    sender: u32,
    way: Way,
) -> Result<Vec<Message>, AllocError>
    ensures { IfOk result (λ all. all.items ≡ moved_in way (map done_of committed.now) sender) }
{
    let mut all = Vec::new(alloc);
    for row in committed {
        push_moved(&mut all, &row.acts, sender, way)?;
    }
    Ok(all)
}

/// All but the first `gone`.
fn after_first(alloc: Global, all: &[Message], gone: usize) -> Result<Vec<Message>, AllocError>
    ensures { IfOk result (λ left. left.items ≡ drop gone all.now) }
{
    if gone >= all.len() {
        return Ok(Vec::new(alloc));
    }
    Vec::from_slice(alloc, &all[gone..])
}

/// What is committed and not received of the sender, in order.
pub fn waiting(
    alloc: Global,
    committed: &[CommittedTxn],
    sender: u32,
) -> Result<Vec<Message>, AllocError>
    ensures { IfOk result (λ all. all.items ≡ rest_in (map done_of committed.now) sender) }
{
    let all = moved(alloc, committed, sender, Way::Sent)?;
    let gone = moved(alloc, committed, sender, Way::Taken)?.len();
    after_first(alloc, &all, gone)
}

/// The tag of the last message; 0 where there is none.
pub fn last_tag(messages: &[Message]) -> u64
    ensures { result ≡ tag_of messages.now }
{
    let mut tag = 0;
    for message in messages {
        tag = message.tag;
    }
    tag
}

/// The committed content of a sender's group.
fn group(alloc: Global, committed: &[CommittedTxn], sender: u32) -> Result<GroupContent, AllocError>
    ensures { IfOk result (λ content. content ≡ group_in (map done_of committed.now) sender) }
{
    let all = moved(alloc, committed, sender, Way::Sent)?;
    let received = moved(alloc, committed, sender, Way::Taken)?.len();
    let rest = after_first(alloc, &all, received)?;
    Ok(GroupContent {
        sent: all.len() as u64,
        last_tag: last_tag(&all),
        received: received as u64,
        closed: is_closed(committed, sender),
        rest,
    })
}

/// The committed content of the groups of senders 0 to `senders - 1`.
pub fn groups(
    alloc: Global,
    committed: &[CommittedTxn],
    senders: u32,
) -> Result<Vec<GroupContent>, AllocError>
    ensures { IfOk result (λ all. all.items ≡ map (group_in (map done_of committed.now)) (below senders)) }
{
    let mut all = Vec::new(alloc);
    for sender in 0..senders {
        all.push(group(alloc, committed, sender)?)?;
    }
    Ok(all)
}

/// Whether an operation is under way.
pub fn any_busy(rows: &[OpenTxn]) -> bool
    ensures { result ≡ any_busy (map open_of rows.now) }
{
    for row in rows {
        if row.work.is_some() {
            return true;
        }
    }
    false
}

/// How many messages the chain of the sender holds: what is committed and not received, and what those
/// that have not ended sent, without what they received.
pub fn chain_length(
    alloc: Global,
    committed: &[CommittedTxn],
    rows: &[OpenTxn],
    sender: u32,
) -> Result<usize, AllocError>
    ensures { IfOk result (λ n. n ≡ length (rest_in (map done_of committed.now) sender) + sum_by
        (λ o. length (own_sends sender o)) (map open_of rows.now) - sum_by (λ o. length (own_takes sender o))
        (map open_of rows.now)) }
{
    let mut there = waiting(alloc, committed, sender)?;
    let mut gone = Vec::new(alloc);
    for row in rows {
        push_moved(&mut there, &row.acts, sender, Way::Sent)?;
        push_moved(&mut gone, &row.acts, sender, Way::Taken)?;
    }
    Ok(there.len().saturating_sub(gone.len()))
}

/// The cells of what is committed and not received, over senders 0 to `senders - 1`.
fn cells_held(alloc: Global, committed: &[CommittedTxn], senders: u32) -> Result<u128, AllocError>
    ensures { IfOk result (λ n. n ≡ min (2 ^ 128 - 1) (count_rest (below senders) (map done_of committed.now))) }
{
    let mut total: u128 = 0;
    for sender in 0..senders {
        let held = waiting(alloc, committed, sender)?.len();
        total = total.saturating_add(held as u128);
    }
    Ok(total)
}

/// Whether the cells in use are exactly so many.
pub fn fills(
    alloc: Global,
    committed: &[CommittedTxn],
    rows: &[OpenTxn],
    senders: u32,
    cells: u64,
) -> Result<bool, AllocError>
    ensures { IfOk result (λ full. full ≡ nat_eq (count_rest (below senders)
        (map done_of committed.now) + sum_by pending (map open_of rows.now)) cells) }
{
    let mut total = cells_held(alloc, committed, senders)?;
    for row in rows {
        total = total.saturating_add(pending(row));
    }
    Ok(total == u128::from(cells))
}

/// The numbers, with one more where it is not among them.
fn with_number(alloc: Global, numbers: &[u64], number: u64) -> Result<Vec<u64>, AllocError>
    ensures { IfOk result (λ all. all.items ≡ add_number number numbers.now) }
{
    let mut all = Vec::from_slice(alloc, numbers)?;
    if !has_number(numbers, number) {
        all.insert(0, number)?;
    }
    Ok(all)
}

/// What its operations did, once this is finished too.
pub fn acts_with(
    alloc: Global,
    acts: &[Act],
    finished: &Option<Act>,
) -> Result<Vec<Act>, AllocError>
    ensures { IfOk result (λ all. map op_of all.items ≡ ops_with finished.now (map op_of acts.now)) }
{
    match finished {
        Some(act) => with_act(alloc, acts, act),
        None => without_last(alloc, acts),
    }
}

/// The acts, with one more behind.
fn with_act(alloc: Global, acts: &[Act], act: &Act) -> Result<Vec<Act>, AllocError>
    ensures { IfOk result (λ all. map op_of all.items ≡ map op_of acts.now ++ op_of act.now ∷ []) }
{
    let mut all = Vec::from_slice(alloc, acts)?;
    all.push(*act)?;
    Ok(all)
}

/// The acts without the last.
fn without_last(alloc: Global, acts: &[Act]) -> Result<Vec<Act>, AllocError>
    ensures { IfOk result (λ all. map op_of all.items ≡ front (map op_of acts.now)) }
{
    let kept = acts.len().saturating_sub(1);
    let all = Vec::from_slice(alloc, &acts[..kept])?;
    Ok(all)
}

/// The last of these.
pub fn last(acts: &[Act]) -> Option<Act>
    ensures { op_in result ≡ last (map op_of acts.now) }
{
    let count = acts.len();
    if count == 0 {
        return None;
    }
    Some(acts[count - 1])
}

/// Whether something was done.
pub fn has_any(acts: &[Act]) -> bool
    ensures { result ≡ is_some (first (map op_of acts.now)) }
{
    acts.len() > 0
}

/// Whether there is a group.
pub fn has_group(groups: &[u32]) -> bool
    ensures { result ≡ is_some (first groups.now) }
{
    groups.len() > 0
}

/// The message at this place, from 0, if there is one.
pub fn nth(messages: &[Message], place: usize) -> Option<Message>
    ensures { result ≡ slice_get messages.now place }
{
    if place < messages.len() {
        Some(messages[place])
    } else {
        None
    }
}

/// What the transaction received from the sender, and has not undone.
pub fn own_takes(alloc: Global, row: &OpenTxn, sender: u32) -> Result<Vec<Message>, AllocError>
    ensures { IfOk result (λ all. all.items ≡ own_takes sender (open_of row.now)) }
{
    let mut all = Vec::new(alloc);
    push_moved(&mut all, &row.acts, sender, Way::Taken)?;
    Ok(all)
}

/// The groups whose sending end the transaction holds once it does this too.
pub fn sending_with(alloc: Global, row: &OpenTxn, work: &Work) -> Result<Vec<u64>, AllocError>
    ensures { IfOk result (λ all. all.items ≡ sending_with (job_of work.now) row.now.sending.items) }
{
    match work {
        Work::Sending(message) => with_number(alloc, &row.sending, u64::from(message.sender)),
        Work::Closing(sender) => with_number(alloc, &row.sending, u64::from(*sender)),
        Work::Marking { client, .. } => with_number(alloc, &row.sending, client_group(*client)),
        Work::Taking(_) => Vec::from_slice(alloc, &row.sending),
        Work::Undoing => Vec::from_slice(alloc, &row.sending),
    }
}

/// The groups whose receiving end the transaction holds once it does this too.
pub fn receiving_with(alloc: Global, row: &OpenTxn, work: &Work) -> Result<Vec<u64>, AllocError>
    ensures { IfOk result (λ all. all.items ≡ receiving_with (job_of work.now) row.now.receiving.items) }
{
    match work {
        Work::Taking(sender) => with_number(alloc, &row.receiving, u64::from(*sender)),
        Work::Sending(_) => Vec::from_slice(alloc, &row.receiving),
        Work::Closing(_) => Vec::from_slice(alloc, &row.receiving),
        Work::Marking { .. } => Vec::from_slice(alloc, &row.receiving),
        Work::Undoing => Vec::from_slice(alloc, &row.receiving),
    }
}

/// The group that is asked for, if it is among these; else the first.
pub fn pick(groups: &[u32], asked: u32) -> Option<u32>
    ensures { result ≡ pick asked groups.now }
{
    if groups.contains(&asked) {
        return Some(asked);
    }
    if groups.is_empty() {
        return None;
    }
    Some(groups[0])
}

/// Whether one of these closed the sender's group.
pub fn closes(acts: &[Act], sender: u32) -> bool
    ensures { result ≡ any_ends sender (map op_of acts.now) }
{
    for act in acts {
        if let Act::Closed(closed) = act {
            if *closed == sender {
                return true;
            }
        }
    }
    false
}

/// Whether a committed transaction closed the sender's group.
pub fn is_closed(committed: &[CommittedTxn], sender: u32) -> bool
    ensures { result ≡ ended_in (map done_of committed.now) sender }
{
    for row in committed {
        if closes(&row.acts, sender) {
            return true;
        }
    }
    false
}

/// Whether the number is among these.
fn has_number(numbers: &[u64], number: u64) -> bool
    ensures { result ≡ has_number number numbers.now }
{
    numbers.contains(&number)
}

/// Whether no other transaction holds the group's receiving end.
pub fn is_free_to_receive(rows: &[OpenTxn], txn: Txn, group: u64) -> bool
    ensures { result ≡ free_to_receive txn group (map open_of rows.now) }
{
    for row in rows {
        if row.txn != txn && has_number(&row.receiving, group) {
            return false;
        }
    }
    true
}

/// Whether no other transaction holds the group's sending end.
pub fn is_free_to_send(rows: &[OpenTxn], txn: Txn, group: u64) -> bool
    ensures { result ≡ free_to_send txn group (map open_of rows.now) }
{
    for row in rows {
        if row.txn != txn && has_number(&row.sending, group) {
            return false;
        }
    }
    true
}

/// Whether a send of the transaction is under way.
fn is_sending(row: &OpenTxn) -> bool
    ensures { result ≡ is_sending (open_of row.now).under }
{
    match row.work {
        Some(Work::Sending(_)) => true,
        Some(Work::Taking(_)) => false,
        Some(Work::Closing(_)) => false,
        Some(Work::Marking { .. }) => false,
        Some(Work::Undoing) => false,
        None => false,
    }
}

/// The cells of a transaction's sends: those finished and not undone, and one under way.
pub fn pending(row: &OpenTxn) -> u128
    ensures { result ≡ pending (open_of row.now) }
{
    let mut count = u128::from(is_sending(row));
    for act in &row.acts {
        if let Act::Sent(_) = act {
            count += 1;
        }
    }
    count
}
