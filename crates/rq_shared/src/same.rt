//! Whether two events, and two replies, say the same.
ghost use Rattle.std.specs.Prelude.{◌≡◌, ◌↔◌, IsTrue, map};
ghost use Rattle.rq_content.specs.Read.{group_of};
ghost use Rattle.rq_engine.specs.Says.{call_of, gave, outcome_of};

use rq_content::GroupContent;
use rq_engine::event::{Event, Outcome, Reply};
use rq_model::message::Message;

/// Whether they ask the same.
pub(crate) fn same_event(event: &Event, other: &Event) -> bool
    ensures { IsTrue result ↔ (call_of event.now ≡ call_of other.now) }
{
    match (event, other) {
        (Event::Begin, Event::Begin) => true,
        (
            Event::StartSend {
                txn,
                sender,
                tag,
                body,
            },
            Event::StartSend {
                txn: other_txn,
                sender: other_sender,
                tag: other_tag,
                body: other_body,
            },
        ) => {
            *txn == *other_txn
                && *sender == *other_sender
                && *tag == *other_tag
                && body.as_slice() == other_body.as_slice()
        }
        (Event::StartReceive(txn), Event::StartReceive(other)) => *txn == *other,
        (
            Event::StartReceiveFrom { txn, sender },
            Event::StartReceiveFrom {
                txn: other_txn,
                sender: other_sender,
            },
        ) => *txn == *other_txn && *sender == *other_sender,
        (
            Event::StartClose { txn, sender },
            Event::StartClose {
                txn: other_txn,
                sender: other_sender,
            },
        ) => *txn == *other_txn && *sender == *other_sender,
        (
            Event::StartMark { txn, client, tag },
            Event::StartMark {
                txn: other_txn,
                client: other_client,
                tag: other_tag,
            },
        ) => *txn == *other_txn && *client == *other_client && *tag == *other_tag,
        (Event::Step(sub), Event::Step(other)) => *sub == *other,
        (Event::Finish(sub), Event::Finish(other)) => *sub == *other,
        (Event::Commit(txn), Event::Commit(other)) => *txn == *other,
        (Event::StartAbort(txn), Event::StartAbort(other)) => *txn == *other,
        (Event::UndoNext(txn), Event::UndoNext(other)) => *txn == *other,
        (Event::EndAbort(txn), Event::EndAbort(other)) => *txn == *other,
        (Event::Acknowledged(number), Event::Acknowledged(other)) => *number == *other,
        (Event::HandOver, Event::HandOver) => true,
        (Event::Force, Event::Force) => true,
        (Event::Checkpoint, Event::Checkpoint) => true,
        (Event::Migrate(pages), Event::Migrate(other)) => *pages == *other,
        (Event::WritePage(page), Event::WritePage(other)) => *page == *other,
        (Event::LastTag(sender), Event::LastTag(other)) => *sender == *other,
        (Event::ClientTag(client), Event::ClientTag(other)) => *client == *other,
        (Event::Content, Event::Content) => true,
        _ => false,
    }
}

/// Whether they answer the same.
pub(crate) fn same_reply(reply: &Reply, other: &Reply) -> bool
    ensures { IsTrue result ↔ (gave reply.now ≡ gave other.now) }
{
    match (reply, other) {
        (Reply::Begun(txn), Reply::Begun(other)) => *txn == *other,
        (Reply::Started(sub), Reply::Started(other)) => *sub == *other,
        (Reply::NoMessage, Reply::NoMessage) => true,
        (Reply::NothingLeft, Reply::NothingLeft) => true,
        (Reply::Stepped(progress), Reply::Stepped(other)) => *progress == *other,
        (Reply::Finished(outcome), Reply::Finished(other)) => same_outcome(outcome, other),
        (Reply::Committed(number), Reply::Committed(other)) => *number == *other,
        (Reply::Aborting, Reply::Aborting) => true,
        (Reply::Aborted, Reply::Aborted) => true,
        (Reply::Acknowledged(given), Reply::Acknowledged(other)) => *given == *other,
        (Reply::HandedOver, Reply::HandedOver) => true,
        (Reply::Forced(lsn), Reply::Forced(other)) => *lsn == *other,
        (Reply::Checkpointed(lsn), Reply::Checkpointed(other)) => *lsn == *other,
        (Reply::Migrated(lsn), Reply::Migrated(other)) => *lsn == *other,
        (Reply::Written(written), Reply::Written(other)) => *written == *other,
        (Reply::LastTag(last), Reply::LastTag(other)) => *last == *other,
        (Reply::ClientTag(last), Reply::ClientTag(other)) => *last == *other,
        (Reply::Content(groups), Reply::Content(other)) => same_groups(groups, other),
        (Reply::Refused(refusal), Reply::Refused(other)) => *refusal == *other,
        _ => false,
    }
}

// Whether they show the same, in the same order.
fn same_groups(groups: &[GroupContent], others: &[GroupContent]) -> bool
    ensures { IsTrue result ↔ (map group_of groups.now ≡ map group_of others.now) }
{
    if groups.len() != others.len() {
        return false;
    }
    for at in 0..groups.len() {
        if !same_group(&groups[at], &others[at]) {
            return false;
        }
    }
    true
}

fn same_group(group: &GroupContent, other: &GroupContent) -> bool
    ensures { IsTrue result ↔ (group_of group.now ≡ group_of other.now) }
{
    group.sent == other.sent
        && group.last_tag == other.last_tag
        && group.received == other.received
        && group.closed == other.closed
        && same_messages(&group.rest, &other.rest)
}

fn same_messages(messages: &[Message], others: &[Message]) -> bool
    ensures { IsTrue result ↔ (messages.now ≡ others.now) }
{
    if messages.len() != others.len() {
        return false;
    }
    for at in 0..messages.len() {
        if !same_message(&messages[at], &others[at]) {
            return false;
        }
    }
    true
}

fn same_message(message: &Message, other: &Message) -> bool
    ensures { IsTrue result ↔ (message.now ≡ other.now) }
{
    message.sender == other.sender
        && message.tag == other.tag
        && message.body.as_slice() == other.body.as_slice()
}

fn same_outcome(outcome: &Outcome, other: &Outcome) -> bool
    ensures { IsTrue result ↔ (outcome_of outcome.now ≡ outcome_of other.now) }
{
    match (outcome, other) {
        (Outcome::Sent, Outcome::Sent) => true,
        (Outcome::Message(message), Outcome::Message(other)) => same_message(message, other),
        (Outcome::Closed, Outcome::Closed) => true,
        (Outcome::Marked, Outcome::Marked) => true,
        (Outcome::Undone, Outcome::Undone) => true,
        _ => false,
    }
}
