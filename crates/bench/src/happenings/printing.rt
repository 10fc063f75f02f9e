//! What a happening came to, as a line: a word, and all that the entry holds.
use rq_core::happening::Entry;
use rq_engine::event::{CommitNo, GroupContent, Outcome, Progress, Reply, Written};
use rq_model::message::Message;
use rq_model::refusal::Refusal;
use rq_model::txn::{Sub, Txn};
use std::io;
use std::io::Write;

/// Adds the line of an entry.
pub fn print_entry(output: &mut Vec<u8>, entry: &Entry) -> io::Result<()> {
    match entry {
        Entry::Answered(reply) => print_reply(output, reply)?,
        Entry::Crashed(records) => print_numbers(output, "crashed", &[*records])?,
        Entry::Restarted(report) => print_numbers(
            output,
            "restarted",
            &[
                report.incarnation,
                report.unfinished,
                report.lost,
                report.records,
            ],
        )?,
        Entry::Refused(refusal) => print_refusal(output, "not-opened", *refusal)?,
        Entry::Running => print_word(output, "running")?,
        Entry::Nothing => print_word(output, "nothing")?,
    }
    output.push(b'\n')?;
    Ok(())
}

fn print_reply(output: &mut Vec<u8>, reply: &Reply) -> io::Result<()> {
    match reply {
        Reply::Begun(txn) => print_txn(output, "begun", *txn),
        Reply::Started(sub) => print_sub(output, *sub),
        Reply::NoMessage => print_word(output, "none"),
        Reply::Stepped(Progress::Done(lsn)) => print_numbers(output, "lsn", &[*lsn]),
        Reply::Stepped(Progress::Ready) => print_word(output, "ready"),
        Reply::Finished(outcome) => print_outcome(output, outcome),
        Reply::Committed(number) => print_commit(output, "committed", *number),
        Reply::Aborting => print_word(output, "aborting"),
        Reply::NothingLeft => print_word(output, "nothing-left"),
        Reply::Aborted => print_word(output, "aborted"),
        Reply::Acknowledged(Some(receipt)) => print_commit(output, "receipt", receipt.number()),
        Reply::Acknowledged(None) => print_word(output, "no-receipt"),
        Reply::HandedOver => print_word(output, "handed-over"),
        Reply::Forced(lsn) => print_numbers(output, "forced", &[*lsn]),
        Reply::Checkpointed(lsn) => print_numbers(output, "checkpoint", &[*lsn]),
        Reply::Migrated(lsn) => print_numbers(output, "migrated", &[*lsn]),
        Reply::Written(Written::Done) => print_word(output, "written"),
        Reply::Written(Written::Nothing) => print_word(output, "not-written"),
        Reply::LastTag(last) => print_numbers(output, "last", &[last.sent, last.tag]),
        Reply::ClientTag(last) => print_numbers(output, "tag", &[last.count, last.tag]),
        Reply::Content(groups) => print_content(output, groups),
        Reply::Refused(refusal) => print_refusal(output, "refused", *refusal),
    }
}

fn print_word(output: &mut Vec<u8>, word: &str) -> io::Result<()> {
    output.extend_from_slice(word.as_bytes())?;
    Ok(())
}

fn print_numbers(output: &mut Vec<u8>, word: &str, numbers: &[u64]) -> io::Result<()> {
    print_word(output, word)?;
    for number in numbers {
        write!(output, " {number}")?;
    }
    Ok(())
}

fn print_txn(output: &mut Vec<u8>, word: &str, txn: Txn) -> io::Result<()> {
    write!(output, "{word} {txn}")
}

fn print_sub(output: &mut Vec<u8>, sub: Sub) -> io::Result<()> {
    print_txn(output, "started", sub.txn)?;
    print_numbers(output, "", &[sub.number])
}

fn print_commit(output: &mut Vec<u8>, word: &str, number: CommitNo) -> io::Result<()> {
    print_txn(output, word, number.txn())?;
    print_numbers(output, "", &[number.lsn()])
}

fn print_outcome(output: &mut Vec<u8>, outcome: &Outcome) -> io::Result<()> {
    match outcome {
        Outcome::Sent => print_word(output, "sent"),
        Outcome::Message(message) => print_message(output, "message", message),
        Outcome::Closed => print_word(output, "closed"),
        Outcome::Marked => print_word(output, "marked"),
        Outcome::Undone => print_word(output, "undone"),
    }
}

// The word, its sender, its tag, and its body as it is.
fn print_message(output: &mut Vec<u8>, word: &str, message: &Message) -> io::Result<()> {
    print_numbers(output, word, &[u64::from(message.sender), message.tag])?;
    output.push(b' ')?;
    output.extend_from_slice(message.body.as_slice())?;
    Ok(())
}

// How many senders there are, and of each that ever sent or closed its group.
fn print_content(output: &mut Vec<u8>, groups: &[GroupContent]) -> io::Result<()> {
    print_numbers(output, "content", &[groups.len() as u64])?;
    for (sender, group) in groups.iter().enumerate() {
        if !is_untouched(group) {
            print_group(output, sender as u64, group)?;
        }
    }
    Ok(())
}

fn is_untouched(group: &GroupContent) -> bool {
    group.sent == 0
        && group.last_tag == 0
        && group.received == 0
        && !group.closed
        && group.rest.is_empty()
}

// The sender, how many messages it sent, the last tag, how many were received, and whether it is closed; and each message
// that is left.
fn print_group(output: &mut Vec<u8>, sender: u64, group: &GroupContent) -> io::Result<()> {
    let numbers = [sender, group.sent, group.last_tag, group.received];
    print_numbers(output, " /", &numbers)?;
    print_word(output, if group.closed { " closed" } else { " open" })?;
    for message in &group.rest {
        print_message(output, " :", message)?;
    }
    Ok(())
}

fn print_refusal(output: &mut Vec<u8>, word: &str, refusal: Refusal) -> io::Result<()> {
    print_numbers(output, word, &[u64::from(refusal.number())])?;
    print_word(output, " ")?;
    print_word(output, refusal.name())
}
