//! What a command came to, and the line that says so.
use rq_engine::event::{ClientTag, GroupContent, LastTag, Outcome, Progress, Reply, Written};
use rq_model::message::Message;
use rq_model::refusal::Refusal;
use rq_model::txn::{Lsn, Sub};
use rq_restart::restart::Report;
use std::io;
use std::io::Write;

/// Room for each line but those of a content and a log, in bytes.
pub const LINE_ROOM: usize = 512;

/// What a command came to.
#[derive(Drop)]
pub enum CommandResult {
    /// What a call answered.
    Reply(Reply),
    /// A device call was set to fail.
    Armed,
    /// A crash, after which the last record has this LSN.
    Crashed(Lsn),
    /// The store was open.
    Running,
    /// The store was opened.
    Restarted(Report),
    /// The machine stopped in a restart, after which the last record has this LSN.
    Stopped(Lsn),
    /// The text of the log.
    Log(Vec<u8>),
    /// The store could not be opened. The script ends.
    Fault(Refusal),
    /// The line of this number is no command. The script ends.
    NoCommand(u64),
}

impl CommandResult {
    /// A refusal.
    pub fn refused(refusal: Refusal) -> CommandResult {
        CommandResult::Reply(Reply::Refused(refusal))
    }

    /// Whether the script ends.
    pub fn is_fault(&self) -> bool {
        match self {
            CommandResult::Fault(_) | CommandResult::NoCommand(_) => true,
            _ => false,
        }
    }

    /// Prints it, in the place of what the output held. A content or a log that memory is wanting for is printed
    /// as refused.
    pub fn print(&self, output: &mut Vec<u8>) {
        output.clear();
        if self.print_whole(output).is_err() {
            output.clear();
            let _ = print_refusal(output, Refusal::NoMemory);
        }
    }

    fn print_whole(&self, output: &mut Vec<u8>) -> io::Result<()> {
        match self {
            CommandResult::Reply(reply) => print_reply(output, reply),
            CommandResult::Armed => print_word(output, "armed"),
            CommandResult::Crashed(last) => print_number(output, "crashed", *last),
            CommandResult::Running => print_word(output, "running"),
            CommandResult::Restarted(report) => print_report(output, *report),
            CommandResult::Stopped(last) => print_number(output, "stopped", *last),
            CommandResult::Log(text) => print_text(output, text),
            CommandResult::Fault(refusal) => print_fault(output, *refusal),
            CommandResult::NoCommand(number) => print_number(output, "fault line", *number),
        }
    }
}

fn print_reply(output: &mut Vec<u8>, reply: &Reply) -> io::Result<()> {
    match reply {
        Reply::Begun(txn) => writeln!(output, "begun {txn}"),
        Reply::Started(sub) => print_operation(output, *sub),
        Reply::NoMessage => print_word(output, "none"),
        Reply::Stepped(Progress::Done(lsn)) => print_number(output, "lsn", *lsn),
        Reply::Stepped(Progress::Ready) => print_word(output, "ready"),
        Reply::Finished(outcome) => print_outcome(output, outcome),
        Reply::Committed(number) => print_number(output, "commit", number.lsn()),
        Reply::Aborting => print_word(output, "aborting"),
        Reply::NothingLeft => print_word(output, "none"),
        Reply::Aborted => print_word(output, "aborted"),
        Reply::Acknowledged(Some(_)) => print_word(output, "yes"),
        Reply::Acknowledged(None) => print_word(output, "no"),
        Reply::HandedOver => Ok(()),
        Reply::Forced(lsn) => print_number(output, "forced", *lsn),
        Reply::Checkpointed(lsn) => print_number(output, "checkpoint", *lsn),
        Reply::Migrated(lsn) => print_number(output, "migrated", *lsn),
        Reply::Written(Written::Done) => print_word(output, "written"),
        Reply::Written(Written::Nothing) => print_word(output, "nothing"),
        Reply::LastTag(last) => print_last(output, *last),
        Reply::ClientTag(last) => print_client_tag(output, *last),
        Reply::Content(groups) => print_content(output, groups),
        Reply::Refused(refusal) => print_refusal(output, *refusal),
    }
}

fn print_text(output: &mut Vec<u8>, text: &[u8]) -> io::Result<()> {
    output.extend_from_slice(text)?;
    Ok(())
}

fn print_word(output: &mut Vec<u8>, word: &str) -> io::Result<()> {
    writeln!(output, "{word}")
}

fn print_number(output: &mut Vec<u8>, word: &str, number: u64) -> io::Result<()> {
    writeln!(output, "{word} {number}")
}

fn print_operation(output: &mut Vec<u8>, sub: Sub) -> io::Result<()> {
    let txn = sub.txn;
    let number = sub.number;
    writeln!(output, "op {txn} {number}")
}

fn print_outcome(output: &mut Vec<u8>, outcome: &Outcome) -> io::Result<()> {
    match outcome {
        Outcome::Sent => print_word(output, "sent"),
        Outcome::Message(message) => print_message(output, message),
        Outcome::Closed => print_word(output, "closed"),
        Outcome::Marked => print_word(output, "marked"),
        Outcome::Undone => print_word(output, "undone"),
    }
}

fn print_message(output: &mut Vec<u8>, message: &Message) -> io::Result<()> {
    let sender = message.sender;
    let tag = message.tag;
    write!(output, "msg {sender} {tag}")?;
    if !message.body.as_slice().is_empty() {
        print_body(output, message)?;
    }
    end_line(output)
}

// `last 2 7`
fn print_last(output: &mut Vec<u8>, last: LastTag) -> io::Result<()> {
    let sent = last.sent;
    let tag = last.tag;
    writeln!(output, "last {sent} {tag}")
}

// `tag 1 70`
fn print_client_tag(output: &mut Vec<u8>, last: ClientTag) -> io::Result<()> {
    let count = last.count;
    let tag = last.tag;
    writeln!(output, "tag {count} {tag}")
}

// A line for each sender with a committed send or close.
fn print_content(output: &mut Vec<u8>, groups: &[GroupContent]) -> io::Result<()> {
    for (sender, group) in groups.iter().enumerate() {
        if group.sent > 0 || group.closed {
            print_group(output, sender, group)?;
        }
    }
    if output.is_empty() {
        print_word(output, "empty")
    } else {
        Ok(())
    }
}

fn print_group(output: &mut Vec<u8>, sender: usize, group: &GroupContent) -> io::Result<()> {
    let state = if group.closed { "closed" } else { "open" };
    let sent = group.sent;
    let received = group.received;
    write!(output, "{sender} {state} sent {sent} received {received}:")?;
    for message in &group.rest {
        print_body(output, message)?;
    }
    end_line(output)
}

fn print_body(output: &mut Vec<u8>, message: &Message) -> io::Result<()> {
    output.extend_from_slice(b" ")?;
    output.extend_from_slice(message.body.as_slice())?;
    Ok(())
}

fn end_line(output: &mut Vec<u8>) -> io::Result<()> {
    output.push(b'\n')?;
    Ok(())
}

fn print_report(output: &mut Vec<u8>, report: Report) -> io::Result<()> {
    let incarnation = report.incarnation;
    let unfinished = report.unfinished;
    let lost = report.lost;
    writeln!(
        output,
        "restarted {incarnation} unfinished {unfinished} lost {lost}"
    )
}

fn print_refusal(output: &mut Vec<u8>, refusal: Refusal) -> io::Result<()> {
    let number = refusal.number();
    let name = refusal.name();
    writeln!(output, "refused {number} {name}")
}

fn print_fault(output: &mut Vec<u8>, refusal: Refusal) -> io::Result<()> {
    let number = refusal.number();
    let name = refusal.name();
    writeln!(output, "fault {number} {name}")
}
