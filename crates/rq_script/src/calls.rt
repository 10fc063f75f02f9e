//! The calls that a command stands for, made of any store.
use crate::command::{Command, Images, Post, Survivors, Tagging};
use crate::command_result::CommandResult;
use rq_disk::CallKind;
use rq_engine::event::{CommitNo, Event, Outcome, Progress, Reply};
use rq_model::refusal::Refusal;
use rq_model::txn::{Sub, Txn};
use std::alloc::{AllocError, Global};

/// How many calls are made to carry an operation through, those that memory was wanting for among them.
const ATTEMPTS: u32 = 1000;

/// A store that a script drives.
pub trait Store {
    fn is_open(&self) -> bool;

    /// Makes a call, and keeps the number of a commit.
    fn ask(&mut self, event: Event) -> Reply;

    /// The number of a transaction's commit, where this incarnation answered one.
    fn commit_of(&self, txn: Txn) -> Result<CommitNo, Refusal>;

    /// Makes the next device call of a kind fail, once, whether the store has failed or not.
    fn arm(&mut self, kind: CallKind);

    /// A crash; none where the record behind those that outlive it has no more bytes than so many, which is more than none.
    fn crash(&mut self, keep: Survivors, torn: u64, images: Images) -> Option<CommandResult>;

    /// The text of the log of a store that is open, or as a crash left it.
    fn log(&mut self, alloc: Global) -> CommandResult;

    /// Opens the store after a crash, or stops in that once so many records are kept.
    fn restart(&mut self, stop: Option<u64>) -> CommandResult;
}

/// Carries out a command; none where the line of this number is none.
pub fn carry_out<S: Store>(
    store: &mut S,
    alloc: Global,
    number: u64,
    command: Option<Command<'_>>,
) -> CommandResult {
    match command {
        Some(Command::Restart) => store.restart(None),
        Some(Command::StopInRestart(records)) => store.restart(Some(records)),
        Some(Command::Log) => store.log(alloc),
        Some(_) if !store.is_open() => CommandResult::refused(Refusal::Failed),
        Some(Command::Crash(keep, torn, images)) => match store.crash(keep, torn, images) {
            Some(result) => result,
            None => CommandResult::NoCommand(number),
        },
        Some(Command::Fail(kind)) => {
            store.arm(kind);
            CommandResult::Armed
        }
        Some(command) => CommandResult::Reply(call(store, alloc, command)),
        None => CommandResult::NoCommand(number),
    }
}

// Makes the calls that a command stands for, and answers as the last one did.
fn call<S: Store>(store: &mut S, alloc: Global, command: Command<'_>) -> Reply {
    match command {
        Command::Begin => store.ask(Event::Begin),
        Command::Send(post) => send(store, alloc, post),
        Command::OpenSend(post) => open_send(store, alloc, post),
        Command::Recv(txn) => whole_operation(store, Event::StartReceive(txn)),
        Command::RecvFrom(txn, sender) => {
            whole_operation(store, Event::StartReceiveFrom { txn, sender })
        }
        Command::Close(txn, sender) => whole_operation(store, Event::StartClose { txn, sender }),
        Command::Mark(tagging) => whole_operation(store, mark_of(tagging)),
        Command::Step(sub) => store.ask(Event::Step(sub)),
        Command::Finish(sub) => store.ask(Event::Finish(sub)),
        Command::Commit(txn) => store.ask(Event::Commit(txn)),
        Command::Abort(txn) => abort(store, txn),
        Command::StartAbort(txn) => store.ask(Event::StartAbort(txn)),
        Command::Undo(txn) => store.ask(Event::UndoNext(txn)),
        Command::EndAbort(txn) => store.ask(Event::EndAbort(txn)),
        Command::Ack(txn) => ack(store, txn),
        Command::Force => store.ask(Event::Force),
        Command::Checkpoint => store.ask(Event::Checkpoint),
        Command::Migrate(pages) => store.ask(Event::Migrate(pages)),
        Command::Write(page) => store.ask(Event::WritePage(page)),
        Command::Last(sender) => store.ask(Event::LastTag(sender)),
        Command::ClientTag(client) => store.ask(Event::ClientTag(client)),
        Command::Dump => store.ask(Event::Content),
        Command::Fail(_)
        | Command::Crash(..)
        | Command::Restart
        | Command::StopInRestart(_)
        | Command::Log => Reply::Refused(Refusal::Failed),
    }
}

fn mark_of(tagging: Tagging) -> Event {
    Event::StartMark {
        txn: tagging.txn,
        client: tagging.client,
        tag: tagging.tag,
    }
}

fn open_send<S: Store>(store: &mut S, alloc: Global, post: Post<'_>) -> Reply {
    match start_of(alloc, post) {
        Ok(event) => store.ask(event),
        Err(_) => Reply::Refused(Refusal::NoMemory),
    }
}

fn send<S: Store>(store: &mut S, alloc: Global, post: Post<'_>) -> Reply {
    match start_of(alloc, post) {
        Ok(event) => whole_operation(store, event),
        Err(_) => Reply::Refused(Refusal::NoMemory),
    }
}

// A start, all its steps, and its finish.
fn whole_operation<S: Store>(store: &mut S, start: Event) -> Reply {
    match store.ask(start) {
        Reply::Started(sub) => finish_operation(store, sub),
        reply => reply,
    }
}

// Takes the steps that an operation has left, and ends it. What memory was wanting for is tried again.
fn finish_operation<S: Store>(store: &mut S, sub: Sub) -> Reply {
    let mut is_ready = false;
    for _ in 0..ATTEMPTS {
        let event = if is_ready {
            Event::Finish(sub)
        } else {
            Event::Step(sub)
        };
        match store.ask(event) {
            Reply::Stepped(Progress::Done(_)) => {}
            Reply::Stepped(Progress::Ready) => is_ready = true,
            Reply::Refused(Refusal::NoMemory) => {}
            reply => return reply,
        }
    }
    Reply::Refused(Refusal::NoMemory)
}

// Undoes all that a transaction did, and ends it. One that is aborting already goes on with that.
fn abort<S: Store>(store: &mut S, txn: Txn) -> Reply {
    match store.ask(Event::StartAbort(txn)) {
        Reply::Aborting | Reply::Refused(Refusal::NotOpen) => undo_each(store, txn),
        reply => reply,
    }
}

// Undoes what an aborting transaction did, the newest first, and ends it. What is undone before a refusal stays so.
fn undo_each<S: Store>(store: &mut S, txn: Txn) -> Reply {
    for _ in 0..u64::MAX {
        match whole_operation(store, Event::UndoNext(txn)) {
            Reply::Finished(Outcome::Undone) => {}
            Reply::NothingLeft => return store.ask(Event::EndAbort(txn)),
            reply => return reply,
        }
    }
    Reply::Refused(Refusal::Unfinished)
}

fn ack<S: Store>(store: &mut S, txn: Txn) -> Reply {
    match store.commit_of(txn) {
        Ok(number) => store.ask(Event::Acknowledged(number)),
        Err(refusal) => Reply::Refused(refusal),
    }
}

// The start of a send.
fn start_of(alloc: Global, post: Post<'_>) -> Result<Event, AllocError> {
    let body = post.body.to_vec(alloc)?;
    Ok(Event::StartSend {
        txn: post.txn,
        sender: post.sender,
        tag: post.tag,
        body,
    })
}
