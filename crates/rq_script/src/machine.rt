//! A store that is open, or as a crash left it, over whatever opens it. It knows no engine, so that its proofs speak of none.
use crate::calls::Store;
use crate::command::{Images, Survivors};
use crate::command_result::CommandResult;
use crate::log::text_of_open;
use rq_disk::{CallKind, Mishap, PageChoice, Switch};
use rq_engine::event::{CommitNo, Event, Reply};
use rq_model::record::Record;
use rq_model::refusal::Refusal;
use rq_model::txn::{Lsn, Txn};
use rq_restart::restart::Report;
use std::alloc::Global;
use std::mem;

/// How a store is opened, asked and shut. Shut, it is its devices.
pub trait Medium<K, D> {
    /// Opens the store that the devices hold. Where that is refused, they are left.
    fn open(&mut self, devices: D) -> Result<(K, Report), (Refusal, D)>;

    /// The same with a frame for each page.
    fn open_framed(&mut self, devices: D) -> Result<(K, Report), (Refusal, D)>;

    /// Makes a call.
    fn ask(&mut self, kept: &mut K, event: Event) -> Reply;

    /// What stands at a place of the log, and the place behind it.
    fn record_at(&mut self, kept: &mut K, place: u64) -> Result<Option<(Record, u64)>, Refusal>;

    /// The text of the log that the devices hold. They are as they were.
    fn text_of_log(&mut self, devices: D) -> (D, Result<Vec<u8>, Refusal>);

    /// The devices of a store whose buffered records are handed over, which no failure meets.
    fn shut(&mut self, kept: K) -> D;

    /// The devices as a crash leaves them, and the LSN of the last record.
    fn crash(&mut self, devices: D, choice: PageChoice, keep: u64, torn: u64) -> (D, Lsn);

    /// The LSN of the last record that the devices hold.
    fn last(&self, devices: &D) -> Lsn;

    /// How many bytes stand behind it.
    fn left(&self, devices: &D) -> u64;

    /// What makes device calls fail.
    fn switch(&self) -> &Switch;
}

/// What there is of a store.
#[derive(Drop)]
enum State<K, D> {
    Open(K),
    Crashed(D),
    Lost,
}

impl<K: Drop, D: Drop> State<K, D> {
    fn is_open(&self) -> bool {
        match self {
            State::Open(_) => true,
            _ => false,
        }
    }

    // What is open. Nothing is there then.
    fn take_open(&mut self) -> Option<K> {
        match mem::replace(self, State::Lost) {
            State::Open(kept) => Some(kept),
            State::Crashed(devices) => {
                *self = State::Crashed(devices);
                None
            }
            State::Lost => None,
        }
    }

    // What a crash left. Nothing is there then.
    fn take_crashed(&mut self) -> Option<D> {
        match mem::replace(self, State::Lost) {
            State::Open(kept) => {
                *self = State::Open(kept);
                None
            }
            State::Crashed(devices) => Some(devices),
            State::Lost => None,
        }
    }
}

/// What the calls of an incarnation came to.
#[derive(Drop)]
struct Answered {
    /// The commits that were answered.
    commits: Vec<CommitNo>,
    /// Whether a device write has failed.
    failed: bool,
}

impl Answered {
    fn nothing(alloc: Global) -> Answered {
        Answered {
            commits: Vec::new(alloc),
            failed: false,
        }
    }

    // Room for the number of a commit is made before the call, so that none is answered and forgotten.
    fn makes_room(&mut self) -> bool {
        self.commits.try_reserve(1).is_ok()
    }

    fn note(&mut self, reply: &Reply) {
        match reply {
            Reply::Committed(number) => {
                let _ = self.commits.push(*number);
            }
            Reply::Refused(Refusal::DiskWrite) => self.failed = true,
            _ => {}
        }
    }

    fn commit_of(&self, txn: Txn) -> Result<CommitNo, Refusal> {
        for number in &self.commits {
            if number.txn() == txn {
                return Ok(*number);
            }
        }
        if self.failed {
            Err(Refusal::Failed)
        } else {
            Err(Refusal::UnknownTransaction)
        }
    }

    fn clear(&mut self) {
        self.commits.clear();
        self.failed = false;
    }
}

/// A store, and what opens it.
#[derive(Drop)]
pub struct Machine<K, D, M> {
    medium: M,
    state: State<K, D>,
    answered: Answered,
}

impl<K: Drop, D: Drop, M: Medium<K, D>> Machine<K, D, M> {
    /// No store yet.
    pub fn new(alloc: Global, medium: M) -> Self {
        Machine {
            medium,
            state: State::Lost,
            answered: Answered::nothing(alloc),
        }
    }

    /// Opens the store that the devices hold.
    pub fn open(&mut self, devices: D) -> CommandResult {
        match self.medium.open(devices) {
            Ok((kept, report)) => self.run_on(kept, report),
            Err((refusal, _)) => CommandResult::Fault(refusal),
        }
    }

    // The store is open.
    fn run_on(&mut self, kept: K, report: Report) -> CommandResult {
        self.state = State::Open(kept);
        self.answered.clear();
        CommandResult::Restarted(report)
    }

    // Opens the store after a crash up to the append of its records. With a frame for each page that is its first write, and has all of
    // them. Leaves it as the machine does that stops once so many of them are kept. Where there are no more than that, or where that
    // append shall fail, the store is opened.
    fn stop_in_restart(&mut self, devices: D, kept: u64) -> CommandResult {
        if self.medium.switch().is_armed(CallKind::Write) {
            return self.open(devices);
        }
        let before = self.medium.last(&devices);
        self.medium.switch().arm_kind(CallKind::Write, Mishap::Stop);
        let opened = self.medium.open_framed(devices);
        let has_stopped = has_stopped(self.medium.switch());
        match opened {
            Ok((kept, report)) => self.run_on(kept, report),
            Err((_, devices)) if has_stopped => self.leave_with(devices, before, kept),
            Err((refusal, _)) => CommandResult::Fault(refusal),
        }
    }

    // Behind the records before stand all those of a restart. Keeps the first so many of these; where they are no more than
    // that, opens the store.
    fn leave_with(&mut self, devices: D, before: Lsn, kept: u64) -> CommandResult {
        let made = self.medium.last(&devices).saturating_sub(before);
        if kept >= made {
            let (devices, _) = self.medium.crash(devices, PageChoice::Newest, 0, 0);
            return self.open(devices);
        }
        CommandResult::Stopped(self.leave(devices, PageChoice::Newest, kept, 0))
    }

    // The text of the log of a store that is open, or as a crash left it.
    fn text_of_log(&mut self, alloc: Global) -> Result<Vec<u8>, Refusal> {
        if let State::Open(kept) = &mut self.state {
            return text_of_open(alloc, &mut self.medium, kept);
        }
        let Some(devices) = self.state.take_crashed() else {
            return Err(Refusal::Failed);
        };
        let (devices, text) = self.medium.text_of_log(devices);
        self.state = State::Crashed(devices);
        text
    }

    // The devices as a crash leaves them; the LSN of the last record.
    fn leave(&mut self, devices: D, choice: PageChoice, keep: u64, torn: u64) -> Lsn {
        let (devices, last) = self.medium.crash(devices, choice, keep, torn);
        self.state = State::Crashed(devices);
        last
    }

    // Whether so many bytes are left behind the records.
    fn has_left(&self, torn: u64) -> bool {
        match &self.state {
            State::Crashed(devices) => self.medium.left(devices) == torn,
            _ => false,
        }
    }
}

impl<K: Drop, D: Drop, M: Medium<K, D>> Store for Machine<K, D, M> {
    fn is_open(&self) -> bool {
        self.state.is_open()
    }

    fn ask(&mut self, event: Event) -> Reply {
        let State::Open(kept) = &mut self.state else {
            return Reply::Refused(Refusal::Failed);
        };
        if !self.answered.makes_room() {
            return Reply::Refused(Refusal::NoMemory);
        }
        let reply = self.medium.ask(kept, event);
        self.answered.note(&reply);
        reply
    }

    fn commit_of(&self, txn: Txn) -> Result<CommitNo, Refusal> {
        self.answered.commit_of(txn)
    }

    fn arm(&mut self, kind: CallKind) {
        self.medium.switch().arm_kind(kind, Mishap::Fail);
    }

    // Buffered records are handed over, and then the devices are left as a crash leaves them. Where the record behind those
    // that outlive it has no more bytes than so many, the line is none.
    fn crash(&mut self, keep: Survivors, torn: u64, images: Images) -> Option<CommandResult> {
        let Some(kept) = self.state.take_open() else {
            return Some(CommandResult::refused(Refusal::Failed));
        };
        let devices = self.medium.shut(kept);
        let choice = outliving_images(images);
        let last = self.leave(devices, choice, outliving_records(keep), torn);
        if self.has_left(torn) {
            Some(CommandResult::Crashed(last))
        } else {
            None
        }
    }

    fn log(&mut self, alloc: Global) -> CommandResult {
        match self.text_of_log(alloc) {
            Ok(text) => CommandResult::Log(text),
            Err(refusal) => CommandResult::refused(refusal),
        }
    }

    fn restart(&mut self, stop: Option<u64>) -> CommandResult {
        if self.state.is_open() {
            return CommandResult::Running;
        }
        let Some(devices) = self.state.take_crashed() else {
            return CommandResult::Fault(Refusal::Failed);
        };
        match stop {
            None => self.open(devices),
            Some(records) => self.stop_in_restart(devices, records),
        }
    }
}

// Whether the machine stopped; it runs again.
fn has_stopped(switch: &Switch) -> bool {
    let stopped = switch.is_stopped();
    switch.reset();
    stopped
}

fn outliving_records(keep: Survivors) -> u64 {
    match keep {
        Survivors::First(count) => count,
        Survivors::All => u64::MAX,
    }
}

fn outliving_images(images: Images) -> PageChoice {
    match images {
        Images::Newest => PageChoice::Newest,
        Images::Synced => PageChoice::Synced,
    }
}
