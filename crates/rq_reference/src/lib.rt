//! The queue as plain lists, with no pages: what an engine is compared with. Its contract is the
//! definitions: each call is answered as the ledger says.
#![tactic(auto)]

ghost use Rattle.std.specs.Prelude.{◌≡◌, ◌≢◌, ◌↔◌, ◌⊎◌, not, ◌<◌, ◌≤◌, ◌-◌, ◌^◌, IfOk, IfErr, OnErr, OnOk, None, length, map, true};
ghost use Rattle.rq_model.specs.History.Call.{Begin, Commit, Finish, Show, Step, Acknowledge, Start_abort, End_abort, Hand_over, Force, Checkpoint, Last_tag, Client_tag};
ghost use Rattle.rq_model.specs.History.Entry.{Begun, Shown, Committed, Acknowledged, Aborting, Aborted, Handed_over, Forced, Checkpointed, Told, Told_client, Crash, Restarted};
ghost use Rattle.rq_model.specs.Vocabulary.{first, is_some, last_or};
ghost use Rattle.rq_model.specs.Ledger.{empty, kept_in, marks_in, runs, sent_in};
ghost use Rattle.rq_model.specs.Ledger.Phase.{Shut};
ghost use Rattle.rq_model.specs.Growth.{IsGrownBy, MayStand};
ghost use Rattle.rq_model.specs.Growth.Growth.{Stays};
ghost use Rattle.rq_model.specs.Legal.{At, IsCheckpointed, IsUpTo};
ghost use Rattle.rq_reference.specs.Plain.{May, MayBeRefused, next, ComesTo, FindsReady, IsBusy, IsIdle, StandsAt, finish_entry, job_of, open_of, step_entry, tags_in};
ghost use Rattle.rq_model.specs.Tests.{IsUnready};
ghost use Rattle.rq_model.specs.declared.refusal.Refusal.TheVariants.{NoMemory};

use crate::rows::{Act, CommittedTxn, GroupContent, OpenTxn, State, Work};
use crate::scans::Tagged;
use rq_model::limits::TRANSACTION_LIMIT;
use rq_model::refusal::Refusal;
use rq_model::txn::{Lsn, Txn};
use std::alloc::Global;
use std::marker::Model;

mod migrating;
pub mod rows;
mod scans;
mod starts;

/// The queue as plain lists. Contracts see its sizes and its ledger. What a call refuses, it refuses as
/// the ledger says, or with `NoMemory` where an allocation failed or a count passes 64 bits.
#[derive(Drop)]
pub struct Reference {
    alloc: Global,
    senders: u32,
    cells: u64,
    clients: u32,
    committed: Vec<CommittedTxn>,
    open_txns: Vec<OpenTxn>,
    state: State,
    incarnation: u64,
    begins: u64,
    records: u64,
    forced: Lsn,
    durable: usize,
}

impl Model for Reference {
    ghost use Rattle.std.specs.Prelude.{map};
    ghost use Rattle.rq_reference.specs.Plain.{Stand, Sound, done_of, growth_of, open_of, phase_of};

    ghost Value = { Stand };

    ghost view = { λ r. record {
      size = record { senders = r.senders; cells = r.cells; clients = r.clients };
      growth = growth_of r.state;
      ledger = record {
        committed = map done_of r.committed.items;
        open_ones = map open_of r.open_txns.items;
        phase = phase_of r.state;
        incarnation = r.incarnation;
        begins = r.begins;
        records = r.records;
        forced = r.forced;
        durable = r.durable;
      };
    } };

    ghost invariant = { λ r. Sound (record {
      committed = map done_of r.committed.items;
      open_ones = map open_of r.open_txns.items;
      phase = phase_of r.state;
      incarnation = r.incarnation;
      begins = r.begins;
      records = r.records;
      forced = r.forced;
      durable = r.durable;
    }) };
}

impl Reference {
    /// A store of so many senders, cells and clients, not yet opened.
    pub fn new(alloc: Global, senders: u32, cells: u64, clients: u32) -> Self
        ensures empty { result.ledger ≡ empty }
        ensures stays { result.growth ≡ Stays }
        ensures senders { result.size.senders ≡ senders }
        ensures cells { result.size.cells ≡ cells }
        ensures clients { result.size.clients ≡ clients }
    {
        Reference {
            alloc,
            senders,
            cells,
            clients,
            committed: Vec::new(alloc),
            open_txns: Vec::new(alloc),
            state: State::Shut,
            incarnation: 0,
            begins: 0,
            records: 0,
            forced: 0,
            durable: 0,
        }
    }

    /// The running incarnation; 0 where none has begun.
    pub fn incarnation(&self) -> u64
        ensures { result ≡ self.now.ledger.incarnation }
    {
        self.incarnation
    }

    /// How many records the log has.
    pub fn records(&self) -> u64
        ensures { result ≡ self.now.ledger.records }
    {
        self.records
    }

    /// How many of them are forced.
    pub fn forced(&self) -> u64
        ensures { result ≡ self.now.ledger.forced }
    {
        self.forced
    }

    /// The transactions that have not ended, the newest first.
    pub fn open_txns(&self) -> &[OpenTxn]
        ensures { map open_of result.now ≡ self.now.ledger.open_ones }
    {
        &self.open_txns
    }

    /// Whether a restart may open the store in this incarnation, with this many records.
    pub fn may_restart(&self, incarnation: u64, records: u64) -> bool
        ensures { (result ≡ true) ↔ May self.now (Restarted incarnation records) }
    {
        if !self.is_shut() {
            return false;
        }
        if incarnation <= self.incarnation {
            return false;
        }
        records > self.records
    }

    /// Whether a crash may leave this many records of the log.
    pub fn may_crash(&self, records: u64) -> bool
        ensures { (result ≡ true) ↔ May self.now (Crash (kept_in records self.now.ledger.committed) records) }
    {
        if records < self.forced {
            return false;
        }
        if self.is_shut() {
            return true;
        }
        if !self.is_running() {
            return false;
        }
        if records <= self.records {
            return true;
        }
        self.may_stand() && records - 1 == self.records
    }

    // Whether one record may stand for all, where a crash comes inside a checkpoint or a migration.
    fn may_stand(&self) -> bool
        ensures { (result ≡ true) ↔ MayStand self.now.growth self.now.ledger }
    {
        if !self.state.is_running() {
            return false;
        }
        if !self.is_quiet() {
            return false;
        }
        !self.is_log_full(1)
    }

    // Whether it answers calls.
    fn is_running(&self) -> bool
        ensures { result ≡ runs self.now.ledger.phase }
    {
        self.state.is_running()
    }

    // Whether it is not open.
    fn is_shut(&self) -> bool
        ensures { (result ≡ true) ↔ (self.now.ledger.phase ≡ Shut) }
    {
        self.state.is_shut()
    }

    // Whether no transaction is open.
    fn is_quiet(&self) -> bool
        ensures { result ≡ not (is_some (first self.now.ledger.open_ones)) }
    {
        self.open_txns.is_empty()
    }

    /// Opens the store in a new incarnation, where the log has this many records behind its opening.
    pub fn restart(&mut self, incarnation: u64, records: u64)
        requires shut { self.old.ledger.phase ≡ Shut }
        requires newer { self.old.ledger.incarnation < incarnation }
        requires longer { self.old.ledger.records < records }
        ensures ok { May self.old (Restarted incarnation records) }
        ensures step { self.new ≡ next (Restarted incarnation records) self.old }
    {
        self.open_txns.clear();
        self.state = State::Running;
        self.incarnation = incarnation;
        self.begins = 0;
        self.records = records;
        self.forced = records;
        self.durable = self.committed.len();
    }

    /// A crash that leaves the first `records` records of the log, or one more, that of a checkpoint or a migration
    /// which it cut off.
    pub fn crash(&mut self, records: u64)
        requires forced { self.old.ledger.forced ≤ records }
        requires told { IsGrownBy self.old.growth None }
        requires up_to { IsUpTo self.old.ledger.records self.old.ledger.phase records ⊎ IsCheckpointed self.old.growth self.old.ledger records }
        ensures ok { May self.old (Crash (kept_in records self.old.ledger.committed) records) }
        ensures step { self.new ≡ next (Crash (kept_in records self.old.ledger.committed) records) self.old }
    {
        let kept = scans::kept_in(&self.committed, records);
        self.committed.truncate(kept);
        self.open_txns.clear();
        self.state = State::Shut;
        self.records = records;
        self.forced = records;
    }

    /// Begins a transaction.
    ///
    /// # Errors
    /// `Failed`, `TooManyTransactions`, `NoMemory`.
    pub fn begin(&mut self) -> Result<Txn, Refusal>
        ensures ok { IfOk result (λ t. May self.old (Begun t)) }
        ensures step { IfOk result (λ t. self.new ≡ next (Begun t) self.old) }
        ensures refused { IfErr result (λ r. MayBeRefused self.old Begin r) }
        ensures same { OnErr result (self.new ≡ self.old) }
    {
        if !self.is_running() {
            return Err(Refusal::Failed);
        }
        if self.open_txns.len() >= TRANSACTION_LIMIT || self.begins == u64::MAX {
            return Err(Refusal::TooManyTransactions);
        }
        let txn = Txn {
            incarnation: self.incarnation,
            count: self.begins + 1,
        };
        let fresh = OpenTxn {
            txn,
            aborting: false,
            acts: Vec::new(self.alloc),
            sending: Vec::new(self.alloc),
            receiving: Vec::new(self.alloc),
            number: 0,
            work: None,
            left: 0,
        };
        match self.open_txns.insert(0, fresh) {
            Ok(()) => {
                self.begins += 1;
                Ok(txn)
            }
            Err(_) => Err(Refusal::NoMemory),
        }
    }

    /// Whether the transaction's commit, whose record has this LSN, is forced.
    ///
    /// # Errors
    /// `Failed`.
    pub fn acknowledged(&self, txn: Txn, lsn: Lsn) -> Result<bool, Refusal>
        ensures ok { IfOk result (λ given. May self.now (Acknowledged txn lsn given)) }
        ensures refused { IfErr result (λ r. MayBeRefused self.now (Acknowledge txn lsn) r) }
        ensures memory { IfErr result (λ r. r ≢ NoMemory) }
    {
        if !self.is_running() {
            return Err(Refusal::Failed);
        }
        Ok(txn.incarnation == self.incarnation && lsn <= self.forced)
    }

    /// Hands the records that wait over to the log's writer.
    ///
    /// # Errors
    /// `Failed`.
    pub fn hand_over(&self) -> Result<(), Refusal>
        ensures ok { OnOk result (May self.now Handed_over) }
        ensures refused { IfErr result (λ r. MayBeRefused self.now Hand_over r) }
        ensures memory { IfErr result (λ r. r ≢ NoMemory) }
    {
        if self.is_running() {
            Ok(())
        } else {
            Err(Refusal::Failed)
        }
    }

    /// Forces the log, and answers the LSN of its last record.
    ///
    /// # Errors
    /// `Failed`.
    pub fn force(&mut self) -> Result<Lsn, Refusal>
        ensures ok { IfOk result (λ lsn. May self.old (Forced lsn)) }
        ensures step { IfOk result (λ lsn. self.new ≡ next (Forced lsn) self.old) }
        ensures refused { IfErr result (λ r. MayBeRefused self.old Force r) }
        ensures same { OnErr result (self.new ≡ self.old) }
        ensures memory { IfErr result (λ r. r ≢ NoMemory) }
    {
        if !self.is_running() {
            return Err(Refusal::Failed);
        }
        self.forced = self.records;
        self.durable = self.committed.len();
        Ok(self.records)
    }

    /// Puts one record in the place of all others, and answers its LSN. Every commit is then durable.
    ///
    /// # Errors
    /// `Failed`, `NotQuiet`, `LogFull`.
    pub fn checkpoint(&mut self) -> Result<Lsn, Refusal>
        ensures ok { IfOk result (λ lsn. May self.old (Checkpointed lsn)) }
        ensures step { IfOk result (λ lsn. self.new ≡ next (Checkpointed lsn) self.old) }
        ensures refused { IfErr result (λ r. MayBeRefused self.old Checkpoint r) }
        ensures same { OnErr result (self.new ≡ self.old) }
        ensures memory { IfErr result (λ r. r ≢ NoMemory) }
    {
        if !self.is_running() {
            return Err(Refusal::Failed);
        }
        if !self.is_quiet() {
            return Err(Refusal::NotQuiet);
        }
        if scans::log_full(&self.open_txns, self.records, 1) {
            return Err(Refusal::LogFull);
        }
        self.records += 1;
        self.forced = self.records;
        self.durable = self.committed.len();
        Ok(self.records)
    }

    /// Where the transaction stands, if it has no operation under way and is aborting or is not, as asked.
    fn ready_place(&self, txn: Txn, aborting: bool) -> Result<usize, Refusal>
        ensures ok { IfOk result (λ i. FindsReady self.now.ledger txn aborting i) }
        ensures refused { IfErr result (λ r. IsUnready self.now.ledger txn aborting r) }
        ensures memory { IfErr result (λ r. r ≢ NoMemory) }
    {
        if !self.is_running() {
            return Err(Refusal::Failed);
        }
        let Some(place) = scans::place_of(&self.open_txns, txn) else {
            return Err(Refusal::UnknownTransaction);
        };
        let row = &self.open_txns[place];
        if row.aborting != aborting {
            return Err(Refusal::NotOpen);
        }
        if row.work.is_some() {
            return Err(Refusal::Unfinished);
        }
        Ok(place)
    }

    /// Turns a transaction to aborting.
    ///
    /// # Errors
    /// `Failed`, `UnknownTransaction`, `NotOpen`, `Unfinished`.
    pub fn start_abort(&mut self, txn: Txn) -> Result<(), Refusal>
        ensures ok { OnOk result (May self.old (Aborting txn)) }
        ensures step { OnOk result (self.new ≡ next (Aborting txn) self.old) }
        ensures refused { IfErr result (λ r. MayBeRefused self.old (Start_abort txn) r) }
        ensures same { OnErr result (self.new ≡ self.old) }
        ensures memory { IfErr result (λ r. r ≢ NoMemory) }
    {
        let place = self.ready_place(txn, false)?;
        let row = &mut self.open_txns[place];
        row.aborting = true;
        Ok(())
    }

    /// Commits a transaction, and answers the LSN of its Commit record.
    ///
    /// # Errors
    /// `Failed`, `UnknownTransaction`, `NotOpen`, `Unfinished`, `LogFull`, `NoMemory`.
    pub fn commit(&mut self, txn: Txn) -> Result<Lsn, Refusal>
        ensures ok { IfOk result (λ lsn. May self.old (Committed txn lsn)) }
        ensures step { IfOk result (λ lsn. self.new ≡ next (Committed txn lsn) self.old) }
        ensures refused { IfErr result (λ r. MayBeRefused self.old (Commit txn) r) }
        ensures same { OnErr result (self.new ≡ self.old) }
    {
        let place = self.ready_place(txn, false)?;
        if scans::log_full(&self.open_txns, self.records, 1) {
            return Err(Refusal::LogFull);
        }
        let row = &self.open_txns[place];
        let Ok(acts) = Vec::from_slice(self.alloc, &row.acts) else {
            return Err(Refusal::NoMemory);
        };
        let lsn = self.records + 1;
        if self
            .committed
            .push(CommittedTxn { txn, lsn, acts })
            .is_err()
        {
            return Err(Refusal::NoMemory);
        }
        drop(self.open_txns.remove(place));
        self.records = lsn;
        Ok(lsn)
    }

    /// The committed content of the groups of all senders, in the order of their numbers.
    ///
    /// # Errors
    /// `Failed`, `Unfinished`, `NoMemory`.
    pub fn content(&self) -> Result<Vec<GroupContent>, Refusal>
        ensures ok { IfOk result (λ groups. May self.now (Shown groups.items)) }
        ensures refused { IfErr result (λ r. MayBeRefused self.now Show r) }
    {
        if !self.is_running() {
            return Err(Refusal::Failed);
        }
        if scans::any_busy(&self.open_txns) {
            return Err(Refusal::Unfinished);
        }
        match scans::groups(self.alloc, &self.committed, self.senders) {
            Ok(groups) => Ok(groups),
            Err(_) => Err(Refusal::NoMemory),
        }
    }

    /// Where the transaction stands that has an operation under way under this number, and its work.
    fn busy_place(&self, txn: Txn, number: u64) -> Result<(usize, Work), Refusal>
        ensures ok { IfOk result (λ p. IsBusy self.now.ledger txn number p.0 p.1) }
        ensures refused { IfErr result (λ r. IsIdle self.now.ledger txn number r) }
        ensures memory { IfErr result (λ r. r ≢ NoMemory) }
    {
        if !self.is_running() {
            return Err(Refusal::Failed);
        }
        let Some(place) = scans::place_of(&self.open_txns, txn) else {
            return Err(Refusal::UnknownOperation);
        };
        let row = &self.open_txns[place];
        let Some(work) = row.work else {
            return Err(Refusal::UnknownOperation);
        };
        if row.number != number {
            return Err(Refusal::UnknownOperation);
        }
        Ok((place, work))
    }

    /// Makes the next slot write of an operation, and answers the LSN of its record: none where no
    /// write is left.
    ///
    /// # Errors
    /// `Failed`, `UnknownOperation`, `NoMemory`.
    pub fn step(&mut self, txn: Txn, number: u64) -> Result<Option<Lsn>, Refusal>
        ensures ok { IfOk result (λ lsn. May self.old (step_entry txn number lsn)) }
        ensures step { IfOk result (λ lsn. self.new ≡ next (step_entry txn number lsn) self.old) }
        ensures refused { IfErr result (λ r. MayBeRefused self.old (Step txn number) r) }
        ensures same { OnErr result (self.new ≡ self.old) }
        ensures memory { IfErr result (λ r. r ≡ NoMemory → self.old.ledger.records ≡ 2 ^ 64 - 1) }
    {
        let (place, _) = self.busy_place(txn, number)?;
        let row = &self.open_txns[place];
        let left = row.left;
        if left == 0 {
            return Ok(None);
        }
        if self.records == u64::MAX {
            return Err(Refusal::NoMemory);
        }
        let row = &mut self.open_txns[place];
        row.left = left - 1;
        self.records += 1;
        Ok(Some(self.records))
    }

    /// What the operation under way of the transaction at this place does where it is finished now: none
    /// where it undoes what the transaction did last.
    fn outcome(&self, txn: Txn, place: usize, work: Work) -> Result<Option<Act>, Refusal>
        requires { StandsAt self.now.ledger txn place }
        ensures ok { IfOk result (λ f. At self.now.ledger txn (λ o. ComesTo self.now.ledger o (job_of work) f)) }
        ensures refused { IfErr result (λ r. r ≡ NoMemory) }
    {
        match work {
            Work::Sending(message) => Ok(Some(Act::Sent(message))),
            Work::Taking(sender) => match self.next_for(txn, place, sender) {
                Ok(Some(message)) => Ok(Some(Act::Taken(message))),
                _ => Err(Refusal::NoMemory),
            },
            Work::Closing(sender) => Ok(Some(Act::Closed(sender))),
            Work::Marking { client, tag } => Ok(Some(Act::Marked { client, tag })),
            Work::Undoing => Ok(None),
        }
    }

    /// Finishes an operation that has no write left, and answers what it did: none where it undid what
    /// its transaction did last and had not undone.
    ///
    /// # Errors
    /// `Failed`, `UnknownOperation`, `Unfinished`, `NoMemory`.
    pub fn finish(&mut self, txn: Txn, number: u64) -> Result<Option<Act>, Refusal>
        ensures ok { IfOk result (λ f. May self.old (finish_entry txn number f)) }
        ensures step { IfOk result (λ f. self.new ≡ next (finish_entry txn number f) self.old) }
        ensures refused { IfErr result (λ r. MayBeRefused self.old (Finish txn number) r) }
        ensures same { OnErr result (self.new ≡ self.old) }
    {
        let (place, work) = self.busy_place(txn, number)?;
        let row = &self.open_txns[place];
        if row.left > 0 {
            return Err(Refusal::Unfinished);
        }
        if self.records == u64::MAX {
            return Err(Refusal::NoMemory);
        }
        let Ok(finished) = self.outcome(txn, place, work) else {
            return Err(Refusal::NoMemory);
        };
        let row = &self.open_txns[place];
        let Ok(acts) = scans::acts_with(self.alloc, &row.acts, &finished) else {
            return Err(Refusal::NoMemory);
        };
        let row = &mut self.open_txns[place];
        row.acts = acts;
        row.work = None;
        self.records += 1;
        Ok(finished)
    }

    /// Ends an abort: all that the transaction did is undone.
    ///
    /// # Errors
    /// `Failed`, `UnknownTransaction`, `NotOpen`, `Unfinished`, `LogFull`.
    pub fn end_abort(&mut self, txn: Txn) -> Result<(), Refusal>
        ensures ok { OnOk result (May self.old (Aborted txn)) }
        ensures step { OnOk result (self.new ≡ next (Aborted txn) self.old) }
        ensures refused { IfErr result (λ r. MayBeRefused self.old (End_abort txn) r) }
        ensures same { OnErr result (self.new ≡ self.old) }
        ensures memory { IfErr result (λ r. r ≢ NoMemory) }
    {
        let place = self.ready_place(txn, true)?;
        let row = &self.open_txns[place];
        if scans::has_any(&row.acts) {
            return Err(Refusal::Unfinished);
        }
        if self.is_log_full(1) {
            return Err(Refusal::LogFull);
        }
        drop(self.open_txns.remove(place));
        self.records += 1;
        Ok(())
    }

    /// How many of these tags are committed, and the last; 0 where there is none. `NoMemory` from 2^64 - 1 on.
    fn told(&self, number: u32, tagged: Tagged) -> Result<(u64, u64), Refusal>
        ensures count { IfOk result (λ told. told.0 ≡ length (tags_in tagged self.now.ledger.committed number)) }
        ensures last { IfOk result (λ told. told.1 ≡ last_or 0 (tags_in tagged self.now.ledger.committed number)) }
        ensures memory { IfErr result (λ r. (r ≡ NoMemory) × (2 ^ 64 - 1 ≤ length (tags_in tagged self.now.ledger.committed number))) }
    {
        let told = scans::told(&self.committed, number, tagged);
        if told.0 == u64::MAX {
            return Err(Refusal::NoMemory);
        }
        Ok(told)
    }

    /// How many messages of the sender are committed, and the tag of the last; 0 where there is none. It takes no memory.
    ///
    /// # Errors
    /// `Failed`, `UnknownSender`; `NoMemory` from 2^64 - 1 messages on.
    pub fn last_tag(&self, sender: u32) -> Result<(u64, u64), Refusal>
        ensures ok { IfOk result (λ told. May self.now (Told sender told.0 told.1)) }
        ensures refused { IfErr result (λ r. MayBeRefused self.now (Last_tag sender) r) }
        ensures memory { IfErr result (λ r. r ≡ NoMemory → 2 ^ 64 - 1 ≤ length (sent_in self.now.ledger.committed sender)) }
    {
        if !self.is_running() {
            return Err(Refusal::Failed);
        }
        if sender >= self.senders {
            return Err(Refusal::UnknownSender);
        }
        self.told(sender, Tagged::Sends)
    }

    /// How many marks of the client are committed, and the tag of the last; 0 where there is none. It takes no memory.
    ///
    /// # Errors
    /// `Failed`, `UnknownClient`; `NoMemory` from 2^64 - 1 marks on.
    pub fn client_tag(&self, client: u32) -> Result<(u64, u64), Refusal>
        ensures ok { IfOk result (λ told. May self.now (Told_client client told.0 told.1)) }
        ensures refused { IfErr result (λ r. MayBeRefused self.now (Client_tag client) r) }
        ensures memory { IfErr result (λ r. r ≡ NoMemory → 2 ^ 64 - 1 ≤ length (marks_in self.now.ledger.committed client)) }
    {
        if !self.is_running() {
            return Err(Refusal::Failed);
        }
        if client >= self.clients {
            return Err(Refusal::UnknownClient);
        }
        self.told(client, Tagged::Marks)
    }
}
