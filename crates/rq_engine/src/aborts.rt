//! Aborts: their start and their end.
ghost use Rattle.std.specs.Prelude.{◌≡◌, ◌↔◌, Err, IfOk, IfErr, OnOk, OnErr, IfSome, None, false, true, ℕ};
ghost use Rattle.rq_model.specs.History.Call.{End_abort, Start_abort};
ghost use Rattle.rq_model.specs.Tests.{IsUnready, NoneHolds, ready_tests};
ghost use Rattle.rq_model.specs.Replay.Reply.{Gave_aborted, Gave_aborting};
ghost use Rattle.rq_store.specs.State.{ledger_of};
ghost use Rattle.rq_engine.specs.Opened.{LeavesDevices};
ghost use Rattle.rq_engine.specs.Answers.{AnswersLegally, RefusesOver};
ghost use Rattle.rq_engine.specs.Aborts.{IsAborted, IsAborting, IsTurnedBack, newest_of};
ghost use Rattle.rq_engine.specs.Invariant.{IsDoneConsistent, IsLogged, end_of};

use crate::engine::Engine;
use rq_disk::{LogDevice, PageDevice};
use rq_level::Level;
use rq_model::record::Record;
use rq_model::refusal::Refusal;
use rq_model::txn::Txn;
use rq_record::spelled_len;

impl<P: PageDevice, L: LogDevice, B: Level> Engine<P, L, B> {
    /// Has a transaction abort: it does nothing more, and what it did is undone from then on, the newest first. Nothing
    /// is logged. Takes no memory and touches no device.
    ///
    /// # Errors
    /// `Failed`, `UnknownTransaction`, `NotOpen`, `Unfinished`.
    pub fn start_abort(&mut self, txn: Txn) -> Result<(), Refusal>
        ensures answered { AnswersLegally P.PageDevice L.LogDevice self.old (Start_abort txn)
            (λ _. Gave_aborting) result self.new }
        ensures sizes { self.new.state.sizes ≡ self.old.state.sizes }
        ensures lists { OnOk result (IsAborting self.old.state txn self.new.state) }
        ensures devices { LeavesDevices self.old self.new }
        ensures refusal { IfErr result (λ r. IsUnready (ledger_of self.old.state) txn false r) }
        ensures refused { OnErr result (self.new ≡ self.old) }
        ensures failed { (result ≡ Err Refusal.Failed) ↔ (self.old.state.failed ≡ true) }
    {
        self.check_open(txn)?;
        self.transactions.start_abort(txn);
        Ok(())
    }

    /// Ends an abort, once all that the transaction did is undone: writes its AbortEnd record, releases its ends and ends
    /// it.
    ///
    /// # Errors
    /// `Failed`, `UnknownTransaction`, `NotOpen` where it is not aborting, `Unfinished` where an operation is under way or
    /// not undone, `LogFull`, `NoMemory`.
    pub fn end_abort(&mut self, txn: Txn) -> Result<(), Refusal>
        ensures answered { AnswersLegally P.PageDevice L.LogDevice self.old (End_abort txn)
            (λ _. Gave_aborted) result self.new }
        ensures sizes { self.new.state.sizes ≡ self.old.state.sizes }
        ensures lists { OnOk result (IsAborted self.old.state txn self.new.state) }
        ensures devices { LeavesDevices self.old self.new }
        ensures refused { OnErr result (self.new ≡ self.old) }
        ensures failed { (result ≡ Err Refusal.Failed) ↔ (self.old.state.failed ≡ true) }
    {
        self.check_undone(txn)?;
        if self.is_log_full(1) {
            return Err(Refusal::LogFull);
        }
        let end = Record::AbortEnd { txn };
        self.log.reserve(spelled_len(&end))?;
        self.log.append(&end);
        self.ends.release(txn);
        self.transactions.end(txn);
        Ok(())
    }

    // The transaction is aborting, and has nothing under way and nothing left to undo.
    fn check_undone(&self, txn: Txn) -> Result<(), Refusal>
        ensures ready { OnOk result ((n : ℕ) × IsTurnedBack self.now.state txn n None) }
        ensures running { OnOk result (self.now.state.failed ≡ false) }
        ensures passes { OnOk result (NoneHolds (ready_tests (ledger_of self.now.state) txn true)) }
        ensures failed { (result ≡ Err Refusal.Failed) ↔ (self.now.state.failed ≡ true) }
        ensures refused { IfErr result (λ r. RefusesOver self.now.state (End_abort txn) r) }
    {
        self.check_aborting(txn)?;
        match self.transactions.next_undo(txn) {
            None => Ok(()),
            Some(_) => Err(Refusal::Unfinished),
        }
    }

    // The transaction is aborting and has no operation under way. Answers the number of its next operation.
    pub(crate) fn check_aborting(&self, txn: Txn) -> Result<u64, Refusal>
        ensures ready { IfOk result (λ n. IsTurnedBack self.now.state txn n (newest_of self.now.state txn)) }
        ensures running { OnOk result (self.now.state.failed ≡ false) }
        ensures passes { OnOk result (NoneHolds (ready_tests (ledger_of self.now.state) txn true)) }
        ensures kept { OnOk result (IfSome (newest_of self.now.state txn) (λ done. IsDoneConsistent self.now.state.sizes done)) }
        ensures ended { OnOk result (IfSome (newest_of self.now.state txn)
            (λ done. IsLogged self.now.state.records done.lsn (end_of txn done))) }
        ensures failed { (result ≡ Err Refusal.Failed) ↔ (self.now.state.failed ≡ true) }
        ensures refused { IfErr result (λ r. IsUnready (ledger_of self.now.state) txn true r) }
    {
        self.check_running()?;
        let Some(row) = self.transactions.state(txn) else {
            return Err(Refusal::UnknownTransaction);
        };
        if !row.aborting {
            return Err(Refusal::NotOpen);
        }
        if row.under_way.is_some() {
            return Err(Refusal::Unfinished);
        }
        Ok(row.number + 1)
    }
}
