//! Marks.
ghost use Rattle.std.specs.Prelude.{ℕ, ◌≡◌, ◌≢◌, ◌↔◌, Err, IfOk, IfErr, IsTrue, OnOk, true, false, List};
ghost use Rattle.rq_model.specs.History.Call.{Start_mark};
ghost use Rattle.rq_model.specs.Replay.Reply.{Gave_sub};
ghost use Rattle.rq_model.specs.Tests.{NoneHolds, Passes, log_full, ready_tests, without_pages};
ghost use Rattle.rq_model.specs.Vocabulary.{client_group};
ghost use Rattle.rq_groups.specs.Ends.{is_free_for};
ghost use Rattle.rq_planner.specs.Asked.{Tag};
ghost use Rattle.rq_store.specs.State.{ledger_of, size_of};
ghost use Rattle.rq_sound.specs.Sound.{IsSound};
ghost use Rattle.rq_engine.specs.Earlier.{on, IsEarlier};
ghost use Rattle.rq_model.specs.declared.record.Record.{Record};
ghost use Rattle.rq_engine.specs.KeptUp.{AnswerCounts, KeepsDevices, RefusedButRead};
ghost use Rattle.rq_engine.specs.Answers.{AnswersLegally, RefusesOver};
ghost use Rattle.rq_engine.specs.Applied.{OnLatched, StartsUnlatched};
ghost use Rattle.rq_engine.specs.Lists.{IsMarkBegun, IsMarkStarted};
ghost use Rattle.rq_engine.specs.Plans.{IsWithin};
ghost use Rattle.rq_engine.specs.Tested.{tested};
ghost use Rattle.rq_engine.specs.Marks.{IsMarkPlan};
ghost use Rattle.rq_sound.specs.Groups.{slots_now};
ghost use Rattle.rq_engine.specs.Fixing.{AreWritesOf, HadFrames, RefusedForFrames};

use crate::engine::Engine;
use rq_disk::{LogDevice, PageDevice};
use rq_groups::End;
use rq_level::{Level, ONE_SLOT_RECORDS, Op};
use rq_model::refusal::Refusal;
use rq_model::txn::{Sub, Txn};

impl<P: PageDevice, L: LogDevice, B: Level> Engine<P, L, B> {
    /// Starts to mark a tag for a client: takes everything that its step and its finish will need. Until the transaction ends no
    /// other marks for the client.
    ///
    /// # Errors
    /// `Failed`, `UnknownTransaction`, `NotOpen`, `Unfinished`, `UnknownClient`, `ClientBusy`, `LogFull`, `Latched`,
    /// `PoolFull`, `NoMemory`, `DiskRead`, `DiskWrite`; of a store that is not sound also `Damaged`.
    pub fn start_mark(&mut self, txn: Txn, client: u32, tag: u64) -> Result<Sub, Refusal>
        ensures answered { AnswersLegally P.PageDevice L.LogDevice self.old
            (Start_mark txn client tag) (λ sub. Gave_sub sub.txn sub.number) result self.new }
        ensures sizes { self.new.state.sizes ≡ self.old.state.sizes }
        ensures sub { IfOk result (λ sub. sub.txn ≡ txn) }
        ensures lists { P.honest self.new.pages
            → IfOk result (λ sub. IsMarkStarted self.old.state txn client tag sub self.new.state) }
        ensures begun { IfOk result (λ sub. IsMarkBegun self.old.state txn client tag sub self.new.state) }
        ensures latched { (e : List Record) → IsEarlier e self.old.state → IsSound (on e self.old.state)
            → StartsUnlatched (on e self.old.state) (Start_mark txn client tag) result }
        ensures frames { IfOk result (λ sub. HadFrames self.old sub self.new.state) }
        ensures full { IfErr result (RefusedForFrames (λ ws. P.honest self.new.pages → AreWritesOf self.old.state
            (λ u. IsMarkPlan self.old.state.sizes (slots_now self.old.state) u client tag) ws) self.old) }
        ensures devices { KeepsDevices P.PageDevice self.old self.new }
        ensures faults { AnswerCounts P.PageDevice result self.old self.new }
        ensures refused { IfErr result (λ r. RefusedButRead (Start_mark txn client tag) self.old r self.new) }
        ensures failed { (result ≡ Err Refusal.Failed) ↔ (self.old.state.failed ≡ true) }
    {
        let number = self.check_open(txn)?;
        self.check_mark(txn, client)?;
        let op = Op::mark(client, tag);
        match self.start_planned(txn, number, End::Marking(client), &op) {
            Ok(()) => Ok(Sub { txn, number }),
            Err(refusal) => Err(refusal),
        }
    }

    // The tests of a mark, of any tag, behind those of its transaction.
    fn check_mark(&self, txn: Txn, client: u32) -> Result<(), Refusal>
        // Why it is refused, and that the model's tests are passed.
        ensures refused { (tag : ℕ) → NoneHolds (ready_tests (ledger_of self.now.state) txn false)
            → IfErr result (λ r. RefusesOver self.now.state (Start_mark txn client tag) r) }
        ensures passes { (e : List Record) (tag : ℕ) → IsEarlier e self.now.state → IsSound (on e self.now.state)
            → NoneHolds (ready_tests (ledger_of self.now.state) txn false)
            → OnOk result (Passes (size_of self.now.state.sizes) (ledger_of (on e self.now.state)) (Start_mark txn client tag)) }
        // What was tested.
        ensures plain { IfErr result (λ r. r ≢ Refusal.Failed) }
        ensures unlatched { IfErr result (λ r. OnLatched ⊥ r) }
        ensures tests { IfErr result (λ r. IsTrue (without_pages r)) }
        ensures leaves { (tag : ℕ) → NoneHolds (ready_tests (ledger_of self.now.state) txn false)
            → IfErr result (λ r. RefusedButRead (Start_mark txn client tag) self.now r self.now) }
        ensures tested { (tag : ℕ) → NoneHolds (ready_tests (ledger_of self.now.state) txn false)
            → OnOk result (NoneHolds (tested self.now.state (Start_mark txn client tag))) }
        ensures client { (tag : ℕ) → OnOk result (IsWithin self.now.state.sizes (Tag (record { client = client; tag = tag }))) }
        ensures free { OnOk result (is_free_for txn (client_group client) self.now.state.ends.sending ≡ true) }
        ensures log { OnOk result (log_full (ledger_of self.now.state) 2 ≡ false) }
    {
        if client >= self.pages.layout().clients() {
            return Err(Refusal::UnknownClient);
        }
        if !self.ends.may_mark(txn, client) {
            return Err(Refusal::ClientBusy);
        }
        if self.is_log_full(ONE_SLOT_RECORDS) {
            return Err(Refusal::LogFull);
        }
        Ok(())
    }
}
