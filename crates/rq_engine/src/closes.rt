//! Closes.
ghost use Rattle.std.specs.Prelude.{◌≡◌, ◌≢◌, ◌↔◌, Err, ◌<◌, IfOk, IfErr, IsTrue, OnOk, true, false, List};
ghost use Rattle.rq_model.specs.History.Call.{Start_close};
ghost use Rattle.rq_model.specs.Replay.Reply.{Gave_sub};
ghost use Rattle.rq_model.specs.Tests.{NoneHolds, Passes, log_full, ready_tests, without_pages};
ghost use Rattle.rq_page.specs.Sizes.{sender_count};
ghost use Rattle.rq_views.specs.Items.{items};
ghost use Rattle.rq_views.specs.Legal.{view};
ghost use Rattle.rq_groups.specs.Ends.{is_free_for};
ghost use Rattle.rq_store.specs.State.{ledger_of, size_of};
ghost use Rattle.rq_sound.specs.Sound.{IsSound};
ghost use Rattle.rq_engine.specs.Earlier.{on, IsEarlier};
ghost use Rattle.rq_model.specs.declared.record.Record.{Record};
ghost use Rattle.rq_engine.specs.KeptUp.{AnswerCounts, KeepsDevices, RefusedButRead};
ghost use Rattle.rq_engine.specs.Answers.{AnswersLegally, RefusesOver};
ghost use Rattle.rq_engine.specs.Applied.{OnLatched, StartsUnlatched};
ghost use Rattle.rq_engine.specs.Lists.{IsCloseBegun, IsCloseStarted};
ghost use Rattle.rq_engine.specs.Tested.{tested};
ghost use Rattle.rq_engine.specs.Closes.{IsClosePlan};
ghost use Rattle.rq_sound.specs.Groups.{slots_now};
ghost use Rattle.rq_engine.specs.Fixing.{AreWritesOf, HadFrames, RefusedForFrames};

use crate::engine::Engine;
use rq_disk::{LogDevice, PageDevice};
use rq_groups::End;
use rq_level::{Level, ONE_SLOT_RECORDS, Op};
use rq_model::refusal::Refusal;
use rq_model::txn::{Sub, Txn};

impl<P: PageDevice, L: LogDevice, B: Level> Engine<P, L, B> {
    /// Starts to close a sender's group: takes everything that its step and its finish will need. From its finish on the
    /// transaction sends nothing there any more, and from its commit on nobody does. What was sent waits all the same.
    ///
    /// # Errors
    /// `Failed`, `UnknownTransaction`, `NotOpen`, `Unfinished`, `UnknownSender`, `SenderBusy`, `Closed`, `LogFull`,
    /// `Latched`, `PoolFull`, `NoMemory`, `DiskRead`, `DiskWrite`; of a store that is not sound also `Damaged`.
    pub fn start_close(&mut self, txn: Txn, sender: u32) -> Result<Sub, Refusal>
        ensures answered { AnswersLegally P.PageDevice L.LogDevice self.old
            (Start_close txn sender) (λ sub. Gave_sub sub.txn sub.number) result self.new }
        ensures sizes { self.new.state.sizes ≡ self.old.state.sizes }
        ensures sub { IfOk result (λ sub. sub.txn ≡ txn) }
        ensures lists { P.honest self.new.pages
            → IfOk result (λ sub. IsCloseStarted self.old.state txn sender sub self.new.state) }
        ensures begun { IfOk result (λ sub. IsCloseBegun self.old.state txn sender sub self.new.state) }
        ensures latched { (e : List Record) → IsEarlier e self.old.state → IsSound (on e self.old.state)
            → StartsUnlatched (on e self.old.state) (Start_close txn sender) result }
        ensures frames { IfOk result (λ sub. HadFrames self.old sub self.new.state) }
        ensures full { IfErr result (RefusedForFrames (λ ws. P.honest self.new.pages → AreWritesOf self.old.state
            (λ u. IsClosePlan self.old.state.sizes (slots_now self.old.state) u sender) ws) self.old) }
        ensures devices { KeepsDevices P.PageDevice self.old self.new }
        ensures faults { AnswerCounts P.PageDevice result self.old self.new }
        ensures refused { IfErr result (λ r. RefusedButRead (Start_close txn sender) self.old r self.new) }
        ensures failed { (result ≡ Err Refusal.Failed) ↔ (self.old.state.failed ≡ true) }
    {
        let number = self.check_open(txn)?;
        self.check_close(txn, sender)?;
        let op = Op::close(sender);
        match self.start_planned(txn, number, End::Sending(sender), &op) {
            Ok(()) => Ok(Sub { txn, number }),
            Err(refusal) => Err(refusal),
        }
    }

    // The tests of a close behind those of its transaction.
    fn check_close(&self, txn: Txn, sender: u32) -> Result<(), Refusal>
        // Why it is refused, and that the model's tests are passed.
        ensures refused { NoneHolds (ready_tests (ledger_of self.now.state) txn false)
            → IfErr result (λ r. RefusesOver self.now.state (Start_close txn sender) r) }
        ensures passes { (e : List Record) → IsEarlier e self.now.state → IsSound (on e self.now.state)
            → NoneHolds (ready_tests (ledger_of self.now.state) txn false)
            → OnOk result (Passes (size_of self.now.state.sizes) (ledger_of (on e self.now.state)) (Start_close txn sender)) }
        // What was tested.
        ensures plain { IfErr result (λ r. r ≢ Refusal.Failed) }
        ensures unlatched { IfErr result (λ r. OnLatched ⊥ r) }
        ensures tests { IfErr result (λ r. IsTrue (without_pages r)) }
        ensures leaves { NoneHolds (ready_tests (ledger_of self.now.state) txn false)
            → IfErr result (λ r. RefusedButRead (Start_close txn sender) self.now r self.now) }
        ensures tested { NoneHolds (ready_tests (ledger_of self.now.state) txn false)
            → OnOk result (NoneHolds (tested self.now.state (Start_close txn sender))) }
        ensures sender { OnOk result (sender < sender_count self.now.state.sizes) }
        ensures free { OnOk result (is_free_for txn sender self.now.state.ends.sending ≡ true) }
        ensures log { OnOk result (log_full (ledger_of self.now.state) 2 ≡ false) }
        ensures unclosed { (e : List Record) → IsEarlier e self.now.state → IsSound (on e self.now.state)
            → NoneHolds (ready_tests (ledger_of self.now.state) txn false)
            → OnOk result ((view (items self.now.state.sizes (on e self.now.state).records) sender).closed ≡ false) }
    {
        if sender >= self.pages.layout().senders() {
            return Err(Refusal::UnknownSender);
        }
        if !self.ends.may_send(txn, sender) {
            return Err(Refusal::SenderBusy);
        }
        if self.pages.is_closed(sender) {
            return Err(Refusal::Closed);
        }
        if self.is_log_full(ONE_SLOT_RECORDS) {
            return Err(Refusal::LogFull);
        }
        Ok(())
    }
}
