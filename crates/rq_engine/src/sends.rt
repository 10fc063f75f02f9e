//! Sends.
ghost use Rattle.std.specs.Prelude.{◌≡◌, ◌≢◌, ◌↔◌, Err, ◌<◌, ◌≤◌, ◌^◌, IfOk, IfErr, IsTrue, OnOk, List, true, false, length};
ghost use Rattle.rq_model.specs.History.Call.{Start_send};
ghost use Rattle.rq_model.specs.Replay.Reply.{Gave_sub};
ghost use Rattle.rq_model.specs.Tests.{NoneHolds, Passes, log_full, ready_tests, without_pages};
ghost use Rattle.rq_model.specs.Vocabulary.{message_of};
ghost use Rattle.rq_page.specs.Sizes.{sender_count, cell_count};
ghost use Rattle.rq_groups.specs.Ends.{is_free_for};
ghost use Rattle.rq_store.specs.State.{ledger_of, size_of};
ghost use Rattle.rq_sound.specs.Sound.{IsSound};
ghost use Rattle.rq_engine.specs.Earlier.{on, IsEarlier};
ghost use Rattle.rq_model.specs.declared.record.Record.{Record};
ghost use Rattle.rq_engine.specs.KeptUp.{AnswerCounts, KeepsDevices, RefusedButRead};
ghost use Rattle.rq_engine.specs.Answers.{AnswersLegally, IsUnderWay, RefusesOver};
ghost use Rattle.rq_engine.specs.Applied.{OnLatched, StartsUnlatched};
ghost use Rattle.rq_engine.specs.Lists.{IsSendBegun, IsSendStarted};
ghost use Rattle.rq_engine.specs.Sends.{TakesLowest};
ghost use Rattle.rq_engine.specs.Tested.{tested};
ghost use Rattle.rq_store.specs.Plans.{IsSendPlan};
ghost use Rattle.rq_sound.specs.Groups.{slots_now};
ghost use Rattle.rq_engine.specs.Fixing.{AreWritesOf, HadFrames, RefusedForFrames};

use crate::engine::Engine;
use rq_disk::{LogDevice, PageDevice};
use rq_groups::End;
use rq_level::{CHAIN_RECORDS, Level, Op};
use rq_model::message::BODY_LIMIT;
use rq_model::refusal::Refusal;
use rq_model::txn::{Sub, Txn};

impl<P: PageDevice, L: LogDevice, B: Level> Engine<P, L, B> {
    /// Starts a send: takes everything that its steps and its finish will need.
    ///
    /// # Errors
    /// `Failed`, `UnknownTransaction`, `NotOpen`, `Unfinished`, `UnknownSender`, `TooLong`, `SenderBusy`, `Closed`,
    /// `Full`, `LogFull`, `Latched`, `PoolFull`, `NoMemory`, `DiskRead`, `DiskWrite`; of a store that is not sound also `Damaged`.
    pub fn start_send(
        &mut self,
        txn: Txn,
        sender: u32,
        tag: u64,
        body: &[u8],
    ) -> Result<Sub, Refusal>
        ensures answered { AnswersLegally P.PageDevice L.LogDevice self.old
            (Start_send txn (message_of sender tag body.now)) (λ sub. Gave_sub sub.txn sub.number) result self.new }
        ensures sizes { self.new.state.sizes ≡ self.old.state.sizes }
        ensures sub { IfOk result (λ sub. sub.txn ≡ txn) }
        ensures lists { P.honest self.new.pages
            → IfOk result (λ sub. IsSendStarted self.old.state txn sender tag body.now sub self.new.state) }
        ensures begun { IfOk result (λ sub. IsSendBegun self.old.state txn sender tag body.now sub self.new.state) }
        ensures lowest { P.honest self.new.pages → IfOk result (λ sub. IsUnderWay self.new.state sub
            (λ r u. TakesLowest self.old.state u.writes)) }
        ensures latched { P.honest self.new.pages → (e : List Record) → IsEarlier e self.old.state → IsSound (on e self.old.state)
            → StartsUnlatched (on e self.old.state) (Start_send txn (message_of sender tag body.now)) result }
        ensures frames { IfOk result (λ sub. HadFrames self.old sub self.new.state) }
        ensures full { IfErr result (RefusedForFrames (λ ws. P.honest self.new.pages → AreWritesOf self.old.state
            (λ u. IsSendPlan self.old.state.sizes (slots_now self.old.state) u sender tag body.now
            × TakesLowest self.old.state u.writes) ws) self.old) }
        ensures devices { KeepsDevices P.PageDevice self.old self.new }
        ensures faults { AnswerCounts P.PageDevice result self.old self.new }
        ensures refused { IfErr result (λ r. RefusedButRead (Start_send txn (message_of sender tag body.now)) self.old r self.new) }
        ensures failed { (result ≡ Err Refusal.Failed) ↔ (self.old.state.failed ≡ true) }
    {
        let number = self.check_open(txn)?;
        self.check_send(txn, sender, tag, body)?;
        let op = Op::send(sender, tag, body);
        match self.start_planned(txn, number, End::Sending(sender), &op) {
            Ok(()) => {
                self.cells_in_use += 1;
                Ok(Sub { txn, number })
            }
            Err(refusal) => Err(refusal),
        }
    }

    // The tests of a send behind those of its transaction.
    fn check_send(&self, txn: Txn, sender: u32, tag: u64, body: &[u8]) -> Result<(), Refusal>
        // Why it is refused, and that the model's tests are passed.
        ensures refused { NoneHolds (ready_tests (ledger_of self.now.state) txn false)
            → IfErr result (λ r. RefusesOver self.now.state
            (Start_send txn (message_of sender tag body.now)) r) }
        ensures passes { (e : List Record) → IsEarlier e self.now.state → IsSound (on e self.now.state)
            → NoneHolds (ready_tests (ledger_of self.now.state) txn false)
            → OnOk result (Passes (size_of self.now.state.sizes) (ledger_of (on e self.now.state))
            (Start_send txn (message_of sender tag body.now))) }
        // What was tested.
        ensures plain { IfErr result (λ r. r ≢ Refusal.Failed) }
        ensures unlatched { IfErr result (λ r. OnLatched ⊥ r) }
        ensures tests { IfErr result (λ r. IsTrue (without_pages r)) }
        ensures leaves { NoneHolds (ready_tests (ledger_of self.now.state) txn false) → IfErr result (λ r. RefusedButRead
            (Start_send txn (message_of sender tag body.now)) self.now r self.now) }
        ensures tested { NoneHolds (ready_tests (ledger_of self.now.state) txn false)
            → OnOk result (NoneHolds (tested self.now.state (Start_send txn (message_of sender tag body.now)))) }
        ensures short { OnOk result (length body.now ≤ 216) }
        ensures sender { OnOk result (sender < sender_count self.now.state.sizes) }
        ensures free { OnOk result (is_free_for txn sender self.now.state.ends.sending ≡ true) }
        ensures room { OnOk result (self.now.state.cells_in_use < cell_count self.now.state.sizes) }
        ensures small { OnOk result (self.now.state.cells_in_use < 2 ^ 32) }
        ensures log { OnOk result (log_full (ledger_of self.now.state) 4 ≡ false) }
    {
        if sender >= self.pages.layout().senders() {
            return Err(Refusal::UnknownSender);
        }
        if body.len() > BODY_LIMIT {
            return Err(Refusal::TooLong);
        }
        if !self.ends.may_send(txn, sender) {
            return Err(Refusal::SenderBusy);
        }
        if self.pages.is_closed(sender) {
            return Err(Refusal::Closed);
        }
        if self.cells_in_use >= u64::from(self.pages.layout().cell_slots()) {
            return Err(Refusal::Full);
        }
        if self.is_log_full(CHAIN_RECORDS) {
            return Err(Refusal::LogFull);
        }
        Ok(())
    }
}
