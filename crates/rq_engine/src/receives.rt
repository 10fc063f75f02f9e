//! Receives.
ghost use Rattle.std.specs.Prelude.{⊤, ◌≡◌, ◌≢◌, ◌↔◌, Err, ◌+◌, ◌<◌, ◌≤◌, ◌^◌, IfOk, IfErr, IfSome, IfNone, None, ℕ, Some, true, false, List};
ghost use Rattle.rq_model.specs.History.Call.{Start_receive, Start_receive_from};
ghost use Rattle.rq_level.specs.Ops.Doing.{Receive};
ghost use Rattle.rq_groups.specs.Ends.{has_held, is_held};
ghost use Rattle.rq_groups.specs.Waiting.{waits};
ghost use Rattle.rq_sound.specs.Sound.{IsSound};
ghost use Rattle.rq_engine.specs.Earlier.{on, IsEarlier};
ghost use Rattle.rq_model.specs.declared.record.Record.{Record};
ghost use Rattle.rq_store.specs.Plans.{IsTakePlan, NoneWaits, WaitsFor};
ghost use Rattle.rq_engine.specs.Applied.{TakesUnlatched};
ghost use Rattle.rq_engine.specs.KeptUp.{AnswerCounts, HasTried, KeepsDevices, RefusedButRead};
ghost use Rattle.rq_engine.specs.Answers.{AnswersLegally};
ghost use Rattle.rq_engine.specs.Lists.{IsTakeBegun, TakeSays, TakeFromSays};
ghost use Rattle.rq_engine.specs.Receives.{started_of};
ghost use Rattle.rq_planner.specs.Asked.{Chain, Do};
ghost use Rattle.rq_engine.specs.Plans.{AreTakeWrites, AreWritesFor, HasBegun, HasBegunTake, HasStarted, IsStartOf, IsTakeOf, MayTake};
ghost use Rattle.rq_sound.specs.Groups.{slots_now};
ghost use Rattle.rq_engine.specs.Fixing.{AreWritesOf, StartHasFrames, TakeHasFrames};

use crate::engine::Engine;
use crate::starts::is_latched;
use rq_disk::{LogDevice, PageDevice};
use rq_groups::End;
use rq_level::{CHAIN_RECORDS, Level, Op};
use rq_model::refusal::Refusal;
use rq_model::txn::{Sub, Txn};

impl<P: PageDevice, L: LogDevice, B: Level> Engine<P, L, B> {
    /// Starts a receive from some group that holds a message for the transaction, and takes everything that its steps
    /// and its finish will need. None where no free group holds a message. A group is free where no other transaction
    /// holds its receiving end; it holds a message where more is committed than was taken.
    ///
    /// # Errors
    /// `Failed`, `UnknownTransaction`, `NotOpen`, `Unfinished`, `LogFull`, `Latched`, `PoolFull`, `NoMemory`, `DiskRead`,
    /// `DiskWrite`; of a store that is not sound also `Damaged`. Another candidate is tried only behind `Latched`.
    pub fn start_receive(&mut self, txn: Txn) -> Result<Option<Sub>, Refusal>
        ensures answered { AnswersLegally P.PageDevice L.LogDevice self.old
            (Start_receive txn) started_of result self.new }
        ensures sizes { self.new.state.sizes ≡ self.old.state.sizes }
        ensures sub { IfOk result (λ begun. IfSome begun (λ sub. sub.txn ≡ txn)) }
        ensures lists { P.honest self.new.pages → IfOk result (λ begun. TakeSays self.old.state txn begun self.new.state) }
        ensures begun { IfOk result (λ begun. IfSome begun
            (λ sub. (sender : ℕ) × IsTakeBegun self.old.state txn sender (Start_receive txn) sub self.new.state)) }
        ensures none { IfOk result (λ begun. IfNone begun
            ((self.new ≡ self.old) × TakeSays self.old.state txn None self.new.state)) }
        ensures latched { P.honest self.new.pages → (e : List Record) → IsEarlier e self.old.state → IsSound (on e self.old.state)
            → TakesUnlatched (on e self.old.state) (Start_receive txn) result }
        ensures frames { TakeHasFrames (λ ws. P.honest self.new.pages → AreWritesOf self.old.state (λ u. (sender : ℕ)
            × WaitsFor self.old.state txn sender × IsTakePlan self.old.state.sizes (slots_now self.old.state) u sender) ws)
            self.old result self.new.state }
        ensures devices { KeepsDevices P.PageDevice self.old self.new }
        ensures faults { AnswerCounts P.PageDevice result self.old self.new }
        ensures refused { IfErr result (λ r. RefusedButRead (Start_receive txn) self.old r self.new) }
        ensures failed { (result ≡ Err Refusal.Failed) ↔ (self.old.state.failed ≡ true) }
    {
        let number = self.check_open(txn)?;
        let Some(first) = self.first_waiting(txn) else {
            return Ok(None);
        };
        if self.is_log_full(CHAIN_RECORDS) {
            return Err(Refusal::LogFull);
        }
        match self.start_any_take(txn, number, first) {
            Ok(()) => Ok(Some(Sub { txn, number })),
            Err(refusal) => Err(refusal),
        }
    }

    /// Starts a receive from this sender's group, and takes everything that its steps and its finish will need. None
    /// where the group holds no message for the transaction.
    ///
    /// # Errors
    /// `Failed`, `UnknownTransaction`, `NotOpen`, `Unfinished`, `UnknownSender`, `ReceiverBusy`, `LogFull`, `Latched`,
    /// `PoolFull`, `NoMemory`, `DiskRead`, `DiskWrite`; of a store that is not sound also `Damaged`.
    pub fn start_receive_from(&mut self, txn: Txn, sender: u32) -> Result<Option<Sub>, Refusal>
        ensures answered { AnswersLegally P.PageDevice L.LogDevice self.old
            (Start_receive_from txn sender) started_of result self.new }
        ensures sizes { self.new.state.sizes ≡ self.old.state.sizes }
        ensures sub { IfOk result (λ begun. IfSome begun (λ sub. sub.txn ≡ txn)) }
        ensures lists { P.honest self.new.pages
            → IfOk result (λ begun. TakeFromSays self.old.state txn sender begun self.new.state) }
        ensures begun { IfOk result (λ begun. IfSome begun
            (λ sub. IsTakeBegun self.old.state txn sender (Start_receive_from txn sender) sub self.new.state)) }
        ensures none { IfOk result (λ begun. IfNone begun
            ((self.new ≡ self.old) × TakeFromSays self.old.state txn sender None self.new.state)) }
        ensures latched { P.honest self.new.pages → (e : List Record) → IsEarlier e self.old.state → IsSound (on e self.old.state)
            → TakesUnlatched (on e self.old.state) (Start_receive_from txn sender) result }
        ensures frames { TakeHasFrames (λ ws. P.honest self.new.pages → AreWritesOf self.old.state
            (λ u. IsTakePlan self.old.state.sizes (slots_now self.old.state) u sender) ws) self.old result self.new.state }
        ensures devices { KeepsDevices P.PageDevice self.old self.new }
        ensures faults { AnswerCounts P.PageDevice result self.old self.new }
        ensures refused { IfErr result (λ r. RefusedButRead (Start_receive_from txn sender) self.old r self.new) }
        ensures failed { (result ≡ Err Refusal.Failed) ↔ (self.old.state.failed ≡ true) }
    {
        let number = self.check_open(txn)?;
        if sender >= self.pages.layout().senders() {
            return Err(Refusal::UnknownSender);
        }
        if !self.ends.may_receive(txn, sender) {
            return Err(Refusal::ReceiverBusy);
        }
        if self.waiting.count(sender) == 0 {
            return Ok(None);
        }
        if self.is_log_full(CHAIN_RECORDS) {
            return Err(Refusal::LogFull);
        }
        match self.start_take(txn, number, sender) {
            Ok(()) => Ok(Some(Sub { txn, number })),
            Err(refusal) => Err(refusal),
        }
    }

    // Starts a receive from a group that holds a message for the transaction.
    fn start_take(&mut self, txn: Txn, number: u64, sender: u32) -> Result<(), Refusal>
        requires may { MayTake self.old.state txn number }
        requires waits { WaitsFor self.old.state txn sender }
        // Whatever the device gave of pages that are read.
        ensures tried { HasTried P.PageDevice self.old
            (HasBegun self.old.state txn number (End.Receiving sender) (Chain (Receive sender))) result self.new }
        ensures frames { StartHasFrames
            (λ ws. P.honest self.new.pages → AreWritesFor self.old.state (Chain (Receive sender)) ws) self.old
            (record { txn = txn; number = number }) result self.new.state }
        ensures plain { IfErr result (λ r. r ≢ Refusal.Failed) }
        // Of an honest one.
        ensures started { P.honest self.new.pages → IsStartOf self.old.state (Do (Chain (Receive sender)))
            (HasStarted self.old.state txn number (End.Receiving sender) (Chain (Receive sender)) self.new.state) result }
    {
        let op = Op::receive(sender);
        self.start_planned(txn, number, End::Receiving(sender), &op)
    }

    // A sender of which a message waits that the transaction may take.
    fn first_waiting(&self, txn: Txn) -> Option<u32>
        ensures waits { IfSome result (λ sender. WaitsFor self.now.state txn sender) }
        ensures none { IfNone result (NoneWaits self.now.state txn) }
    {
        self.waiting.first_for(&self.ends, txn)
    }

    // The least sender at or after this one of which a message waits, and whose receiving end nobody holds.
    fn next_free(&self, from: u32) -> Option<u32>
        ensures waits { IfSome result (λ sender. (txn : Txn) → WaitsFor self.now.state txn sender) }
        ensures first { IfSome result (λ sender. (from ≤ sender) × ((g : ℕ) → from ≤ g → g < sender
            → is_held g self.now.state.ends.receiving ≡ false → waits self.now.state.waiting g ≡ 0)) }
        ensures room { IfSome result (λ sender. sender + 1 < 2 ^ 32) }
        ensures none { IfNone result ((g : ℕ) → from ≤ g → is_held g self.now.state.ends.receiving ≡ false
            → waits self.now.state.waiting g ≡ 0) }
    {
        self.waiting.next_free(&self.ends, from)
    }

    // Starts a receive from a sender of which a message waits for the transaction; refused as latched where latches hold
    // up each of them. This one is tried first.
    fn start_any_take(&mut self, txn: Txn, number: u64, first: u32) -> Result<(), Refusal>
        requires may { MayTake self.old.state txn number }
        requires waits { WaitsFor self.old.state txn first }
        ensures tried { HasTried P.PageDevice self.old (HasBegunTake self.old.state txn number) result self.new }
        ensures frames { StartHasFrames (λ ws. P.honest self.new.pages → AreTakeWrites self.old.state txn ws) self.old
            (record { txn = txn; number = number }) result self.new.state }
        ensures plain { IfErr result (λ r. r ≢ Refusal.Failed) }
        ensures taken { P.honest self.new.pages → IsTakeOf self.old.state txn number (λ _. ⊤) result self.new.state }
    {
        let answer = self.start_take(txn, number, first);
        if !is_latched(&answer) {
            return answer;
        }
        let answer = self.start_free_take(txn, number);
        if !is_latched(&answer) {
            return answer;
        }
        self.start_own_take(txn, number)
    }

    // The same, of the senders whose receiving end nobody holds.
    fn start_free_take(&mut self, txn: Txn, number: u64) -> Result<(), Refusal>
        requires { MayTake self.old.state txn number }
        ensures tried { HasTried P.PageDevice self.old (HasBegunTake self.old.state txn number) result self.new }
        ensures frames { StartHasFrames (λ ws. P.honest self.new.pages → AreTakeWrites self.old.state txn ws) self.old
            (record { txn = txn; number = number }) result self.new.state }
        ensures plain { IfErr result (λ r. r ≢ Refusal.Failed) }
        ensures taken { P.honest self.new.pages → IsTakeOf self.old.state txn number
            (λ g. is_held g self.old.state.ends.receiving ≡ false) result self.new.state }
    {
        let mut from = 0;
        while let Some(sender) = self.next_free(from) {
            let answer = self.start_take(txn, number, sender);
            if !is_latched(&answer) {
                return answer;
            }
            from = sender + 1;
        }
        Err(Refusal::Latched)
    }

    // The same, of the senders whose receiving end the transaction holds.
    fn start_own_take(&mut self, txn: Txn, number: u64) -> Result<(), Refusal>
        requires { MayTake self.old.state txn number }
        ensures tried { HasTried P.PageDevice self.old (HasBegunTake self.old.state txn number) result self.new }
        ensures frames { StartHasFrames (λ ws. P.honest self.new.pages → AreTakeWrites self.old.state txn ws) self.old
            (record { txn = txn; number = number }) result self.new.state }
        ensures plain { IfErr result (λ r. r ≢ Refusal.Failed) }
        ensures taken { P.honest self.new.pages → IsTakeOf self.old.state txn number
            (λ g. has_held txn g self.old.state.ends.receiving ≡ true) result self.new.state }
    {
        let mut next = self.ends.newest_received(txn);
        while let Some(sender) = next {
            let answer = self.start_waiting(txn, number, sender);
            if !is_latched(&answer) {
                return answer;
            }
            next = self.ends.received_before(sender);
        }
        Err(Refusal::Latched)
    }

    // The same, of this sender, where its group holds a message for the transaction.
    fn start_waiting(&mut self, txn: Txn, number: u64, sender: u32) -> Result<(), Refusal>
        requires { MayTake self.old.state txn number }
        ensures tried { HasTried P.PageDevice self.old (HasBegunTake self.old.state txn number) result self.new }
        ensures frames { StartHasFrames (λ ws. P.honest self.new.pages → AreTakeWrites self.old.state txn ws) self.old
            (record { txn = txn; number = number }) result self.new.state }
        ensures plain { IfErr result (λ r. r ≢ Refusal.Failed) }
        ensures taken { P.honest self.new.pages → IsTakeOf self.old.state txn number (λ g. g ≡ sender) result self.new.state }
    {
        if self.waiting.count(sender) == 0 || !self.ends.may_receive(txn, sender) {
            return Err(Refusal::Latched);
        }
        self.start_take(txn, number, sender)
    }
}
