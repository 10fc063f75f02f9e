//! Events and their replies.
ghost use Rattle.std.specs.Prelude.{◌≡◌, ◌↔◌, ℕ, length, map, true, false, Err, IfErr, OnOk, List};
ghost use Rattle.rq_model.specs.History.Call.{Show};
ghost use Rattle.rq_model.specs.Replay.Reply.{Gave_content};
ghost use Rattle.rq_log.specs.Crash.{LeavesOnly};
ghost use Rattle.rq_sound.specs.Sound.{IsSound};
ghost use Rattle.rq_sound.specs.ModelSteps.{IsModelStep};
ghost use Rattle.rq_content.specs.Read.{group_of};
ghost use Rattle.rq_engine.specs.Answers.{AnswersLegally};
ghost use Rattle.rq_engine.specs.Earlier.{on, IsEarlier};
ghost use Rattle.rq_model.specs.declared.record.Record.{Record};
ghost use Rattle.rq_model.specs.Causes.{reads_pages};
ghost use Rattle.rq_engine.specs.KeptUp.{AnswerCounts, AreButRead, IsShown, KeepsUp, OnRead, RefusedButRead};
ghost use Rattle.rq_engine.specs.Applied.{Applied, BegunSay, ChangesSay, CheckpointSays, FramesSay, KeepsOrBased, LatchedSay, MayLeave, RefusalLeaves, ReplacingSays, StartSays};
ghost use Rattle.rq_engine.specs.Lists.{ListsSay};
ghost use Rattle.rq_engine.specs.Opened.{AreHonest};
ghost use Rattle.rq_engine.specs.Says.{RefusedForCause, IsContent, LogSays, PagesSay, WritesSay, begun_reply, call_of, gave, undo_reply};

use crate::engine::Engine;
use crate::event::{Event, Reply};
use rq_content::{GroupContent, content};
use rq_disk::{LogDevice, PageDevice};
use rq_level::Level;
use rq_model::refusal::Refusal;
use rq_model::txn::Sub;

// The reply to a call: what it gave, or why it was refused.
macro_rules! reply {
    ($answered:expr, $given:pat => $reply:expr) => {
        match $answered {
            Ok($given) => $reply,
            Err(refusal) => Reply::Refused(refusal),
        }
    };
}

impl<P: PageDevice, L: LogDevice, B: Level> Engine<P, L, B> {
    /// The committed content of each sender's group, by rising number.
    ///
    /// # Errors
    /// `Failed`, `Unfinished` where any operation is under way, `NoMemory`, and as of `Pages::look`.
    pub fn content(&mut self) -> Result<Vec<GroupContent>, Refusal>
        ensures answered { AnswersLegally P.PageDevice L.LogDevice self.old Show
            (λ groups. Gave_content (map group_of groups.items)) result self.new }
        ensures lists { P.honest self.new.pages → OnOk result (self.new.state ≡ self.old.state) }
        ensures shown { OnOk result (AreButRead self.old.state self.new.state) }
        // Pages are perhaps read: the device reads as before, and a crash leaves nothing more of it.
        ensures pages { IsShown P.PageDevice self.old self.new }
        ensures faults { AnswerCounts P.PageDevice result self.old self.new }
        ensures changed { self.new.changed ≡ self.old.changed }
        ensures count { length self.new.frames ≡ length self.old.frames }
        ensures log { self.new.log ≡ self.old.log }
        ensures replacing { self.new.replacing ≡ self.old.replacing }
        ensures refused { IfErr result (λ r. RefusedButRead Show self.old r self.new) }
        ensures failed { (result ≡ Err Refusal.Failed) ↔ (self.old.state.failed ≡ true) }
    {
        self.check_running()?;
        if self.transactions.any_under_way() {
            return Err(Refusal::Unfinished);
        }
        match content(self.alloc, &mut self.pages, &self.transactions) {
            Ok(groups) => Ok(groups),
            Err(refusal) => Err(refusal),
        }
    }

    /// Makes the call that an event stands for. A crash may come at any moment of the call, or after it. Let the store be
    /// sound, its pages fit, its devices honest, and its log such that no failed call may have replaced it. The crash
    /// leaves the log's first records. All forced ones are among them, and the pages that are left fit them. A checkpoint
    /// may leave its one record instead, and a migration that with the tag pages.
    pub fn apply(&mut self, event: &Event) -> Reply
        ensures applied { Applied P.PageDevice L.LogDevice self.old event.now result self.new }
        // Where memory is wanting, or the content is shown, pages were perhaps read, and of a start others written out. The log's
        // device is as it was, and so are the lists but for images of pages that were read. All is, where the call reads none.
        ensures no_memory { result ≡ Reply.Refused Refusal.NoMemory
            → KeepsUp P.PageDevice (call_of event.now) self.old self.new }
        ensures content { IsContent result → KeepsUp P.PageDevice (call_of event.now) self.old self.new }
        ensures forced { (lsn : ℕ) → result ≡ Reply.Forced lsn → self.new.state.forced ≡ lsn }
    {
        self.shows_kept();
        self.call(event)
    }

    // The call, with what it says of the store and of its devices.
    fn call(&mut self, event: &Event) -> Reply
        // Of a sound store: the entry that it is, and a refusal's cause.
        ensures answered { AreHonest P.PageDevice L.LogDevice self.new → (e : List Record) → IsEarlier e self.old.state
            → IsSound (on e self.old.state)
            → IsModelStep (on e self.old.state) (call_of event.now) (gave result) (on e self.new.state) }
        ensures cause { AreHonest P.PageDevice L.LogDevice self.new → (e : List Record) → IsEarlier e self.old.state
            → IsSound (on e self.old.state) → RefusedForCause (on e self.old.state) event.now result }
        // What stays, and an answer that changes one thing.
        ensures sizes { self.new.state.sizes ≡ self.old.state.sizes }
        ensures count { length self.new.frames ≡ length self.old.frames }
        ensures forced { (lsn : ℕ) → result ≡ Reply.Forced lsn → self.new.state.forced ≡ lsn }
        // What each device is left as.
        ensures writes { WritesSay self.old event.now result }
        ensures pages { PagesSay P.PageDevice self.old self.new event.now result }
        ensures log { LogSays L.LogDevice self.old self.new event.now result }
        // Refusals, the lists, and the marks of changed pages, of every store.
        ensures failed { (result ≡ Reply.Refused Refusal.Failed) ↔ (self.old.state.failed ≡ true) }
        ensures refused { RefusalLeaves self.old event.now result self.new }
        ensures lists { OnRead (reads_pages (call_of event.now)) (P.honest self.new.pages)
            (ListsSay self.old.state event.now result self.new.state) }
        ensures begun { BegunSay self.old event.now result self.new }
        ensures changes { ChangesSay self.old event.now result self.new }
        ensures starts { P.honest self.new.pages → StartSays self.old event.now result self.new }
        ensures latched { (e : List Record) → IsEarlier e self.old.state → IsSound (on e self.old.state)
            → LatchedSay (P.honest self.new.pages) (on e self.old.state) event.now result }
        ensures frames { FramesSay (P.honest self.new.pages) self.old event.now result self.new.state }
        // Devices and what a crash at any moment leaves.
        ensures honest { AreHonest P.PageDevice L.LogDevice self.new → AreHonest P.PageDevice L.LogDevice self.old }
        ensures replacing { ReplacingSays self.old event.now result self.new }
        ensures any_moment { self.old.replacing ≡ false → L.honest self.new.log → LeavesOnly L.LogDevice self.old.log self.new.log
            (MayLeave self.old.state event.now) }
        // Of a checkpoint, and of a migration.
        ensures checkpoint { CheckpointSays P.PageDevice L.LogDevice self.old event.now result self.new }
        ensures based { KeepsOrBased P.PageDevice L.LogDevice self.old event.now self.new }
    {
        self.shows_kept();
        match event {
            Event::Begin => reply!(self.begin(), txn => Reply::Begun(txn)),
            Event::StartSend {
                txn,
                sender,
                tag,
                body,
            } => reply!(self.start_send(*txn, *sender, *tag, body), sub => Reply::Started(sub)),
            Event::StartReceive(txn) => receive_reply(self.start_receive(*txn)),
            Event::StartReceiveFrom { txn, sender } => {
                receive_reply(self.start_receive_from(*txn, *sender))
            }
            Event::StartClose { txn, sender } => {
                reply!(self.start_close(*txn, *sender), sub => Reply::Started(sub))
            }
            Event::StartMark { txn, client, tag } => {
                reply!(self.start_mark(*txn, *client, *tag), sub => Reply::Started(sub))
            }
            Event::Step(sub) => reply!(self.step(*sub), progress => Reply::Stepped(progress)),
            Event::Finish(sub) => reply!(self.finish(*sub), outcome => Reply::Finished(outcome)),
            Event::Commit(txn) => reply!(self.commit(*txn), number => Reply::Committed(number)),
            Event::StartAbort(txn) => reply!(self.start_abort(*txn), () => Reply::Aborting),
            Event::UndoNext(txn) => undoing(self.undo_next(*txn)),
            Event::EndAbort(txn) => reply!(self.end_abort(*txn), () => Reply::Aborted),
            Event::Acknowledged(number) => {
                reply!(self.acknowledged(*number), given => Reply::Acknowledged(given))
            }
            Event::HandOver => reply!(self.hand_over(), () => Reply::HandedOver),
            Event::Force => reply!(self.force(), lsn => Reply::Forced(lsn)),
            Event::Checkpoint => reply!(self.checkpoint(), lsn => Reply::Checkpointed(lsn)),
            Event::Migrate(pages) => reply!(self.migrate(*pages), lsn => Reply::Migrated(lsn)),
            Event::WritePage(page) => {
                reply!(self.write_page(*page), written => Reply::Written(written))
            }
            Event::LastTag(sender) => reply!(self.last_tag(*sender), last => Reply::LastTag(last)),
            Event::ClientTag(client) => {
                reply!(self.client_tag(*client), last => Reply::ClientTag(last))
            }
            Event::Content => reply!(self.content(), groups => Reply::Content(groups)),
        }
    }
}

// The reply to the start of an inverse.
fn undoing(started: Result<Option<Sub>, Refusal>) -> Reply
    ensures { result ≡ undo_reply started }
{
    match started {
        Ok(Some(sub)) => Reply::Started(sub),
        Ok(None) => Reply::NothingLeft,
        Err(refusal) => Reply::Refused(refusal),
    }
}

// The reply to the start of a receive.
fn receive_reply(started: Result<Option<Sub>, Refusal>) -> Reply
    ensures { result ≡ begun_reply started }
{
    match started {
        Ok(Some(sub)) => Reply::Started(sub),
        Ok(None) => Reply::NoMessage,
        Err(refusal) => Reply::Refused(refusal),
    }
}
