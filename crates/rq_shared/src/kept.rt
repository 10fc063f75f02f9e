//! The kept engine: each call leaves one entry, and answers a stamp that says the same.
ghost use Rattle.std.specs.Prelude.{◌≡◌, ◌≢◌, ℕ, List, ◌+◌, ◌<◌, [], ◌∷◌, ◌++◌, ◌↔◌, Err, IfErr, IfOk, OnOk, OnErr, IsTrue, true, false, map, length, vec_len, vec_capacity};
ghost use Rattle.rq_model.specs.Bases.{gone};
ghost use Rattle.rq_log.specs.Places.{StandsAt};
ghost use Rattle.rq_log.specs.Reading.{IsRead};
ghost use Rattle.rq_log.specs.Spelled.{AreSpelled, IsBeginning};
ghost use Rattle.rq_content.specs.Read.{group_of};
ghost use Rattle.rq_engine.specs.Applied.{Applied};
ghost use Rattle.rq_engine.specs.Checkpoint.{IsBeginningOrBase};
ghost use Rattle.rq_engine.specs.Opened.{AreHonest, NotTold};
ghost use Rattle.rq_engine.specs.Says.{call_of, gave, IsContent};

use crate::count::{Count, same_and_more, zero};
use rq_content::GroupContent;
use rq_disk::{LogDevice, PageDevice};
use rq_engine::engine::Engine;
use rq_engine::event::{Event, Reply};
use rq_level::Level;
use rq_model::record::Record;
use rq_model::refusal::Refusal;
use rq_model::txn::Lsn;
use std::alloc::{AllocError, Global};
use std::marker::Model;
use std::mem;
use std::snapshot::Snapshot;

/// Who asked what, and the answer, as the audit keeps it.
#[derive(Drop)]
pub struct AuditEntry {
    pass: u64,
    event: Event,
    reply: Reply,
}

impl AuditEntry {
    /// The number of the pass that asked.
    pub fn pass(&self) -> u64
        ensures { result ≡ self.now.pass }
    {
        self.pass
    }

    /// What was asked.
    pub fn event(&self) -> &Event
        ensures { result.now ≡ self.now.event }
    {
        &self.event
    }

    /// The answer.
    pub fn reply(&self) -> &Reply
        ensures { result.now ≡ self.now.reply }
    {
        &self.reply
    }
}

/// Who asked what, and the answer, as the asker is given it. Only `Kept::step` makes one, and it is never
/// copied: each call has one.
#[derive(Drop)]
pub struct Stamped {
    pass: u64,
    event: Event,
    reply: Reply,
}

impl Stamped {
    /// The number of the pass that asked.
    pub fn pass(&self) -> u64
        ensures { result ≡ self.now.pass }
    {
        self.pass
    }

    /// What was asked.
    pub fn event(&self) -> &Event
        ensures { result.now ≡ self.now.event }
    {
        &self.event
    }

    /// The answer, without the stamp.
    pub fn into_reply(self) -> Reply
        ensures { result ≡ self.reply }
    {
        let Stamped {
            pass: _,
            event: _,
            reply,
        } = self;
        reply
    }

    /// The answer.
    pub fn reply(&self) -> &Reply
        ensures { result.now ≡ self.now.reply }
    {
        &self.reply
    }
}

/// An engine, and an entry for each of its calls since the audit was last taken. Contracts see the engine and the
/// entries. They also see the engine as it was then, and the number of entries taken before. From that engine the
/// entries replay to the engine as it is.
#[derive(Drop)]
pub struct Kept<P: PageDevice, L: LogDevice, B: Level> {
    alloc: Global,
    engine: Engine<P, L, B>,
    audit: Vec<AuditEntry>,
    // the engine as it was when the audit was last taken
    base: Snapshot<Engine<P, L, B>>,
    // how many entries were taken before
    taken: Snapshot<Count>,
}

impl<P: PageDevice, L: LogDevice, B: Level> Model for Kept<P, L, B> {
    ghost use Rattle.rq_shared.specs.Entries.{Audited, Follows, entries};

    ghost Value = { Audited P L };

    ghost view = { λ k. record {
      engine = k.engine;
      audit = entries k.audit.items;
      base = k.base.value;
      taken = k.taken.value.0;
    } };

    ghost invariant = { λ k. Follows P.PageDevice L.LogDevice k.base.value (entries k.audit.items) k.engine };
}

impl<P: PageDevice + Drop, L: LogDevice + Drop, B: Level> Kept<P, L, B> {
    ghost use Rattle.rq_shared.specs.Entries.{Follows, OneMore, entries, noted};
    ghost use Rattle.rq_shared.specs.NoEntry.{LeavesNone};

    /// Keeps an engine. The audit is empty.
    pub fn new(alloc: Global, engine: Engine<P, L, B>) -> Self
        ensures engine { result.engine ≡ engine }
        ensures audit { result.audit ≡ [] }
        ensures base { result.base ≡ engine }
        ensures taken { result.taken ≡ 0 }
    {
        let base = Snapshot::of(&engine);
        Kept {
            alloc,
            engine,
            audit: Vec::new(alloc),
            base,
            taken: zero(),
        }
    }

    /// Makes the call that the event stands for, and answers a stamp of it. It leaves one entry, which says
    /// what the stamp says. Where it is answered `NoMemory` it leaves none. A start has perhaps read pages then, and written others
    /// out; a content has perhaps read some. Any other call has changed nothing.
    pub fn step(&mut self, pass: u64, event: Event) -> Stamped
        ensures pass { result.pass ≡ pass }
        ensures event { result.event ≡ event }
        ensures entry { result.reply ≢ Reply.Refused Refusal.NoMemory
            → OneMore self.old.audit self.new.audit (noted pass event result.reply) }
        ensures applied { result.reply ≢ Reply.Refused Refusal.NoMemory
            → Applied P.PageDevice L.LogDevice self.old.engine event result.reply self.new.engine }
        ensures no_entry { result.reply ≡ Reply.Refused Refusal.NoMemory → LeavesNone P.PageDevice event self.old self.new }
        ensures forced { (lsn : ℕ) → result.reply ≡ Reply.Forced lsn → self.new.engine.state.forced ≡ lsn }
        ensures base { (self.new.base ≡ self.old.base) × (self.new.taken ≡ self.old.taken) }
        ensures honest { AreHonest P.PageDevice L.LogDevice self.new.engine
            → AreHonest P.PageDevice L.LogDevice self.old.engine }
    {
        let Ok(noted_event) = room_for(&mut self.audit, &event) else {
            return refused(pass, event);
        };
        let reply = self.engine.apply(&event);
        let Ok(noted_reply) = copy_of(self.alloc, &reply) else {
            return refused(pass, event);
        };
        if is_no_memory(&reply) {
            return refused(pass, event);
        }
        let entry = AuditEntry {
            pass,
            event: noted_event,
            reply: noted_reply,
        };
        add_entry(&mut self.audit, entry);
        Stamped { pass, event, reply }
    }

    /// The record that stands at a place of the engine's log, and the place behind it (`Engine::record_at`). A place other than 0
    /// was answered since the last checkpoint. It leaves no entry.
    ///
    /// # Errors
    /// `Failed`, `DiskRead`, `Damaged`.
    pub fn record_at(&mut self, place: u64) -> Result<Option<(Record, u64)>, Refusal>
        ensures found { IfOk result (λ found. L.honest self.new.engine.log
            → StandsAt self.old.engine.state.records place found) }
        ensures refusal { IfErr result (λ r. NotTold L.LogDevice self.old.engine place self.new.engine r) }
        ensures failed { (result ≡ Err Refusal.Failed) ↔ (self.old.engine.state.failed ≡ true) }
        ensures cause { OnOk result (L.faults self.new.engine.log ≡ L.faults self.old.engine.log) }
        // The device of the log was read, and nothing else happened.
        ensures same { self.new ≡ record self.old { engine = record self.old.engine { log = self.new.engine.log } } }
        ensures read { IsRead L.LogDevice self.old.engine.log self.new.engine.log }
    {
        self.engine.record_at(place)
    }

    /// The engine as it was when the audit was last taken, the number of entries taken before, and the entries since,
    /// in order. The entries replay from that engine to the engine as it is. Then nothing is in the audit.
    pub fn take(&mut self) -> Taken<P, L, B>
        ensures base { (result.base ≡ self.old.base) × (result.before ≡ self.old.taken) }
        ensures entries { result.audit ≡ self.old.audit }
        ensures replays { Follows P.PageDevice L.LogDevice result.base result.audit self.old.engine }
        ensures emptied { self.new.audit ≡ [] }
        ensures engine { self.new.engine ≡ self.old.engine }
        ensures begun { (self.new.base ≡ self.old.engine) × (self.new.taken ≡ self.old.taken + length self.old.audit) }
    {
        let count = self.audit.len() as u64;
        let audit = mem::replace(&mut self.audit, Vec::new(self.alloc));
        let base = mem::replace(&mut self.base, Snapshot::of(&self.engine));
        let (before, taken) = same_and_more(mem::replace(&mut self.taken, zero()), count);
        self.taken = taken;
        Taken {
            base,
            before,
            audit,
        }
    }

    /// The entries since the audit was last taken, in order: they replay from the engine as it was then to the engine
    /// as it is.
    pub fn entries(&self) -> &[AuditEntry]
        ensures entries { entries result.now ≡ self.now.audit }
        ensures replays { Follows P.PageDevice L.LogDevice self.now.base self.now.audit self.now.engine }
    {
        self.audit.as_slice()
    }

    /// For proofs: what a crash at this moment leaves of the log, where none has failed to replace it and else. It shows too
    /// that each record has a spelling, that a Base is forced, and that the entries replay. It runs no code.
    pub fn shows_kept(&self)
        ensures leaves { self.now.engine.replacing ≡ false → L.honest self.now.engine.log → (bytes : List ℕ) → L.may_leave self.now.engine.log bytes
            → IsBeginning self.now.engine.state.records self.now.engine.state.forced bytes }
        ensures at_rest { L.honest self.now.engine.log → (bytes : List ℕ) → L.may_leave self.now.engine.log bytes
            → IsBeginningOrBase self.now.engine.state.records self.now.engine.state.forced bytes }
        ensures spelled { AreSpelled self.now.engine.state.records }
        ensures based { 0 < self.now.engine.state.forced
            → gone self.now.engine.state.records < self.now.engine.state.forced }
        ensures replays { Follows P.PageDevice L.LogDevice self.now.base self.now.audit self.now.engine }
    {
        self.engine.shows_kept();
    }

    /// The number of the engine's records that are forced.
    pub fn forced(&self) -> Lsn
        ensures { result ≡ self.now.engine.state.forced }
    {
        self.engine.forced()
    }

    /// The engine, as it is.
    pub fn give_back(self) -> Engine<P, L, B>
        ensures { result ≡ self.engine }
    {
        let Kept {
            alloc: _,
            engine,
            audit: _,
            base: _,
            taken: _,
        } = self;
        engine
    }
}

/// What `Kept::take` answers. Contracts see the engine as it was when the audit was taken before, how many entries were
/// taken until then, and the entries since.
#[derive(Drop)]
pub struct Taken<P: PageDevice, L: LogDevice, B: Level> {
    base: Snapshot<Engine<P, L, B>>,
    before: Snapshot<Count>,
    audit: Vec<AuditEntry>,
}

impl<P: PageDevice, L: LogDevice, B: Level> Model for Taken<P, L, B> {
    ghost use Rattle.rq_shared.specs.Entries.{TakenAudit, entries};

    ghost Value = { TakenAudit P L };

    ghost view = { λ t. record {
      base = t.base.value;
      before = t.before.value.0;
      audit = entries t.audit.items;
    } };
}

impl<P: PageDevice, L: LogDevice, B: Level> Taken<P, L, B> {
    ghost use Rattle.rq_shared.specs.Entries.{entries};

    /// The entries, in order.
    pub fn entries(&self) -> &[AuditEntry]
        ensures { entries result.now ≡ self.now.audit }
    {
        self.audit.as_slice()
    }
}

// A copy of the event, and room for one more entry.
fn room_for(audit: &mut Vec<AuditEntry>, event: &Event) -> Result<Event, AllocError>
    ensures copy { IfOk result (λ copy. call_of copy ≡ call_of event.now) }
    ensures room { OnOk result (vec_len audit.new < vec_capacity audit.new) }
    ensures audit { audit.new.items ≡ audit.old.items }
{
    let Some(copy) = event.copied() else {
        return Err(AllocError);
    };
    audit.try_reserve(1)?;
    Ok(copy)
}

// One entry more, where there is room for it.
#[inline(always)]
fn add_entry(audit: &mut Vec<AuditEntry>, entry: AuditEntry)
    requires { vec_len audit.old < vec_capacity audit.old }
    ensures { audit.new.items ≡ audit.old.items ++ entry ∷ [] }
{
    let _ = audit.push(entry);
}

// The stamp of a call that memory was wanting for.
#[inline(always)]
fn refused(pass: u64, event: Event) -> Stamped
    ensures pass { result.pass ≡ pass }
    ensures event { result.event ≡ event }
    ensures reply { result.reply ≡ Reply.Refused Refusal.NoMemory }
{
    Stamped {
        pass,
        event,
        reply: Reply::Refused(Refusal::NoMemory),
    }
}

// The same reply. Only a content takes memory.
#[inline(always)]
fn copy_of(alloc: Global, reply: &Reply) -> Result<Reply, AllocError>
    ensures same { IfOk result (λ copy. gave copy ≡ gave reply.now) }
    ensures content { OnErr result (IsContent reply.now) }
{
    Ok(match reply {
        Reply::Begun(txn) => Reply::Begun(*txn),
        Reply::Started(sub) => Reply::Started(*sub),
        Reply::NoMessage => Reply::NoMessage,
        Reply::Stepped(progress) => Reply::Stepped(*progress),
        Reply::Finished(outcome) => Reply::Finished(*outcome),
        Reply::Committed(number) => Reply::Committed(*number),
        Reply::Aborting => Reply::Aborting,
        Reply::NothingLeft => Reply::NothingLeft,
        Reply::Aborted => Reply::Aborted,
        Reply::Acknowledged(given) => Reply::Acknowledged(*given),
        Reply::HandedOver => Reply::HandedOver,
        Reply::Forced(lsn) => Reply::Forced(*lsn),
        Reply::Checkpointed(lsn) => Reply::Checkpointed(*lsn),
        Reply::Migrated(lsn) => Reply::Migrated(*lsn),
        Reply::Written(written) => Reply::Written(*written),
        Reply::LastTag(last) => Reply::LastTag(*last),
        Reply::ClientTag(last) => Reply::ClientTag(*last),
        Reply::Content(groups) => Reply::Content(copy_of_groups(alloc, groups)?),
        Reply::Refused(refusal) => Reply::Refused(*refusal),
    })
}

fn copy_of_groups(alloc: Global, groups: &[GroupContent]) -> Result<Vec<GroupContent>, AllocError>
    ensures { IfOk result (λ copy. map group_of copy.items ≡ map group_of groups.now) }
{
    let mut copy = Vec::with_capacity(alloc, groups.len())?;
    for group in groups {
        copy.push(GroupContent {
            sent: group.sent,
            last_tag: group.last_tag,
            received: group.received,
            closed: group.closed,
            rest: Vec::from_slice(alloc, &group.rest)?,
        })?;
    }
    Ok(copy)
}

pub(crate) fn is_no_memory(reply: &Reply) -> bool
    ensures { IsTrue result ↔ (reply.now ≡ Reply.Refused Refusal.NoMemory) }
{
    match reply {
        Reply::Refused(Refusal::NoMemory) => true,
        _ => false,
    }
}
