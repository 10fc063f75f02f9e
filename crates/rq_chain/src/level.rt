//! The chains of all senders as a level of recovery.
ghost use Rattle.std.specs.Prelude.{◌≡◌, ◌≤◌, IfOk, IfErr, IfSome, IfNone, OnErr, OnOk, None, Some, length, true, false};
ghost use Rattle.std.specs.Bool.{OnTrue, OnFalse};
ghost use Rattle.rq_page.specs.Sizes.{IsCellAddress, place_of};
ghost use Rattle.rq_level.specs.LevelState.{LevelState, IsLowest, NoneToTake, NoneFree, SomeFree, reserved_at, noted_cell, noted};
ghost use Rattle.rq_level.specs.Given.{AreGiven};
ghost use Rattle.rq_level.specs.ChainPlans.{CanSend, IsSent, RefusesTaking, CanReceive, IsReceived, RefusesOther, CanMark, IsMarked, IsClosed, CanUnlinkTail, IsTailUnlinked, CanPutBack, IsReturned, IsReopened, IsOfSender, Undoes};
ghost use Rattle.rq_level.specs.Writes.{with_plan};
ghost use Rattle.rq_level.specs.declared.writes.Plan.{Plan};
ghost use Rattle.rq_chain.specs.Refusing.{NoCell};

use crate::answers::answer;
use crate::cells::FreeCells;
use crate::common::{take_back, told_layout};
use crate::doing::{Doing, read_doing};
use crate::given::{SENT_LIMIT, beside_given, cell_given, group_given, head_of, tail_of};
use crate::plans::{append, put_back, set_closed, unlink_head, unlink_tail};
use crate::wants::{body_in, next_in, prev_in, sequence_in, tag_in, wanted};
use rq_level::{Gist, Level, Op, Outcome, PageSet, Plan, Replies, Slots, Want, redo_page};
use rq_model::message::Body;
use rq_model::record::{Deed, Record, Slot};
use rq_model::refusal::{Damage, NoMemory, Refusal};
use rq_model::txn::Lsn;
use rq_page::addr::Addr;
use rq_page::layout::{CELLS_LIMIT, Layout, SLOTS};
use rq_page::page::Page;
use rq_record::{decode_deed, decode_told, spell_append, spell_close, spell_unlink_head};
use std::alloc::Global;
use std::marker::Model;

/// The chains of all senders: plans their operations, and keeps of each cell whether it is free and whether a plan
/// has chosen it. Contracts see what it keeps.
#[derive(Drop)]
pub struct ChainLevel {
    layout: Option<Layout>,
    cells: FreeCells,
}

impl Model for ChainLevel {
    ghost use Rattle.rq_level.specs.LevelState.{LevelState};

    ghost Value = { LevelState };

    ghost view = { λ c. record { sizes = c.layout; free = c.cells.free; reserved = c.cells.reserved } };
}

impl ChainLevel {
    /// The lowest cell that may be taken.
    fn lowest(&mut self, layout: &Layout, latched: &PageSet) -> Option<Addr>
        ensures kept { self.new ≡ self.old }
        ensures lowest { IfSome result (λ a. IsLowest layout.now self.old latched.now.pages a) }
        ensures cell { IfSome result (λ a. IsCellAddress layout.now a) }
        ensures none { IfNone result (NoneToTake layout.now self.old latched.now.pages) }
    {
        match self.cells.lowest(layout, latched) {
            Some(place) => Some(layout.cell_addr(place)),
            None => None,
        }
    }

    /// Whether some cell is free.
    fn has_free(&self, layout: &Layout) -> bool
        ensures some { OnTrue result (SomeFree layout.now self.now) }
        ensures none { OnFalse result (NoneFree layout.now self.now) }
    {
        match self.cells.lowest_free() {
            Some(place) => place < layout.cell_slots(),
            None => false,
        }
    }

    /// Chooses a cell.
    fn reserve(&mut self, layout: &Layout, at: Addr)
        requires { IsCellAddress layout.now at }
        ensures { self.new ≡ reserved_at layout.now self.old at }
    {
        self.cells.reserve(layout.cell_place(at));
    }

    /// A level that was told of no slot, with room for the greatest store.
    ///
    /// # Errors
    /// `NoMemory`.
    pub fn new(alloc: Global) -> Result<ChainLevel, NoMemory>
        ensures sizes { IfOk result (λ c. c.sizes ≡ None) }
        ensures room { IfOk result (λ c. (length c.free ≡ 983040) × (length c.reserved ≡ 983040)) }
    {
        let cells = FreeCells::new(alloc)?;
        cells.shows_room();
        Ok(ChainLevel {
            layout: None,
            cells,
        })
    }

    // A slot was read or written.
    fn note(&mut self, at: Addr, bytes: &Slot)
        ensures { self.new ≡ noted self.old at bytes.now }
    {
        if at.number() == 1 {
            self.layout = told_layout(bytes);
            return;
        }
        let Some(layout) = self.layout else {
            return;
        };
        if layout.is_cell_address(at) {
            self.note_cell(&layout, at, bytes[0] == 0);
        }
    }

    // A cell was read or written: whether it is free.
    fn note_cell(&mut self, layout: &Layout, at: Addr, free: bool)
        requires { IsCellAddress layout.now at }
        ensures { self.new ≡ noted_cell layout.now self.old (place_of layout.now at) free }
    {
        prove!(layout.cell_slots() <= CELLS_LIMIT * SLOTS);
        self.cells.note(layout.cell_place(at), free);
    }

    // Plans a send.
    #[inline(never)]
    fn plan_send(
        &mut self,
        plan: &mut Plan,
        layout: &Layout,
        given: &Slots,
        latched: &PageSet,
        sender: u32,
        tag: u64,
        body: &[u8],
    ) -> Result<(), Refusal>
        requires given { AreGiven layout.now given.now }
        requires short { length body.now ≤ 216 }
        ensures ok { OnOk result (IsSent layout.now self.old given.now latched.now.pages sender tag body.now plan.new self.new) }
        ensures err { IfErr result (λ r. RefusesTaking layout.now self.old latched.now.pages sender (CanSend layout.now given.now sender) r) }
        ensures kept { OnErr result (self.new ≡ self.old) }
    {
        let damaged = Refusal::Damaged(damage_of(sender));
        if sender >= layout.senders() {
            return Err(damaged);
        }
        let Some(group) = group_given(layout, given, sender) else {
            return Err(damaged);
        };
        if group.directory.sent > SENT_LIMIT {
            return Err(damaged);
        }
        let Some(tail) = beside_given(layout, given, tail_of(&group)) else {
            return Err(damaged);
        };
        let Some(free) = self.lowest(layout, latched) else {
            return Err(self.no_cell(layout, sender));
        };
        let Ok(()) = append(&mut plan.writes, layout, &group, &tail, free, tag, body) else {
            return Err(Refusal::NoMemory);
        };
        self.reserve(layout, free);
        let directory = &group.directory;
        spell_append(
            &mut plan.deed,
            sender,
            directory.sent + 1,
            tag,
            directory.last_tag,
            body,
        );
        plan.reply = Replies::Deed(Gist::Append { sender, tag });
        Ok(())
    }

    // Plans a receive.
    #[inline(never)]
    fn plan_receive(
        &self,
        plan: &mut Plan,
        layout: &Layout,
        given: &Slots,
        sender: u32,
    ) -> Result<(), Refusal>
        requires { AreGiven layout.now given.now }
        ensures ok { OnOk result (IsReceived layout.now self.now given.now sender plan.new self.now) }
        ensures err { IfErr result (λ r. RefusesOther sender (CanReceive layout.now given.now sender) r) }
    {
        let damaged = Refusal::Damaged(damage_of(sender));
        if sender >= layout.senders() {
            return Err(damaged);
        }
        let Some(group) = group_given(layout, given, sender) else {
            return Err(damaged);
        };
        if group.directory.received >= group.directory.sent || head_of(&group).is_none() {
            return Err(damaged);
        }
        let Some(head) = cell_given(layout, given, head_of(&group)) else {
            return Err(damaged);
        };
        let Some(next) = beside_given(layout, given, next_in(head.bytes)) else {
            return Err(damaged);
        };
        let Ok(()) = unlink_head(&mut plan.writes, layout, &group, &head, &next) else {
            return Err(Refusal::NoMemory);
        };
        let sequence = group.directory.received + 1;
        spell_unlink_head(
            &mut plan.deed,
            sender,
            sequence,
            tag_in(head.bytes),
            body_in(head.bytes),
        );
        plan.reply = Replies::Deed(Gist::UnlinkHead { sender });
        Ok(())
    }

    // Plans a close.
    fn plan_close(
        &self,
        plan: &mut Plan,
        layout: &Layout,
        given: &Slots,
        sender: u32,
    ) -> Result<(), Refusal>
        requires { AreGiven layout.now given.now }
        ensures ok { OnOk result (IsClosed layout.now self.now given.now sender plan.new self.now) }
        ensures err { IfErr result (λ r. RefusesOther sender (CanMark layout.now given.now sender true) r) }
    {
        put_closed(plan, layout, given, sender, true)?;
        spell_close(&mut plan.deed, sender);
        plan.reply = Replies::Deed(Gist::Close { sender });
        Ok(())
    }

    // Plans what takes back a deed's operation.
    fn plan_undo(
        &mut self,
        plan: &mut Plan,
        layout: &Layout,
        deed: &Deed,
        given: &Slots,
        latched: &PageSet,
    ) -> Result<(), Refusal>
        requires { AreGiven layout.now given.now }
        ensures { Undoes (Some layout.now) (Some deed.now) self.old given.now latched.now.pages
            (with_plan plan.new result) self.new }
    {
        match deed {
            Deed::Append {
                sender,
                sequence,
                previous,
                ..
            } => unlink_last(plan, layout, given, *sender, *sequence, *previous),
            Deed::UnlinkHead {
                sender,
                sequence,
                tag,
                body,
            } => self.plan_return(plan, layout, given, latched, *sender, *sequence, *tag, body),
            Deed::Close { sender } => reopen(plan, layout, given, *sender),
            Deed::Mark { .. } => Err(Refusal::Damaged(Damage::Page(0))),
        }
    }

    // Plans the inverse of a receive.
    #[inline(never)]
    fn plan_return(
        &mut self,
        plan: &mut Plan,
        layout: &Layout,
        given: &Slots,
        latched: &PageSet,
        sender: u32,
        sequence: u64,
        tag: u64,
        body: &Body,
    ) -> Result<(), Refusal>
        requires { AreGiven layout.now given.now }
        ensures ok { OnOk result (IsReturned layout.now self.old given.now latched.now.pages sender sequence tag
            body.now plan.new self.new) }
        ensures err { IfErr result (λ r. RefusesTaking layout.now self.old latched.now.pages sender
            (CanPutBack layout.now given.now sender sequence) r) }
        ensures kept { OnErr result (self.new ≡ self.old) }
    {
        let damaged = Refusal::Damaged(damage_of(sender));
        if sender >= layout.senders() {
            return Err(damaged);
        }
        let Some(group) = group_given(layout, given, sender) else {
            return Err(damaged);
        };
        if group.directory.received == 0 || group.directory.received != sequence {
            return Err(damaged);
        }
        let Some(head) = beside_given(layout, given, head_of(&group)) else {
            return Err(damaged);
        };
        let Some(free) = self.lowest(layout, latched) else {
            return Err(self.no_cell(layout, sender));
        };
        let Ok(()) = put_back(&mut plan.writes, layout, &group, &head, free, tag, body) else {
            return Err(Refusal::NoMemory);
        };
        self.reserve(layout, free);
        take_back(plan);
        Ok(())
    }

    // Why no cell may be taken for a sender, where none may.
    fn no_cell(&self, layout: &Layout, sender: u32) -> Refusal
        ensures { NoCell layout.now self.now sender result }
    {
        if self.has_free(layout) {
            Refusal::Latched
        } else {
            Refusal::Damaged(damage_of(sender))
        }
    }
}

impl Level for ChainLevel {
    ghost level = { λ _. 1 };

    ghost kept = { λ c. c };

    fn number(&self) -> u8 {
        1
    }

    fn reads(&self, deed: &[u8]) -> bool {
        decode_deed(deed).is_some()
    }

    fn outcome(&self, deed: &[u8]) -> Option<Outcome> {
        answer(deed)
    }

    fn keeps(&self) -> bool {
        true
    }

    fn want(&self, op: &Op, given: &Slots) -> Want {
        match wanted(op, given) {
            None => Want::Ready,
            Some(at) => Want::Slot(at),
        }
    }

    #[inline(always)]
    fn plan(
        &mut self,
        op: &Op,
        given: &Slots,
        latched: &PageSet,
        plan: &mut Plan,
    ) -> Result<(), Refusal> {
        if op.is_undo() || op.level() != 1 {
            return Err(Refusal::Damaged(Damage::Page(0)));
        }
        let Some(layout) = self.layout else {
            return Err(Refusal::Damaged(Damage::Page(0)));
        };
        match read_doing(op.bytes()) {
            Some(Doing::Send { sender, tag, body }) => {
                self.plan_send(plan, &layout, given, latched, sender, tag, body)
            }
            Some(Doing::Receive { sender }) => self.plan_receive(plan, &layout, given, sender),
            Some(Doing::Close { sender }) => self.plan_close(plan, &layout, given, sender),
            None => Err(Refusal::Damaged(Damage::Page(0))),
        }
    }

    fn undo(
        &mut self,
        record: &Record,
        given: &Slots,
        latched: &PageSet,
        plan: &mut Plan,
    ) -> Result<(), Refusal> {
        let Record::OpEnd { level, deed, .. } = record else {
            return Err(Refusal::Damaged(Damage::Page(0)));
        };
        let Some(layout) = self.layout else {
            return Err(Refusal::Damaged(Damage::Page(0)));
        };
        let Some(deed) = decode_told(*level, deed.as_slice()) else {
            return Err(Refusal::Damaged(Damage::Page(0)));
        };
        self.plan_undo(plan, &layout, &deed, given, latched)
    }

    fn redo(&mut self, page: &mut Page, lsn: Lsn, record: &Record) -> bool {
        redo_page(page, lsn, record)
    }

    fn noted(&mut self, at: Addr, bytes: &Slot) {
        self.note(at, bytes);
    }
}

// The damage that is told of a sender's chain: that of the page where its directory slot stands.
fn damage_of(sender: u32) -> Damage
    ensures { IsOfSender sender result }
{
    Damage::Page(1 + sender / SLOTS)
}

// Puts the write that closes a group or opens it again, where it is not so already.
fn put_closed(
    plan: &mut Plan,
    layout: &Layout,
    given: &Slots,
    sender: u32,
    closed: bool,
) -> Result<(), Refusal>
    requires { AreGiven layout.now given.now }
    ensures ok { OnOk result ((p : Plan) → p.writes ≡ plan.new.writes → IsMarked layout.now given.now sender closed p) }
    ensures err { IfErr result (λ r. RefusesOther sender (CanMark layout.now given.now sender closed) r) }
{
    let damaged = Refusal::Damaged(damage_of(sender));
    if sender >= layout.senders() {
        return Err(damaged);
    }
    let Some(group) = group_given(layout, given, sender) else {
        return Err(damaged);
    };
    if group.directory.closed == closed {
        return Err(damaged);
    }
    match set_closed(&mut plan.writes, layout, &group, closed) {
        Ok(()) => Ok(()),
        Err(NoMemory) => Err(Refusal::NoMemory),
    }
}

// Plans the inverse of a close.
fn reopen(plan: &mut Plan, layout: &Layout, given: &Slots, sender: u32) -> Result<(), Refusal>
    requires { AreGiven layout.now given.now }
    ensures ok { OnOk result ((k : LevelState) → IsReopened layout.now k given.now sender plan.new k) }
    ensures err { IfErr result (λ r. RefusesOther sender (CanMark layout.now given.now sender false) r) }
{
    put_closed(plan, layout, given, sender, false)?;
    take_back(plan);
    Ok(())
}

// Plans the inverse of a send.
#[inline(never)]
fn unlink_last(
    plan: &mut Plan,
    layout: &Layout,
    given: &Slots,
    sender: u32,
    sequence: u64,
    previous: u64,
) -> Result<(), Refusal>
    requires { AreGiven layout.now given.now }
    ensures ok { OnOk result ((k : LevelState) → IsTailUnlinked layout.now k given.now sender sequence previous plan.new k) }
    ensures err { IfErr result (λ r. RefusesOther sender (CanUnlinkTail layout.now given.now sender sequence) r) }
{
    let damaged = Refusal::Damaged(damage_of(sender));
    if sender >= layout.senders() {
        return Err(damaged);
    }
    let Some(group) = group_given(layout, given, sender) else {
        return Err(damaged);
    };
    let directory = &group.directory;
    if directory.received >= directory.sent
        || directory.sent != sequence
        || tail_of(&group).is_none()
    {
        return Err(damaged);
    }
    let Some(tail) = cell_given(layout, given, tail_of(&group)) else {
        return Err(damaged);
    };
    if sequence_in(tail.bytes) != sequence {
        return Err(damaged);
    }
    let Some(front) = beside_given(layout, given, prev_in(tail.bytes)) else {
        return Err(damaged);
    };
    match unlink_tail(&mut plan.writes, layout, &group, &tail, &front, previous) {
        Ok(()) => {
            take_back(plan);
            Ok(())
        }
        Err(NoMemory) => Err(Refusal::NoMemory),
    }
}
