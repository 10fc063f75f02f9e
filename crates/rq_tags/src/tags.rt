//! The tags of clients as a level of recovery.
ghost use Rattle.std.specs.Prelude.{◌≡◌, ◌≤◌, cond, Some, option_map};
ghost use Rattle.rq_model.specs.Deeds.{deed_by, mark_in};
ghost use Rattle.rq_level.specs.Writes.{answer_of, with_plan};
ghost use Rattle.rq_level.specs.Given.{AreGiven};
ghost use Rattle.rq_level.specs.LevelState.{LevelState, nothing_kept};
ghost use Rattle.rq_level.specs.Ops.{tagging_by, tagging_in};
ghost use Rattle.rq_level.specs.TagPlans.{UndoesTag, client_marked, client_to_mark, tag_note, tag_wants};
ghost use Rattle.rq_tags.specs.Doings.{told_tagging};

use crate::doing::{Tagging, read_tagging};
use crate::marks::{mark, unmark};
use byteorder::{BigEndian, ByteOrder};
use rq_chain::{slot_wanted, told_layout};
use rq_level::{Level, Op, Outcome, PageSet, Plan, Slots, Want, redo_page};
use rq_model::record::{Deed, Record, Slot};
use rq_model::refusal::{Damage, Refusal};
use rq_model::txn::Lsn;
use rq_page::addr::Addr;
use rq_page::layout::Layout;
use rq_page::page::Page;
use rq_record::{decode_mark, decode_told};
use std::marker::Model;

/// The tags of clients: plans their marks, and keeps of a store its sizes alone. Contracts see what it keeps.
#[derive(Drop)]
pub struct TagLevel {
    layout: Option<Layout>,
}

impl Model for TagLevel {
    ghost use Rattle.std.specs.Prelude.{[]};
    ghost use Rattle.rq_level.specs.LevelState.{LevelState};

    ghost Value = { LevelState };

    ghost view = { λ t. record { sizes = t.layout; free = []; reserved = [] } };
}

impl TagLevel {
    /// A level that was told of no slot.
    pub fn new() -> Self
        ensures { result ≡ nothing_kept }
    {
        TagLevel { layout: None }
    }

    // The slot that an operation wants to see: that of its client, where it was not given.
    fn wanted(&self, op: &Op, given: &Slots) -> Option<Addr>
        ensures { result ≡ tag_wants self.now.sizes op.now given.now }
    {
        let Some(layout) = self.layout else {
            return None;
        };
        match client_of(op) {
            None => None,
            Some(client) => slot_wanted(layout.client_slot_of(client), given),
        }
    }

    // A slot was read or written.
    fn note(&mut self, at: Addr, bytes: &Slot)
        ensures { self.new ≡ tag_note self.old at bytes.now }
    {
        if at.number() == 1 {
            self.layout = told_layout(bytes);
        }
    }
}

impl Level for TagLevel {
    ghost level = { λ _. 2 };

    ghost kept = { λ t. t };

    fn number(&self) -> u8 {
        2
    }

    fn reads(&self, deed: &[u8]) -> bool {
        decode_mark(deed).is_some()
    }

    fn outcome(&self, deed: &[u8]) -> Option<Outcome> {
        answer(deed)
    }

    fn keeps(&self) -> bool {
        false
    }

    fn want(&self, op: &Op, given: &Slots) -> Want {
        match self.wanted(op, given) {
            None => Want::Ready,
            Some(at) => Want::Slot(at),
        }
    }

    fn plan(
        &mut self,
        op: &Op,
        given: &Slots,
        _latched: &PageSet,
        plan: &mut Plan,
    ) -> Result<(), Refusal> {
        if op.is_undo() {
            return Err(Refusal::Damaged(Damage::Page(0)));
        }
        let Some(layout) = self.layout else {
            return Err(Refusal::Damaged(Damage::Page(0)));
        };
        match tagging_of(op) {
            Some(Tagging { client, tag }) => mark(plan, &layout, given, client, tag),
            None => Err(Refusal::Damaged(Damage::Page(0))),
        }
    }

    fn undo(
        &mut self,
        record: &Record,
        given: &Slots,
        _latched: &PageSet,
        plan: &mut Plan,
    ) -> Result<(), Refusal> {
        let Record::OpEnd { level, deed, .. } = record else {
            return Err(Refusal::Damaged(Damage::Page(0)));
        };
        let Some(layout) = self.layout else {
            return Err(Refusal::Damaged(Damage::Page(0)));
        };
        let Some(deed) = decode_told(*level, deed.as_slice()) else {
            return Err(Refusal::Damaged(Damage::Page(0)));
        };
        take_back(plan, &layout, &deed, given)
    }

    fn redo(&mut self, page: &mut Page, lsn: Lsn, record: &Record) -> bool {
        redo_page(page, lsn, record)
    }

    fn noted(&mut self, at: Addr, bytes: &Slot) {
        self.note(at, bytes);
    }
}

// What the end of a mark answers whose deed these bytes are; none where they are none.
fn answer(deed: &[u8]) -> Option<Outcome>
    ensures { result ≡ option_map answer_of (mark_in deed.now) }
{
    match deed {
        [1, fields @ ..] => {
            if fields.len() == 20 {
                Some(Outcome::Marked)
            } else {
                None
            }
        }
        _ => None,
    }
}

// What an operation asks the level of tags for; none where it asks it for nothing.
fn tagging_of(op: &Op) -> Option<Tagging>
    ensures { told_tagging result ≡ tagging_by op.now.level op.now.bytes }
{
    if op.level() == 2 {
        read_tagging(op.bytes())
    } else {
        None
    }
}

// The client whose tag an operation marks, or takes back; none where its bytes tell none.
fn client_of(op: &Op) -> Option<u32>
    ensures { result ≡ cond op.now.undo (client_marked (deed_by op.now.level op.now.bytes))
        (client_to_mark (tagging_by op.now.level op.now.bytes)) }
{
    if op.level() != 2 {
        None
    } else if op.is_undo() {
        client_in(op.bytes(), 20)
    } else {
        client_in(op.bytes(), 12)
    }
}

// The client of a mark, by its kind and client alone; none where that has not so many bytes of fields.
fn client_in(bytes: &[u8], length: usize) -> Option<u32>
    requires { 4 ≤ length }
    ensures deed { length ≡ 20 → result ≡ client_marked (mark_in bytes.now) }
    ensures asked { length ≡ 12 → result ≡ client_to_mark (tagging_in bytes.now) }
{
    match bytes {
        [1, fields @ ..] => {
            if fields.len() == length {
                Some(BigEndian::read_u32(fields))
            } else {
                None
            }
        }
        _ => None,
    }
}

// Plans what takes back a deed's operation.
fn take_back(plan: &mut Plan, layout: &Layout, deed: &Deed, given: &Slots) -> Result<(), Refusal>
    requires { AreGiven layout.now given.now }
    ensures { (k : LevelState) → UndoesTag (Some layout.now) (Some deed.now) k given.now (with_plan plan.new result) k }
{
    match deed {
        Deed::Mark {
            client,
            tag,
            previous,
        } => unmark(plan, layout, given, *client, *tag, *previous),
        Deed::Append { .. } => Err(Refusal::Damaged(Damage::Page(0))),
        Deed::UnlinkHead { .. } => Err(Refusal::Damaged(Damage::Page(0))),
        Deed::Close { .. } => Err(Refusal::Damaged(Damage::Page(0))),
    }
}
