//! A level of the tests' own: a client's count and tag, in its one slot.
ghost use Rattle.std.specs.Prelude.{ℕ, ◌≡◌, ◌+◌, ◌-◌, ◌<◌, ◌≤◌, ◌^◌, ◌/◌, cond, option_map, None, Some, IfSome, IfNone, MatchOption};
ghost use Rattle.rq_model.specs.Deeds.{deed_by};
ghost use Rattle.rq_page.specs.Clients.{IsClientSlot};
ghost use Rattle.rq_page.specs.Sizes.{client_count, client_slot_at};
ghost use Rattle.rq_page.specs.Slots.{Client};
ghost use Rattle.rq_page.specs.declared.client.ClientSlot.{ClientSlot};
ghost use Rattle.rq_views.specs.Items.{layout_of};
ghost use Rattle.rq_views.specs.Plans.{client_write};
ghost use Rattle.rq_level.specs.Given.{AreGiven, GivenHolds};
ghost use Rattle.rq_level.specs.LevelState.{LevelState};
ghost use Rattle.rq_level.specs.Ops.{tagging_by};
ghost use Rattle.rq_level.specs.TagPlans.{PlansTag, UndoesTag, client_marked, client_to_mark};
ghost use Rattle.rq_level.specs.Writes.{IsSlotWrite, with_plan, write_of};
ghost use Rattle.rq_tags.specs.Clients.{IsClientGiven};

use byteorder::{BigEndian, ByteOrder};
use rq_chain::{slot_wanted, take_back, told_layout};
use rq_level::{
    Gist, Level, Op, Outcome, PageSet, Plan, Replies, SlotWrite, Slots, Want, put_only, redo_page,
};
use rq_model::record::{Deed, Record, Slot};
use rq_model::refusal::{Damage, NoMemory, Refusal};
use rq_model::txn::Lsn;
use rq_page::addr::Addr;
use rq_page::client::ClientSlot;
use rq_page::layout::{Layout, SLOTS};
use rq_page::page::Page;
use rq_record::{decode_mark, decode_told, spell_mark};

// The greatest count to which a tag is added.
const TAG_LIMIT: u64 = 1 << 50;

/// Counts and tags of clients. It keeps the sizes of the store that it is told.
#[derive(Drop)]
pub struct ClientCounter {
    layout: Option<Layout>,
}

// A client's new tag, or, with the one before it, a tag to be taken back.
#[derive(Clone, Copy)]
struct Change {
    client: u32,
    tag: u64,
    before: Option<u64>,
}

impl ClientCounter {
    /// A level that was told of no slot.
    pub fn new() -> ClientCounter
        ensures { result.layout ≡ None }
    {
        ClientCounter { layout: None }
    }
}

impl Level for ClientCounter {
    ghost use Rattle.std.specs.Prelude.{[]};
    ghost use Rattle.rq_level.specs.LevelState.{LevelState};

    ghost level = { λ _. 2 };

    ghost kept = { λ c. record { sizes = c.layout; free = []; reserved = [] } };

    fn number(&self) -> u8 {
        2
    }

    fn reads(&self, deed: &[u8]) -> bool {
        decode_mark(deed).is_some()
    }

    fn outcome(&self, deed: &[u8]) -> Option<Outcome> {
        match deed {
            [1, fields @ ..] if fields.len() == 20 => Some(Outcome::Marked),
            _ => None,
        }
    }

    fn keeps(&self) -> bool {
        false
    }

    fn want(&self, op: &Op, given: &Slots) -> Want {
        let (Some(layout), Some(client)) = (self.layout, client_of(op)) else {
            return Want::Ready;
        };
        match slot_wanted(layout.client_slot_of(client), given) {
            None => Want::Ready,
            Some(at) => Want::Slot(at),
        }
    }

    fn plan(
        &mut self,
        op: &Op,
        given: &Slots,
        _latched: &PageSet,
        plan: &mut Plan,
    ) -> Result<(), Refusal> {
        match (self.layout, marked(op)) {
            (Some(layout), Some(change)) if !op.is_undo() => make(plan, &layout, given, change),
            _ => Err(Refusal::Damaged(Damage::Page(0))),
        }
    }

    fn undo(
        &mut self,
        record: &Record,
        given: &Slots,
        _latched: &PageSet,
        plan: &mut Plan,
    ) -> Result<(), Refusal> {
        if let Record::OpEnd { level, deed, .. } = record
            && let Some(layout) = self.layout
            && let Some(
                Deed::Mark {
                    client,
                    tag,
                    previous,
                },
            ) = decode_told(*level, deed.as_slice())
        {
            let before = Some(previous);
            return make(
                plan,
                &layout,
                given,
                Change {
                    client,
                    tag,
                    before,
                },
            );
        }
        Err(Refusal::Damaged(Damage::Page(0)))
    }

    fn redo(&mut self, page: &mut Page, lsn: Lsn, record: &Record) -> bool {
        redo_page(page, lsn, record)
    }

    fn noted(&mut self, at: Addr, bytes: &Slot) {
        if at.number() == 1 {
            self.layout = told_layout(bytes);
        }
    }
}

// The mark that an operation asks for; none where its bytes tell none.
fn marked(op: &Op) -> Option<Change>
    ensures told { option_map (λ c. record { client = c.client; tag = c.tag }) result ≡ tagging_by op.now.level op.now.bytes }
    ensures new { IfSome result (λ c. c.before ≡ None) }
{
    if op.level() != 2 {
        return None;
    }
    match op.bytes() {
        [1, fields @ ..] if fields.len() == 12 => Some(Change {
            client: BigEndian::read_u32(fields),
            tag: BigEndian::read_u64(&fields[4..]),
            before: None,
        }),
        _ => None,
    }
}

// The client whose slot an operation writes; none where it writes none.
fn client_of(op: &Op) -> Option<u32>
    ensures { result ≡ cond op.now.undo (client_marked (deed_by op.now.level op.now.bytes))
        (client_to_mark (tagging_by op.now.level op.now.bytes)) }
{
    if op.is_undo() {
        match decode_told(op.level(), op.bytes()) {
            Some(Deed::Mark { client, .. }) => Some(client),
            _ => None,
        }
    } else {
        Some(marked(op)?.client)
    }
}

// Plans a change of a client's slot.
fn make(plan: &mut Plan, layout: &Layout, given: &Slots, change: Change) -> Result<(), Refusal>
    requires { AreGiven layout.now given.now }
    ensures mark { change.before ≡ None → (k : LevelState)
        → PlansTag (Some layout.now) (Some (record { client = change.client; tag = change.tag })) k given.now (with_plan plan.new result) k }
    ensures back { (before : ℕ) → change.before ≡ Some before → (k : LevelState)
        → UndoesTag (Some layout.now) (Some (Deed.Mark change.client change.tag before)) k given.now (with_plan plan.new result) k }
{
    let damaged = Refusal::Damaged(damage_of(layout, change.client));
    let Some(held) = client_given(layout, given, change.client) else {
        return Err(damaged);
    };
    let Some(after) = changed(&held, change) else {
        return Err(damaged);
    };
    match put_only(&mut plan.writes, write(layout, &held, &after)) {
        Err(NoMemory) => Err(Refusal::NoMemory),
        Ok(()) => {
            match change.before {
                Some(_) => take_back(plan),
                None => {
                    spell_mark(&mut plan.deed, change.client, change.tag, held.tag);
                    plan.reply = Replies::Deed(Gist::Mark {
                        client: change.client,
                        tag: change.tag,
                    });
                }
            }
            Ok(())
        }
    }
}

// What a client's slot holds, where the client is one of the store's and its slot was given.
fn client_given(layout: &Layout, given: &Slots, client: u32) -> Option<ClientSlot>
    requires { AreGiven layout.now given.now }
    ensures some { IfSome result (λ held. IsClientGiven layout.now given.now client held) }
    ensures none { IfNone result ((held : ClientSlot) → client < client_count layout.now
        → GivenHolds layout.now given.now (client_slot_at layout.now client) (Client held) → ⊥) }
{
    if client >= layout.clients() {
        return None;
    }
    let bytes = given.get(layout.client_slot_of(client))?;
    ClientSlot::decode(bytes)
}

// What a client's slot holds after a change; none where it admits none.
fn changed(held: &ClientSlot, change: Change) -> Option<ClientSlot>
    ensures mark { change.before ≡ None → MatchOption result (held.now.count ≤ 2 ^ 50 → ⊥)
        (λ after. (held.now.count ≤ 2 ^ 50) × (after ≡ record held.now { count = held.now.count + 1; tag = change.tag })) }
    ensures back { (before : ℕ) → change.before ≡ Some before
        → MatchOption result (0 < held.now.count → held.now.tag ≡ change.tag → ⊥)
        (λ after. (0 < held.now.count) × (held.now.tag ≡ change.tag) × (after ≡ record held.now { count = held.now.count - 1; tag = before })) }
    ensures same { IfSome result (λ after. after.client ≡ held.now.client) }
    ensures fits { IfSome result (λ after. IsClientSlot after) }
{
    match change.before {
        None if held.count <= TAG_LIMIT => Some(ClientSlot {
            count: held.count + 1,
            tag: change.tag,
            ..*held
        }),
        Some(before) if held.count > 0 && held.tag == change.tag => Some(ClientSlot {
            count: held.count - 1,
            tag: before,
            ..*held
        }),
        _ => None,
    }
}

// The write that has a client's slot hold something else.
fn write(layout: &Layout, held: &ClientSlot, after: &ClientSlot) -> SlotWrite
    requires below { held.now.client < client_count layout.now }
    requires held { IsClientSlot held.now }
    requires after { IsClientSlot after.now }
    requires same { after.now.client ≡ held.now.client }
    ensures { (write_of layout.now result ≡ client_write (layout_of layout.now) held.now after.now) × IsSlotWrite layout.now result }
{
    let at = layout.client_slot_of(held.client);
    prove!(at.page() < layout.pages() as u64);
    SlotWrite {
        at,
        before: held.encode(),
        after: after.encode(),
    }
}

// The damage that is told of a client: that of the page where its slot stands.
fn damage_of(layout: &Layout, client: u32) -> Damage
    ensures { result ≡ Damage.Page (client_slot_at layout.now client / 16) }
{
    Damage::Page(layout.tags_from() + client / SLOTS)
}
