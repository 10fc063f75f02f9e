//! The plans of marks of clients' tags.
ghost use Rattle.std.specs.Prelude.{◌≡◌, ◌+◌, ◌-◌, ◌<◌, ◌^◌, [], ◌∷◌, IfErr, OnOk, reverse};
ghost use Rattle.rq_page.specs.Clients.{IsClientSlot};
ghost use Rattle.rq_page.specs.Sizes.{client_count};
ghost use Rattle.rq_views.specs.Items.{layout_of};
ghost use Rattle.rq_views.specs.Plans.{client_write};
ghost use Rattle.rq_level.specs.Given.{AreGiven};
ghost use Rattle.rq_level.specs.LevelState.{LevelState};
ghost use Rattle.rq_level.specs.TagPlans.{CanTag, CanUntag, IsTagPlan, IsUntagPlan, RefusesTag};
ghost use Rattle.rq_level.specs.Writes.{AreSlotWrites, writes_of};
ghost use Rattle.rq_tags.specs.Clients.{IsOfClient};

use crate::slots::{MARK_LIMIT, client_given, client_write};
use rq_chain::take_back;
use rq_level::{Gist, Plan, Replies, SlotWrite, Slots, put_only};
use rq_model::refusal::{Damage, NoMemory, Refusal};
use rq_page::client::ClientSlot;
use rq_page::layout::{Layout, SLOTS};
use rq_record::spell_mark;

/// Plans a mark.
pub(crate) fn mark(
    plan: &mut Plan,
    layout: &Layout,
    given: &Slots,
    client: u32,
    tag: u64,
) -> Result<(), Refusal>
    requires { AreGiven layout.now given.now }
    ensures ok { OnOk result ((k : LevelState) → IsTagPlan layout.now k given.now client tag plan.new k) }
    ensures err { IfErr result (λ r. RefusesTag layout.now client (CanTag layout.now given.now client) r) }
{
    let damaged = Refusal::Damaged(damage_of(layout, client));
    let Some(held) = client_given(layout, given, client) else {
        return Err(damaged);
    };
    if held.count > MARK_LIMIT {
        return Err(damaged);
    }
    match rewrite(&mut plan.writes, layout, &held, &counted(&held, tag)) {
        Ok(()) => {
            spell_mark(&mut plan.deed, client, tag, held.tag);
            plan.reply = Replies::Deed(Gist::Mark { client, tag });
            Ok(())
        }
        Err(NoMemory) => Err(Refusal::NoMemory),
    }
}

/// Plans the inverse of a mark.
pub(crate) fn unmark(
    plan: &mut Plan,
    layout: &Layout,
    given: &Slots,
    client: u32,
    tag: u64,
    previous: u64,
) -> Result<(), Refusal>
    requires { AreGiven layout.now given.now }
    ensures ok { OnOk result ((k : LevelState) → IsUntagPlan layout.now k given.now client tag previous plan.new k) }
    ensures err { IfErr result (λ r. RefusesTag layout.now client (CanUntag layout.now given.now client tag) r) }
{
    let damaged = Refusal::Damaged(damage_of(layout, client));
    let Some(held) = client_given(layout, given, client) else {
        return Err(damaged);
    };
    if held.count == 0 || held.tag != tag {
        return Err(damaged);
    }
    match rewrite(&mut plan.writes, layout, &held, &uncounted(&held, previous)) {
        Ok(()) => {
            take_back(plan);
            Ok(())
        }
        Err(NoMemory) => Err(Refusal::NoMemory),
    }
}

// Puts the write that has a client's slot hold something else.
fn rewrite(
    writes: &mut Vec<SlotWrite>,
    layout: &Layout,
    held: &ClientSlot,
    after: &ClientSlot,
) -> Result<(), NoMemory>
    requires below { held.now.client < client_count layout.now }
    requires held { IsClientSlot held.now }
    requires after { IsClientSlot after.now }
    requires same { after.now.client ≡ held.now.client }
    ensures writes { OnOk result (reverse (writes_of layout.now writes.new.items)
        ≡ client_write (layout_of layout.now) held.now after.now ∷ []) }
    ensures slots { OnOk result (AreSlotWrites layout.now writes.new.items) }
{
    put_only(writes, client_write(layout, held, after))
}

// What a client's slot holds once it counts one tag more.
fn counted(held: &ClientSlot, tag: u64) -> ClientSlot
    requires { held.now.count < 2 ^ 64 - 1 }
    ensures held { result ≡ record held.now { count = held.now.count + 1; tag = tag } }
    ensures fits { IsClientSlot result }
{
    ClientSlot {
        client: held.client,
        count: held.count + 1,
        tag,
    }
}

// What a client's slot holds once it counts one tag less, and has the one before it.
fn uncounted(held: &ClientSlot, previous: u64) -> ClientSlot
    requires some { 0 < held.now.count }
    requires held { IsClientSlot held.now }
    ensures held { result ≡ record held.now { count = held.now.count - 1; tag = previous } }
    ensures fits { IsClientSlot result }
{
    ClientSlot {
        client: held.client,
        count: held.count - 1,
        tag: previous,
    }
}

// The damage that is told of a client's tags: that of the page where its slot stands.
fn damage_of(layout: &Layout, client: u32) -> Damage
    ensures { IsOfClient layout.now client result }
{
    Damage::Page(layout.tags_from() + client / SLOTS)
}
