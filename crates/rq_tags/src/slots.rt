//! Clients' slots: what was given of them, and writes of them.
ghost use Rattle.std.specs.Prelude.{◌≡◌, ◌<◌, IfSome, IfNone};
ghost use Rattle.rq_page.specs.Clients.{IsClientSlot};
ghost use Rattle.rq_page.specs.Sizes.{client_count, client_slot_at};
ghost use Rattle.rq_page.specs.Slots.{Client};
ghost use Rattle.rq_page.specs.declared.client.ClientSlot.{ClientSlot};
ghost use Rattle.rq_views.specs.Items.{layout_of};
ghost use Rattle.rq_views.specs.Plans.{client_write};
ghost use Rattle.rq_level.specs.Given.{AreGiven, GivenHolds};
ghost use Rattle.rq_level.specs.Writes.{write_of, IsSlotWrite};
ghost use Rattle.rq_tags.specs.Clients.{IsClientGiven};

use rq_level::{SlotWrite, Slots};
use rq_page::client::ClientSlot;
use rq_page::layout::Layout;

/// The most tags that a client may have marked.
pub(crate) const MARK_LIMIT: u64 = 1 << 50;

/// What a client's slot holds, where the client is one of the store's and its slot was given.
pub(crate) fn client_given(layout: &Layout, given: &Slots, client: u32) -> Option<ClientSlot>
    requires { AreGiven layout.now given.now }
    ensures some { IfSome result (λ held. IsClientGiven layout.now given.now client held) }
    ensures none { IfNone result ((held : ClientSlot) → client < client_count layout.now
        → GivenHolds layout.now given.now (client_slot_at layout.now client) (Client held) → ⊥) }
{
    if client >= layout.clients() {
        return None;
    }
    let bytes = given.get(layout.client_slot_of(client))?;
    ClientSlot::decode(bytes)
}

/// The write that has a client's slot hold something else.
#[inline(always)]
pub(crate) fn client_write(layout: &Layout, held: &ClientSlot, after: &ClientSlot) -> SlotWrite
    requires below { held.now.client < client_count layout.now }
    requires held { IsClientSlot held.now }
    requires after { IsClientSlot after.now }
    requires same { after.now.client ≡ held.now.client }
    ensures write { write_of layout.now result ≡ client_write (layout_of layout.now) held.now after.now }
    ensures slots { IsSlotWrite layout.now result }
{
    let at = layout.client_slot_of(held.client);
    prove!(at.page() < layout.pages() as u64);
    SlotWrite {
        at,
        before: held.encode(),
        after: after.encode(),
    }
}
