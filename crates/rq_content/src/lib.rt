//! The committed content of each sender's group, read from its chain and from what transactions that have not ended
//! did.
#![tactic(auto)]

ghost use Rattle.std.specs.Prelude.{◌≡◌, ◌<◌, false, IfErr, IfOk, OnOk, map};
ghost use Rattle.rq_model.specs.Tests.{below};
ghost use Rattle.rq_model.specs.Ledger.{group_in};
ghost use Rattle.rq_model.specs.Commits.{committed_of};
ghost use Rattle.rq_page.specs.Sizes.{IsLink, directory_at, sender_count};
ghost use Rattle.rq_page.specs.Slots.{Sender};
ghost use Rattle.rq_views.specs.Stored.{slots_in};
ghost use Rattle.rq_pool.specs.Fetching.{MayHaveRead};
ghost use Rattle.rq_txn.specs.Rows.{any_under};
ghost use Rattle.rq_store.specs.State.{State};
ghost use Rattle.rq_sound.specs.Sound.{IsSound};
ghost use Rattle.rq_content.specs.Read.{group_of, read_group, IsNoDamage, StopsFor};

mod chain;
mod earlier;

use crate::chain::add_chain;
use crate::earlier::Earlier;
use rq_disk::PageDevice;
use rq_model::message::Message;
use rq_model::refusal::Refusal;
use rq_page::directory::Directory;
use rq_pool::Pages;
use rq_txn::Transactions;
use std::alloc::Global;

/// The committed content of a sender's group.
#[derive(Drop)]
pub struct GroupContent {
    /// How many messages committed transactions sent.
    pub sent: u64,
    /// The tag of the last of them, 0 where there is none.
    pub last_tag: u64,
    /// How many messages committed transactions received.
    pub received: u64,
    /// Whether a committed transaction closed the group.
    pub closed: bool,
    /// What was sent and not received, in order.
    pub rest: Vec<Message>,
}

/// The committed content of each sender's group, by rising number: what its chain holds, without what transactions
/// that have not ended did. It is so while none of them has an operation under way.
///
/// # Errors
/// `NoMemory`; `DiskRead`, where a page stands in no frame; `Damaged` with the page of a sender's directory slot where its
/// chain has fewer cells than that slot says, or with one that a device gave that has lied.
pub fn content<P: PageDevice>(
    alloc: Global,
    pages: &mut Pages<P>,
    transactions: &Transactions,
) -> Result<Vec<GroupContent>, Refusal>
    ensures shown { P.honest pages.new.device → (s : State) → IsSound s → s.sizes ≡ pages.old.sizes
        → s.images ≡ pages.old.images → s.rows ≡ transactions.now → any_under s.rows ≡ false
        → IfOk result (λ groups. map group_of groups.items
        ≡ map (group_in (committed_of s.records)) (below (sender_count s.sizes))) }
    ensures sound { P.honest pages.new.device → (s : State) → IsSound s → s.sizes ≡ pages.old.sizes
        → s.images ≡ pages.old.images → s.rows ≡ transactions.now → any_under s.rows ≡ false
        → IfErr result (λ refusal. IsNoDamage refusal) }
    ensures groups { P.honest pages.new.device → IfOk result (λ groups. map group_of groups.items
        ≡ map (read_group pages.old.sizes pages.old.images transactions.now) (below (sender_count pages.old.sizes))) }
    ensures refused { IfErr result (λ refusal. StopsFor P.PageDevice transactions.now pages.old refusal pages.new) }
    ensures counted { OnOk result (P.faults pages.new.device ≡ P.faults pages.old.device) }
    ensures read { MayHaveRead P.PageDevice pages.old pages.new }
{
    read_groups(alloc, pages, transactions)
}

// What the slots and the open transactions say of each sender.
fn read_groups<P: PageDevice>(
    alloc: Global,
    pages: &mut Pages<P>,
    transactions: &Transactions,
) -> Result<Vec<GroupContent>, Refusal>
    ensures groups { P.honest pages.new.device → IfOk result (λ groups. map group_of groups.items
        ≡ map (read_group pages.old.sizes pages.old.images transactions.now) (below (sender_count pages.old.sizes))) }
    ensures refused { IfErr result (λ refusal. StopsFor P.PageDevice transactions.now pages.old refusal pages.new) }
    ensures counted { OnOk result (P.faults pages.new.device ≡ P.faults pages.old.device) }
    ensures read { MayHaveRead P.PageDevice pages.old pages.new }
{
    let senders = pages.layout().senders();
    let Ok(mut groups) = Vec::with_capacity(alloc, senders as usize) else {
        return Err(Refusal::NoMemory);
    };
    for sender in 0..senders {
        let group = match group_content(alloc, pages, transactions, sender) {
            Ok(group) => group,
            Err(refusal) => return Err(refusal),
        };
        if groups.push(group).is_err() {
            return Err(Refusal::NoMemory);
        }
    }
    Ok(groups)
}

// What they say of one sender.
fn group_content<P: PageDevice>(
    alloc: Global,
    pages: &mut Pages<P>,
    transactions: &Transactions,
    sender: u32,
) -> Result<GroupContent, Refusal>
    requires { sender < sender_count pages.old.sizes }
    ensures group { P.honest pages.new.device → IfOk result (λ group. group_of group
        ≡ read_group pages.old.sizes pages.old.images transactions.now sender) }
    ensures refused { IfErr result (λ refusal. StopsFor P.PageDevice transactions.now pages.old refusal pages.new) }
    ensures counted { OnOk result (P.faults pages.new.device ≡ P.faults pages.old.device) }
    ensures read { MayHaveRead P.PageDevice pages.old pages.new }
{
    match pages.read_group(sender) {
        Ok(directory) => chain_content(alloc, pages, transactions, sender, &directory),
        Err(refusal) => Err(refusal),
    }
}

// What a sender's chain and the open transactions say, where this is its directory slot.
fn chain_content<P: PageDevice>(
    alloc: Global,
    pages: &mut Pages<P>,
    transactions: &Transactions,
    sender: u32,
    directory: &Directory,
) -> Result<GroupContent, Refusal>
    requires sender { sender < sender_count pages.old.sizes }
    requires held { slots_in pages.old.sizes pages.old.images (directory_at sender) ≡ Sender sender directory.now }
    requires head { IsLink pages.old.sizes directory.now.head }
    ensures group { P.honest pages.new.device → IfOk result (λ group. group_of group
        ≡ read_group pages.old.sizes pages.old.images transactions.now sender) }
    ensures refused { IfErr result (λ refusal. StopsFor P.PageDevice transactions.now pages.old refusal pages.new) }
    ensures counted { OnOk result (P.faults pages.new.device ≡ P.faults pages.old.device) }
    ensures read { MayHaveRead P.PageDevice pages.old pages.new }
{
    let mut earlier = Earlier::of(alloc, directory);
    if earlier.leave_out_rows(sender, transactions).is_err() {
        return Err(Refusal::NoMemory);
    }
    let Earlier {
        sent,
        previous,
        closed,
        taken: mut rest,
    } = earlier;
    let received = directory.received.saturating_sub(rest.len() as u64);
    let count = sent.saturating_sub(directory.received);
    match add_chain(pages, sender, directory.head, count, &mut rest) {
        Ok(()) => Ok(GroupContent {
            sent,
            last_tag: previous.unwrap_or(directory.last_tag),
            received,
            closed,
            rest,
        }),
        Err(refusal) => Err(refusal),
    }
}
