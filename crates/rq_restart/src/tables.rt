//! What the slots of a store in which nothing is open tell: of each sender what waits and what it sent, of each client what
//! it marked.
ghost use Rattle.std.specs.Prelude.{◌≡◌, ◌⊎◌, ◌+◌, ◌/◌, ◌≤◌, ◌<◌, ◌^◌, [], List, ℕ, IfErr, IfOk, OnOk};
ghost use Rattle.rq_model.specs.declared.refusal.Damage.TheVariants.{Page};
ghost use Rattle.rq_page.specs.Sizes.{client_count, sender_count};
ghost use Rattle.rq_pool.specs.Fetching.{HasReadFor, IsReadAsStored};
ghost use Rattle.rq_pool.specs.Pooled.{IsPool};
ghost use Rattle.rq_groups.specs.Sent.{sent_count};
ghost use Rattle.rq_planner.specs.Answered.{KnowsCells};
ghost use Rattle.rq_restart.specs.Repeating.{ArePagesCounted, paged};
ghost use Rattle.rq_restart.specs.Restarting.{AreTold};
ghost use Rattle.rq_restart.specs.Tables.{AreSentTo, AreWaitingTo, NotTabled};
ghost use Rattle.rq_restart.specs.Undoing.{IsOfReads};

use crate::appending::shows_pool;
use rq_disk::PageDevice;
use rq_groups::{Ends, LastTag, Sent, Waiting};
use rq_level::Level;
use rq_model::refusal::{Damage, Refusal};
use rq_page::addr::Addr;
use rq_planner::Planner;
use rq_pool::Pages;
use std::alloc::Global;

/// The tables that an engine keeps in memory: of each sender how many messages wait, and what its sends come to, and of each
/// client its marks; the locks, of which none is held; and the planner, which has the levels.
#[derive(Drop)]
pub(crate) struct EngineTables<B: Level> {
    pub waiting: Waiting,
    pub sent: Sent,
    pub ends: Ends,
    pub planner: Planner<B>,
    ghost free: { ends ≡ record { sending = []; receiving = [] } },
}

/// What the slots tell, of a store over a log of so many records: of each sender those messages wait that were sent and not
/// received. Pages are read that stand in no frame.
///
/// # Errors
/// `NoMemory`; `DiskRead`; `Damaged` with the page of a slot that tells of more than the records, or that a device gave that has
/// lied.
pub(crate) fn read_slots<P: PageDevice + Drop, B: Level>(
    alloc: Global,
    pages: &mut Pages<P>,
    planner: Planner<B>,
    records: u64,
) -> Result<EngineTables<B>, Refusal>
    requires known { KnowsCells pages.old.sizes pages.old.images planner }
    ensures told { IfOk result (λ tables. AreTold pages.new.sizes pages.new.images records tables.waiting tables.sent) }
    ensures known { IfOk result (λ tables. KnowsCells pages.new.sizes pages.new.images tables.planner) }
    ensures pool { OnOk result (IsPool pages.new.sizes pages.new.images) }
    ensures read { HasReadFor P.PageDevice pages.old result pages.new }
    ensures stops { IfErr result (λ e. IsReadAsStored P.PageDevice pages.old pages.new
        → ArePagesCounted pages.old.sizes records (paged pages.old) → (e ≡ Refusal.NoMemory) ⊎ (e ≡ Refusal.DiskRead)) }
    ensures names { IfErr result IsOfReads }
{
    let senders = pages.layout().senders();
    let clients = pages.layout().clients();
    let mut waiting = Waiting::new(alloc, senders)?;
    let mut sent = Sent::new(alloc, senders + clients)?;
    let ends = Ends::new(alloc, senders, clients)?;
    match read_tables(pages, records, senders, clients, &mut waiting, &mut sent) {
        Ok(()) => {
            shows_pool(pages);
            Ok(EngineTables {
                waiting,
                sent,
                ends,
                planner,
            })
        }
        Err(refusal) => Err(refusal),
    }
}

// Fills the tables. Pages may be read.
fn read_tables<P: PageDevice + Drop>(
    pages: &mut Pages<P>,
    records: u64,
    senders: u32,
    clients: u32,
    waiting: &mut Waiting,
    sent: &mut Sent,
) -> Result<(), Refusal>
    requires senders { senders ≡ sender_count pages.old.sizes }
    requires clients { clients ≡ client_count pages.old.sizes }
    requires waiting { AreWaitingTo pages.old.sizes pages.old.images 0 waiting.old }
    requires sent { AreSentTo pages.old.sizes pages.old.images 0 sent.old }
    ensures waiting { OnOk result (AreWaitingTo pages.new.sizes pages.new.images senders waiting.new) }
    ensures sent { OnOk result (AreSentTo pages.new.sizes pages.new.images (senders + clients) sent.new) }
    ensures few { OnOk result ((place : ℕ) → sent_count sent.new place ≤ records) }
    ensures read { HasReadFor P.PageDevice pages.old result pages.new }
    ensures causes { IfErr result (λ e. NotTabled P.PageDevice records pages.old e pages.new) }
{
    match read_directory(pages, records, senders, waiting, sent) {
        Ok(()) => read_clients(pages, records, senders, clients, sent),
        Err(refusal) => Err(refusal),
    }
}

// Of each sender how many messages wait, and what its sends come to. Pages may be read.
fn read_directory<P: PageDevice + Drop>(
    pages: &mut Pages<P>,
    records: u64,
    senders: u32,
    waiting: &mut Waiting,
    sent: &mut Sent,
) -> Result<(), Refusal>
    requires senders { senders ≡ sender_count pages.old.sizes }
    requires waiting { AreWaitingTo pages.old.sizes pages.old.images 0 waiting.old }
    requires sent { AreSentTo pages.old.sizes pages.old.images 0 sent.old }
    ensures waiting { OnOk result (AreWaitingTo pages.new.sizes pages.new.images senders waiting.new) }
    ensures sent { OnOk result (AreSentTo pages.new.sizes pages.new.images senders sent.new) }
    ensures few { OnOk result ((place : ℕ) → sent_count sent.new place ≤ records) }
    ensures read { HasReadFor P.PageDevice pages.old result pages.new }
    ensures causes { IfErr result (λ e. NotTabled P.PageDevice records pages.old e pages.new) }
{
    for sender in 0..senders {
        let group = match pages.read_group(sender) {
            Ok(group) => group,
            Err(refusal) => return Err(refusal),
        };
        if group.sent > records {
            return Err(beyond(pages.layout().directory_of(sender)));
        }
        waiting.add(sender, group.sent.saturating_sub(group.received));
        let last = LastTag {
            sent: group.sent,
            tag: group.last_tag,
        };
        sent.set(sender as usize, last);
    }
    Ok(())
}

// Behind the senders, what each client's marks come to. Pages may be read.
fn read_clients<P: PageDevice + Drop>(
    pages: &mut Pages<P>,
    records: u64,
    senders: u32,
    clients: u32,
    sent: &mut Sent,
) -> Result<(), Refusal>
    requires senders { senders ≡ sender_count pages.old.sizes }
    requires clients { clients ≡ client_count pages.old.sizes }
    requires sent { AreSentTo pages.old.sizes pages.old.images senders sent.old }
    requires few { (place : ℕ) → sent_count sent.old place ≤ records }
    ensures sent { OnOk result (AreSentTo pages.new.sizes pages.new.images (senders + clients) sent.new) }
    ensures few { OnOk result ((place : ℕ) → sent_count sent.new place ≤ records) }
    ensures waiting { OnOk result ((waiting : List ℕ) → AreWaitingTo pages.old.sizes pages.old.images senders waiting
        → AreWaitingTo pages.new.sizes pages.new.images senders waiting) }
    ensures read { HasReadFor P.PageDevice pages.old result pages.new }
    ensures causes { IfErr result (λ e. NotTabled P.PageDevice records pages.old e pages.new) }
{
    for client in 0..clients {
        let held = match pages.read_client(client) {
            Ok(held) => held,
            Err(refusal) => return Err(refusal),
        };
        if held.count > records {
            return Err(beyond(pages.layout().client_slot_of(client)));
        }
        let last = LastTag {
            sent: held.count,
            tag: held.tag,
        };
        sent.set(senders as usize + client as usize, last);
    }
    Ok(())
}

// Damage of the page on which this slot stands.
fn beyond(at: Addr) -> Refusal
    requires { at / 16 < 2 ^ 32 }
    ensures { result ≡ Refusal.Damaged (Page (at / 16)) }
{
    Refusal::Damaged(Damage::Page(at.page() as u32))
}
