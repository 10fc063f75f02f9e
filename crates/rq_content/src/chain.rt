//! The messages of a chain.
ghost use Rattle.std.specs.Prelude.{◌≡◌, ◌<◌, ◌++◌, None, Some, OnOk, IfErr, IfOk};
ghost use Rattle.rq_page.specs.Sizes.{IsLink, sender_count};
ghost use Rattle.rq_pool.specs.Fetching.{MayHaveRead};
ghost use Rattle.rq_content.specs.Read.{cells_in, damaged_for, met, IsShort, ReadStops};

use rq_disk::PageDevice;
use rq_model::message::Message;
use rq_model::refusal::{Damage, Refusal};
use rq_page::addr::Addr;
use rq_page::cell::Cell;
use rq_pool::Pages;

/// Adds the messages of a sender's first `count` cells, from the one at `head` on.
///
/// # Errors
/// `NoMemory`, `DiskRead`, or `Damaged` with the page of the sender's directory slot where there are fewer cells.
pub fn add_chain<P: PageDevice>(
    pages: &mut Pages<P>,
    sender: u32,
    head: Addr,
    count: u64,
    rest: &mut Vec<Message>,
) -> Result<(), Refusal>
    requires sender { sender < sender_count pages.old.sizes }
    requires head { IsLink pages.old.sizes head }
    ensures met { P.honest pages.new.device → OnOk result (rest.new.items ≡ rest.old.items ++ met
        (cells_in pages.old.sizes pages.old.images) sender head count) }
    ensures refused { IfErr result (λ e. ReadStops P.PageDevice (IsShort
        (cells_in pages.old.sizes pages.old.images) sender head count) pages.old e pages.new) }
    ensures counted { OnOk result (P.faults pages.new.device ≡ P.faults pages.old.device) }
    ensures read { MayHaveRead P.PageDevice pages.old pages.new }
{
    let mut at = head;
    for _ in 0..count {
        let cell = match read_link(pages, sender, at) {
            Ok(cell) => cell,
            Err(refusal) => return Err(refusal),
        };
        let message = Message {
            sender,
            tag: cell.tag,
            body: cell.body,
        };
        if rest.push(message).is_err() {
            return Err(Refusal::NoMemory);
        }
        at = cell.next;
    }
    Ok(())
}

// The cell to which a link of a sender's chain leads; damage where it leads to none.
fn read_link<P: PageDevice>(pages: &mut Pages<P>, sender: u32, at: Addr) -> Result<Cell, Refusal>
    requires sender { sender < sender_count pages.old.sizes }
    requires link { IsLink pages.old.sizes at }
    ensures cell { P.honest pages.new.device → IfOk result (λ c. cells_in pages.old.sizes pages.old.images at ≡ Some c) }
    ensures next { IfOk result (λ c. IsLink pages.old.sizes c.next) }
    ensures refused { IfErr result (λ e. ReadStops P.PageDevice (λ r. (r ≡ damaged_for sender)
        × (cells_in pages.old.sizes pages.old.images at ≡ None)) pages.old e pages.new) }
    ensures counted { OnOk result (P.faults pages.new.device ≡ P.faults pages.old.device) }
    ensures read { MayHaveRead P.PageDevice pages.old pages.new }
{
    if at.is_none() {
        return Err(damaged(pages, sender));
    }
    match pages.read_cell(at) {
        Ok(Some(cell)) => Ok(cell),
        Ok(None) => Err(damaged(pages, sender)),
        Err(refusal) => Err(refusal),
    }
}

// The page of the sender's directory slot does not agree with its chain.
fn damaged<P: PageDevice>(pages: &Pages<P>, sender: u32) -> Refusal
    requires { sender < sender_count pages.now.sizes }
    ensures { result ≡ damaged_for sender }
{
    let at = pages.layout().directory_of(sender);
    Refusal::Damaged(Damage::Page(at.page() as u32))
}
