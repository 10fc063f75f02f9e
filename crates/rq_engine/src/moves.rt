//! What finished operations sent, marked and took.
ghost use Rattle.std.specs.Prelude.{◌≡◌, ◌+◌, ◌<◌, ◌^◌, ℕ, length};
ghost use Rattle.std.specs.List.{sum_by};
ghost use Rattle.rq_groups.specs.Sent.{sent_count};
ghost use Rattle.rq_groups.specs.Waiting.{waits};
ghost use Rattle.rq_store.specs.Settled.{takes_one};
ghost use Rattle.rq_views.specs.Claims.{appends_of};
ghost use Rattle.rq_engine.specs.Moves.{with_sends, with_taken, with_tags, without_taken};

use rq_groups::{Sent, Waiting};
use rq_txn::{Finished, ToldDeed};

/// Has the messages wait that these operations sent.
pub(crate) fn add_sends(waiting: &mut Waiting, finished: &[Finished])
    requires room { (s : ℕ) → waits waiting.old s + length finished.now < 2 ^ 64 }
    ensures { waiting.new ≡ with_sends finished.now waiting.old }
{
    for done in finished {
        if let Some(sender) = done.deed.sent_by() {
            waiting.add(sender, 1);
        }
    }
}

/// Counts what these operations sent and marked, and keeps the tag of each sender's and each client's last one. Clients have
/// their places behind the senders.
pub(crate) fn count_sends(sent: &mut Sent, senders: u32, finished: &[Finished])
    requires room { (s : ℕ) → sent_count sent.old s + length finished.now < 2 ^ 64 }
    ensures { sent.new ≡ with_tags senders finished.now sent.old }
{
    for done in finished {
        if let Some((whose, tag)) = done.deed.tagged(senders) {
            sent.add(whose, tag);
        }
    }
}

/// How many messages these operations took.
pub(crate) fn count_takes(finished: &[Finished]) -> u64
    ensures { result ≡ sum_by takes_one finished.now }
{
    let mut taken: u64 = 0;
    for done in finished {
        if done.deed.taken_from().is_some() {
            taken += 1;
        }
    }
    taken
}

/// Has a message wait again whose taking is undone.
pub(crate) fn put_in_taken(waiting: &mut Waiting, deed: &ToldDeed)
    requires room { (s : ℕ) → waits waiting.old s + 1 < 2 ^ 64 }
    ensures { waiting.new ≡ with_taken deed.now waiting.old }
{
    if let Some(sender) = deed.taken_from() {
        waiting.add(sender, 1);
    }
}

/// How many cells are free again where an operation is undone: that of what it sent.
pub(crate) fn cells_given_back(deed: &ToldDeed) -> u64
    ensures { result ≡ appends_of deed.now }
{
    match deed.sent_by() {
        Some(_) => 1,
        None => 0,
    }
}

/// Has a message wait no more that the operation took.
pub(crate) fn leave_out_taken(waiting: &mut Waiting, deed: &ToldDeed)
    ensures { waiting.new ≡ without_taken deed.now waiting.old }
{
    if let Some(sender) = deed.taken_from() {
        waiting.take(sender);
    }
}
