//! How many messages each sender has sent, and how often each client was marked, and the last tag of each.
ghost use Rattle.std.specs.Prelude.{◌≡◌, ◌+◌, ◌<◌, ◌^◌, ℕ, length, IfOk};
ghost use Rattle.rq_groups.specs.Sent.{sent_count, sent_tag, with_last, with_one_more};

use rq_model::refusal::NoMemory;
use std::alloc::Global;
use std::marker::Model;

/// What a sender's committed sends, or a client's marks, come to.
#[derive(Clone, Copy, PartialEq, Eq)]
pub struct LastTag {
    /// How many messages it sent, or tags it marked.
    pub sent: u64,
    /// The tag of the last one, 0 where there is none.
    pub tag: u64,
}

/// For each sender of a store, how many messages of it are committed, and the tag of the last one; behind the senders
/// likewise for each client and its marks. Contracts see both lists, by place.
#[derive(Drop)]
pub struct Sent {
    counts: Vec<u64>,
    tags: Vec<u64>,
}

impl Model for Sent {
    ghost use Rattle.std.specs.Prelude.{◌≡◌, length, ◌<◌, ◌^◌};
    ghost use Rattle.rq_groups.specs.Sent.{SentBy};

    ghost Value = { SentBy };

    ghost view = { λ s. record { counts = s.counts.items; tags = s.tags.items } };

    ghost invariant = { λ s. (length s.counts.items < 2 ^ 32) × (length s.tags.items ≡ length s.counts.items) };
}

impl Sent {
    /// Nothing is sent or marked, of as many senders and clients.
    ///
    /// # Errors
    /// `NoMemory`.
    pub fn new(alloc: Global, places: u32) -> Result<Sent, NoMemory>
        ensures places { IfOk result (λ sent. (length sent.counts ≡ places) × (length sent.tags ≡ places)) }
        ensures none { IfOk result (λ sent. (s : ℕ) → (sent_count sent s ≡ 0) × (sent_tag sent s ≡ 0)) }
    {
        let Ok(counts) = vec![in alloc; 0; places as usize] else {
            return Err(NoMemory);
        };
        match vec![in alloc; 0; places as usize] {
            Ok(tags) => Ok(Sent { counts, tags }),
            Err(_) => Err(NoMemory),
        }
    }

    /// How many were sent or marked at this place, and the last tag: none where there is no such place.
    pub fn last_tag(&self, place: usize) -> LastTag
        ensures sent { result.sent ≡ sent_count self.now place }
        ensures tag { result.tag ≡ sent_tag self.now place }
    {
        LastTag {
            sent: self.counts.get(place).copied().unwrap_or(0),
            tag: self.tags.get(place).copied().unwrap_or(0),
        }
    }

    /// Has this be what the sends or marks at this place come to. Nothing changes where there is no such place.
    pub fn set(&mut self, place: usize, last: LastTag)
        ensures { self.new ≡ with_last place last.sent last.tag self.old }
    {
        if place < self.counts.len() {
            self.counts[place] = last.sent;
            self.tags[place] = last.tag;
        }
    }

    /// Counts one more at this place, with this tag, as when a send or a mark is committed. Nothing changes where there is no
    /// such place.
    pub fn add(&mut self, place: usize, tag: u64)
        requires room { sent_count self.old place + 1 < 2 ^ 64 }
        ensures { self.new ≡ with_one_more place tag self.old }
    {
        let sent = self.last_tag(place).sent + 1;
        self.set(place, LastTag { sent, tag });
    }
}
