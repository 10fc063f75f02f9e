//! How calls were answered.
use rq_engine::event::Reply;
use rq_model::refusal::Refusal;
use rq_shared::kept::AuditEntry;

/// How many calls were answered, and how many starts were refused as Latched. A call that was refused for something
/// else is neither.
#[derive(Clone, Copy, Drop)]
pub struct Tally {
    pub answered: u64,
    pub latched: u64,
}

impl Tally {
    /// Of no call.
    pub fn none() -> Tally {
        Tally {
            answered: 0,
            latched: 0,
        }
    }

    /// Of the calls that these entries tell of.
    pub fn of(entries: &[AuditEntry]) -> Tally {
        let mut tally = Tally::none();
        for entry in entries {
            tally = tally.and(Tally::of_reply(entry.reply()));
        }
        tally
    }

    // Of one call.
    fn of_reply(reply: &Reply) -> Tally {
        let (answered, latched) = match reply {
            Reply::Refused(Refusal::Latched) => (0, 1),
            Reply::Refused(_) => (0, 0),
            _ => (1, 0),
        };
        Tally { answered, latched }
    }

    /// Of the calls of both.
    pub fn and(self, other: Tally) -> Tally {
        Tally {
            answered: self.answered.wrapping_add(other.answered),
            latched: self.latched.wrapping_add(other.latched),
        }
    }
}
