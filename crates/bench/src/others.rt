//! The transactions that stay open.
use crate::beside::{Other, send_messages};
use crate::transactions::Queue;

/// Opens so many.
pub fn open_others<Q: Queue>(queue: &mut Q, other: Other, open: u32) -> Option<()> {
    for sender in 0..open {
        if let Other::Received = other {
            send_messages(queue, sender, 2)?;
        }
    }
    for sender in 0..open {
        open_one(queue, other, sender)?;
    }
    Some(())
}

fn open_one<Q: Queue>(queue: &mut Q, other: Other, sender: u32) -> Option<()> {
    let txn = queue.begin()?;
    match other {
        Other::Begun => Some(()),
        Other::Sent => queue.send(txn, sender, b"x"),
        Other::Received => queue.receive_from(txn, sender),
    }
}
