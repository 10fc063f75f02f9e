//! Transactions, each of one operation at most.
use rq_disk::{LogDevice, PageDevice};
use rq_engine::engine::Engine;
use rq_engine::event::Progress;
use rq_levels::StoreLevel;
use rq_model::txn::{Lsn, Sub, Txn};

/// More than the steps that an operation has.
const STEPS: u32 = 8;

/// A store as those know it who go through transactions: each call is none where it is refused.
pub trait Queue {
    /// Begins a transaction.
    fn begin(&mut self) -> Option<Txn>;

    /// Sends a message with this body.
    fn send(&mut self, txn: Txn, sender: u32, body: &[u8]) -> Option<()>;

    /// Receives a message.
    fn receive(&mut self, txn: Txn) -> Option<()>;

    /// Receives the first message of a sender.
    fn receive_from(&mut self, txn: Txn, sender: u32) -> Option<()>;

    /// Commits a transaction.
    fn commit(&mut self, txn: Txn) -> Option<()>;

    /// Takes back the one operation of a transaction, and ends it.
    fn abort(&mut self, txn: Txn) -> Option<()>;

    /// Forces the log.
    fn force(&mut self) -> Option<()>;

    /// Makes the log one record.
    fn checkpoint(&mut self) -> Option<Lsn>;
}

impl<P: PageDevice, L: LogDevice> Queue for Engine<P, L, StoreLevel> {
    fn begin(&mut self) -> Option<Txn> {
        self.begin().ok()
    }

    fn send(&mut self, txn: Txn, sender: u32, body: &[u8]) -> Option<()> {
        let sub = self.start_send(txn, sender, 1, body).ok()?;
        finish(self, sub)
    }

    fn receive(&mut self, txn: Txn) -> Option<()> {
        let sub = self.start_receive(txn).ok()??;
        finish(self, sub)
    }

    fn receive_from(&mut self, txn: Txn, sender: u32) -> Option<()> {
        let sub = self.start_receive_from(txn, sender).ok()??;
        finish(self, sub)
    }

    fn commit(&mut self, txn: Txn) -> Option<()> {
        self.commit(txn).ok()?;
        Some(())
    }

    fn abort(&mut self, txn: Txn) -> Option<()> {
        self.start_abort(txn).ok()?;
        let sub = self.undo_next(txn).ok()??;
        finish(self, sub)?;
        self.end_abort(txn).ok()
    }

    fn force(&mut self) -> Option<()> {
        self.force().ok()?;
        Some(())
    }

    fn checkpoint(&mut self) -> Option<Lsn> {
        self.checkpoint().ok()
    }
}

// Makes the steps of an operation, and finishes it.
fn finish<P: PageDevice, L: LogDevice>(
    engine: &mut Engine<P, L, StoreLevel>,
    sub: Sub,
) -> Option<()> {
    for _ in 0..STEPS {
        if is_ready(engine, sub)? {
            break;
        }
    }
    engine.finish(sub).ok()?;
    Some(())
}

// Makes the next step of an operation. Whether none is left.
fn is_ready<P: PageDevice, L: LogDevice>(
    engine: &mut Engine<P, L, StoreLevel>,
    sub: Sub,
) -> Option<bool> {
    match engine.step(sub) {
        Ok(Progress::Ready) => Some(true),
        Ok(Progress::Done(_)) => Some(false),
        Err(_) => None,
    }
}
