//! A sender's directory slot, without what transactions that have not ended did.
ghost use Rattle.std.specs.Prelude.{◌≡◌, OnOk, reverse};
ghost use Rattle.rq_content.specs.Read.{before_of, start, without_deed, without_all, without_oldest, without_send};

use rq_model::message::Message;
use rq_model::record::Deed;
use rq_model::refusal::NoMemory;
use rq_page::directory::Directory;
use rq_txn::{Finished, ToldDeed, Transactions};
use std::alloc::Global;

/// What a directory slot says of a sender, without deeds that are not committed.
#[derive(Drop)]
pub struct Earlier {
    /// How many messages were sent.
    pub sent: u64,
    /// The last tag before the first send that is left out, if one is.
    pub previous: Option<u64>,
    /// Whether the group takes no more messages.
    pub closed: bool,
    /// What deeds that are left out took, in order.
    pub taken: Vec<Message>,
}

impl Earlier {
    /// What the slot itself says.
    pub fn of(alloc: Global, directory: &Directory) -> Self
        ensures { before_of result ≡ start directory.now }
    {
        Earlier {
            sent: directory.sent,
            previous: None,
            closed: directory.closed,
            taken: Vec::new(alloc),
        }
    }

    /// Leaves out what transactions did to the sender, the oldest first.
    pub fn leave_out_rows(
        &mut self,
        sender: u32,
        transactions: &Transactions,
    ) -> Result<(), NoMemory>
        ensures { OnOk result (before_of self.new
            ≡ without_oldest sender (reverse transactions.now) (before_of self.old)) }
    {
        for place in 0..transactions.len() {
            self.leave_out_all(sender, &transactions.at(place).finished)?;
        }
        Ok(())
    }

    // Leaves out what finished operations did to the sender, in order.
    fn leave_out_all(&mut self, sender: u32, finished: &[Finished]) -> Result<(), NoMemory>
        ensures { OnOk result (before_of self.new ≡ without_all sender finished.now (before_of self.old)) }
    {
        for done in finished {
            self.leave_out(sender, &done.deed)?;
        }
        Ok(())
    }

    // Leaves a deed out, where it is of the sender.
    fn leave_out(&mut self, sender: u32, deed: &ToldDeed) -> Result<(), NoMemory>
        ensures { OnOk result (before_of self.new ≡ without_deed sender deed.now (before_of self.old)) }
    {
        if !deed.is_of(sender) {
            return Ok(());
        }
        self.leave_out_whole(sender, &deed.deed())
    }

    // The same, by all that the deed says.
    fn leave_out_whole(&mut self, sender: u32, deed: &Deed) -> Result<(), NoMemory>
        ensures { OnOk result (before_of self.new ≡ without_deed sender deed.now (before_of self.old)) }
    {
        match deed {
            Deed::Append {
                sender: of,
                sequence: _,
                tag: _,
                previous,
                body: _,
            } => {
                if *of == sender {
                    self.leave_out_send(*previous);
                }
                Ok(())
            }
            Deed::UnlinkHead {
                sender: of,
                sequence: _,
                tag,
                body,
            } => {
                let message = Message {
                    sender,
                    tag: *tag,
                    body: *body,
                };
                if *of == sender && self.taken.push(message).is_err() {
                    return Err(NoMemory);
                }
                Ok(())
            }
            Deed::Close { sender: of } => {
                if *of == sender {
                    self.closed = false;
                }
                Ok(())
            }
            // It is of no sender.
            Deed::Mark { .. } => Ok(()),
        }
    }

    // Leaves a send out, which came behind this tag.
    fn leave_out_send(&mut self, previous: u64)
        ensures { before_of self.new ≡ without_send previous (before_of self.old) }
    {
        self.sent = self.sent.saturating_sub(1);
        if self.previous.is_none() {
            self.previous = Some(previous);
        }
    }
}
