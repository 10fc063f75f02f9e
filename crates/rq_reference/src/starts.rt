//! The starts of operations: what a transaction may start, and how it starts it.
ghost use Rattle.std.specs.Prelude.{◌≡◌, ◌≢◌, ◌+◌, ◌||◌, ◌&&◌, IfOk, IfErr, OnErr, OnOk, Some, length, nat_eq, nat_lt};
ghost use Rattle.std.specs.List.{slice_get};
ghost use Rattle.rq_model.specs.History.Call.{Start_send, Start_receive, Start_receive_from, Start_close, Start_mark, Undo_next};
ghost use Rattle.rq_model.specs.History.Entry.{Started};
ghost use Rattle.rq_model.specs.History.Job.{Ending, Marking, Sending};
ghost use Rattle.rq_model.specs.Ledger.{ended_in, found, in_chain, own_takes, rest_in, undo_writes, writes};
ghost use Rattle.rq_model.specs.Legal.{At};
ghost use Rattle.rq_reference.specs.Plain.{May, MayBeRefused, StandsAt, group_of, job_of, next, op_in, op_of, pick, receivable, receive_entry, receive_from_entry, undo_entry};
ghost use Rattle.rq_model.specs.Vocabulary.{message_of, first, is_some};
ghost use Rattle.rq_model.specs.Tests.{Passes, cells_in_use, free_to_receive, free_to_send, gives, has_closed, log_full, newest, undo_cost};
ghost use Rattle.rq_model.specs.declared.refusal.Refusal.TheVariants.{NoMemory};

use crate::rows::{Act, Work, client_group};
use crate::{Reference, scans};
use rq_model::message::{Body, Message};
use rq_model::refusal::Refusal;
use rq_model::txn::Txn;
use std::alloc::AllocError;

impl Reference {
    /// Whether the sender's group is closed, by a commit or by the transaction at this place.
    fn is_closed_for(&self, txn: Txn, place: usize, sender: u32) -> bool
        requires { StandsAt self.now.ledger txn place }
        ensures { result ≡ (ended_in self.now.ledger.committed sender || has_closed sender
            (found txn self.now.ledger.open_ones)) }
    {
        if scans::is_closed(&self.committed, sender) {
            return true;
        }
        let row = &self.open_txns[place];
        scans::closes(&row.acts, sender)
    }

    /// Whether every cell is in use.
    fn is_full(&self) -> Result<bool, AllocError>
        ensures { IfOk result (λ full. full ≡ nat_eq (cells_in_use self.now.size self.now.ledger) self.now.size.cells) }
    {
        scans::fills(
            self.alloc,
            &self.committed,
            &self.open_txns,
            self.senders,
            self.cells,
        )
    }

    /// Whether `more` records, with those that operations under way have yet to log, would pass the
    /// greatest log.
    pub(super) fn is_log_full(&self, more: u64) -> bool
        ensures { result ≡ log_full self.now.ledger more }
    {
        scans::log_full(&self.open_txns, self.records, more)
    }

    /// Whether no other transaction holds the group's sending end.
    fn is_free_to_send(&self, txn: Txn, group: u64) -> bool
        ensures { result ≡ free_to_send txn group self.now.ledger.open_ones }
    {
        scans::is_free_to_send(&self.open_txns, txn, group)
    }

    /// Whether the store has this sender.
    fn has_sender(&self, sender: u32) -> bool
        ensures { result ≡ nat_lt sender self.now.size.senders }
    {
        sender < self.senders
    }

    /// Whether no other transaction holds the sender's receiving end.
    fn is_free_to_receive(&self, txn: Txn, sender: u32) -> bool
        ensures { result ≡ free_to_receive txn sender self.now.ledger.open_ones }
    {
        scans::is_free_to_receive(&self.open_txns, txn, u64::from(sender))
    }

    /// Whether the store has this client.
    fn has_client(&self, client: u32) -> bool
        ensures { result ≡ nat_lt client self.now.size.clients }
    {
        client < self.clients
    }

    /// The message behind those that the transaction at this place took: what a receive of its from the sender gives.
    pub(super) fn next_for(
        &self,
        txn: Txn,
        place: usize,
        sender: u32,
    ) -> Result<Option<Message>, AllocError>
        requires { StandsAt self.now.ledger txn place }
        ensures { IfOk result (λ m. At self.now.ledger txn (λ o. m ≡ slice_get (rest_in self.now.ledger.committed sender)
            (length (own_takes sender o)))) }
    {
        let row = &self.open_txns[place];
        let taken = scans::own_takes(self.alloc, row, sender)?.len();
        let waiting = scans::waiting(self.alloc, &self.committed, sender)?;
        Ok(scans::nth(&waiting, taken))
    }

    /// Whether the sender's group is free for the transaction at this place and holds a message for it.
    fn gives(&self, txn: Txn, place: usize, sender: u32) -> Result<bool, AllocError>
        requires { StandsAt self.now.ledger txn place }
        ensures { IfOk result (λ yes. yes ≡ gives self.now.ledger txn (found txn self.now.ledger.open_ones) sender) }
    {
        if !self.is_free_to_receive(txn, sender) {
            return Ok(false);
        }
        Ok(self.next_for(txn, place, sender)?.is_some())
    }

    /// The groups that are free for the transaction at this place and hold a message for it.
    fn groups_for(&self, txn: Txn, place: usize) -> Result<Vec<u32>, AllocError>
        requires { StandsAt self.now.ledger txn place }
        ensures { IfOk result (λ groups. groups.items ≡ receivable self.now.size self.now.ledger txn) }
    {
        let mut groups = Vec::new(self.alloc);
        for sender in 0..self.senders {
            if self.gives(txn, place, sender)? {
                groups.push(sender)?;
            }
        }
        Ok(groups)
    }

    /// What the transaction at this place did last and has not undone.
    fn newest(&self, txn: Txn, place: usize) -> Option<Act>
        requires { StandsAt self.now.ledger txn place }
        ensures { op_in result ≡ newest (found txn self.now.ledger.open_ones) }
    {
        let row = &self.open_txns[place];
        scans::last(&row.acts)
    }

    /// How many messages the chain of the sender holds.
    fn chain_length(&self, sender: u32) -> Result<usize, AllocError>
        ensures { IfOk result (λ n. n ≡ in_chain self.now.ledger sender) }
    {
        scans::chain_length(self.alloc, &self.committed, &self.open_txns, sender)
    }

    /// How many slots the inverse of what was done last writes.
    fn undo_writes(&self, act: Option<Act>) -> Result<u8, AllocError>
        ensures { IfOk result (λ count. count ≡ undo_writes self.now.ledger (op_in act)) }
    {
        match act {
            None => Ok(0),
            Some(Act::Sent(message)) => {
                let length = self.chain_length(message.sender)?;
                Ok(if length > 1 { 3 } else { 2 })
            }
            Some(Act::Taken(message)) => {
                let length = self.chain_length(message.sender)?;
                Ok(if length == 0 { 2 } else { 3 })
            }
            Some(Act::Closed(_)) => Ok(1),
            Some(Act::Marked { .. }) => Ok(1),
        }
    }

    /// How many slots an operation of the transaction at this place writes.
    fn writes(&self, txn: Txn, place: usize, work: Work) -> Result<u8, AllocError>
        requires { StandsAt self.now.ledger txn place }
        ensures { IfOk result (λ count. count ≡ writes self.now.ledger txn (job_of work)) }
    {
        match work {
            Work::Sending(message) => {
                let length = self.chain_length(message.sender)?;
                Ok(if length == 0 { 2 } else { 3 })
            }
            Work::Taking(sender) => {
                let length = self.chain_length(sender)?;
                Ok(if length > 1 { 3 } else { 2 })
            }
            Work::Closing(_) => Ok(1),
            Work::Marking { .. } => Ok(1),
            Work::Undoing => self.undo_writes(self.newest(txn, place)),
        }
    }

    /// Starts an operation of the transaction at this place, and answers its number.
    fn start(&mut self, txn: Txn, place: usize, work: Work) -> Result<u64, Refusal>
        requires { StandsAt self.old.ledger txn place }
        ensures number { IfOk result (λ n. At self.old.ledger txn (λ o. n ≡ o.number + 1)) }
        ensures step { IfOk result (λ n. self.new ≡ next (Started txn n (job_of work)) self.old) }
        ensures refused { IfErr result (λ r. r ≡ NoMemory) }
        ensures same { OnErr result (self.new ≡ self.old) }
    {
        let Ok(left) = self.writes(txn, place, work) else {
            return Err(Refusal::NoMemory);
        };
        let row = &self.open_txns[place];
        let number = row.number;
        if number == u64::MAX {
            return Err(Refusal::NoMemory);
        }
        let Ok(sending) = scans::sending_with(self.alloc, row, &work) else {
            return Err(Refusal::NoMemory);
        };
        let Ok(receiving) = scans::receiving_with(self.alloc, row, &work) else {
            return Err(Refusal::NoMemory);
        };
        let row = &mut self.open_txns[place];
        row.number = number + 1;
        row.work = Some(work);
        row.left = left;
        row.sending = sending;
        row.receiving = receiving;
        Ok(number + 1)
    }

    /// Where the transaction stands that may send this, and the message.
    fn sending_place(
        &self,
        txn: Txn,
        sender: u32,
        tag: u64,
        body: &[u8],
    ) -> Result<(usize, Message), Refusal>
        ensures stands { IfOk result (λ p. StandsAt self.now.ledger txn p.0) }
        ensures passes { IfOk result (λ p. Passes self.now.size self.now.ledger (Start_send txn p.1)) }
        ensures message { IfOk result (λ p. p.1 ≡ message_of sender tag body.now) }
        ensures refused { IfErr result (λ r. MayBeRefused self.now (Start_send txn (message_of sender tag body.now)) r) }
    {
        let place = self.ready_place(txn, false)?;
        if !self.has_sender(sender) {
            return Err(Refusal::UnknownSender);
        }
        let Some(body) = Body::new(body) else {
            return Err(Refusal::TooLong);
        };
        if !self.is_free_to_send(txn, u64::from(sender)) {
            return Err(Refusal::SenderBusy);
        }
        if self.is_closed_for(txn, place, sender) {
            return Err(Refusal::Closed);
        }
        let Ok(full) = self.is_full() else {
            return Err(Refusal::NoMemory);
        };
        if full {
            return Err(Refusal::Full);
        }
        if self.is_log_full(4) {
            return Err(Refusal::LogFull);
        }
        Ok((place, Message { sender, tag, body }))
    }

    /// Whether the transaction may send this now.
    ///
    /// # Errors
    /// `Failed`, `UnknownTransaction`, `NotOpen`, `Unfinished`, `UnknownSender`, `TooLong`, `SenderBusy`,
    /// `Closed`, `Full`, `LogFull`, `NoMemory`.
    pub fn may_send(&self, txn: Txn, sender: u32, tag: u64, body: &[u8]) -> Result<(), Refusal>
        ensures ok { OnOk result (Passes self.now.size self.now.ledger (Start_send txn (message_of sender tag body.now))) }
        ensures refused { IfErr result (λ r. MayBeRefused self.now (Start_send txn (message_of sender tag body.now)) r) }
    {
        let (_, _) = self.sending_place(txn, sender, tag, body)?;
        Ok(())
    }

    /// Starts a send, and answers the operation's number.
    ///
    /// # Errors
    /// `Failed`, `UnknownTransaction`, `NotOpen`, `Unfinished`, `UnknownSender`, `TooLong`, `SenderBusy`,
    /// `Closed`, `Full`, `LogFull`, `NoMemory`.
    pub fn start_send(
        &mut self,
        txn: Txn,
        sender: u32,
        tag: u64,
        body: &[u8],
    ) -> Result<u64, Refusal>
        ensures ok { IfOk result (λ n. May self.old (Started txn n (Sending (message_of sender tag body.now)))) }
        ensures step { IfOk result (λ n. self.new ≡ next
            (Started txn n (Sending (message_of sender tag body.now))) self.old) }
        ensures refused { IfErr result (λ r. MayBeRefused self.old (Start_send txn (message_of sender tag body.now)) r) }
        ensures same { OnErr result (self.new ≡ self.old) }
    {
        let (place, message) = self.sending_place(txn, sender, tag, body)?;
        self.start(txn, place, Work::Sending(message))
    }

    /// Where the transaction stands that may close the sender's group.
    fn closing_place(&self, txn: Txn, sender: u32) -> Result<usize, Refusal>
        ensures stands { IfOk result (λ place. StandsAt self.now.ledger txn place) }
        ensures passes { OnOk result (Passes self.now.size self.now.ledger (Start_close txn sender)) }
        ensures refused { IfErr result (λ r. MayBeRefused self.now (Start_close txn sender) r) }
        ensures memory { IfErr result (λ r. r ≢ NoMemory) }
    {
        let place = self.ready_place(txn, false)?;
        if !self.has_sender(sender) {
            return Err(Refusal::UnknownSender);
        }
        if !self.is_free_to_send(txn, u64::from(sender)) {
            return Err(Refusal::SenderBusy);
        }
        if self.is_closed_for(txn, place, sender) {
            return Err(Refusal::Closed);
        }
        if self.is_log_full(2) {
            return Err(Refusal::LogFull);
        }
        Ok(place)
    }

    /// Starts a close of the sender's group, and answers the operation's number.
    ///
    /// # Errors
    /// `Failed`, `UnknownTransaction`, `NotOpen`, `Unfinished`, `UnknownSender`, `SenderBusy`, `Closed`, `LogFull`,
    /// `NoMemory`.
    pub fn start_close(&mut self, txn: Txn, sender: u32) -> Result<u64, Refusal>
        ensures ok { IfOk result (λ n. May self.old (Started txn n (Ending sender))) }
        ensures step { IfOk result (λ n. self.new ≡ next (Started txn n (Ending sender)) self.old) }
        ensures refused { IfErr result (λ r. MayBeRefused self.old (Start_close txn sender) r) }
        ensures same { OnErr result (self.new ≡ self.old) }
    {
        let place = self.closing_place(txn, sender)?;
        self.start(txn, place, Work::Closing(sender))
    }

    /// Where the transaction stands that may mark the tag for the client.
    fn marking_place(&self, txn: Txn, client: u32, tag: u64) -> Result<usize, Refusal>
        ensures stands { IfOk result (λ place. StandsAt self.now.ledger txn place) }
        ensures passes { OnOk result (Passes self.now.size self.now.ledger (Start_mark txn client tag)) }
        ensures refused { IfErr result (λ r. MayBeRefused self.now (Start_mark txn client tag) r) }
        ensures memory { IfErr result (λ r. r ≢ NoMemory) }
    {
        let place = self.ready_place(txn, false)?;
        if !self.has_client(client) {
            return Err(Refusal::UnknownClient);
        }
        if !self.is_free_to_send(txn, client_group(client)) {
            return Err(Refusal::ClientBusy);
        }
        if self.is_log_full(2) {
            return Err(Refusal::LogFull);
        }
        Ok(place)
    }

    /// Starts a mark of the tag for the client, and answers the operation's number.
    ///
    /// # Errors
    /// `Failed`, `UnknownTransaction`, `NotOpen`, `Unfinished`, `UnknownClient`, `ClientBusy`, `LogFull`, `NoMemory`.
    pub fn start_mark(&mut self, txn: Txn, client: u32, tag: u64) -> Result<u64, Refusal>
        ensures ok { IfOk result (λ n. May self.old (Started txn n (Marking client tag))) }
        ensures step { IfOk result (λ n. self.new ≡ next (Started txn n (Marking client tag)) self.old) }
        ensures refused { IfErr result (λ r. MayBeRefused self.old (Start_mark txn client tag) r) }
        ensures same { OnErr result (self.new ≡ self.old) }
    {
        let place = self.marking_place(txn, client, tag)?;
        self.start(txn, place, Work::Marking { client, tag })
    }

    /// Whether there is one of these groups to receive from, and no room in the log for it.
    fn is_too_full_for(&self, groups: &[u32]) -> bool
        ensures { result ≡ (is_some (first groups.now) && log_full self.now.ledger 4) }
    {
        scans::has_group(groups) && self.is_log_full(4)
    }

    /// Where the transaction stands that may receive, and the groups that it may receive from.
    fn receiving_place(&self, txn: Txn) -> Result<(usize, Vec<u32>), Refusal>
        ensures stands { IfOk result (λ p. StandsAt self.now.ledger txn p.0) }
        ensures passes { OnOk result (Passes self.now.size self.now.ledger (Start_receive txn)) }
        ensures groups { IfOk result (λ p. p.1.items ≡ receivable self.now.size self.now.ledger txn) }
        ensures refused { IfErr result (λ r. MayBeRefused self.now (Start_receive txn) r) }
    {
        let place = self.ready_place(txn, false)?;
        let Ok(groups) = self.groups_for(txn, place) else {
            return Err(Refusal::NoMemory);
        };
        if self.is_too_full_for(&groups) {
            return Err(Refusal::LogFull);
        }
        Ok((place, groups))
    }

    /// Starts a receive from the group that is asked for, or from the first where that one is not free or holds no
    /// message, and answers the group and the operation's number: none where no free group holds a message.
    ///
    /// # Errors
    /// `Failed`, `UnknownTransaction`, `NotOpen`, `Unfinished`, `LogFull`, `NoMemory`.
    pub fn start_receive(&mut self, txn: Txn, asked: u32) -> Result<Option<(u32, u64)>, Refusal>
        ensures ok { IfOk result (λ given. May self.old (receive_entry txn given)) }
        ensures picked { IfOk result (λ given. group_of given ≡ pick asked (receivable self.old.size self.old.ledger txn)) }
        ensures step { IfOk result (λ given. self.new ≡ next (receive_entry txn given) self.old) }
        ensures refused { IfErr result (λ r. MayBeRefused self.old (Start_receive txn) r) }
        ensures same { OnErr result (self.new ≡ self.old) }
    {
        let (place, groups) = self.receiving_place(txn)?;
        match scans::pick(&groups, asked) {
            None => Ok(None),
            Some(sender) => {
                let number = self.start(txn, place, Work::Taking(sender))?;
                Ok(Some((sender, number)))
            }
        }
    }

    /// Where the transaction stands that may receive from the sender's group, and whether this gives it a message.
    fn receiving_place_from(&self, txn: Txn, sender: u32) -> Result<(usize, bool), Refusal>
        ensures stands { IfOk result (λ p. StandsAt self.now.ledger txn p.0) }
        ensures passes { OnOk result (Passes self.now.size self.now.ledger (Start_receive_from txn sender)) }
        ensures gives { IfOk result (λ p. p.1 ≡ gives self.now.ledger txn (found txn self.now.ledger.open_ones) sender) }
        ensures refused { IfErr result (λ r. MayBeRefused self.now (Start_receive_from txn sender) r) }
    {
        let place = self.ready_place(txn, false)?;
        if !self.has_sender(sender) {
            return Err(Refusal::UnknownSender);
        }
        if !self.is_free_to_receive(txn, sender) {
            return Err(Refusal::ReceiverBusy);
        }
        let Ok(gives) = self.gives(txn, place, sender) else {
            return Err(Refusal::NoMemory);
        };
        if gives && self.is_log_full(4) {
            return Err(Refusal::LogFull);
        }
        Ok((place, gives))
    }

    /// Starts a receive from the sender's group, and answers the operation's number: none where the group holds no
    /// message for the transaction.
    ///
    /// # Errors
    /// `Failed`, `UnknownTransaction`, `NotOpen`, `Unfinished`, `UnknownSender`, `ReceiverBusy`, `LogFull`, `NoMemory`.
    pub fn start_receive_from(&mut self, txn: Txn, sender: u32) -> Result<Option<u64>, Refusal>
        ensures ok { IfOk result (λ n. May self.old (receive_from_entry txn sender n)) }
        ensures step { IfOk result (λ n. self.new ≡ next (receive_from_entry txn sender n) self.old) }
        ensures refused { IfErr result (λ r. MayBeRefused self.old (Start_receive_from txn sender) r) }
        ensures same { OnErr result (self.new ≡ self.old) }
    {
        let (place, gives) = self.receiving_place_from(txn, sender)?;
        if !gives {
            return Ok(None);
        }
        let number = self.start(txn, place, Work::Taking(sender))?;
        Ok(Some(number))
    }

    /// What the inverse of this is counted as where it starts.
    fn undo_cost(act: &Act) -> u64
        ensures { result ≡ undo_cost (Some (op_of act.now)) }
    {
        match act {
            Act::Sent(_) => 4,
            Act::Taken(_) => 4,
            Act::Closed(_) => 2,
            Act::Marked { .. } => 2,
        }
    }

    /// Where the transaction stands that may undo, and what it did last and has not undone.
    fn undoing_place(&self, txn: Txn) -> Result<(usize, Option<Act>), Refusal>
        ensures stands { IfOk result (λ p. StandsAt self.now.ledger txn p.0) }
        ensures passes { OnOk result (Passes self.now.size self.now.ledger (Undo_next txn)) }
        ensures newest { IfOk result (λ p. op_in p.1 ≡ newest (found txn self.now.ledger.open_ones)) }
        ensures refused { IfErr result (λ r. MayBeRefused self.now (Undo_next txn) r) }
        ensures memory { IfErr result (λ r. r ≢ NoMemory) }
    {
        let place = self.ready_place(txn, true)?;
        let Some(act) = self.newest(txn, place) else {
            return Ok((place, None));
        };
        if self.is_log_full(Self::undo_cost(&act)) {
            return Err(Refusal::LogFull);
        }
        Ok((place, Some(act)))
    }

    /// Starts the inverse of what an aborting transaction did last and has not undone, and answers the operation's
    /// number: none where nothing is left.
    ///
    /// # Errors
    /// `Failed`, `UnknownTransaction`, `NotOpen`, `Unfinished`, `LogFull`, `NoMemory`.
    pub fn undo_next(&mut self, txn: Txn) -> Result<Option<u64>, Refusal>
        ensures ok { IfOk result (λ n. May self.old (undo_entry txn n)) }
        ensures step { IfOk result (λ n. self.new ≡ next (undo_entry txn n) self.old) }
        ensures refused { IfErr result (λ r. MayBeRefused self.old (Undo_next txn) r) }
        ensures same { OnErr result (self.new ≡ self.old) }
    {
        let (place, act) = self.undoing_place(txn)?;
        if act.is_none() {
            return Ok(None);
        }
        let number = self.start(txn, place, Work::Undoing)?;
        Ok(Some(number))
    }
}
