//! Deeds, as levels tell them.
ghost use Rattle.std.specs.Prelude.{◌≡◌, ◌≤◌, ◌↔◌, IfOk, IsTrue, Some, length};
ghost use Rattle.rq_model.specs.Commits.{op_of};
ghost use Rattle.rq_model.specs.Content.{said};
ghost use Rattle.rq_model.specs.Deeds.{deed_by, deed_level, spelled_deed};
ghost use Rattle.rq_model.specs.Tests.{undo_cost};
ghost use Rattle.rq_views.specs.Plans.{deed_sender};
ghost use Rattle.rq_level.specs.Gists.{gist_of};
ghost use Rattle.rq_txn.specs.Told.{TellsGist, sent_by, tagged, taken_from};

use rq_level::{CHAIN_RECORDS, Gist, ONE_SLOT_RECORDS};
use rq_model::record::Deed;
use rq_model::refusal::NoMemory;
use rq_record::decode_told;
use std::alloc::Global;
use std::marker::Model;

/// A deed, in the bytes that its level told, with the level's number and what is counted of it. Contracts see the deed.
#[derive(Drop)]
pub struct ToldDeed {
    level: u8,
    bytes: Vec<u8>,
    gist: Gist,
}

impl Model for ToldDeed {
    ghost use Rattle.std.specs.Prelude.{◌≤◌, length};
    ghost use Rattle.rq_model.specs.declared.record.Deed.{Deed};
    ghost use Rattle.rq_model.specs.Deeds.{deed_by};
    ghost use Rattle.rq_views.specs.Items.{told_deed};
    ghost use Rattle.rq_txn.specs.Told.{TellsGist};

    ghost Value = { Deed };

    ghost view = { λ t. told_deed (deed_by t.level t.bytes.items) };

    ghost invariant = { λ t. TellsGist t.level t.bytes.items t.gist × (length t.bytes.items ≤ 256) };
}

impl ToldDeed {
    /// The deed of this level that these bytes are the spelling of, with what is counted of it.
    ///
    /// # Errors
    /// `NoMemory`.
    pub fn new(alloc: Global, level: u8, deed: &[u8], gist: Gist) -> Result<Self, NoMemory>
        requires told { TellsGist level deed.now gist }
        requires short { length deed.now ≤ 256 }
        ensures { IfOk result (λ told. deed_by level deed.now ≡ Some told) }
    {
        match Vec::from_slice(alloc, deed) {
            Ok(bytes) => Ok(ToldDeed { level, bytes, gist }),
            Err(_) => Err(NoMemory),
        }
    }

    /// A copy of it.
    ///
    /// # Errors
    /// `NoMemory`.
    pub fn copy(&self, alloc: Global) -> Result<ToldDeed, NoMemory>
        ensures { IfOk result (λ told. told ≡ self.now) }
    {
        ToldDeed::new(alloc, self.level, &self.bytes, self.gist)
    }

    /// The number of its level.
    pub fn level(&self) -> u8
        ensures { result ≡ deed_level self.now }
    {
        self.level
    }

    /// Its bytes.
    pub fn bytes(&self) -> &[u8]
        ensures spelled { result.now ≡ spelled_deed self.now }
        ensures reads { deed_by (deed_level self.now) result.now ≡ Some self.now }
        ensures short { length result.now ≤ 256 }
    {
        &self.bytes
    }

    /// All of it.
    pub fn deed(&self) -> Deed
        ensures { result ≡ self.now }
    {
        decode_told(self.level, &self.bytes).unwrap()
    }

    /// Whose message was sent, where one was.
    #[inline(always)]
    pub fn sent_by(&self) -> Option<u32>
        ensures { result ≡ sent_by self.now }
    {
        match self.gist() {
            Gist::Append { sender, .. } => Some(sender),
            Gist::UnlinkHead { .. } => None,
            Gist::Close { .. } => None,
            Gist::Mark { .. } => None,
        }
    }

    /// Whose message was taken, where one was.
    #[inline(always)]
    pub fn taken_from(&self) -> Option<u32>
        ensures { result ≡ taken_from self.now }
    {
        match self.gist() {
            Gist::Append { .. } => None,
            Gist::UnlinkHead { sender } => Some(sender),
            Gist::Close { .. } => None,
            Gist::Mark { .. } => None,
        }
    }

    /// The tag that was sent or marked, behind whose it is: its sender's, or its client's behind so many senders.
    #[inline(always)]
    pub fn tagged(&self, senders: u32) -> Option<(usize, u64)>
        ensures { result ≡ tagged senders self.now }
    {
        match self.gist() {
            Gist::Append { sender, tag } => Some((sender as usize, tag)),
            Gist::UnlinkHead { .. } => None,
            Gist::Close { .. } => None,
            Gist::Mark { client, tag } => Some((senders as usize + client as usize, tag)),
        }
    }

    /// What its inverse is counted as where it starts.
    pub fn undo_records(&self) -> u64
        ensures { result ≡ undo_cost (Some (op_of (said self.now))) }
    {
        match self.gist() {
            Gist::Append { .. } => CHAIN_RECORDS,
            Gist::UnlinkHead { .. } => CHAIN_RECORDS,
            Gist::Close { .. } => ONE_SLOT_RECORDS,
            Gist::Mark { .. } => ONE_SLOT_RECORDS,
        }
    }

    /// What is counted of it.
    #[inline(always)]
    pub fn gist(&self) -> Gist
        ensures { result ≡ gist_of self.now }
    {
        self.gist
    }

    /// Whether it is of this sender's group. A mark is of none.
    pub fn is_of(&self, sender: u32) -> bool
        ensures { IsTrue result ↔ deed_sender self.now ≡ sender }
    {
        match self.gist() {
            Gist::Append { sender: of, .. } => of == sender,
            Gist::UnlinkHead { sender: of } => of == sender,
            Gist::Close { sender: of } => of == sender,
            Gist::Mark { .. } => false,
        }
    }
}
