//! What a connection asks.
ghost use Rattle.std.specs.Prelude.{◌≡◌, ◌≤◌, length, IfOk};

use std::alloc::{AllocError, Global};
use std::marker::Model;

/// The body of a send: 0 to 499 bytes, the most that a frame has room for. Contracts see its bytes.
#[derive(Drop)]
pub struct SendBody {
    bytes: Vec<u8>,
}

impl Model for SendBody {
    ghost use Rattle.std.specs.Prelude.{List, ℕ, ◌≤◌, length};

    ghost Value = { List ℕ };

    ghost view = { λ b. b.bytes.items };

    ghost invariant = { λ b. length b.bytes.items ≤ 499 };
}

impl SendBody {
    pub(crate) fn copy_of(alloc: Global, bytes: &[u8]) -> Result<SendBody, AllocError>
        requires { length bytes.now ≤ 499 }
        ensures { IfOk result (λ b. b ≡ bytes.now) }
    {
        Ok(SendBody {
            bytes: Vec::from_slice(alloc, bytes)?,
        })
    }

    /// Its bytes.
    pub fn as_slice(&self) -> &[u8]
        ensures bytes { result.now ≡ self.now }
        ensures within { length self.now ≤ 499 }
    {
        &self.bytes
    }

    /// Its bytes, with no copy.
    pub fn into_vec(self) -> Vec<u8>
        ensures bytes { result.items ≡ self }
        ensures within { length self ≤ 499 }
    {
        self.bytes
    }
}

/// What a connection asks. A session has at most one transaction, and asks are for that one.
#[derive(Drop)]
pub enum Request {
    /// Begin a transaction.
    Begin,
    /// Send a message for this sender.
    Send {
        sender: u32,
        tag: u64,
        body: SendBody,
    },
    /// Receive a message of any sender.
    Receive,
    /// Receive a message of this sender.
    ReceiveFrom(u32),
    /// Close this sender's group.
    Close(u32),
    /// Commit the transaction.
    Commit,
    /// Undo the transaction.
    Abort,
    /// Tell how many committed messages this sender has sent, and the last one's tag.
    LastTag(u32),
    /// Mark this tag for a client.
    Mark {
        client: u32,
        tag: u64,
    },
    /// Tell how many tags are marked for this client by committed transactions, and the last one.
    ClientTag(u32),
}
