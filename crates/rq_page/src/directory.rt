//! The directory: of each sender its chain's ends and counts, and how they stand in a slot.
ghost use Rattle.std.specs.Prelude.{◌≡◌, IfSome, Some};
ghost use Rattle.rq_page.specs.Directories.{directory_front, directory_bytes, directory_in, new_directory, IsDirectorySlot};
ghost use Rattle.rq_page.specs.declared.directory.DirectorySlot.{DirectorySlot};

use crate::addr::Addr;
use crate::numbers::{u32_at, u64_at};
use byteorder::{BigEndian, ByteOrder};
use rq_bytes::Fields;
use rq_bytes::equal::are_equal;
use rq_model::record::{SLOT_BYTES, Slot};

// The bytes of a directory slot before its zeros.
const FRONT_BYTES: usize = 48;

/// What the directory says of a sender's group.
#[derive(Clone, Copy, PartialEq, Eq)]
pub struct Directory {
    /// Whether the group takes no more messages.
    pub closed: bool,
    /// How many messages were sent.
    pub sent: u64,
    /// How many of them were received.
    pub received: u64,
    /// The tag of the last message that was sent, or 0.
    pub last_tag: u64,
    /// The cell of the first message that was not received, or none.
    pub head: Addr,
    /// The cell of the last message that was not received, or none.
    pub tail: Addr,
}

impl Directory {
    /// An open group to which nothing was sent.
    pub fn new() -> Self
        ensures { result ≡ new_directory }
    {
        Directory {
            closed: false,
            sent: 0,
            received: 0,
            last_tag: 0,
            head: Addr::NONE,
            tail: Addr::NONE,
        }
    }
}

/// What a directory slot holds: a sender's number, and what the directory says of its group.
#[derive(Clone, Copy, PartialEq, Eq)]
pub struct DirectorySlot {
    /// The sender's number.
    pub sender: u32,
    /// What the directory says of the sender's group.
    pub directory: Directory,
}

impl DirectorySlot {
    /// The one spelling of what the slot holds.
    pub fn encode(&self) -> Slot
        ensures { result ≡ directory_bytes self.now }
    {
        let mut out = [0; SLOT_BYTES];
        Fields::place(&mut out, 0, &self.front());
        out
    }

    /// What the slot with these bytes holds; none where they are no spelling of anything.
    pub fn decode(bytes: &Slot) -> Option<Self>
        ensures some { IfSome result (λ held. IsDirectorySlot held × (directory_bytes held ≡ bytes.now)) }
        ensures only { (held : DirectorySlot) → IsDirectorySlot held → directory_bytes held ≡ bytes.now
            → result ≡ Some held }
    {
        let held = DirectorySlot::read(bytes);
        if held.directory.received > held.directory.sent {
            return None;
        }
        if are_equal(&held.encode(), bytes) {
            Some(held)
        } else {
            None
        }
    }

    // The bytes before the zeros.
    #[tactic(auto, unfolding(crate::specs::Directories::directory_front))]
    fn front(&self) -> [u8; FRONT_BYTES]
        ensures { result ≡ directory_front self.now }
    {
        let mut out = [0; FRONT_BYTES];
        out[0] = if self.directory.closed { 2 } else { 1 };
        BigEndian::write_u32(&mut out[4..], self.sender);
        BigEndian::write_u64(&mut out[8..], self.directory.sent);
        BigEndian::write_u64(&mut out[16..], self.directory.received);
        BigEndian::write_u64(&mut out[24..], self.directory.last_tag);
        BigEndian::write_u64(&mut out[32..], self.directory.head.number());
        BigEndian::write_u64(&mut out[40..], self.directory.tail.number());
        out
    }

    /// What stands in the fields of these bytes. Of a slot that was checked that is what it holds.
    #[tactic(auto, unfolding(crate::specs::Directories::directory_in))]
    pub fn read(bytes: &Slot) -> Self
        ensures { result ≡ directory_in bytes.now }
    {
        DirectorySlot {
            sender: u32_at(bytes, 4),
            directory: Directory {
                closed: DirectorySlot::tells_closed(bytes),
                sent: u64_at(bytes, 8),
                received: u64_at(bytes, 16),
                last_tag: u64_at(bytes, 24),
                head: Addr::from_number(u64_at(bytes, 32)),
                tail: Addr::from_number(u64_at(bytes, 40)),
            },
        }
    }

    /// Whether these bytes tell a closed group. Of a slot that was checked that is what it holds.
    #[tactic(auto, unfolding(crate::specs::Directories::directory_in))]
    pub fn tells_closed(bytes: &Slot) -> bool
        ensures { result ≡ (directory_in bytes.now).directory.closed }
    {
        bytes[0] == 2
    }
}
