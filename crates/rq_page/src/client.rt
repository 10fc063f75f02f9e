//! Clients that mark a tag: of each how often it did, and its last tag, and how they stand in a slot.
ghost use Rattle.std.specs.Prelude.{◌≡◌, IfSome, Some};
ghost use Rattle.rq_page.specs.Clients.{client_front, client_bytes, client_in, new_client, IsClientSlot};
ghost use Rattle.rq_page.specs.declared.client.ClientSlot.{ClientSlot};

use crate::numbers::{u32_at, u64_at};
use byteorder::{BigEndian, ByteOrder};
use rq_bytes::Fields;
use rq_bytes::equal::are_equal;
use rq_model::record::{SLOT_BYTES, Slot};

// The bytes of a client's slot before its zeros.
const FRONT_BYTES: usize = 24;

/// What a client's slot holds: its number, how often it was marked, and the last tag.
#[derive(Clone, Copy, PartialEq, Eq)]
pub struct ClientSlot {
    /// The client's number.
    pub client: u32,
    /// How often it was marked.
    pub count: u64,
    /// The last tag, or 0.
    pub tag: u64,
}

impl ClientSlot {
    /// That of a client that marked nothing.
    pub fn new(client: u32) -> Self
        ensures { result ≡ new_client client }
    {
        ClientSlot {
            client,
            count: 0,
            tag: 0,
        }
    }

    /// The one spelling of what the slot holds.
    pub fn encode(&self) -> Slot
        ensures { result ≡ client_bytes self.now }
    {
        let mut out = [0; SLOT_BYTES];
        Fields::place(&mut out, 0, &self.front());
        out
    }

    /// What the slot with these bytes holds; none where they are no spelling of anything.
    pub fn decode(bytes: &Slot) -> Option<Self>
        ensures some { IfSome result (λ held. IsClientSlot held × (client_bytes held ≡ bytes.now)) }
        ensures only { (held : ClientSlot) → IsClientSlot held → client_bytes held ≡ bytes.now → result ≡ Some held }
    {
        let held = ClientSlot::read(bytes);
        if are_equal(&held.encode(), bytes) {
            Some(held)
        } else {
            None
        }
    }

    // The bytes before the zeros.
    #[tactic(auto, unfolding(crate::specs::Clients::client_front))]
    fn front(&self) -> [u8; FRONT_BYTES]
        ensures { result ≡ client_front self.now }
    {
        let mut out = [0; FRONT_BYTES];
        out[0] = 1;
        BigEndian::write_u32(&mut out[4..], self.client);
        BigEndian::write_u64(&mut out[8..], self.count);
        BigEndian::write_u64(&mut out[16..], self.tag);
        out
    }

    /// What stands in the fields of these bytes. Of a slot that was checked that is what it holds.
    #[tactic(auto, unfolding(crate::specs::Clients::client_in))]
    pub fn read(bytes: &Slot) -> Self
        ensures { result ≡ client_in bytes.now }
    {
        ClientSlot {
            client: u32_at(bytes, 4),
            count: u64_at(bytes, 8),
            tag: u64_at(bytes, 16),
        }
    }
}
