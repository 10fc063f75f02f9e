//! Messages.
use crate::in_place::InPlace;

/// The longest body, in bytes.
pub const BODY_LIMIT: usize = 216;

/// The body of a message: 0 to 216 bytes.
pub type Body = InPlace<BODY_LIMIT>;

/// A message: its sender's number, the tag that the sender gave it, and its body.
#[derive(Clone, Copy, PartialEq, Eq)]
pub struct Message {
    pub sender: u32,
    pub tag: u64,
    pub body: Body,
}
