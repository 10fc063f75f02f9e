//! Addresses of slots.
ghost use Rattle.std.specs.Prelude.{◌≡◌, ◌↔◌, ◌≤◌, ◌/◌, ◌%◌, IsTrue};
ghost use Rattle.rq_page.specs.Sizes.{address};

use std::marker::Model;

/// The address of a slot, `page * 16 + slot`, or of none. Contracts see the number.
///
/// A slot's number is 1 to 15. The address 0 is none; any number may come out of bytes.
#[derive(Clone, Copy, PartialEq, Eq, PartialOrd, Ord)]
pub struct Addr {
    number: u64,
}

impl Model for Addr {
    ghost use Rattle.std.specs.Prelude.{ℕ};

    ghost Value = { ℕ };

    ghost view = { λ a. a.number };

    ghost inverse = { λ n. record { number = n } };
}

impl Addr {
    /// The address of no slot.
    pub const NONE: Addr = Addr { number: 0 };

    /// The address of a slot of a page, by the slot's number from 1 to 15.
    pub fn new(page: u32, slot: u8) -> Self
        requires low { 1 ≤ slot }
        requires high { slot ≤ 15 }
        ensures { result ≡ address page slot }
    {
        Addr {
            number: page as u64 * 16 + slot as u64,
        }
    }

    /// The address with this number.
    pub fn from_number(number: u64) -> Self
        ensures { result ≡ number }
    {
        Addr { number }
    }

    /// The address's number.
    pub fn number(self) -> u64
        ensures { result ≡ self }
    {
        self.number
    }

    /// The number of the slot's page.
    pub fn page(self) -> u64
        ensures { result ≡ self / 16 }
    {
        self.number / 16
    }

    /// The slot's number in its page. It is 0 for an address that names no slot.
    pub fn slot(self) -> u8
        ensures { result ≡ self % 16 }
    {
        (self.number % 16) as u8
    }

    /// Whether the address is that of no slot.
    pub fn is_none(self) -> bool
        ensures { IsTrue result ↔ (self ≡ 0) }
    {
        self.number == 0
    }
}
