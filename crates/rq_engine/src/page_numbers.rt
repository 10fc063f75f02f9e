//! The pages of an operation's slot writes.
ghost use Rattle.std.specs.Prelude.{◌≡◌, ◌≤◌, length};
ghost use Rattle.rq_engine.specs.Frames.{pages_of};

use rq_level::SlotWrite;
use std::marker::Model;

/// The numbers of the pages of an operation's slot writes, in order: three at most. A page may be named more than once. Contracts see
/// them as a list.
#[derive(Drop)]
pub(crate) struct PageNumbers {
    numbers: [u32; 3],
    count: usize,
}

impl Model for PageNumbers {
    ghost use Rattle.std.specs.Prelude.{◌≤◌, ℕ, List, take};

    ghost Value = { List ℕ };

    ghost view = { λ p. take p.count p.numbers };

    ghost invariant = { λ p. p.count ≤ 3 };
}

impl PageNumbers {
    /// Those of these writes.
    pub(crate) fn of(writes: &[SlotWrite]) -> Self
        requires { length writes.now ≤ 3 }
        ensures { result ≡ pages_of writes.now }
    {
        let mut numbers = [0; 3];
        for place in 0..writes.len() {
            numbers[place] = writes[place].at.page() as u32;
        }
        PageNumbers {
            numbers,
            count: writes.len(),
        }
    }

    /// The numbers.
    pub(crate) fn as_slice(&self) -> &[u32]
        ensures { result.now ≡ self.now }
    {
        &self.numbers[..self.count]
    }
}
