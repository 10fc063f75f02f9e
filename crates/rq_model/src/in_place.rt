//! Byte strings of bounded length that need no memory of their own.
ghost use Rattle.std.specs.Prelude.{◌≡◌, ◌≤◌, ◌↔◌, ◌+◌, ◌++◌, [], IfSome, IsSome, length};

use std::marker::Model;

/// Up to `N` bytes, in place. Contracts see the list of the bytes.
#[derive(Clone, Copy, PartialEq, Eq)]
pub struct InPlace<const N: usize> {
    bytes: [u8; N],
    len: usize,
}

impl<const N: usize> Model for InPlace<N> {
    ghost use Rattle.std.specs.Prelude.{◌≡◌, ◌≤◌, ◌-◌, ◌++◌, List, ℕ, length, take, replicate};

    ghost Value = { List ℕ };

    ghost view = { λ b. take b.len b.bytes };

    ghost invariant = { λ b. (b.len ≤ N) × (b.bytes ≡ take b.len b.bytes ++ replicate (N - b.len) 0)
        × (length b.bytes ≡ N) };

    ghost inverse = { λ xs. record { bytes = xs ++ replicate (N - length xs) 0; len = length xs } };
}

impl<const N: usize> InPlace<N> {
    /// A copy of the bytes; none where they are more than `N`.
    pub fn new(bytes: &[u8]) -> Option<Self>
        ensures fits { IsSome result ↔ (length bytes.now ≤ N) }
        ensures same { IfSome result (λ b. b ≡ bytes.now) }
    {
        if bytes.len() > N {
            return None;
        }
        let mut all = [0; N];
        all[..bytes.len()].copy_from_slice(bytes);
        Some(InPlace {
            bytes: all,
            len: bytes.len(),
        })
    }

    /// No byte.
    #[inline(always)]
    pub fn empty() -> Self
        ensures { result ≡ [] }
    {
        InPlace {
            bytes: [0; N],
            len: 0,
        }
    }

    /// Has the one's bytes and, behind them, the other's, in place of what stands there.
    pub fn join(&mut self, front: &[u8], rest: &[u8])
        requires { length front.now + length rest.now ≤ N }
        ensures { self.new ≡ front.now ++ rest.now }
    {
        let len = front.len() + rest.len();
        let all = &mut self.bytes[..];
        all[..front.len()].copy_from_slice(front);
        all[front.len()..len].copy_from_slice(rest);
        all[len..].fill(0);
        self.len = len;
    }

    /// The bytes.
    pub fn as_slice(&self) -> &[u8]
        ensures bytes { result.now ≡ self.now }
        ensures within { length self.now ≤ N }
    {
        &self.bytes[..self.len]
    }
}
