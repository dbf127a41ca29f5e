//! The front of what is read, where the rest need not be kept.
#![tactic(auto)]

ghost use Rattle.std.specs.Prelude.{◌≡◌, ◌==◌, ◌≤◌, [], ◌∷◌, ◌++◌, length, take};

use std::marker::Model;

/// The first `N` bytes of what was read. An array and a length, and no `ArrayVec`, which writes over
/// every byte when it is cleared.
#[derive(Drop)]
pub struct Front<const N: usize> {
    bytes: [u8; N],
    len: usize,
}

// Clauses see the bytes that are kept.
impl<const N: usize> Model for Front<N> {
    ghost use Rattle.std.specs.Prelude.{◌≡◌, ◌≤◌, ℕ, List, length, take};

    ghost Value = { List ℕ };

    ghost view = { λ front. take front.len front.bytes };

    ghost invariant = { λ front. (front.len ≤ N) × (length front.bytes ≡ N) };
}

impl<const N: usize> Front<N> {
    /// The front of nothing.
    pub fn new() -> Self
        ensures { result ≡ [] }
    {
        Front {
            bytes: [0; N],
            len: 0,
        }
    }

    /// The bytes that are kept.
    pub fn as_slice(&self) -> &[u8]
        ensures value { result.now ≡ self.now }
        ensures fits { length result.now ≤ N }
    {
        &self.bytes[..self.len]
    }

    /// Whether no byte is kept.
    pub fn is_empty(&self) -> bool
        ensures { result ≡ (length self.now == 0) }
    {
        self.len == 0
    }

    /// Lets all bytes go.
    pub fn clear(&mut self)
        ensures { self.new ≡ [] }
    {
        self.len = 0;
    }

    /// One byte more; past the `N`th it is let go.
    pub fn push(&mut self, b: u8)
        ensures { self.new ≡ take N (self.old ++ b ∷ []) }
    {
        if self.len < N {
            self.bytes[self.len] = b;
            self.len += 1;
        }
    }
}
