//! The key of a statement: its number.
ghost use Rattle.std.specs.Prelude.{◌≡◌, [], ◌∷◌};
ghost use Rattle.books.specs.Numbers.{numbered};
ghost use Rattle.std.proofs.Common.{rules};

use crate::keys::Key;

// The number after which no other follows.
pub const LAST_NUMBER: u32 = 99_999;

// The number of a statement, 1 to 99,999.
#[derive(Clone, Copy, PartialEq, Eq)]
pub struct Number {
    value: u32,
}

impl Number {
    // The number of this value; none where no statement can have it.
    pub fn new(value: u32) -> Option<Number>
        ensures { result ≡ numbered value }
    {
        (1..=LAST_NUMBER)
            .contains(&value)
            .then_some(Number { value })
    }

    pub fn value(self) -> u32
        ensures { result ≡ self.value }
    {
        self.value
    }
}

// A statement number says its value.
impl Key for Number {
    ghost says = { λ n. n.value ∷ [] };

    ghost tells = { Prim.search rules };

    fn same(&self, other: &Number) -> bool {
        self == other
    }
}
