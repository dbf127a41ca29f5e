//! What a book asks of a key.
ghost use Rattle.std.specs.Prelude.{◌≡◌, ℕ, List};
ghost use Rattle.books.specs.Keys.{alike};

// A key says something, and says it alone: keys are equal exactly when they say the same.
pub trait Key: Copy {
    ghost says: { Self → List ℕ };

    // Whether the two keys say the same. A method beside a derived `==`, which alone would need a second law to
    // tie it to what a key says.
    fn same(&self, other: &Self) -> bool
        ensures { result ≡ alike (says self.now) (says other.now) };

    ghost tells: { (a b : Self) → says a ≡ says b → a ≡ b };
}
