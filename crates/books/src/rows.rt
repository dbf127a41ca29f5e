//! Searching one account's entries where they lie side by side.
ghost use Rattle.std.specs.Prelude.{◌≡◌, position};
ghost use Rattle.books.specs.Lists.{found, entry_at};
ghost use Rattle.books.specs.Keys.{alike};

use crate::book::Entry;
use crate::keys::Key;

// The place of the key in the row.
pub(crate) fn seek<K: Key, R: Copy>(row: &[Entry<K, R>], key: &K) -> Option<usize>
    ensures { result ≡ position (λ e. alike (K.Key.says e.key) (K.Key.says key.now)) row.now }
{
    row.iter().position(|entry| entry.key.same(key))
}

// The record under the key.
pub(crate) fn found_in<K: Key, R: Copy>(row: &[Entry<K, R>], key: &K) -> Option<R>
    ensures { result ≡ found K.Key.says row.now key.now }
{
    row.iter()
        .find(|entry| entry.key.same(key))
        .map(|entry| entry.record)
}

// The entry at a place.
pub(crate) fn nth_in<K: Copy, R: Copy>(row: &[Entry<K, R>], place: usize) -> Option<Entry<K, R>>
    ensures { result ≡ entry_at row.now place }
{
    row.get(place).copied()
}
