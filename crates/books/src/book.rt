//! What a book is: for each account a list of entries and a room.
ghost use Rattle.std.specs.Prelude.{◌≡◌, ℕ, ◌≤◌, List, length};
ghost use Rattle.mt_text.specs.Refusals.{told};
ghost use Rattle.books.specs.declared.book.Entry.{Entry};
ghost use Rattle.books.specs.Lists.{found, has, put_answer, put_list, without, entry_at, at};

use crate::keys::Key;
use mt_text::Fault;

// A record under its key.
#[derive(Clone, Copy)]
pub struct Entry<K, R> {
    pub key: K,
    pub record: R,
}

// For each account a list of entries, the oldest first, and a room, the most entries that the list
// may have. The room is 0 past account 7. No call alters another account's list, or a room.
pub trait Book {
    type Word: Key;

    type Record: Copy;

    ghost lists: { Self → ℕ → List (Entry Self.Word Self.Record) };

    ghost rooms: { Self → ℕ → ℕ };

    // No list passes its room.
    ghost fits: { (s : Self) (a : ℕ) → length (lists s a) ≤ rooms s a };

    // Past account 7 there is no room.
    ghost ends: { (s : Self) (a : ℕ) → 8 ≤ a → rooms s a ≡ 0 };

    // The record that the account has under the key.
    fn find(&self, account: usize, key: &Self::Word) -> Option<Self::Record>
        ensures { result ≡ found Self.Word.Key.says (lists self.now account) key.now };

    // Puts the record in the place of the one under an equal key, or behind all others; refuses by
    // 17 where the key is new and the room is full.
    fn put(&mut self, account: usize, key: Self::Word, record: Self::Record) -> Result<(), Fault>
        ensures answer { told result ≡ put_answer Self.Word.Key.says (rooms self.old account) (lists self.old account) key }
        ensures lists { lists self.new ≡ at account (put_list Self.Word.Key.says (rooms self.old account) (lists self.old account) key «record») (lists self.old) }
        ensures rooms { rooms self.new ≡ rooms self.old };

    // Takes the entry under the key out, the later ones moving up; false where there is none.
    fn remove(&mut self, account: usize, key: &Self::Word) -> bool
        ensures answer { result ≡ has Self.Word.Key.says (lists self.old account) key.now }
        ensures lists { lists self.new ≡ at account (without Self.Word.Key.says (lists self.old account) key.now) (lists self.old) }
        ensures rooms { rooms self.new ≡ rooms self.old };

    // How many entries the account has.
    fn count(&self, account: usize) -> usize
        ensures { result ≡ length (lists self.now account) };

    // The account's entry at a place, counted from 0.
    fn nth(&self, account: usize, place: usize) -> Option<Entry<Self::Word, Self::Record>>
        ensures { result ≡ entry_at (lists self.now account) place };

    // The most entries that the account may have.
    fn room(&self, account: usize) -> usize
        ensures { result ≡ rooms self.now account };
}

// A lent book is a book.
impl<'b, B: Book> Book for &'b mut B {
    type Word = B::Word;

    type Record = B::Record;

    ghost lists = { λ s. B.Book.lists s.now };

    ghost rooms = { λ s. B.Book.rooms s.now };

    ghost fits = { λ s. B.Book.fits s.now };

    ghost ends = { λ s. B.Book.ends s.now };

    fn find(&self, account: usize, key: &B::Word) -> Option<B::Record> {
        (**self).find(account, key)
    }

    fn put(&mut self, account: usize, key: B::Word, record: B::Record) -> Result<(), Fault> {
        (**self).put(account, key, record)
    }

    fn remove(&mut self, account: usize, key: &B::Word) -> bool {
        (**self).remove(account, key)
    }

    fn count(&self, account: usize) -> usize {
        (**self).count(account)
    }

    fn nth(&self, account: usize, place: usize) -> Option<Entry<B::Word, B::Record>> {
        (**self).nth(account, place)
    }

    fn room(&self, account: usize) -> usize {
        (**self).room(account)
    }
}
