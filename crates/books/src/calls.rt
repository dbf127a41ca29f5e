//! Any run of calls on any book, and what it leaves.
ghost use Rattle.std.specs.Prelude.{◌≡◌, []};
ghost use Rattle.books.specs.Calls.{left, left_by, AllApart};

use crate::book::Book;
use crate::keys::Key;

// A call that may alter a book; the others leave it as it is. An enum and no closure, since the law
// speaks of every list of calls.
#[derive(Clone, Copy)]
pub enum Call<K, R> {
    Put { account: usize, key: K, record: R },
    Remove { account: usize, key: K },
}

// Makes the call. What it answers is let go.
fn make<K: Key, R: Copy, B: Book<Word = K, Record = R>>(book: &mut B, call: Call<K, R>)
    ensures lists { B.Book.lists book.new ≡ left K.Key.says (B.Book.rooms book.old) call (B.Book.lists book.old) }
    ensures rooms { B.Book.rooms book.new ≡ B.Book.rooms book.old }
{
    match call {
        Call::Put {
            account,
            key,
            record,
        } => {
            let _ = book.put(account, key, record);
        }
        Call::Remove { account, key } => {
            let _ = book.remove(account, &key);
        }
    }
}

// Makes the calls one after the other. Accounts whose entries have different keys keep that; so
// whatever the calls, the entries of a book that was empty before have different keys.
pub fn replay<K: Key, R: Copy, B: Book<Word = K, Record = R>>(book: &mut B, calls: &[Call<K, R>])
    ensures lists { B.Book.lists book.new ≡ left_by K.Key.says (B.Book.rooms book.old) calls.now (B.Book.lists book.old) }
    ensures rooms { B.Book.rooms book.new ≡ B.Book.rooms book.old }
    ensures apart { AllApart K.Key.says (B.Book.lists book.old) → AllApart K.Key.says (B.Book.lists book.new) }
    ensures fresh { B.Book.lists book.old ≡ (λ _. []) → AllApart K.Key.says (B.Book.lists book.new) }
{
    for call in calls {
        make(book, *call);
    }
}
