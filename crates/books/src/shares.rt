//! The book of equal shares: over a lent slice, each account has its own run of cells.
ghost use Rattle.std.specs.Prelude.{◌≡◌, ◌+◌, ◌*◌, ◌<◌, ◌≤◌, ◌↔◌, [], length, slice_set, IsSome, IfSome};
ghost use Rattle.books.specs.Runs.{share_of, size_of, room_of, run, run_fits, room_ends};

use crate::book::{Book, Entry};
use crate::keys::Key;
use crate::rows::{found_in, nth_in, seek};
use mt_text::Fault;

const ACCOUNTS: usize = 8;

// The most entries that an account may have, however many cells there are.
pub const MAX_ROOM: usize = 64;

// The cells, of which account a has those from a times the share on, and how many entries each
// account has there.
// fixed memory: the cells are the caller's, lent for as long as the book lives, so what is counted
// in them stands beside them
#[derive(Drop)]
pub struct Shares<'a, K, R> {
    cells: &'a mut [Entry<K, R>],
    lens: [usize; ACCOUNTS],
}

// An account's run: where it begins, how many cells it has, and how many entries stand in these.
#[derive(Clone, Copy)]
struct Run {
    from: usize,
    share: usize,
    len: usize,
}

impl<'a, K: Key, R: Copy> Shares<'a, K, R> {
    // An empty book. What the cells hold does not matter.
    pub fn over(cells: &'a mut [Entry<K, R>]) -> Shares<'a, K, R>
        ensures empty { run result.cells.now result.lens ≡ (λ _. []) }
        ensures rooms { room_of (length result.cells.now) ≡ room_of (length cells.old) }
    {
        Shares {
            cells,
            lens: [0; ACCOUNTS],
        }
    }

    // How many cells each account has.
    fn share(&self) -> usize
        ensures { result ≡ share_of (length self.now.cells.now) }
    {
        (self.cells.len() / ACCOUNTS).min(MAX_ROOM)
    }

    // The account's run; past account 7 there is none.
    fn run_of(&self, account: usize) -> Option<Run>
        ensures variant { IsSome result ↔ (account < 8) }
        ensures from { IfSome result (λ r. r.from ≡ account * share_of (length self.now.cells.now)) }
        ensures share { IfSome result (λ r. r.share ≡ share_of (length self.now.cells.now)) }
        ensures len { IfSome result (λ r. r.len ≡ size_of (length self.now.cells.now) self.now.lens account) }
        ensures within { IfSome result (λ r. r.from + r.share ≤ length self.now.cells.now) }
    {
        let len = self.lens.get(account)?;
        let share = self.share();
        Some(Run {
            from: account * share,
            share,
            len: share.min(*len),
        })
    }

    // The account's entries.
    fn row(&self, account: usize) -> &[Entry<K, R>]
        ensures { result.now ≡ run self.now.cells.now self.now.lens account }
    {
        match self.run_of(account) {
            Some(run) => &self.cells[run.from..run.from + run.len],
            None => &[],
        }
    }
}

impl<'a, K: Key, R: Copy> Book for Shares<'a, K, R> {
    type Word = K;

    type Record = R;

    ghost lists = { λ s. run s.cells.now s.lens };

    ghost rooms = { λ s. room_of (length s.cells.now) };

    ghost fits = { λ s. run_fits s.cells.now s.lens };

    ghost ends = { λ s. room_ends (length s.cells.now) };

    fn find(&self, account: usize, key: &K) -> Option<R> {
        found_in(self.row(account), key)
    }

    fn put(&mut self, account: usize, key: K, record: R) -> Result<(), Fault> {
        let Some(run) = self.run_of(account) else {
            return Err(Fault::RoomFull);
        };
        match seek(self.row(account), &key) {
            Some(place) => {
                self.cells[run.from + place] = Entry { key, record };
                Ok(())
            }
            None if run.len < run.share => {
                self.cells[run.from + run.len] = Entry { key, record };
                self.lens[account] = run.len + 1;
                Ok(())
            }
            None => Err(Fault::RoomFull),
        }
    }

    fn remove(&mut self, account: usize, key: &K) -> bool {
        let Some(run) = self.run_of(account) else {
            return false;
        };
        let Some(place) = seek(self.row(account), key) else {
            return false;
        };
        let place = run.from + place;
        self.cells.copy_within(place + 1..run.from + run.len, place);
        self.lens[account] = run.len - 1;
        true
    }

    fn count(&self, account: usize) -> usize {
        self.row(account).len()
    }

    fn nth(&self, account: usize, place: usize) -> Option<Entry<K, R>> {
        nth_in(self.row(account), place)
    }

    fn room(&self, account: usize) -> usize {
        self.run_of(account).map_or(0, |run| run.share)
    }
}
