//! Calls with the answers that they must get.
use crate::samples::{SampleKey, SampleRecord};
use books::{Book, Entry};
use mt_text::Fault;
use std::test::Fail;

// A call on an account, by the numbers of its key and record, with its answer. An enum and no closure,
// since a script is a list of calls.
#[derive(Clone, Copy)]
pub enum Step {
    // put (account, key, record): done
    Put(usize, u32, u32),
    // put (account, key, record): refused by 17
    Full(usize, u32, u32),
    // find (account, key): the record
    Find(usize, u32, u32),
    // find (account, key): none
    Lacks(usize, u32),
    // remove (account, key): removed
    Remove(usize, u32),
    // remove (account, key): absent
    Absent(usize, u32),
    // count (account)
    Count(usize, usize),
    // nth (account, place): the entry's key and record
    Nth(usize, usize, u32, u32),
    // nth (account, place): none
    Past(usize, usize),
    // room (account)
    Room(usize, usize),
}

fn put_answers<K: SampleKey, R: SampleRecord, B: Book<Word = K, Record = R>>(
    book: &mut B,
    account: usize,
    key: u32,
    record: u32,
    done: bool,
) -> bool {
    let Some(key) = K::sample(key) else {
        return false;
    };
    match book.put(account, key, R::sample(record)) {
        Ok(()) => done,
        Err(Fault::RoomFull) => !done,
        Err(_) => false,
    }
}

fn find_answers<K: SampleKey, R: SampleRecord, B: Book<Word = K, Record = R>>(
    book: &B,
    account: usize,
    key: u32,
) -> Option<R> {
    let key = K::sample(key)?;
    book.find(account, &key)
}

fn remove_answers<K: SampleKey, R: SampleRecord, B: Book<Word = K, Record = R>>(
    book: &mut B,
    account: usize,
    key: u32,
    removed: bool,
) -> bool {
    let Some(key) = K::sample(key) else {
        return false;
    };
    book.remove(account, &key) == removed
}

fn nth_answers<K: SampleKey, R: SampleRecord, B: Book<Word = K, Record = R>>(
    book: &B,
    account: usize,
    place: usize,
    key: u32,
    record: u32,
) -> bool {
    let Some(key) = K::sample(key) else {
        return false;
    };
    book.nth(account, place).is_some_and(|entry| entry.key.same(&key)
        && entry.record == R::sample(record))
}

// Makes the call, and says whether it answers as it must.
fn answers<K: SampleKey, R: SampleRecord, B: Book<Word = K, Record = R>>(
    book: &mut B,
    step: Step,
) -> bool {
    match step {
        Step::Put(account, key, record) => put_answers(book, account, key, record, true),
        Step::Full(account, key, record) => put_answers(book, account, key, record, false),
        Step::Find(account, key, record) => {
            find_answers(&*book, account, key) == Some(R::sample(record))
        }
        Step::Lacks(account, key) => find_answers(&*book, account, key).is_none(),
        Step::Remove(account, key) => remove_answers(book, account, key, true),
        Step::Absent(account, key) => remove_answers(book, account, key, false),
        Step::Count(account, count) => (*book).count(account) == count,
        Step::Nth(account, place, key, record) => nth_answers(&*book, account, place, key, record),
        Step::Past(account, place) => (*book).nth(account, place).is_none(),
        Step::Room(account, room) => (*book).room(account) == room,
    }
}

// Makes the call, and fails where it answers otherwise.
pub fn expect<K: SampleKey, R: SampleRecord, B: Book<Word = K, Record = R>>(
    book: &mut B,
    step: Step,
) -> Result<(), Fail> {
    if !answers(book, step) {
        return Err(Fail::new("a call answers otherwise"));
    }
    Ok(())
}

// Makes every call of the script.
pub fn play<K: SampleKey, R: SampleRecord, B: Book<Word = K, Record = R>>(
    book: &mut B,
    script: &[Step],
) -> Result<(), Fail> {
    for step in script {
        expect(book, *step)?;
    }
    Ok(())
}

// A cell to begin with; what it holds must not matter.
pub fn cell<K: SampleKey, R: SampleRecord>() -> Result<Entry<K, R>, Fail> {
    let key = K::sample(0).ok_or("no sample")?;
    Ok(Entry {
        key,
        record: R::sample(77),
    })
}
