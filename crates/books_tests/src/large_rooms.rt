//! Room 64: filled, thinned and filled again, for every account.
use crate::samples::{SampleKey, SampleRecord};
use crate::script::{Step, cell, expect};
use books::{Book, Entry, Number, Order, Reference, Shares, Statement};
use std::test::Fail;

// Keys 0 to 63 come in, in this order; key 64 is one too many.
fn fill<K: SampleKey, R: SampleRecord, B: Book<Word = K, Record = R>>(
    book: &mut B,
    account: usize,
) -> Result<(), Fail> {
    expect(book, Step::Room(account, 64))?;
    for n in 0..64 {
        expect(book, Step::Count(account, n as usize))?;
        expect(book, Step::Lacks(account, n))?;
        expect(book, Step::Put(account, n, n + 1))?;
    }
    expect(book, Step::Full(account, 64, 0))?;
    expect(book, Step::Put(account, 63, 9))?;
    expect(book, Step::Put(account, 0, 8))?;
    expect(book, Step::Nth(account, 0, 0, 8))?;
    expect(book, Step::Nth(account, 63, 63, 9))?;
    expect(book, Step::Past(account, 64))?;
    expect(book, Step::Count(account, 64))
}

// The even keys go; the odd ones move together.
fn thin<K: SampleKey, R: SampleRecord, B: Book<Word = K, Record = R>>(
    book: &mut B,
    account: usize,
) -> Result<(), Fail> {
    for n in 0..32 {
        expect(book, Step::Remove(account, 2 * n))?;
        expect(book, Step::Absent(account, 2 * n))?;
    }
    expect(book, Step::Count(account, 32))?;
    for n in 0..31 {
        expect(book, Step::Nth(account, n as usize, 2 * n + 1, 2 * n + 2))?;
        expect(book, Step::Find(account, 2 * n + 1, 2 * n + 2))?;
    }
    expect(book, Step::Nth(account, 31, 63, 9))?;
    expect(book, Step::Past(account, 32))
}

// Keys 64 to 95 come in behind the odd ones.
fn refill<K: SampleKey, R: SampleRecord, B: Book<Word = K, Record = R>>(
    book: &mut B,
    account: usize,
) -> Result<(), Fail> {
    for n in 64..96 {
        expect(book, Step::Put(account, n, n))?;
    }
    expect(book, Step::Full(account, 0, 1))?;
    for n in 64..96 {
        expect(book, Step::Nth(account, (n - 32) as usize, n, n))?;
    }
    expect(book, Step::Nth(account, 0, 1, 2))?;
    expect(book, Step::Count(account, 64))
}

fn through<K: SampleKey, R: SampleRecord>(cells: &mut [Entry<K, R>]) -> Result<(), Fail> {
    let mut book = Shares::over(cells);
    for account in 0..8 {
        fill(&mut book, account)?;
    }
    for account in 0..8 {
        thin(&mut book, account)?;
    }
    for account in 0..8 {
        refill(&mut book, account)?;
    }
    expect(&mut book, Step::Room(8, 0))?;
    expect(&mut book, Step::Full(8, 0, 1))
}

#[test]
fn room_64() -> Result<(), Fail> {
    let order = cell::<Reference, Order>()?;
    let statement = cell::<Number, Statement>()?;
    through(&mut [order; 512])?;
    through(&mut [order; 519])?;
    through(&mut [statement; 512])?;
    through(&mut [statement; 1000])
}
