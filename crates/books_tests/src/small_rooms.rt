//! Rooms 0, 1 and 2, over slices that divide by eight and slices that do not.
use crate::samples::{SampleKey, SampleRecord};
use crate::script::Step::*;
use crate::script::{Step, cell, play};
use books::{Entry, Number, Order, Reference, Shares, Statement};
use std::test::Fail;

const NO_ROOM: [Step; 12] = [
    Room(0, 0),
    Room(7, 0),
    Room(8, 0),
    Full(0, 0, 1),
    Full(7, 1, 1),
    Full(8, 0, 1),
    Count(0, 0),
    Past(0, 0),
    Lacks(0, 0),
    Absent(0, 0),
    Lacks(7, 1),
    Count(8, 0),
];

// The cells hold key 0 from the start: nobody may see it.
const ONE_EACH: [Step; 66] = [
    Room(0, 1),
    Room(7, 1),
    Room(8, 0),
    Count(0, 0),
    Lacks(0, 0),
    Past(0, 0),
    Absent(0, 0),
    // one entry, of one account
    Put(0, 0, 1),
    Count(0, 1),
    Find(0, 0, 1),
    Nth(0, 0, 0, 1),
    Past(0, 1),
    Count(1, 0),
    Lacks(1, 0),
    Count(7, 0),
    // a new key is refused, and alters nothing
    Full(0, 1, 2),
    Count(0, 1),
    Lacks(0, 1),
    Find(0, 0, 1),
    // the same key is replaced, though the room is full
    Put(0, 0, 3),
    Find(0, 0, 3),
    Count(0, 1),
    Past(0, 1),
    // the last account
    Put(7, 1, 4),
    Find(7, 1, 4),
    Lacks(0, 1),
    Lacks(6, 1),
    Count(7, 1),
    Full(7, 0, 5),
    // absent, then removed, then absent
    Absent(0, 1),
    Count(0, 1),
    Remove(0, 0),
    Count(0, 0),
    Lacks(0, 0),
    Absent(0, 0),
    Past(0, 0),
    Find(7, 1, 4),
    // the room is free again
    Put(0, 1, 6),
    Nth(0, 0, 1, 6),
    Full(0, 0, 7),
    // past account 7
    Full(8, 0, 1),
    Lacks(8, 0),
    Count(8, 0),
    Past(8, 0),
    Absent(8, 1),
    Lacks(9, 1),
    Full(1000, 2, 1),
    // the accounts between, all with one key
    Put(1, 2, 10),
    Put(2, 2, 11),
    Put(3, 2, 12),
    Put(4, 2, 13),
    Put(5, 2, 14),
    Put(6, 2, 15),
    Remove(3, 2),
    Find(0, 1, 6),
    Find(1, 2, 10),
    Find(2, 2, 11),
    Lacks(3, 2),
    Count(3, 0),
    Find(4, 2, 13),
    Find(5, 2, 14),
    Find(6, 2, 15),
    Find(7, 1, 4),
    Count(0, 1),
    Count(6, 1),
    Count(8, 0),
];

const TWO_EACH: [Step; 67] = [
    Room(3, 2),
    Put(3, 2, 1),
    Put(3, 3, 2),
    Full(3, 4, 3),
    Count(3, 2),
    Nth(3, 0, 2, 1),
    Nth(3, 1, 3, 2),
    Past(3, 2),
    // replaced in its place
    Put(3, 2, 4),
    Nth(3, 0, 2, 4),
    Nth(3, 1, 3, 2),
    Count(3, 2),
    // the first removed: the second moves up
    Remove(3, 2),
    Count(3, 1),
    Nth(3, 0, 3, 2),
    Past(3, 1),
    Lacks(3, 2),
    Find(3, 3, 2),
    Put(3, 4, 5),
    Nth(3, 0, 3, 2),
    Nth(3, 1, 4, 5),
    Full(3, 2, 6),
    // the last removed: the first stays
    Remove(3, 4),
    Nth(3, 0, 3, 2),
    Past(3, 1),
    // a key that was removed comes in at the end
    Put(3, 2, 7),
    Nth(3, 0, 3, 2),
    Nth(3, 1, 2, 7),
    // the neighbours on both sides
    Count(2, 0),
    Count(4, 0),
    Put(2, 3, 8),
    Put(2, 5, 9),
    Put(4, 6, 10),
    Put(4, 7, 11),
    Remove(2, 3),
    Nth(2, 0, 5, 9),
    Nth(3, 0, 3, 2),
    Nth(3, 1, 2, 7),
    Nth(4, 0, 6, 10),
    Nth(4, 1, 7, 11),
    Remove(4, 6),
    Nth(4, 0, 7, 11),
    Count(2, 1),
    Count(3, 2),
    Count(4, 1),
    Lacks(4, 6),
    Lacks(2, 7),
    Full(3, 0, 1),
    Put(4, 6, 12),
    Nth(4, 0, 7, 11),
    Nth(4, 1, 6, 12),
    Full(4, 5, 1),
    // one key in two accounts
    Put(0, 3, 20),
    Find(0, 3, 20),
    Find(3, 3, 2),
    Remove(0, 3),
    Find(3, 3, 2),
    Absent(0, 3),
    Full(3, 0, 1),
    // the last account, and past it
    Put(7, 8, 30),
    Put(7, 9, 31),
    Nth(7, 0, 8, 30),
    Nth(7, 1, 9, 31),
    Full(8, 8, 1),
    Lacks(8, 8),
    Absent(8, 8),
    Room(7, 2),
];

fn no_room<K: SampleKey, R: SampleRecord>(cells: &mut [Entry<K, R>]) -> Result<(), Fail> {
    play(&mut Shares::over(cells), &NO_ROOM)
}

fn one_each<K: SampleKey, R: SampleRecord>(cells: &mut [Entry<K, R>]) -> Result<(), Fail> {
    play(&mut Shares::over(cells), &ONE_EACH)
}

fn two_each<K: SampleKey, R: SampleRecord>(cells: &mut [Entry<K, R>]) -> Result<(), Fail> {
    play(&mut Shares::over(cells), &TWO_EACH)
}

#[test]
fn room_0() -> Result<(), Fail> {
    let order = cell::<Reference, Order>()?;
    let statement = cell::<Number, Statement>()?;
    no_room(&mut [order; 0])?;
    no_room(&mut [order; 7])?;
    no_room(&mut [statement; 1])?;
    no_room(&mut [statement; 7])
}

#[test]
fn room_1() -> Result<(), Fail> {
    let order = cell::<Reference, Order>()?;
    let statement = cell::<Number, Statement>()?;
    one_each(&mut [order; 8])?;
    one_each(&mut [order; 15])?;
    one_each(&mut [statement; 8])?;
    one_each(&mut [statement; 13])
}

#[test]
fn room_2() -> Result<(), Fail> {
    let order = cell::<Reference, Order>()?;
    let statement = cell::<Number, Statement>()?;
    two_each(&mut [order; 16])?;
    two_each(&mut [order; 23])?;
    two_each(&mut [statement; 16])?;
    two_each(&mut [statement; 17])
}
