//! References and numbers: which are made, what they give back, which are the same.
use crate::samples::{SampleKey, SampleRecord};
use crate::script::cell;
use books::{Book, Call, Key, Number, OrderType, Reference, Shares, State, Statement, replay};
use mt_text::Fault;
use std::test::Fail;

// A reference is made of the bytes, and gives them back.
fn kept(bytes: &[u8]) -> bool {
    let Some(reference) = Reference::read(bytes) else {
        return false;
    };
    let mut buffer = [b'#'; 20];
    reference.write(&mut buffer).is_ok_and(|len| len <= 19
        && &buffer[0..len] == bytes
        && buffer[len] == b'#')
}

#[test]
fn references(rt: HostRuntime) {
    assert!(rt; kept(b"A"));
    assert!(rt; kept(b"abc 0/-?:().,'+"));
    assert!(rt; kept(b"ABCDEFGH"));
    assert!(rt; kept(b"ABCDEFGHI"));
    assert!(rt; kept(b"ABCDEFGHIJKLMNOP"));
    assert!(rt; !kept(b""));
    assert!(rt; !kept(b"ABCDEFGHIJKLMNOPQ"));
    assert!(rt; !kept(b"A\n"));
    assert!(rt; !kept(b"A{"));
    assert!(rt; !kept(b"ABCDEFGHIJKLMNO\0"));
}

#[test]
fn short_buffers(rt: HostRuntime) -> Result<(), Fail> {
    let reference = Reference::read(b"ABCDEFGHIJ").ok_or("no reference")?;
    let mut short = [b'#'; 9];
    assert!(rt; matches!(reference.write(&mut short), Err(Fault::ShortBuffer)));
    assert!(rt; short == [b'#'; 9]);
    let mut exact = [b'#'; 10];
    assert!(rt; matches!(reference.write(&mut exact), Ok(10)));
    assert!(rt; exact == *b"ABCDEFGHIJ");
    Ok(())
}

// The samples 0 to 20 are all different.
fn all_differ<K: SampleKey>() -> bool {
    for i in 0..21 {
        for j in 0..21 {
            let (Some(a), Some(b)) = (K::sample(i), K::sample(j)) else {
                return false;
            };
            if a.same(&b) != (i == j) {
                return false;
            }
        }
    }
    true
}

#[test]
fn samples_differ(rt: HostRuntime) {
    assert!(rt; all_differ::<Reference>());
    assert!(rt; all_differ::<Number>());
}

fn number_is(value: u32) -> bool {
    Number::new(value).is_some_and(|number| number.value() == value)
}

#[test]
fn numbers(rt: HostRuntime) {
    assert!(rt; !number_is(0));
    assert!(rt; number_is(1));
    assert!(rt; number_is(99_999));
    assert!(rt; !number_is(100_000));
}

#[test]
fn numbers_of_states(rt: HostRuntime) {
    assert!(rt; State::Sent.number() == 1);
    assert!(rt; State::RecallAsked.number() == 2);
    assert!(rt; State::ReportedSettled.number() == 3);
    assert!(rt; State::Confirmed.number() == 4);
    assert!(rt; State::Ended.number() == 5);
    assert!(rt; OrderType::Customer.number() == 103);
    assert!(rt; OrderType::Bank.number() == 202);
}

#[test]
fn replayed(rt: HostRuntime) -> Result<(), Fail> {
    let entry = cell::<Number, Statement>()?;
    let other = Number::new(7).ok_or("no number")?;
    let mut cells = [entry; 16];
    let mut book = Shares::over(&mut cells);
    let record = entry.record;
    replay(
        &mut book,
        &[
            Call::Put {
                account: 5,
                key: entry.key,
                record,
            },
            Call::Put {
                account: 5,
                key: other,
                record,
            },
            Call::Put {
                account: 5,
                key: other,
                record,
            },
            Call::Remove {
                account: 5,
                key: entry.key,
            },
        ],
    );
    assert!(rt; book.count(5) == 1);
    match book.nth(5, 0) {
        Some(left) => {
            assert!(rt; left.key.same(&other));
            Ok(())
        }
        None => Err(Fail::new("no entry is left")),
    }
}
