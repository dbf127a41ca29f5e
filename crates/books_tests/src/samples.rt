//! Keys and records by number, so that one script serves both books.
use books::{Currency, Key, Number, Order, OrderType, Reference, State, Statement};
use contents::Date;

const DAY: Date = Date {
    year: 2026,
    month: 3,
    day: 14,
};

pub trait SampleKey: Key {
    fn sample(n: u32) -> Option<Self>;
}

pub trait SampleRecord: Copy + PartialEq {
    fn sample(n: u32) -> Self;
}

// References that share a beginning, a word or all but their length; from 10 on all sixteen bytes
// long and different in the last two.
impl SampleKey for Reference {
    fn sample(n: u32) -> Option<Reference> {
        match n {
            0 => Reference::read(b"A"),
            1 => Reference::read(b"AA"),
            2 => Reference::read(b"ABCDEFGH"),
            3 => Reference::read(b"ABCDEFGHA"),
            4 => Reference::read(b"ABCDEFGHB"),
            5 => Reference::read(b"ABCDEFGHAB"),
            6 => Reference::read(b"ABCDEFGHABCDEFGH"),
            7 => Reference::read(b"BBCDEFGHABCDEFGH"),
            8 => Reference::read(b" "),
            9 => Reference::read(b"  "),
            10..=99 => {
                let mut bytes = *b"ABCDEFGHABCDEF00";
                bytes[14] = b'0' + (n / 10) as u8;
                bytes[15] = b'0' + (n % 10) as u8;
                Reference::read(&bytes)
            }
            _ => None,
        }
    }
}

impl SampleKey for Number {
    fn sample(n: u32) -> Option<Number> {
        if n < 100 { Number::new(n + 1) } else { None }
    }
}

impl SampleRecord for Order {
    fn sample(n: u32) -> Order {
        Order {
            kind: OrderType::Customer,
            date: DAY,
            currency: Currency(b'D', b'E', b'N'),
            amount: u64::from(n),
            state: State::Sent,
        }
    }
}

impl SampleRecord for Statement {
    fn sample(n: u32) -> Statement {
        Statement {
            date: DAY,
            currency: Currency(b'E', b'U', b'R'),
            amount: 50 - i64::from(n),
        }
    }
}
