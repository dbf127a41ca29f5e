//! The refusals: one enum for every call, each case with its number and, where it has one, its offset.
ghost use Rattle.std.specs.Prelude.{◌≡◌, Some};
ghost use Rattle.mt_text.specs.Refusals.{refusal_of, number_of, offset_of, printed};

use std::error::Error;
use std::fmt;

// Why a call refuses. Causes 1 to 10 are faults of the text and tell at which byte they stand;
// 11 to 15 are the caller's, 16 to 21 come from what the account has filed before.
#[derive(Clone, Copy, PartialEq, Eq, Debug)]
pub enum Fault {
    // 1: the text is empty or has over 10,000 bytes
    Length { at: usize },
    // 2: a byte that no text may hold
    Byte { at: usize },
    // 3: a block that is not as laid out, or bytes left over
    Block { at: usize },
    // 4: a type that the module does not have
    UnknownType { at: usize },
    // 5: a line of block 4 that is not as laid out
    Line { at: usize },
    // 6: more than 43 fields
    FieldCount { at: usize },
    // 7: no free row at or after the current one has the tag
    Tag { at: usize },
    // 8: a row has fewer fields than it needs
    Missing { at: usize },
    // 9: the content is not accepted
    Content { at: usize },
    // 10: opening and entries do not add up to the closing
    Balance { at: usize },
    // 11: no such account
    NoAccount,
    // 12: the call does not take such a text, or a value that it needs is absent
    WrongCall,
    // 13: the text tells another account, or none
    OtherAccount,
    // 14: the buffer is shorter than what is to be written
    ShortBuffer,
    // 15: an argument is not what the call takes
    BadArgument,
    // 16: the reference is on the book
    ReferenceTaken,
    // 17: the account's room is full
    RoomFull,
    // 18: no such order
    NoOrder,
    // 19: the order does not allow it
    OrderRefuses,
    // 20: not the number after the latest statement's
    NumberGap,
    // 21: the opening is not the latest statement's closing
    OpeningDiffers,
}

impl Fault {
    // The number of the cause, 1 to 21. `fault.number()` says which number, `u8::from(fault)` would not.
    pub fn number(self) -> u8
        ensures { result ≡ number_of (refusal_of self) }
    {
        match self {
            Fault::Length { at: _ } => 1,
            Fault::Byte { at: _ } => 2,
            Fault::Block { at: _ } => 3,
            Fault::UnknownType { at: _ } => 4,
            Fault::Line { at: _ } => 5,
            Fault::FieldCount { at: _ } => 6,
            Fault::Tag { at: _ } => 7,
            Fault::Missing { at: _ } => 8,
            Fault::Content { at: _ } => 9,
            Fault::Balance { at: _ } => 10,
            Fault::NoAccount => 11,
            Fault::WrongCall => 12,
            Fault::OtherAccount => 13,
            Fault::ShortBuffer => 14,
            Fault::BadArgument => 15,
            Fault::ReferenceTaken => 16,
            Fault::RoomFull => 17,
            Fault::NoOrder => 18,
            Fault::OrderRefuses => 19,
            Fault::NumberGap => 20,
            Fault::OpeningDiffers => 21,
        }
    }

    // The offset in the text at which the cause stands; none for causes 11 to 21.
    pub fn offset(self) -> Option<usize>
        ensures { result ≡ offset_of (refusal_of self) }
    {
        match self {
            Fault::Length { at }
            | Fault::Byte { at }
            | Fault::Block { at }
            | Fault::UnknownType { at }
            | Fault::Line { at }
            | Fault::FieldCount { at }
            | Fault::Tag { at }
            | Fault::Missing { at }
            | Fault::Content { at }
            | Fault::Balance { at } => Some(at),
            _ => None,
        }
    }
}

// As the programs print a refusal: `refused 3 at 29`, or `refused 14` where the cause has no offset.
impl fmt::Display for Fault {
    ghost output = { λ f. Some (printed (refusal_of f)) };

    fn fmt<W: fmt::Write>(&self, f: &mut fmt::Formatter<W>) -> fmt::Result {
        let number = self.number();
        match self.offset() {
            Some(at) => write!(f, "refused {number} at {at}"),
            None => write!(f, "refused {number}"),
        }
    }
}

impl Error for Fault {}
