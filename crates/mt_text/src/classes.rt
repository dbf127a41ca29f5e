//! The classes of bytes that the formats name by one letter: n, a, c, h and x.
ghost use Rattle.std.specs.Prelude.{◌≡◌};
ghost use Rattle.mt_text.specs.Classes.{digit, capital, alphanumeric, hex, printable, letter_or_digit, every, holds};

// The classes, each with its format letter.
#[derive(Clone, Copy, PartialEq, Eq, Debug)]
pub enum Class {
    Digit, // n
    Capital, // a
    Alphanumeric, // c
    Hex, // h
    Printable, // x
    LetterOrDigit, // no format letter: item 113 of block 3
}

// n: a digit.
pub fn is_digit(b: u8) -> bool
    ensures { result ≡ digit b }
{
    matches!(b, b'0'..=b'9')
}

// a: a capital letter.
pub fn is_capital(b: u8) -> bool
    ensures { result ≡ capital b }
{
    matches!(b, b'A'..=b'Z')
}

// c: a capital letter or a digit.
pub fn is_alphanumeric(b: u8) -> bool
    ensures { result ≡ alphanumeric b }
{
    matches!(b, b'A'..=b'Z' | b'0'..=b'9')
}

// h: a hexadecimal digit, its letters capital.
pub fn is_hex(b: u8) -> bool
    ensures { result ≡ hex b }
{
    matches!(b, b'0'..=b'9' | b'A'..=b'F')
}

// x: a letter, a digit, a space or one of the ten signs.
pub fn is_printable(b: u8) -> bool
    ensures { result ≡ printable b }
{
    match b {
        b'A'..=b'Z' | b'a'..=b'z' | b'0'..=b'9' => true,
        b' ' | b'/' | b'-' | b'?' | b':' | b'(' | b')' | b'.' | b',' | b'\'' | b'+' => true,
        _ => false,
    }
}

// A letter, capital or small, or a digit.
pub fn is_letter_or_digit(b: u8) -> bool
    ensures { result ≡ letter_or_digit b }
{
    matches!(b, b'A'..=b'Z' | b'a'..=b'z' | b'0'..=b'9')
}

// A class is named by the rules and there are no others, so that a match over them says more than a
// predicate that each caller passes in and answers for.
impl Class {
    // Whether the byte belongs to the class.
    pub fn has(self, b: u8) -> bool
        ensures { result ≡ holds self b }
    {
        match self {
            Class::Digit => is_digit(b),
            Class::Capital => is_capital(b),
            Class::Alphanumeric => is_alphanumeric(b),
            Class::Hex => is_hex(b),
            Class::Printable => is_printable(b),
            Class::LetterOrDigit => is_letter_or_digit(b),
        }
    }
}

// Whether every byte belongs to the class; so of no bytes.
pub fn all_of(class: Class, bytes: &[u8]) -> bool
    ensures { result ≡ every (holds class) bytes.now }
{
    bytes.iter().all(|b| class.has(*b))
}
