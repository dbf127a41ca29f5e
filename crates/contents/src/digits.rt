//! Decimal digits as numbers, and where a byte stands.
ghost use Rattle.std.specs.Prelude.{◌≡◌, ◌+◌, ◌^◌, ◌<◌};
ghost use Rattle.contents.specs.Digits.{pair, number_of, place};

use mt_text::{is_digit, rest};

// The two digits at a place as a number; none where one of them is no digit or past the end.
pub(crate) fn pair_at(text: &[u8], at: usize) -> Option<u8>
    ensures { result ≡ pair at text.now }
{
    match rest(text, at) {
        [tens @ b'0'..=b'9', units @ b'0'..=b'9', ..] => {
            Some((*tens - b'0') * 10 + (*units - b'0'))
        }
        _ => None,
    }
}

// The number that up to nineteen digits write; none where there are more, or another byte.
pub fn read_number(digits: &[u8]) -> Option<u64>
    ensures { result ≡ number_of digits.now }
{
    if digits.len() > 19 {
        return None;
    }
    let mut number: u64 = 0;
    for b in digits {
        if !is_digit(*b) {
            return None;
        }
        number = number * 10 + u64::from(*b - b'0');
    }
    Some(number)
}

// Where the byte first stands, or the text's length: a line, digits and the like end there in either
// case, so that the place is an answer and none is missing.
pub fn place_of(b: u8, text: &[u8]) -> usize
    ensures { result ≡ place b text.now }
{
    text.iter().position(|c| *c == b).unwrap_or(text.len())
}
