//! Amounts: digits with one comma, worth a number of hundredths.
ghost use Rattle.std.specs.Prelude.{◌≡◌, ◌-◌, ◌^◌, ◌≤◌, ◌==◌, length, take, drop, if◌then◌else◌, Some, None};
ghost use Rattle.std.specs.List.{prefix_len, suffix_len};
ghost use Rattle.std.specs.Option.{option_map};
ghost use Rattle.mt_text.specs.Refusals.{told};
ghost use Rattle.contents.specs.Amounts.{comma_fits, is_amount, comma, without_leading, without_trailing, amount_of, normal_of, normal_answer, normal_written};
ghost use Rattle.contents.specs.AmountLaws.{NormalLaws};

use crate::digits::{place_of, read_number};
use mt_text::{Class, Fault, all_of, put_front};

// The most characters that an amount has, its comma counted.
pub const MAX_AMOUNT: usize = 15;

// Whether an amount of this length may have its comma at this place.
fn is_comma_place(len: usize, at: usize) -> bool
    ensures { result ≡ comma_fits len at }
{
    len <= MAX_AMOUNT && at >= 1 && at < len && len - at <= 3
}

// Where the comma of an amount stands; none where the text is no amount.
fn comma_of(text: &[u8]) -> Option<usize>
    ensures { result ≡ (if is_amount text.now then Some (comma text.now) else None) }
{
    let comma = place_of(b',', text);
    if !is_comma_place(text.len(), comma) {
        return None;
    }
    if !all_of(Class::Digit, &text[0..comma]) {
        return None;
    }
    if !all_of(Class::Digit, &text[comma + 1..text.len()]) {
        return None;
    }
    Some(comma)
}

// What the last digit behind the comma counts, in hundredths.
fn unit_of(places: usize) -> u64
    requires { places ≤ 2 }
    ensures { result ≡ 10 ^ (2 - places) }
{
    match places {
        0 => 100,
        1 => 10,
        _ => 1,
    }
}

// The amount's worth in hundredths, if the text is an amount.
pub fn read_amount(text: &[u8]) -> Option<u64>
    ensures { result ≡ amount_of text.now }
{
    let comma = comma_of(text)?;
    let whole = read_number(&text[0..comma])?;
    let decimals = read_number(&text[comma + 1..text.len()])?;
    let unit = unit_of(text.len() - comma - 1);
    Some(whole * 100 + decimals * unit)
}

// How many zeros the digits begin with.
fn zeros_in_front(digits: &[u8]) -> usize
    ensures { result ≡ prefix_len (λ d. d == 48) digits.now }
{
    digits.iter().take_while(|d| **d == b'0').count()
}

// How many zeros the digits end with.
fn zeros_at_end(digits: &[u8]) -> usize
    ensures { result ≡ suffix_len (λ d. d == 48) digits.now }
{
    digits.iter().rev().take_while(|d| **d == b'0').count()
}

// How many zeros the digits begin with, the last digit not counted.
pub fn leading_zeros(digits: &[u8]) -> usize
    ensures within { result ≤ length digits.now }
    ensures rest { drop result digits.now ≡ without_leading digits.now }
{
    zeros_in_front(digits).min(digits.len().saturating_sub(1))
}

// How many digits are left without the zeros at the end.
fn without_zeros(digits: &[u8]) -> usize
    ensures within { result ≤ length digits.now }
    ensures rest { take result digits.now ≡ without_trailing digits.now }
{
    digits.len() - zeros_at_end(digits)
}

// The normal amount, if the text is an amount: the part of it that is no needless zero.
pub fn normal_amount(text: &[u8]) -> Option<&[u8]>
    ensures { option_map (λ x. x.now) result ≡ normal_of text.now }
{
    let comma = comma_of(text)?;
    let start = leading_zeros(&text[0..comma]);
    let end = comma + 1 + without_zeros(&text[comma + 1..text.len()]);
    Some(&text[start..end])
}

// Writes the normal amount at the front of the buffer and answers its length. Refuses by 9 at 0
// what is no amount and by 14 a buffer that is too short; the buffer is then as it was.
pub fn write_normal_amount(text: &[u8], buffer: &mut [u8]) -> Result<usize, Fault>
    ensures answer { told result ≡ normal_answer text.now buffer.old }
    ensures buffer { buffer.new ≡ normal_written text.now buffer.old }
    ensures laws { NormalLaws text.now }
{
    let normal = normal_amount(text).ok_or(Fault::Content { at: 0 })?;
    put_front(normal, buffer)
}
