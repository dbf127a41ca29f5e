//! Statement numbers, 28C.
ghost use Rattle.std.specs.Prelude.{◌≡◌, ◌≤◌, length};
ghost use Rattle.contents.specs.Digits.{place};
ghost use Rattle.mt_text.specs.Refusals.{told};
ghost use Rattle.content_lines.specs.Formats.{Lawful, answer, written};
ghost use Rattle.content_money.specs.Numbers.{number_of_digits, is_page, statement_number_of, number_format};

use content_lines::put_parts;
use contents::{leading_zeros, place_of, read_number};
use mt_text::Fault;

// Where the digits end: at the first slash, or with the content.
fn digits_end(content: &[u8]) -> usize
    ensures is { result ≡ place 47 content.now }
    ensures within { result ≤ length content.now }
{
    place_of(b'/', content)
}

// Whether what stands behind the digits is nothing, or page 1.
fn is_page(rest: &[u8]) -> bool
    ensures { result ≡ is_page rest.now }
{
    rest.is_empty() || matches!(rest, b"/1")
}

// The number of one to five digits, if it is above zero.
fn read_digits(digits: &[u8]) -> Option<u32>
    ensures { result ≡ number_of_digits digits.now }
{
    if !matches!(digits.len(), 1..=5) {
        return None;
    }
    let number = read_number(digits)?;
    (number > 0).then_some(number as u32)
}

// The statement number that the content tells, 1 to 99,999, if it is one.
pub fn read_statement_number(content: &[u8]) -> Option<u32>
    ensures { result ≡ statement_number_of content.now }
{
    let end = digits_end(content);
    let number = read_digits(&content[..end])?;
    is_page(&content[end..]).then_some(number)
}

// Writes the normal content at the front of the buffer and answers its length. Refuses by 9 at 0
// what is no statement number and by 14 a buffer that is too short; the buffer is then as it was.
pub fn write_statement_number(content: &[u8], buffer: &mut [u8]) -> Result<usize, Fault>
    ensures answer { told result ≡ answer number_format content.now buffer.old }
    ensures buffer { buffer.new ≡ written number_format content.now buffer.old }
    ensures laws { Lawful number_format }
{
    read_statement_number(content).ok_or(Fault::Content { at: 0 })?;
    let end = digits_end(content);
    let start = leading_zeros(&content[..end]);
    put_parts(&content[start..end], b"/1", b"", buffer)
}
