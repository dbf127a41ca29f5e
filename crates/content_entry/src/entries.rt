//! Statement entries, 61.
ghost use Rattle.std.specs.Prelude.{◌≡◌, ◌≤◌, ◌||◌, length, ◌==◌};
ghost use Rattle.mt_text.specs.Classes.{digit};
ghost use Rattle.mt_text.specs.Refusals.{told};
ghost use Rattle.content_lines.specs.Formats.{Lawful, answer, written};
ghost use Rattle.content_entry.specs.Entries.{mark_at, is_month_day, sign_of, mark_end, amount_at, front_of, run, front, amount, behind, is_above, entry_of, entry_format};

use crate::behind::is_behind;
use content_lines::put_parts;
use content_money::{Sign, read_signed};
use contents::{is_date, normal_amount, read_amount, read_month_day};
use mt_text::{Fault, byte_at, is_capital, is_digit};

// Where the mark begins: behind the date, or behind month and day.
fn mark_start(content: &[u8]) -> usize
    ensures is { result ≡ mark_at content.now }
    ensures small { result ≤ 10 }
{
    if is_digit(byte_at(content, 6)) { 10 } else { 6 }
}

// Whether month and day, where they stand, are real.
fn is_month_day(content: &[u8]) -> bool
    ensures { result ≡ is_month_day content.now }
{
    !is_digit(byte_at(content, 6))
        || (content.len() >= 10 && read_month_day(&content[6..10]).is_some())
}

// How the mark counts; where it is an R, the byte behind it decides. A rule of the project: marks are
// read as characters and matched against literals.
fn read_mark(first: u8, second: u8) -> Option<Sign>
    ensures { result ≡ sign_of first second }
{
    match (first as char, second as char) {
        ('C', _) | ('R', 'D') => Some(Sign::Plus),
        ('D', _) | ('R', 'C') => Some(Sign::Minus),
        _ => None,
    }
}

// Where the mark ends.
fn mark_stop(content: &[u8]) -> usize
    ensures is { result ≡ mark_end content.now }
    ensures small { result ≤ 12 }
{
    let start = mark_start(content);
    if byte_at(content, start) == b'R' {
        start + 2
    } else {
        start + 1
    }
}

// Where the amount begins: behind the mark and the funds code, if there is one.
fn amount_start(content: &[u8]) -> usize
    ensures { result ≡ amount_at content.now }
{
    let end = mark_stop(content);
    if is_capital(byte_at(content, end)) {
        end + 1
    } else {
        end
    }
}

// The sign that date and mark give, if they are in order.
fn read_front(content: &[u8]) -> Option<Sign>
    ensures { result ≡ front_of content.now }
{
    if content.len() < 6 || !is_date(&content[..6]) || !is_month_day(content) {
        return None;
    }
    let start = mark_start(content);
    read_mark(byte_at(content, start), byte_at(content, start + 1))
}

fn is_amount_byte(b: u8) -> bool
    ensures { result ≡ (digit b || b == 44) }
{
    is_digit(b) || b == b','
}

// How many digits and commas the bytes begin with.
fn run_of(bytes: &[u8]) -> usize
    ensures is { result ≡ run bytes.now }
    ensures within { result ≤ length bytes.now }
{
    bytes.iter().take_while(|b| is_amount_byte(**b)).count()
}

// A content in three: what stands before the amount, the amount, and what stands behind it.
#[derive(Clone, Copy)]
struct Cut<'a> {
    front: &'a [u8],
    amount: &'a [u8],
    behind: &'a [u8],
}

fn cut_at_amount(content: &[u8]) -> Cut<'_>
    ensures front { result.front.now ≡ front content.now }
    ensures amount { result.amount.now ≡ amount content.now }
    ensures behind { result.behind.now ≡ behind content.now }
{
    let start = amount_start(content).min(content.len());
    let (front, rest) = content.split_at(start);
    let size = run_of(rest);
    let (amount, behind) = rest.split_at(size);
    Cut {
        front,
        amount,
        behind,
    }
}

// Whether the text is an amount above zero.
fn is_above_zero(text: &[u8]) -> bool
    ensures { result ≡ is_above text.now }
{
    read_amount(text).is_some_and(|hundredths| hundredths > 0)
}

// The signed hundredths that the content tells, if it is a statement entry.
pub fn read_entry(content: &[u8]) -> Option<i64>
    ensures { result ≡ entry_of content.now }
{
    let sign = read_front(content)?;
    let cut = cut_at_amount(content);
    if !is_above_zero(cut.amount) || !is_behind(cut.behind) {
        return None;
    }
    read_signed(sign, cut.amount)
}

// Writes the normal content at the front of the buffer and answers its length. Refuses by 9 at 0
// what is no statement entry and by 14 a buffer that is too short; the buffer is then as it was.
pub fn write_entry(content: &[u8], buffer: &mut [u8]) -> Result<usize, Fault>
    ensures answer { told result ≡ answer entry_format content.now buffer.old }
    ensures buffer { buffer.new ≡ written entry_format content.now buffer.old }
    ensures laws { Lawful entry_format }
{
    read_entry(content).ok_or(Fault::Content { at: 0 })?;
    let cut = cut_at_amount(content);
    let amount = normal_amount(cut.amount).ok_or(Fault::Content { at: 0 })?;
    put_parts(cut.front, amount, cut.behind, buffer)
}
