//! Balances, 60F, 62F and 64: a mark, then date, currency and amount.
ghost use Rattle.std.specs.Prelude.{◌≡◌, true, pos, ◌≢◌};
ghost use Rattle.mt_text.specs.Refusals.{told};
ghost use Rattle.content_lines.specs.Formats.{Lawful, answer, written};
ghost use Rattle.content_money.specs.Money.{is_currency};
ghost use Rattle.content_money.specs.Balances.{mark_of, balance_of, balance_format};

use crate::money::{normal_rest, read_dated};
use crate::signs::{Sign, count};
use content_lines::put_parts;
use contents::Date;
use mt_text::Fault;

// A balance of a currency on a day: credit is above zero, debit below.
#[derive(Clone, Copy, PartialEq, Eq, Debug)]
pub struct Balance {
    pub date: Date,
    pub currency: [u8; 3],
    pub hundredths: i64,
}

// How the mark of a balance counts.
fn sign_of(mark: u8) -> Option<Sign>
    ensures { result ≡ mark_of mark }
{
    match mark {
        b'C' => Some(Sign::Plus),
        b'D' => Some(Sign::Minus),
        _ => None,
    }
}

// The balance that the content tells, if it is one of the currency.
pub fn read_balance(currency: [u8; 3], content: &[u8]) -> Option<Balance>
    ensures { result ≡ balance_of currency content.now }
{
    let (mark, dated) = content.split_first()?;
    let sign = sign_of(*mark)?;
    let money = read_dated(currency, dated)?;
    let hundredths = count(sign, money.hundredths);
    Some(Balance {
        date: money.date,
        currency,
        hundredths,
    })
}

// The mark as it is, or C where the balance is zero.
fn normal_mark(mark: u8, hundredths: i64) -> u8
    ensures zero { hundredths ≡ pos 0 → result ≡ 67 }
    ensures other { (hundredths ≢ pos 0) → result ≡ mark }
{
    if hundredths == 0 { b'C' } else { mark }
}

// Writes the normal content at the front of the buffer and answers its length. Refuses by 9 at 0
// what is no balance of the currency and by 14 a buffer that is too short; the buffer is then as it was.
pub fn write_balance(currency: [u8; 3], content: &[u8], buffer: &mut [u8]) -> Result<usize, Fault>
    ensures answer { told result ≡ answer (balance_format currency) content.now buffer.old }
    ensures buffer { buffer.new ≡ written (balance_format currency) content.now buffer.old }
    ensures laws { is_currency currency ≡ true → Lawful (balance_format currency) }
{
    let balance = read_balance(currency, content).ok_or(Fault::Content { at: 0 })?;
    let dated = &content[1..];
    let amount = normal_rest(dated).ok_or(Fault::Content { at: 0 })?;
    let mark = normal_mark(content[0], balance.hundredths);
    put_parts(&[mark], &dated[..9], amount, buffer)
}
