//! Money, 32A: date, currency and an amount above zero.
ghost use Rattle.std.specs.Prelude.{◌≡◌, true};
ghost use Rattle.std.specs.Option.{option_map};
ghost use Rattle.mt_text.specs.Refusals.{told};
ghost use Rattle.content_lines.specs.Formats.{Lawful, answer, written};
ghost use Rattle.content_money.specs.Money.{is_currency, dated_of, money_of, amount_part, money_format};

use content_lines::put_parts;
use contents::{Date, normal_amount, read_amount, read_date};
use mt_text::Fault;

// An amount of a currency on a day. `Balance` has the same shape and is a struct of its own: a
// definition in specs/ cannot name an alias of a generic one.
#[derive(Clone, Copy, PartialEq, Eq, Debug)]
pub struct Money {
    pub date: Date,
    pub currency: [u8; 3],
    pub hundredths: u64,
}

// Date, currency and amount, be it zero. The first two have fixed places, so that ranges cut them out
// behind one test of the length.
pub(crate) fn read_dated(currency: [u8; 3], content: &[u8]) -> Option<Money>
    ensures { result ≡ dated_of currency content.now }
{
    if content.len() < 9 {
        return None;
    }
    let date = read_date(&content[..6])?;
    if &content[6..9] != currency.as_slice() {
        return None;
    }
    let hundredths = read_amount(&content[9..])?;
    Some(Money {
        date,
        currency,
        hundredths,
    })
}

// The money that the content tells, if it is money of the currency.
pub fn read_money(currency: [u8; 3], content: &[u8]) -> Option<Money>
    ensures { result ≡ money_of currency content.now }
{
    read_dated(currency, content).filter(|money| money.hundredths > 0)
}

// The normal form of the amount behind date and currency.
pub(crate) fn normal_rest(content: &[u8]) -> Option<&[u8]>
    ensures { option_map (λ x. x.now) result ≡ amount_part content.now }
{
    normal_amount(content.get(9..)?)
}

// Writes the normal content at the front of the buffer and answers its length. Refuses by 9 at 0
// what is no money of the currency and by 14 a buffer that is too short; the buffer is then as it was.
pub fn write_money(currency: [u8; 3], content: &[u8], buffer: &mut [u8]) -> Result<usize, Fault>
    ensures answer { told result ≡ answer (money_format currency) content.now buffer.old }
    ensures buffer { buffer.new ≡ written (money_format currency) content.now buffer.old }
    ensures laws { is_currency currency ≡ true → Lawful (money_format currency) }
{
    read_money(currency, content).ok_or(Fault::Content { at: 0 })?;
    let amount = normal_rest(content).ok_or(Fault::Content { at: 0 })?;
    put_parts(&content[..9], amount, b"", buffer)
}
