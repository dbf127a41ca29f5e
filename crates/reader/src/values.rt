//! What contents tell a visit.
ghost use Rattle.std.specs.Prelude.{◌≡◌, ◌+ℤ◌, FitsSigned};
ghost use Rattle.std.specs.Int.{w64};
ghost use Rattle.reader.specs.Values.{untold, told_by, joined};

use content_answer::AnswerCode;
use content_money::{Balance, Money};

// The values that a content tells, or the fields of a text together.
#[derive(Clone, Copy)]
pub struct Values<'a> {
    pub reference: Option<&'a [u8]>,
    pub related: Option<&'a [u8]>,
    pub account: Option<&'a [u8]>,
    pub money: Option<Money>,
    pub number: Option<u32>,
    pub opening: Option<Balance>,
    // the signed lines, summed up
    pub lines: i64,
    pub closing: Option<Balance>,
    pub answer: Option<AnswerCode>,
}

// Nothing is told.
pub(crate) const UNTOLD: Values<'static> = Values {
    reference: None,
    related: None,
    account: None,
    money: None,
    number: None,
    opening: None,
    lines: 0,
    closing: None,
    answer: None,
};

impl<'a> Values<'a> {
    // The values of a content that tells nothing.
    pub fn none() -> Values<'a>
        ensures { told_by result ≡ untold }
    {
        UNTOLD
    }

    // These values, and behind them those of the next field: of each sort the first that is told
    // counts, but every signed line.
    pub(crate) fn then(self, next: Values<'a>) -> Values<'a>
        requires { FitsSigned w64 (self.lines +ℤ next.lines) }
        ensures { told_by result ≡ joined (told_by self.entry) (told_by next.entry) }
    {
        Values {
            reference: self.reference.or(next.reference),
            related: self.related.or(next.related),
            account: self.account.or(next.account),
            money: self.money.or(next.money),
            number: self.number.or(next.number),
            opening: self.opening.or(next.opening),
            lines: self.lines + next.lines,
            closing: self.closing.or(next.closing),
            answer: self.answer.or(next.answer),
        }
    }
}
