//! What the fields of a text tell together.
ghost use Rattle.std.specs.Prelude.{◌≡◌, ◌+ℤ◌, is_some, Some, FitsSigned, unwrap_or};
ghost use Rattle.std.specs.Int.{w64};
ghost use Rattle.std.proofs.Props.{props};
ghost use Rattle.mt_text.specs.Refusals.{told};
ghost use Rattle.reader.specs.Values.{told_by};
ghost use Rattle.reader.specs.Texts.{balanced, settled};
ghost use Rattle.reader.specs.Sums.{AddsUp};

use crate::values::Values;
use content_money::Balance;
use mt_text::Fault;

// The type of a statement.
const STATEMENT: u16 = 950;

// What the fields tell, and where the first of them stands that tells a closing.
#[derive(Clone, Copy)]
pub(crate) struct Gathered<'a> {
    pub values: Values<'a>,
    pub closing_at: Option<usize>,
    ghost adds: { AddsUp (told_by values) } by { Prim.hlevel props },
    ghost closes: { is_some closing_at ≡ is_some values.closing },
}

// Whether the opening and every signed line make up the closing, in one currency.
fn is_balanced(opening: Balance, lines: i64, closing: Balance) -> bool
    requires { FitsSigned w64 (opening.hundredths +ℤ lines) }
    ensures { result ≡ balanced (Some opening) lines (Some closing) }
{
    opening.hundredths + lines == closing.hundredths && opening.currency == closing.currency
}

impl<'a> Gathered<'a> {
    // Refuses a statement, 950, by 10 at the closing's field where it is not balanced.
    pub(crate) fn check_balance(self, message_type: u16) -> Result<(), Fault>
        ensures { told result ≡ settled message_type (told_by self.entry.values) (unwrap_or self.entry.closing_at 0) }
    {
        if message_type != STATEMENT {
            return Ok(());
        }
        let Values {
            opening,
            lines,
            closing,
            ..
        } = self.values;
        let (Some(opening), Some(closing), Some(at)) = (opening, closing, self.closing_at) else {
            return Ok(());
        };
        if is_balanced(opening, lines, closing) {
            Ok(())
        } else {
            Err(Fault::Balance { at })
        }
    }
}
