//! Amounts with a sign.
ghost use Rattle.std.specs.Prelude.{◌≡◌, ◌^◌, ◌<◌};
ghost use Rattle.content_money.specs.Signs.{signed, signed_of};

use contents::read_amount;

// How an amount counts.
#[derive(Clone, Copy, PartialEq, Eq, Debug)]
pub enum Sign {
    Plus,
    Minus,
}

// So many hundredths, counted by a sign.
pub(crate) fn count(sign: Sign, hundredths: u64) -> i64
    requires { hundredths < 10 ^ 16 }
    ensures { result ≡ signed sign hundredths }
{
    match sign {
        Sign::Plus => hundredths as i64,
        Sign::Minus => -(hundredths as i64),
    }
}

// The amount's worth in hundredths, counted by a sign, if the text is an amount.
pub fn read_signed(sign: Sign, text: &[u8]) -> Option<i64>
    ensures { result ≡ signed_of sign text.now }
{
    Some(count(sign, read_amount(text)?))
}
