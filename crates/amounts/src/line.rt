//! A line of the input, of which only the front is kept.
ghost use Rattle.std.specs.Prelude.{◌≡◌, ℕ, List, [], ◌∷◌, ◌++◌, take};
ghost use Rattle.contents.specs.Amounts.{amount_of};

use contents::read_amount;
use fronts::Front;

// One byte more than an amount has: enough to tell that a line is too long for one.
pub const KEPT: usize = 16;

// One byte more of the line; past the sixteenth it is let go.
pub fn keep(line: &mut Front<KEPT>, b: u8)
    ensures { line.new ≡ take 16 (line.old ++ b ∷ []) }
{
    line.push(b);
}

// What the whole line is worth as an amount, though only its front is kept.
pub fn amount(front: &Front<KEPT>) -> Option<u64>
    ensures { (line : List ℕ) → front.now ≡ take 16 line → result ≡ amount_of line }
{
    read_amount(front.as_slice())
}
