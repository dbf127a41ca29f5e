//! A text of the input, of which only the front is kept.
ghost use Rattle.std.specs.Prelude.{◌≡◌, ℕ, List, [], ◌∷◌, ◌++◌, take};
ghost use Rattle.mt_text.specs.Refusals.{told};
ghost use Rattle.layout.specs.Walk.{laid_out};

use fronts::Front;
use layout::{Layout, lay_out};
use mt_text::Fault;

// One byte more than a text may have: enough to tell that it is too long.
pub const KEPT: usize = 10_001;

// One byte more of the text; past the 10,001st it is let go.
pub fn keep(text: &mut Front<KEPT>, b: u8)
    ensures { text.new ≡ take 10001 (text.old ++ b ∷ []) }
{
    text.push(b);
}

// How the whole text is laid out, though only its front is kept.
pub fn whole_layout(front: &Front<KEPT>) -> Result<Layout, Fault>
    ensures { (text : List ℕ) → front.now ≡ take 10001 text → told result ≡ laid_out text }
{
    lay_out(front.as_slice())
}
