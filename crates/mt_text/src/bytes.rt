//! The first look at a text: how long it is, and that it holds no foreign byte.
ghost use Rattle.std.specs.Prelude.{◌≡◌, slice_index};
ghost use Rattle.mt_text.specs.Classes.{carried};
ghost use Rattle.mt_text.specs.Refusals.{told};
ghost use Rattle.mt_text.specs.Bytes.{checked};

use crate::classes::is_printable;
use crate::fault::Fault;

// The most bytes that a text may have.
pub const MAX_TEXT: usize = 10_000;

// The byte at a place, or 0 past the end. No rule asks for a 0, so that whatever is asked of a byte that
// is not there is false, with no case of its own.
pub fn byte_at(text: &[u8], at: usize) -> u8
    ensures { result ≡ slice_index text.now at }
{
    text.get(at).copied().unwrap_or(0)
}

// Whether a text may hold the byte at all: x, CR, LF and the braces.
fn is_carried(b: u8) -> bool
    ensures { result ≡ carried b }
{
    is_printable(b) || matches!(b, b'\r' | b'\n' | b'{' | b'}')
}

// Refuses a text that is empty or too long (cause 1), else at its first foreign byte (cause 2).
pub fn check_bytes(text: &[u8]) -> Result<(), Fault>
    ensures { told result ≡ checked text.now }
{
    if text.is_empty() || text.len() > MAX_TEXT {
        return Err(Fault::Length { at: 0 });
    }
    // a rule of the project: the first look is a loop by index, which stops at the first foreign byte
    for i in 0..text.len() {
        if !is_carried(text[i]) {
            return Err(Fault::Byte { at: i });
        }
    }
    Ok(())
}
