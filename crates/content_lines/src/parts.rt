//! Writing a content: as it stands, or in parts.
ghost use Rattle.std.specs.Prelude.{◌≡◌, ◌++◌, cond};
ghost use Rattle.mt_text.specs.Refusals.{told, refused_at};
ghost use Rattle.mt_text.specs.Lent.{fitted, overwritten};

use mt_text::{Fault, put_front};

// A test and the content stand beside each other, and not an Option of it: the callers have a test.

// Writes an accepted content at the front of the buffer and answers its length. Refuses by 9 at 0
// what is not accepted and by 14 a buffer that is too short; the buffer is then as it was.
pub fn put_accepted(accepted: bool, content: &[u8], buffer: &mut [u8]) -> Result<usize, Fault>
    ensures answer { told result ≡ cond accepted (fitted content.now buffer.old) (refused_at 9 0) }
    ensures buffer { buffer.new ≡ cond accepted (overwritten content.now buffer.old) buffer.old }
{
    if !accepted {
        return Err(Fault::Content { at: 0 });
    }
    put_front(content, buffer)
}

// Writes three parts, one behind the other, at the front of the buffer and answers how many bytes
// they are; where they do not fit, refuses by 14 and leaves the buffer as it was.
pub fn put_parts(
    first: &[u8],
    second: &[u8],
    third: &[u8],
    buffer: &mut [u8],
) -> Result<usize, Fault>
    ensures answer { told result ≡ fitted (first.now ++ (second.now ++ third.now)) buffer.old }
    ensures buffer { buffer.new ≡ overwritten (first.now ++ (second.now ++ third.now)) buffer.old }
{
    let middle = first.len().saturating_add(second.len());
    let end = middle.saturating_add(third.len());
    if end > buffer.len() {
        return Err(Fault::ShortBuffer);
    }
    buffer[..first.len()].copy_from_slice(first);
    buffer[first.len()..middle].copy_from_slice(second);
    buffer[middle..end].copy_from_slice(third);
    Ok(end)
}
