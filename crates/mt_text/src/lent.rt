//! Writing at the front of a buffer that the caller lends.
ghost use Rattle.std.specs.Prelude.{◌≡◌};
ghost use Rattle.mt_text.specs.Refusals.{told};
ghost use Rattle.mt_text.specs.Lent.{fitted, overwritten};

use crate::fault::Fault;

// Fixed memory: the caller lends the buffer, so the answer is how many bytes of it were written.
// Writes the bytes at the front of the buffer and answers how many they are; where they do not
// fit, refuses by 14 and leaves the buffer as it was.
pub fn put_front(bytes: &[u8], buffer: &mut [u8]) -> Result<usize, Fault>
    ensures answer { told result ≡ fitted bytes.now buffer.old }
    ensures buffer { buffer.new ≡ overwritten bytes.now buffer.old }
{
    let len = bytes.len();
    if len > buffer.len() {
        return Err(Fault::ShortBuffer);
    }
    buffer[0..len].copy_from_slice(bytes);
    Ok(len)
}
