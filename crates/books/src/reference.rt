//! The key of an order: its reference.
ghost use Rattle.std.specs.Prelude.{◌≡◌, ◌^◌, ◌<◌, ◌≤◌, ◌++◌, length};
ghost use Rattle.mt_text.specs.Refusals.{told};
ghost use Rattle.mt_text.specs.Lent.{fitted, overwritten};
ghost use Rattle.books.specs.References.{is_reference, word_of, bytes_of, reference_of, spelled, said, says_of, if_reference};
ghost use Rattle.books.specs.KeyLaws.{tells_apart};

use crate::keys::Key;
use mt_text::{Class, Fault, all_of, put_front};

// The most bytes that a reference has.
pub const MAX_REFERENCE: usize = 16;

// A reference: 1 to 16 bytes of x, eight to a word, the first in the lowest bits. Places past the
// length hold zeros, so that equal bytes make equal words. Only `read` makes one. A rule of the
// project: two words and a length, so that an entry of a book holds no array.
#[derive(Clone, Copy, PartialEq, Eq)]
pub struct Reference {
    first: u64,
    second: u64,
    len: u8,
}

// The word that holds up to eight bytes.
fn packed(bytes: &[u8]) -> u64
    requires { length bytes.now ≤ 8 }
    ensures word { result ≡ word_of bytes.now }
    ensures below { result < 256 ^ length bytes.now }
{
    // from the last byte to the first, by index: a call for each byte of a slice pattern is many times slower
    let mut word = 0;
    for i in (0..bytes.len()).rev() {
        word = word * 256 + u64::from(bytes[i]);
    }
    word
}

fn is_reference(bytes: &[u8]) -> bool
    ensures { result ≡ is_reference bytes.now }
{
    bytes.len() >= 1 && bytes.len() <= MAX_REFERENCE && all_of(Class::Printable, bytes)
}

impl Reference {
    // The reference of these bytes; none where they are not 1 to 16 of x.
    pub fn read(bytes: &[u8]) -> Option<Reference>
        ensures value { result ≡ reference_of bytes.now }
        ensures says { said says_of result ≡ if_reference bytes.now }
        ensures gives { said spelled result ≡ if_reference bytes.now }
    {
        if !is_reference(bytes) {
            return None;
        }
        let len = bytes.len();
        let (first, second) = bytes.split_at(len.min(8));
        Some(Reference {
            first: packed(first),
            second: packed(second),
            len: len as u8,
        })
    }

    // The sixteen bytes of both words.
    fn sixteen(self) -> [u8; 16]
        ensures { result ≡ bytes_of 8 self.first ++ bytes_of 8 self.second }
    {
        let mut bytes = [0; 16];
        bytes[0..8].copy_from_slice(&self.first.to_le_bytes());
        bytes[8..16].copy_from_slice(&self.second.to_le_bytes());
        bytes
    }

    // Writes the bytes at the front of the buffer and answers how many they are; where they do not
    // fit, refuses by 14 and leaves the buffer as it was.
    pub fn write(self, buffer: &mut [u8]) -> Result<usize, Fault>
        ensures answer { told result ≡ fitted (spelled self) buffer.old }
        ensures buffer { buffer.new ≡ overwritten (spelled self) buffer.old }
    {
        let bytes = self.sixteen();
        let len = usize::from(self.len);
        put_front(&bytes[..len.min(MAX_REFERENCE)], buffer)
    }
}

// A reference says its bytes.
impl Key for Reference {
    ghost says = { says_of };

    ghost tells = { λ a b e. tells_apart a b e };

    fn same(&self, other: &Reference) -> bool {
        self == other
    }
}
