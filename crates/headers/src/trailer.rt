//! Block 5, the trailer: a checksum, of which only the form is looked at.
ghost use Rattle.std.specs.Prelude.{◌≡◌};
ghost use Rattle.headers.specs.Trailer.{is_trailer};

use mt_text::{Class, all_of};

// How many bytes block 5 has.
pub const TRAILER_WIDTH: usize = 22;

// Whether the bytes are a whole block 5.
pub fn is_trailer(block: &[u8]) -> bool
    ensures { result ≡ is_trailer block.now }
{
    if block.len() != TRAILER_WIDTH || !block.starts_with(b"{5:{CHK:") {
        return false;
    }
    if !all_of(Class::Hex, &block[8..20]) {
        return false;
    }
    block[20] == b'}' && block[21] == b'}'
}
