//! Block 1, the basic header: who sends, in which session, under which sequence number.
ghost use Rattle.std.specs.Prelude.{◌≡◌};
ghost use Rattle.headers.specs.Basic.{is_address, is_sender, is_basic};

use mt_text::{Class, all_of};

// How many bytes block 1 has.
pub const BASIC_WIDTH: usize = 29;

// An address: six capitals, then six capitals or digits.
pub(crate) fn is_address(bytes: &[u8]) -> bool
    ensures { result ≡ is_address bytes.now }
{
    bytes.len() == 12
        && all_of(Class::Capital, &bytes[0..6])
        && all_of(Class::Alphanumeric, &bytes[6..12])
}

// A sender's address, session and sequence number.
pub(crate) fn is_sender(bytes: &[u8]) -> bool
    ensures { result ≡ is_sender bytes.now }
{
    if bytes.len() != 22 || !is_address(&bytes[0..12]) {
        return false;
    }
    all_of(Class::Digit, &bytes[12..16]) && all_of(Class::Digit, &bytes[16..22])
}

// Whether the bytes are a whole block 1.
pub fn is_basic_header(block: &[u8]) -> bool
    ensures { result ≡ is_basic block.now }
{
    if block.len() != BASIC_WIDTH || !block.starts_with(b"{1:F01") {
        return false;
    }
    is_sender(&block[6..28]) && block[28] == b'}'
}
