//! The escaped form of a byte.
ghost use Rattle.std.specs.Prelude.{◌≡◌};
ghost use Rattle.layouts.specs.Escapes.{hex_value, stepped};

// How far an escape has come.
#[derive(Clone, Copy, PartialEq, Eq, Debug)]
pub enum Escape {
    // outside any escape
    Out,
    // behind a backslash
    Begun,
    // behind `\x`
    Hex,
    // behind `\x` and a digit that is worth so much
    Half { high: u8 },
    // no byte is written so
    Broken,
}

// What a hexadecimal digit is worth.
fn hex_value(b: u8) -> Option<u8>
    ensures { result ≡ hex_value b }
{
    match b {
        b'0'..=b'9' => Some(b - b'0'),
        b'A'..=b'F' => Some(b - b'A' + 10),
        b'a'..=b'f' => Some(b - b'a' + 10),
        _ => None,
    }
}

impl Escape {
    // One byte more: how far the escape has come, and the byte that is written so, once it is whole.
    pub fn step(self, b: u8) -> (Escape, Option<u8>)
        ensures { result ≡ stepped self b }
    {
        match (self, b) {
            (Escape::Out, b'\\') => (Escape::Begun, None),
            (Escape::Out, _) => (Escape::Out, Some(b)),
            (Escape::Begun, b'r') => (Escape::Out, Some(b'\r')),
            (Escape::Begun, b'n') => (Escape::Out, Some(b'\n')),
            (Escape::Begun, b'\\') => (Escape::Out, Some(b'\\')),
            (Escape::Begun, b'x') => (Escape::Hex, None),
            (Escape::Hex, _) => match hex_value(b) {
                Some(high) => (Escape::Half { high }, None),
                None => (Escape::Broken, None),
            },
            (Escape::Half { high }, _) => match hex_value(b) {
                Some(low) => (Escape::Out, Some(high.wrapping_mul(16).wrapping_add(low))),
                None => (Escape::Broken, None),
            },
            _ => (Escape::Broken, None),
        }
    }
}
