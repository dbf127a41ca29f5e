//! Parts of a text, cut down to what is there.
ghost use Rattle.std.specs.Prelude.{◌≡◌, take, drop};

// Text and offset stay two parameters here and above: offsets are what the calls answer, and a struct
// of both would be made anew for each call.

// Up to so many bytes from an offset on.
pub fn part(text: &[u8], at: usize, len: usize) -> &[u8]
    ensures { result.now ≡ take len (drop at text.now) }
{
    let rest = rest(text, at);
    &rest[..len.min(rest.len())]
}

// All bytes from an offset on.
pub fn rest(text: &[u8], at: usize) -> &[u8]
    ensures { result.now ≡ drop at text.now }
{
    &text[at.min(text.len())..]
}
