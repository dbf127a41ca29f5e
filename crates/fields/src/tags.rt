//! Tags: two digits and perhaps a capital, between colons.
ghost use Rattle.std.specs.Prelude.{◌≡◌};
ghost use Rattle.fields.specs.Tags.{tag_at, width};

// The tag of a field, by its characters.
#[derive(Clone, Copy, PartialEq, Eq, Debug)]
pub struct Tag {
    pub tens: u8,
    pub units: u8,
    pub letter: Option<u8>,
}

impl Tag {
    // How many bytes the tag takes with its two colons.
    pub fn width(self) -> usize
        ensures { result ≡ width self }
    {
        match self.letter {
            None => 4,
            Some(_) => 5,
        }
    }
}

// The tag with its colons that a line begins with.
pub(crate) fn tag_at(line: &[u8]) -> Option<Tag>
    ensures { result ≡ tag_at line.now }
{
    let [b':', tens @ b'0'..=b'9', units @ b'0'..=b'9', after @ ..] = line else {
        return None;
    };
    let letter = match after {
        [b':', ..] => None,
        [letter @ b'A'..=b'Z', b':', ..] => Some(*letter),
        _ => return None,
    };
    Some(Tag {
        tens: *tens,
        units: *units,
        letter,
    })
}
