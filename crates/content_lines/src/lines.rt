//! Lines, n*mx: one to n lines, each of one to m bytes of x, with CR LF between them.
ghost use Rattle.std.specs.Prelude.{◌≡◌, ◌+◌, ◌*◌, ◌<◌, ◌≤◌, true, length, codes};
ghost use Rattle.std.specs.Option.{option_map};
ghost use Rattle.mt_text.specs.Classes.{among};
ghost use Rattle.mt_text.specs.Refusals.{told};
ghost use Rattle.content_lines.specs.Formats.{Lawful, answer, written};
ghost use Rattle.content_lines.specs.Lines.{is_line, line_end, first_line, next_of, goes_on, lines, lines_of, lines_format};

use crate::parts::put_accepted;
use contents::place_of;
use mt_text::{Class, Fault, all_of, byte_at};

// Whether the bytes are one line of x, no longer than the width.
pub fn is_line(width: usize, bytes: &[u8]) -> bool
    ensures { result ≡ is_line width bytes.now }
{
    bytes.len() >= 1 && bytes.len() <= width && all_of(Class::Printable, bytes)
}

// Where the first line ends: at the first CR, or with the bytes.
pub fn first_end(bytes: &[u8]) -> usize
    ensures is { result ≡ line_end bytes.now }
    ensures within { result ≤ length bytes.now }
{
    place_of(b'\r', bytes)
}

// Whether a line that begins so would begin a field or end the block.
fn is_opener(b: u8) -> bool
    ensures { result ≡ among (codes ":-") b }
{
    matches!(b, b':' | b'-')
}

// The first line, without its line end.
pub fn first_line(bytes: &[u8]) -> &[u8]
    ensures { result.now ≡ first_line bytes.now }
{
    &bytes[..first_end(bytes)]
}

// What stands behind the first line and its CR LF, if a line that may stand there begins there.
pub fn next_line(bytes: &[u8]) -> Option<&[u8]>
    ensures { option_map (λ x. x.now) result ≡ next_of bytes.now }
{
    let rest = bytes[first_end(bytes)..].strip_prefix(b"\r\n")?;
    (!is_opener(byte_at(rest, 0))).then_some(rest)
}

// The format n*mx: how many lines a content has at most, and how many bytes a line has at most.
#[derive(Clone, Copy, PartialEq, Eq, Debug)]
pub struct Lines {
    pub count: usize,
    pub width: usize,
}

impl Lines {
    // Whether the content is one to `count` lines.
    pub fn accepts(self, content: &[u8]) -> bool
        ensures { result ≡ lines self.count self.width content.now }
    {
        let mut rest = content;
        for _ in 0..self.count {
            if !is_line(self.width, first_line(rest)) {
                return false;
            }
            if first_end(rest) == rest.len() {
                return true;
            }
            let Some(next) = next_line(rest) else {
                return false;
            };
            rest = next;
        }
        false
    }

    // The content, if it is one to `count` lines.
    pub fn read(self, content: &[u8]) -> Option<&[u8]>
        ensures { option_map (λ x. x.now) result ≡ lines_of self.count self.width content.now }
    {
        self.accepts(content).then_some(content)
    }

    // Writes the content at the front of the buffer and answers its length. Refuses by 9 at 0 what
    // is not one to `count` lines and by 14 a buffer that is too short; the buffer is then as it was.
    pub fn write(self, content: &[u8], buffer: &mut [u8]) -> Result<usize, Fault>
        ensures answer { told result ≡ answer (lines_format self.count self.width) content.now buffer.old }
        ensures buffer { buffer.new ≡ written (lines_format self.count self.width) content.now buffer.old }
        ensures laws { self.count * (self.width + 2) ≤ 222 → Lawful (lines_format self.count self.width) }
    {
        put_accepted(self.accepts(content), content, buffer)
    }
}
