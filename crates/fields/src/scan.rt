//! The lines of block 4, cut into fields by one walk from the left.
ghost use Rattle.std.specs.Prelude.{◌≡◌, ◌==◌, ◌||◌, ◌-◌, ◌^◌, ◌≤◌, min, length, drop, position};
ghost use Rattle.mt_text.specs.Refusals.{told};
ghost use Rattle.fields.specs.Fields.{barred, content_end, next_at, behind, body_at, sized};
ghost use Rattle.fields.specs.Written.{shown, RoundTrip, Accepted};

use crate::tags::{Tag, tag_at};
use mt_text::{Fault, part, rest};

// A field: its tag, the offset of its first colon, and where its content stands. Offsets and no part of
// the text, since a refusal tells them.
#[derive(Clone, Copy, PartialEq, Eq, Debug)]
pub struct Field {
    pub tag: Tag,
    pub at: usize,
    pub content_at: usize,
    pub len: usize,
}

// What a line of block 4 begins: a field, or the end, whose hyphen stands at the offset. Not a
// `ControlFlow`, whose two cases would not say so.
#[derive(Clone, Copy, PartialEq, Eq, Debug)]
pub enum Next {
    More(Field),
    End { hyphen: usize },
}

// How many fields block 4 has, and where its closing hyphen stands.
#[derive(Clone, Copy, PartialEq, Eq, Debug)]
pub struct Body {
    pub fields: usize,
    pub hyphen: usize,
}

// Where a line's plain bytes end: at a CR, or at what no line holds, which is a brace and an LF with no
// CR before it. None where the text ends first.
fn plain_end(bytes: &[u8]) -> Option<usize>
    ensures { result ≡ position (λ b. b == 13 || barred b) bytes.now }
{
    bytes
        .iter()
        .position(|b| matches!(b, b'\r' | b'{' | b'}' | b'\n'))
}

// Where the content that goes on at `from`, in the line at `line`, ends: at its last CR LF.
fn content_end(text: &[u8], mut line: usize, mut from: usize) -> Result<usize, Fault>
    ensures { told result ≡ content_end line from (drop from text.now) }
{
    while let Some(plain) = plain_end(rest(text, from)) {
        let end = from + plain;
        match rest(text, end).strip_prefix(b"\r\n") {
            Some([b':' | b'-', ..]) => return Ok(end),
            Some(_) => {
                line = end + 2;
                from = line;
            }
            None => return Err(Fault::Line { at: line }),
        }
    }
    Err(Fault::Line { at: line })
}

// What begins with the line at an offset of a text, from whose start all offsets count: a field, or the
// end. Refuses a line that is not as it must be by 5, where that line stands.
pub fn next_field(text: &[u8], at: usize) -> Result<Next, Fault>
    ensures { told result ≡ next_at at (drop at text.now) }
{
    let line = rest(text, at);
    if let [b'-', b'}', ..] = line {
        return Ok(Next::End { hyphen: at });
    }
    let tag = tag_at(line).ok_or(Fault::Line { at })?;
    let content_at = at + tag.width();
    let end = content_end(text, at, content_at)?;
    Ok(Next::More(Field {
        tag,
        at,
        content_at,
        len: end - content_at,
    }))
}

impl Field {
    // Where the line behind the field begins; the largest offset, where there is none so large.
    pub fn behind(self) -> usize
        ensures { result ≡ min (behind self) (2 ^ 64 - 1) }
    {
        self.content_at.saturating_add(self.len).saturating_add(2)
    }

    // The field's content, as a part of the text that it was found in.
    pub fn content(self, text: &[u8]) -> &[u8]
        ensures { result.now ≡ (shown text.now self).content }
    {
        part(text, self.content_at, self.len)
    }
}

// The whole of block 4 from its first line on. Reading what is written gives it back, and what is read
// stands there as it would be written.
pub fn read_body(text: &[u8], at: usize) -> Result<Body, Fault>
    ensures answer { told result ≡ sized (body_at text.now at) }
    ensures round_trip { RoundTrip }
    ensures accepted { Accepted }
{
    let mut fields = 0;
    let mut from = at;
    // no iterator over fields: it could not hand out the hyphen that ends them
    loop {
        match next_field(text, from)? {
            Next::More(field) => {
                fields += 1;
                from = field.behind();
            }
            Next::End { hyphen } => return Ok(Body { fields, hyphen }),
        }
    }
}
