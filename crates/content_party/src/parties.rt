//! Parties, 52, 53, 57 and 58: [/[1!a/]34x CR LF]4!a2!a2!c[3!c].
ghost use Rattle.std.specs.Prelude.{◌≡◌};
ghost use Rattle.std.specs.Option.{IfSome, option_map};
ghost use Rattle.mt_text.specs.Refusals.{told};
ghost use Rattle.content_lines.specs.Formats.{Lawful, answer, written};
ghost use Rattle.content_party.specs.Parties.{places_fit, is_code, account_at, account_in, party_of, parts_of, filling, party_format};

use content_lines::{first_end, first_line, is_line, next_line, put_parts};
use mt_text::{Class, Fault, all_of};

// How many places a bank code may have.
#[derive(Clone, Copy, PartialEq, Eq, Debug)]
pub enum Places {
    EightOrEleven,
    ElevenOnly,
}

// A part of the content, and where it begins there.
#[derive(Clone, Copy)]
pub struct Part<'a> {
    pub bytes: &'a [u8],
    pub at: usize,
}

// The parts of a party: its account, which may be absent, and its bank code.
#[derive(Clone, Copy)]
pub struct Party<'a> {
    pub account: Option<Part<'a>>,
    pub code: Part<'a>,
}

fn is_length(places: Places, len: usize) -> bool
    ensures { result ≡ places_fit places len }
{
    match places {
        Places::EightOrEleven => len == 8 || len == 11,
        Places::ElevenOnly => len == 11,
    }
}

// Whether the bytes are a bank code: six capitals, then capitals and digits. An address of a header is
// another format, of another length, though it has the same two classes.
fn is_code(places: Places, code: &[u8]) -> bool
    ensures { result ≡ is_code places code.now }
{
    is_length(places, code.len())
        && all_of(Class::Capital, &code[..6])
        && all_of(Class::Alphanumeric, &code[6..])
}

// Where the account begins in its line: behind the slash, or behind a capital and its slash.
fn account_start(line: &[u8]) -> usize
    ensures { result ≡ account_at line.now }
{
    if matches!(line, [_, b'A'..=b'Z', b'/', ..]) {
        3
    } else {
        1
    }
}

// The account of an account line, and where it begins there.
fn read_account(line: &[u8]) -> Option<Part<'_>>
    ensures bytes { option_map (λ x. x.bytes.now) result ≡ account_in line.now }
    ensures place { IfSome result (λ x. x.at ≡ account_at line.now) }
{
    let at = account_start(line);
    if !line.starts_with(b"/") || at > line.len() {
        return None;
    }
    let bytes = &line[at..];
    is_line(34, bytes).then_some(Part { bytes, at })
}

// The parts of the content, if it is a party.
pub fn read_party(places: Places, content: &[u8]) -> Option<Party<'_>>
    ensures { parts_of result ≡ party_of places content.now }
{
    let end = first_end(content);
    if end == content.len() {
        let code = Part {
            bytes: content,
            at: 0,
        };
        return is_code(places, content).then_some(Party {
            account: None,
            code,
        });
    }
    let bytes = next_line(content)?;
    if !is_code(places, bytes) {
        return None;
    }
    let account = read_account(first_line(content))?;
    Some(Party {
        account: Some(account),
        code: Part { bytes, at: end + 2 },
    })
}

// What the bank code lacks of eleven places.
fn missing_places(code: &[u8]) -> &'static [u8]
    ensures { result.now ≡ filling code.now }
{
    if code.len() == 8 { b"XXX" } else { b"" }
}

// Writes the normal content at the front of the buffer and answers its length. Refuses by 9 at 0
// what is no party and by 14 a buffer that is too short; the buffer is then as it was.
pub fn write_party(places: Places, content: &[u8], buffer: &mut [u8]) -> Result<usize, Fault>
    ensures answer { told result ≡ answer (party_format places) content.now buffer.old }
    ensures buffer { buffer.new ≡ written (party_format places) content.now buffer.old }
    ensures laws { Lawful (party_format places) }
{
    let party = read_party(places, content).ok_or(Fault::Content { at: 0 })?;
    put_parts(content, missing_places(party.code.bytes), b"", buffer)
}
