//! What stands behind the amount of a statement entry: transaction type, references, information.
ghost use Rattle.std.specs.Prelude.{◌≡◌, ◌+◌, ◌≤◌, cond, length, IfSome, ◌==◌};
ghost use Rattle.content_entry.specs.Behind.{is_type, slashes, is_references, is_rest, is_behind};

use content_lines::{first_end, first_line, is_line, next_line};
use mt_text::{Class, all_of, is_capital};

// Whether the bytes are a transaction type: a capital and three capitals or digits.
fn is_type(bytes: &[u8]) -> bool
    ensures { result ≡ is_type bytes.now }
{
    bytes.len() == 4 && is_capital(bytes[0]) && all_of(Class::Alphanumeric, &bytes[1..])
}

// Where the first two slashes stand.
fn first_slashes(line: &[u8]) -> Option<usize>
    ensures is { result ≡ cond (slashes line.now == length line.now) None (Some (slashes line.now)) }
    ensures room { IfSome result (λ at. at + 2 ≤ length line.now) }
{
    line.windows(2).position(|pair| matches!(pair, b"//"))
}

// Whether the line is one reference, or two with two slashes between them.
fn is_references(line: &[u8]) -> bool
    ensures { result ≡ is_references line.now }
{
    match first_slashes(line) {
        Some(cut) => is_line(16, &line[..cut]) && is_line(16, &line[cut + 2..]),
        None => is_line(16, line),
    }
}

// Whether the bytes are references and perhaps a second line.
fn is_rest(bytes: &[u8]) -> bool
    ensures { result ≡ is_rest bytes.now }
{
    is_references(first_line(bytes))
        && (first_end(bytes) == bytes.len()
            || next_line(bytes).is_some_and(|information| is_line(34, information)))
}

// Whether the bytes may stand behind the amount: a type of four bytes, at a fixed place, and the rest.
pub(crate) fn is_behind(bytes: &[u8]) -> bool
    ensures { result ≡ is_behind bytes.now }
{
    bytes.len() >= 4 && is_type(&bytes[..4]) && is_rest(&bytes[4..])
}
