//! Related messages, 11S and 11R: 3!n CR LF date [CR LF 10!n].
ghost use Rattle.std.specs.Prelude.{◌≡◌};
ghost use Rattle.mt_text.specs.Refusals.{told};
ghost use Rattle.content_lines.specs.Formats.{Lawful, answer, written};
ghost use Rattle.content_answer.specs.Related.{digits, is_day, is_related, related_format};

use content_lines::{first_end, first_line, next_line, put_accepted};
use contents::is_date;
use mt_text::{Class, Fault, all_of};

// Whether the bytes are so many digits.
fn is_digits(count: usize, bytes: &[u8]) -> bool
    ensures { result ≡ digits count bytes.now }
{
    bytes.len() == count && all_of(Class::Digit, bytes)
}

// Whether the bytes are a day and perhaps a line of session and sequence.
fn is_day(bytes: &[u8]) -> bool
    ensures { result ≡ is_day bytes.now }
{
    is_date(first_line(bytes))
        && (first_end(bytes) == bytes.len()
            || next_line(bytes).is_some_and(|sequence| is_digits(10, sequence)))
}

// Whether the content is a related message: its type, its day, perhaps session and sequence.
pub fn is_related(content: &[u8]) -> bool
    ensures { result ≡ is_related content.now }
{
    is_digits(3, first_line(content)) && next_line(content).is_some_and(is_day)
}

// Writes the content at the front of the buffer and answers its length. Refuses by 9 at 0 what is
// no related message and by 14 a buffer that is too short; the buffer is then as it was.
pub fn write_related(content: &[u8], buffer: &mut [u8]) -> Result<usize, Fault>
    ensures answer { told result ≡ answer related_format content.now buffer.old }
    ensures buffer { buffer.new ≡ written related_format content.now buffer.old }
    ensures laws { Lawful related_format }
{
    put_accepted(is_related(content), content, buffer)
}
