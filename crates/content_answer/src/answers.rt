//! Answers, 76: STAT[/stamp] CR LF code[/stamp].
ghost use Rattle.std.specs.Prelude.{◌≡◌, codes};
ghost use Rattle.mt_text.specs.Classes.{among};
ghost use Rattle.mt_text.specs.Refusals.{told};
ghost use Rattle.content_lines.specs.Formats.{Lawful, answer, written};
ghost use Rattle.content_answer.specs.Answers.{code_of, is_stamp, is_tail, is_stat, coded, answer_of, answer_format};

use content_lines::{first_line, next_line, put_accepted};
use contents::{is_date, is_time};
use mt_text::Fault;

// What an answer tells of an order.
#[derive(Clone, Copy, PartialEq, Eq, Debug)]
pub enum AnswerCode {
    Rejt,
    Canc,
    Exec,
    Setl,
    Errc,
    Errp,
    Wait,
    Susp,
    Inac,
}

// The code of four letters.
fn read_code(word: &[u8]) -> Option<AnswerCode>
    ensures { result ≡ code_of word.now }
{
    match word {
        b"REJT" => Some(AnswerCode::Rejt),
        b"CANC" => Some(AnswerCode::Canc),
        b"EXEC" => Some(AnswerCode::Exec),
        b"SETL" => Some(AnswerCode::Setl),
        b"ERRC" => Some(AnswerCode::Errc),
        b"ERRP" => Some(AnswerCode::Errp),
        b"WAIT" => Some(AnswerCode::Wait),
        b"SUSP" => Some(AnswerCode::Susp),
        b"INAC" => Some(AnswerCode::Inac),
        _ => None,
    }
}

fn is_sign(b: u8) -> bool
    ensures { result ≡ among (codes "+-") b }
{
    matches!(b, b'+' | b'-')
}

// Whether the bytes are a stamp: date, time, sign and time. The parts have fixed places, so that ranges cut them out.
fn is_stamp(stamp: &[u8]) -> bool
    ensures { result ≡ is_stamp stamp.now }
{
    stamp.len() == 15
        && is_date(&stamp[..6])
        && is_time(&stamp[6..10])
        && is_sign(stamp[10])
        && is_time(&stamp[11..])
}

// Whether the bytes may stand behind a word: nothing, or a slash and a stamp.
fn is_tail(tail: &[u8]) -> bool
    ensures { result ≡ is_tail tail.now }
{
    match tail {
        [] => true,
        [b'/', stamp @ ..] => is_stamp(stamp),
        _ => false,
    }
}

// Whether the line is STAT, perhaps with a stamp.
fn is_stat(line: &[u8]) -> bool
    ensures { result ≡ is_stat line.now }
{
    line.strip_prefix(b"STAT").is_some_and(is_tail)
}

// The code of a line, perhaps with a stamp.
fn read_coded(line: &[u8]) -> Option<AnswerCode>
    ensures { result ≡ coded line.now }
{
    let (word, tail) = line.split_at_checked(4)?;
    if is_tail(tail) { read_code(word) } else { None }
}

// The answer code that the content tells, if it is an answer.
pub fn read_answer(content: &[u8]) -> Option<AnswerCode>
    ensures { result ≡ answer_of content.now }
{
    if !is_stat(first_line(content)) {
        return None;
    }
    read_coded(next_line(content)?)
}

// Writes the content at the front of the buffer and answers its length. Refuses by 9 at 0 what is
// no answer and by 14 a buffer that is too short; the buffer is then as it was.
pub fn write_answer(content: &[u8], buffer: &mut [u8]) -> Result<usize, Fault>
    ensures answer { told result ≡ answer answer_format content.now buffer.old }
    ensures buffer { buffer.new ≡ written answer_format content.now buffer.old }
    ensures laws { Lawful answer_format }
{
    put_accepted(read_answer(content).is_some(), content, buffer)
}
