//! Fixed words.
ghost use Rattle.std.specs.Prelude.{◌≡◌};
ghost use Rattle.mt_text.specs.Refusals.{told};
ghost use Rattle.content_lines.specs.Formats.{Lawful, answer, written};
ghost use Rattle.content_lines.specs.Words.{words_of, one_of, words_format};

use crate::parts::put_accepted;
use mt_text::Fault;

// The lists of words that a field may be bound to.
#[derive(Clone, Copy, PartialEq, Eq, Debug)]
pub enum Words {
    Credit, // CRED
    Charges, // BEN, OUR, SHA
}

// Whether the content is one of the words.
pub fn is_word(words: Words, content: &[u8]) -> bool
    ensures { result ≡ one_of (words_of words) content.now }
{
    match words {
        Words::Credit => matches!(content, b"CRED"),
        Words::Charges => matches!(content, b"BEN" | b"OUR" | b"SHA"),
    }
}

// Writes the word at the front of the buffer and answers its length. Refuses by 9 at 0 what is
// none of the words and by 14 a buffer that is too short; the buffer is then as it was.
pub fn write_word(words: Words, content: &[u8], buffer: &mut [u8]) -> Result<usize, Fault>
    ensures answer { told result ≡ answer (words_format words) content.now buffer.old }
    ensures buffer { buffer.new ≡ written (words_format words) content.now buffer.old }
    ensures laws { Lawful (words_format words) }
{
    put_accepted(is_word(words, content), content, buffer)
}
