//! What a module is: the rows of each type of message, and the formats of their contents.
ghost use Rattle.std.specs.Prelude.{◌≡◌, List};
ghost use Rattle.std.specs.Option.{option_map};
ghost use Rattle.mt_text.specs.Refusals.{told};
ghost use Rattle.content_lines.specs.Formats.{answer, written};
ghost use Rattle.content_party.specs.Parties.{parts_of};
ghost use Rattle.reader.specs.Values.{told_by};
ghost use Rattle.reader.specs.Meaning.{Meaning, KeepsLaws};
ghost use Rattle.reader.specs.Rows.{listed, value_of};

use crate::values::Values;
use content_party::Party;
use fields::Tag;
use mt_text::Fault;

// A row: its tag, how many fields it takes at least and at most, and the format of their contents.
#[derive(Clone, Copy)]
pub struct Row<F> {
    pub tag: Tag,
    pub least: usize,
    pub most: usize,
    pub format: F,
}

// The rules of one currency. Whatever is read by a module is read by its meaning, which keeps the laws.
pub trait Module {
    // the format codes of its rows
    type Format: Copy;

    ghost meaning: { Meaning Self.Format };

    // The rows of a type in their order, if the module has the type. A type is a number, since any three
    // digits may be laid out and only a module knows which of them it has.
    fn rows(&self, message_type: u16) -> Option<&[Row<Self::Format>]>
        ensures { listed result ≡ meaning.rows message_type };

    // What the content tells, if the format accepts it.
    fn read<'a>(&self, format: Self::Format, content: &'a [u8]) -> Option<Values<'a>>
        ensures { option_map told_by result ≡ value_of (meaning.format format) content.now };

    // Writes the normal content at the front of the buffer and answers its length. Refuses by 9 at 0
    // what the format does not accept and by 14 a buffer that is too short; the buffer is then as it was.
    fn write(&self, format: Self::Format, content: &[u8], buffer: &mut [u8]) -> Result<usize, Fault>
        ensures answer { told result ≡ answer (meaning.format format) content.now buffer.old }
        ensures buffer { buffer.new ≡ written (meaning.format format) content.now buffer.old };

    // The parts of the content, if the format is a party's and the content is one.
    fn party<'a>(&self, format: Self::Format, content: &'a [u8]) -> Option<Party<'a>>
        ensures { parts_of result ≡ meaning.party format content.now };

    ghost lawful: { KeepsLaws meaning };
}
