//! What is asked of each content: whether its format accepts it, and what its normal content is.
use content_answer::{is_related, read_answer, write_answer, write_related};
use content_entry::{read_entry, write_entry};
use content_lines::{Lines, Words, is_customer, is_word, write_customer, write_word};
use content_money::{
    read_balance, read_money, read_statement_number, write_balance, write_money,
    write_statement_number,
};
use content_party::{Places, read_party, write_party};
use fronts::Front;
use mt_text::Fault;

// The formats of the tables, named by them; what is asked of each is in the two functions below.
#[derive(Clone, Copy)]
pub enum Kind {
    Lines(Lines),
    Word(Words),
    Money([u8; 3]),
    Customer,
    Party(Places),
    Number,
    Balance([u8; 3]),
    Entry,
    Answer,
    Related,
}

// Whether the format accepts the content.
pub fn is_accepted(kind: Kind, content: &[u8]) -> bool {
    match kind {
        Kind::Lines(lines) => lines.read(content).is_some(),
        Kind::Word(words) => is_word(words, content),
        Kind::Money(currency) => read_money(currency, content).is_some(),
        Kind::Customer => is_customer(content),
        Kind::Party(places) => read_party(places, content).is_some(),
        Kind::Number => read_statement_number(content).is_some(),
        Kind::Balance(currency) => read_balance(currency, content).is_some(),
        Kind::Entry => read_entry(content).is_some(),
        Kind::Answer => read_answer(content).is_some(),
        Kind::Related => is_related(content),
    }
}

// Writes the normal content.
pub fn write_normal(kind: Kind, content: &[u8], buffer: &mut [u8]) -> Result<usize, Fault> {
    match kind {
        Kind::Lines(lines) => lines.write(content, buffer),
        Kind::Word(words) => write_word(words, content, buffer),
        Kind::Money(currency) => write_money(currency, content, buffer),
        Kind::Customer => write_customer(content, buffer),
        Kind::Party(places) => write_party(places, content, buffer),
        Kind::Number => write_statement_number(content, buffer),
        Kind::Balance(currency) => write_balance(currency, content, buffer),
        Kind::Entry => write_entry(content, buffer),
        Kind::Answer => write_answer(content, buffer),
        Kind::Related => write_related(content, buffer),
    }
}

// Whether the format judges every content of a list as expected. In a list `~` divides the
// contents and `|` stands for CR LF.
pub fn all_judged(kind: Kind, expected: bool, list: &[u8]) -> bool {
    let mut content = Front::<256>::new();
    for b in list {
        if content.as_slice().len() > 254 {
            return false;
        }
        match b {
            b'~' => {
                if is_accepted(kind, content.as_slice()) != expected {
                    return false;
                }
                content.clear();
            }
            b'|' => {
                content.push(b'\r');
                content.push(b'\n');
            }
            _ => content.push(*b),
        }
    }
    is_accepted(kind, content.as_slice()) == expected
}

// Whether the format writes this normal content, and refuses a buffer that is a byte too short.
pub fn is_written(kind: Kind, content: &[u8], normal: &[u8]) -> bool {
    let mut buffer = [0u8; 256];
    let Ok(len) = write_normal(kind, content, &mut buffer) else {
        return false;
    };
    if len > 256 || len == 0 || &buffer[..len] != normal {
        return false;
    }
    write_normal(kind, content, &mut buffer[..len - 1]).is_err_and(|fault| fault.number() == 14)
}
