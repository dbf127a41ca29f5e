//! Customers: an account line, which may be absent, and one to four lines.
ghost use Rattle.std.specs.Prelude.{◌≡◌};
ghost use Rattle.mt_text.specs.Refusals.{told};
ghost use Rattle.content_lines.specs.Formats.{Lawful, answer, written};
ghost use Rattle.content_lines.specs.Customers.{account_and_name, is_customer, customer_format};

use crate::lines::{Lines, first_line, is_line, next_line};
use crate::parts::put_accepted;
use mt_text::Fault;

// Name and address: 4*35x.
const NAME: Lines = Lines {
    count: 4,
    width: 35,
};

// Whether an account and one to four lines stand behind the slash.
fn is_account_and_name(bytes: &[u8]) -> bool
    ensures { result ≡ account_and_name bytes.now }
{
    is_line(34, first_line(bytes)) && next_line(bytes).is_some_and(|name| NAME.accepts(name))
}

// Whether the content is a customer: [/34x CR LF]4*35x.
pub fn is_customer(content: &[u8]) -> bool
    ensures { result ≡ is_customer content.now }
{
    match content.strip_prefix(b"/") {
        Some(rest) => is_account_and_name(rest),
        None => NAME.accepts(content),
    }
}

// Writes the content at the front of the buffer and answers its length. Refuses by 9 at 0 what is
// no customer and by 14 a buffer that is too short; the buffer is then as it was.
pub fn write_customer(content: &[u8], buffer: &mut [u8]) -> Result<usize, Fault>
    ensures answer { told result ≡ answer customer_format content.now buffer.old }
    ensures buffer { buffer.new ≡ written customer_format content.now buffer.old }
    ensures laws { Lawful customer_format }
{
    put_accepted(is_customer(content), content, buffer)
}
