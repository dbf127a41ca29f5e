//! Block 2, the application header: direction, type, and for output where the text came from.
ghost use Rattle.std.specs.Prelude.{◌≡◌, ◌≤◌, true, length, Some};
ghost use Rattle.mt_text.specs.Classes.{digit, every};
ghost use Rattle.headers.specs.Parts.{cut};
ghost use Rattle.headers.specs.Application.{is_end, is_input, is_origin, is_output, application_of, type_of, direction_word};

use crate::basic::{is_address, is_sender};
use contents::{is_date, is_time};
use mt_text::{Class, all_of, part};
use std::fmt;

// Whether a text goes to the settlement system or comes from it.
#[derive(Clone, Copy, PartialEq, Eq, Debug)]
pub enum Direction {
    Input,
    Output,
}

impl fmt::Display for Direction {
    ghost output = { λ d. Some (direction_word d) };

    fn fmt<W: fmt::Write>(&self, f: &mut fmt::Formatter<W>) -> fmt::Result {
        f.write_str(match self {
            Direction::Input => "input",
            Direction::Output => "output",
        })
    }
}

// What block 2 tells: the direction, the type of the message, and how many bytes the block has.
#[derive(Clone, Copy, PartialEq, Eq, Debug)]
pub struct Application {
    pub direction: Direction,
    // any three digits: only a module knows which types there are
    pub message_type: u16,
    pub width: usize,
}

const INPUT_WIDTH: usize = 21;

const OUTPUT_WIDTH: usize = 51;

// The end of a block 2: a priority and the closing brace.
fn is_end(bytes: &[u8]) -> bool
    requires { length bytes.now ≡ 2 }
    ensures { result ≡ is_end bytes.now }
{
    matches!(bytes, [b'S' | b'U' | b'N', b'}'])
}

// Whether the bytes are a whole block 2 of an input text.
fn is_input_header(block: &[u8]) -> bool
    ensures { result ≡ is_input block.now }
{
    if block.len() != INPUT_WIDTH || !block.starts_with(b"{2:I") {
        return false;
    }
    if !all_of(Class::Digit, &block[4..7]) {
        return false;
    }
    is_address(&block[7..19]) && is_end(&block[19..21])
}

// Where an output text came from: time, date and sender of the input, then date and time of the output.
#[tactic(auto, unfolding(crate::specs::Application::is_date, crate::specs::Application::is_time))]
fn is_origin(bytes: &[u8]) -> bool
    ensures { result ≡ is_origin bytes.now }
{
    if bytes.len() != 42 {
        return false;
    }
    if !is_time(&bytes[0..4]) {
        return false;
    }
    if !is_date(&bytes[4..10]) {
        return false;
    }
    if !is_sender(&bytes[10..32]) {
        return false;
    }
    is_date(&bytes[32..38]) && is_time(&bytes[38..42])
}

// Whether the bytes are a whole block 2 of an output text.
fn is_output_header(block: &[u8]) -> bool
    ensures { result ≡ is_output block.now }
{
    if block.len() != OUTPUT_WIDTH || !block.starts_with(b"{2:O") {
        return false;
    }
    if !all_of(Class::Digit, &block[4..7]) {
        return false;
    }
    is_origin(&block[7..49]) && is_end(&block[49..51])
}

// The type of the message that a block 2 tells: its three digits, each by its name. A loop would be no
// shorter and would have to say that the sum stays small; `read_number` would answer an Option of 64
// bits, here never none, to be cast down.
fn type_of(block: &[u8]) -> u16
    requires long { 7 ≤ length block.now }
    requires digits { every digit (cut 4 7 block.now) ≡ true }
    ensures { result ≡ type_of block.now }
{
    let hundreds = u16::from(block[4] - b'0');
    let tens = u16::from(block[5] - b'0');
    let units = u16::from(block[6] - b'0');
    hundreds * 100 + tens * 10 + units
}

// What stands at the front of the bytes behind block 1, if it is a block 2.
pub fn read_application(bytes: &[u8]) -> Option<Application>
    ensures { result ≡ application_of bytes.now }
{
    let input = part(bytes, 0, INPUT_WIDTH);
    if is_input_header(input) {
        return Some(Application {
            direction: Direction::Input,
            message_type: type_of(input),
            width: INPUT_WIDTH,
        });
    }
    let output = part(bytes, 0, OUTPUT_WIDTH);
    if is_output_header(output) {
        return Some(Application {
            direction: Direction::Output,
            message_type: type_of(output),
            width: OUTPUT_WIDTH,
        });
    }
    None
}
