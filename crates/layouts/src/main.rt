//! Lays out texts from standard input, one to a line, and prints a line for each: its direction,
//! type and number of fields, as `input 103, 9 fields`, or its refusal, as `refused 3 at 29`.
//!
//! A line holds one text in an escaped form, so that it can hold every byte:
//!
//!     \r      CR
//!     \n      LF
//!     \\      a backslash
//!     \xNN    the byte with these two hexadecimal digits, capital or small
//!     else    the byte itself, be it above 127
//!
//! An empty line is the empty text. A line with another escape is `unreadable`. A line that begins
//! with `#` is a comment, and printed as it is.
#![tactic(auto)]

mod escape;
mod kept;

use escape::Escape;
use fronts::Front;
use kept::{KEPT, keep, whole_layout};
use layout::Layout;
use std::io;
use std::io::{BufWriter, Read, Write};

// What a line is.
#[derive(Clone, Copy, PartialEq, Eq)]
enum Form {
    Comment,
    // a text, with how far its last escape has come
    Text(Escape),
}

// The line that is being read, with the text that its bytes write so far.
#[derive(Drop)]
struct Line {
    form: Form,
    text: Front<KEPT>,
}

impl Line {
    fn new() -> Line {
        Line {
            form: Form::Text(Escape::Out),
            text: Front::new(),
        }
    }

    // Whether nothing of the line was read yet.
    fn is_new(&self) -> bool {
        self.form == Form::Text(Escape::Out) && self.text.is_empty()
    }

    // One byte more of a text whose last escape has come so far.
    fn step(&mut self, escape: Escape, b: u8) {
        let (escape, byte) = escape.step(b);
        self.form = Form::Text(escape);
        if let Some(byte) = byte {
            keep(&mut self.text, byte);
        }
    }

    fn clear(&mut self) {
        self.form = Form::Text(Escape::Out);
        self.text.clear();
    }
}

// Answers a line that has ended.
fn answer<W: Write + Drop>(line: &Line, out: &mut BufWriter<W>) -> io::Result<()> {
    match line.form {
        Form::Comment => return writeln!(out, ""),
        Form::Text(Escape::Out) => {}
        Form::Text(_) => return writeln!(out, "unreadable"),
    }
    match whole_layout(&line.text) {
        Ok(layout) => {
            let Layout {
                direction,
                message_type,
                fields,
                ..
            } = layout;
            writeln!(out, "{direction} {message_type:03}, {fields} fields")
        }
        Err(fault) => writeln!(out, "{fault}"),
    }
}

// Takes in a part of the input, and answers each line that ends in it. The bytes of a comment are printed
// as they are.
fn take_in<W: Write + Drop>(
    part: &[u8],
    line: &mut Line,
    out: &mut BufWriter<W>,
) -> io::Result<()> {
    for b in part {
        if *b == b'\n' {
            answer(line, out)?;
            line.clear();
            continue;
        }
        if *b == b'#' && line.is_new() {
            line.form = Form::Comment;
        }
        match line.form {
            Form::Comment => out.write_all(&[*b])?,
            Form::Text(escape) => line.step(escape, *b),
        }
    }
    Ok(())
}

fn main(rt: HostRuntime) -> io::Result<()> {
    let mut input = rt.stdin();
    let mut out = BufWriter::new(rt.alloc(), rt.stdout())?;
    let mut line = Line::new();
    // a chunk on the stack: a buffered reader would allocate, and hand out each byte by a call of its own
    let mut chunk = [0u8; 4096];
    for _ in 0..u64::MAX {
        let len = input.read(&mut chunk)?;
        if len == 0 {
            break;
        }
        take_in(&chunk[..len], &mut line, &mut out)?;
    }
    if !line.is_new() {
        answer(&line, &mut out)?;
    }
    out.flush()
}
