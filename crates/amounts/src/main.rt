//! Reads amounts from standard input, one to a line. Prints for each line the normal amount, a
//! space and its hundredths, or `refused`; and last how many lines were accepted and refused.
#![tactic(auto)]

mod line;

use contents::{MAX_AMOUNT, write_normal_amount};
use fronts::Front;
use line::{KEPT, amount, keep};
use std::io;
use std::io::{BufWriter, Read, Write};

// How many lines were accepted and refused so far.
#[derive(Drop)]
struct Tally {
    accepted: u64,
    refused: u64,
}

// Answers one line.
fn answer<W: Write + Drop>(
    line: &Front<KEPT>,
    tally: &mut Tally,
    out: &mut BufWriter<W>,
) -> io::Result<()> {
    // fixed memory: the call writes into what its caller lends
    let mut normal = [0u8; MAX_AMOUNT];
    match (
        amount(line),
        write_normal_amount(line.as_slice(), &mut normal),
    ) {
        (Some(hundredths), Ok(len)) => {
            tally.accepted = tally.accepted.saturating_add(1);
            let Some(digits) = normal.get(0..len) else {
                return Ok(());
            };
            out.write_all(digits)?;
            writeln!(out, " {hundredths}")
        }
        _ => {
            tally.refused = tally.refused.saturating_add(1);
            writeln!(out, "refused")
        }
    }
}

// Takes in a part of the input, and answers each line that ends in it.
fn take_in<W: Write + Drop>(
    part: &[u8],
    line: &mut Front<KEPT>,
    tally: &mut Tally,
    out: &mut BufWriter<W>,
) -> io::Result<()> {
    for b in part {
        if *b == b'\n' {
            answer(line, tally, out)?;
            line.clear();
        } else {
            keep(line, *b);
        }
    }
    Ok(())
}

fn main(rt: HostRuntime) -> io::Result<()> {
    let mut input = rt.stdin();
    let mut out = BufWriter::new(rt.alloc(), rt.stdout())?;
    let mut tally = Tally {
        accepted: 0,
        refused: 0,
    };
    let mut line = Front::new();
    // a chunk on the stack: a buffered reader would allocate, and hand out each byte by a call of its own
    let mut chunk = [0u8; 4096];
    for _ in 0..u64::MAX {
        let len = input.read(&mut chunk)?;
        if len == 0 {
            break;
        }
        take_in(&chunk[..len], &mut line, &mut tally, &mut out)?;
    }
    if !line.is_empty() {
        answer(&line, &mut tally, &mut out)?;
    }
    let Tally { accepted, refused } = tally;
    writeln!(out, "{accepted} accepted, {refused} refused")?;
    out.flush()
}
