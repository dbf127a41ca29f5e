//! The walk over a text: block 1, block 2, perhaps block 3, block 4, perhaps block 5, and no more.
ghost use Rattle.std.specs.Prelude.{◌≡◌};
ghost use Rattle.mt_text.specs.Refusals.{told};
ghost use Rattle.layout.specs.Walk.{application_at, opening_at, body_start, end_at, laid_out};
ghost use Rattle.layout.specs.Render.{RoundTrip, Accepted};

use fields::read_body;
use headers::{
    Application, BASIC_WIDTH, Direction, TRAILER_WIDTH, UserHeader, is_basic_header, is_trailer,
    read_application, read_user_header,
};
use mt_text::{Fault, check_bytes, part, rest};

// What a well laid out text is made of. Offsets count from its first byte.
#[derive(Clone, Copy, PartialEq, Eq, Debug)]
pub struct Layout {
    pub direction: Direction,
    // any three digits: only a module knows which types there are
    pub message_type: u16,
    // where blocks 1 and 2 end
    pub headers_end: usize,
    // the values of block 3, if it is there
    pub user: Option<UserHeader>,
    // the first line of block 4
    pub body: usize,
    // how many fields block 4 has
    pub fields: usize,
    // the hyphen that closes block 4
    pub hyphen: usize,
}

// Block 3, if it is there, and where block 4 should begin.
#[derive(Clone, Copy, PartialEq, Eq, Debug)]
pub struct Opening {
    pub user: Option<UserHeader>,
    pub at: usize,
}

// The text and an offset stay two arguments, as the calls of `fields` and `headers` take them: a struct
// around the two would be made and taken apart again at each of these calls.

// Block 2, behind block 1.
fn application_at(text: &[u8]) -> Result<Application, Fault>
    ensures { told result ≡ application_at text.now }
{
    if !is_basic_header(part(text, 0, BASIC_WIDTH)) {
        return Err(Fault::Block { at: 0 });
    }
    read_application(rest(text, BASIC_WIDTH)).ok_or(Fault::Block { at: BASIC_WIDTH })
}

// Block 3 at an offset, which may be absent.
fn opening_at(text: &[u8], at: usize) -> Result<Opening, Fault>
    ensures { told result ≡ opening_at text.now at }
{
    if !rest(text, at).starts_with(b"{3:") {
        return Ok(Opening { user: None, at });
    }
    let block = read_user_header(text, at).ok_or(Fault::Block { at })?;
    Ok(Opening {
        user: Some(block.header),
        at: block.end,
    })
}

// The opening of block 4 at an offset; answers where its first line begins.
fn body_start(text: &[u8], at: usize) -> Result<usize, Fault>
    ensures { told result ≡ body_start text.now at }
{
    if rest(text, at).starts_with(b"{4:\r\n") {
        Ok(at + 5)
    } else {
        Err(Fault::Block { at })
    }
}

// What follows block 4 at an offset: nothing, or a block 5 and then nothing.
fn end_at(text: &[u8], at: usize) -> Result<(), Fault>
    ensures { told result ≡ end_at text.now at }
{
    let left = rest(text, at);
    if left.is_empty() {
        return Ok(());
    }
    if !is_trailer(part(left, 0, TRAILER_WIDTH)) {
        return Err(Fault::Block { at });
    }
    if left.len() > TRAILER_WIDTH {
        return Err(Fault::Block {
            at: at + TRAILER_WIDTH,
        });
    }
    Ok(())
}

// The checks and blocks in their order. Apart from `lay_out`, which has one return and not one at each `?`,
// so that its laws are proved once.
fn walk(text: &[u8]) -> Result<Layout, Fault>
    ensures { told result ≡ laid_out text.now }
{
    check_bytes(text)?;
    let application = application_at(text)?;
    let headers_end = BASIC_WIDTH + application.width;
    let opening = opening_at(text, headers_end)?;
    let body = body_start(text, opening.at)?;
    let lines = read_body(text, body)?;
    end_at(text, lines.hyphen + 2)?;
    Ok(Layout {
        direction: application.direction,
        message_type: application.message_type,
        headers_end,
        user: opening.user,
        body,
        fields: lines.fields,
        hyphen: lines.hyphen,
    })
}

// Lays out a text, or refuses it by 1, 2, 3 or 5. A text that is written from well-formed parts is laid
// out into these parts, and the parts of every text that is laid out are as they must be.
pub fn lay_out(text: &[u8]) -> Result<Layout, Fault>
    ensures answer { told result ≡ laid_out text.now }
    ensures round_trip { RoundTrip }
    ensures accepted { Accepted }
{
    walk(text)
}
