//! Block 3, the user header: up to four items, each at most once, in any order.
ghost use Rattle.std.specs.Prelude.{◌≡◌, ◌==◌, ◌+◌, ◌^◌, ◌<◌, length, position};
ghost use Rattle.headers.specs.User.{small_hex, hyphen_place, tracked, value_ok, item_of, put_in, is_given, closed_at, step_at, user_at};

use mt_text::{Class, all_of, byte_at, part, rest};

// At most four items and the closing brace.
const MAX_STEPS: usize = 5;

// Where a value stands in the text: an offset and no part of the text, since a layout is kept without it.
#[derive(Clone, Copy, PartialEq, Eq, Debug)]
pub struct Span {
    pub at: usize,
    pub len: usize,
}

// The values of block 3 that are given.
#[derive(Clone, Copy, PartialEq, Eq, Debug, Default)]
pub struct UserHeader {
    // item 108
    pub user_reference: Option<Span>,
    // item 111
    pub service_type: Option<Span>,
    // item 113
    pub priority: Option<Span>,
    // item 121
    pub tracking: Option<Span>,
}

// A block 3: its values, and where the block behind it begins.
#[derive(Clone, Copy, PartialEq, Eq, Debug)]
pub struct UserBlock {
    pub header: UserHeader,
    pub end: usize,
}

// The four items.
#[derive(Clone, Copy, PartialEq, Eq, Debug)]
pub enum Item {
    UserReference,
    ServiceType,
    Priority,
    Tracking,
}

// One step through block 3: an item, or its closing brace. Not a `ControlFlow`, whose pair of a header
// and an offset would have no names.
#[derive(Clone, Copy, PartialEq, Eq, Debug)]
pub enum Step {
    More { header: UserHeader, next: usize },
    Closed { end: usize },
}

fn is_small_hex(b: u8) -> bool
    ensures { result ≡ small_hex b }
{
    matches!(b, b'0'..=b'9' | b'a'..=b'f')
}

fn is_hyphen_place(i: usize) -> bool
    ensures { result ≡ hyphen_place i }
{
    matches!(i, 8 | 13 | 18 | 23)
}

// Whether hyphens stand at their places, and small hexadecimal digits at all others.
fn is_tracked(value: &[u8]) -> bool
    ensures { result ≡ tracked 0 value.now }
{
    value.iter().enumerate().all(|(i, b)| {
        if is_hyphen_place(i) {
            *b == b'-'
        } else {
            is_small_hex(*b)
        }
    })
}

impl Item {
    // Whether the item takes the value.
    fn takes(self, value: &[u8]) -> bool
        ensures { result ≡ value_ok self value.now }
    {
        let len = value.len();
        match self {
            Item::UserReference => (1..=16).contains(&len) && all_of(Class::Printable, value),
            Item::ServiceType => len == 3 && all_of(Class::Digit, value),
            Item::Priority => len == 4 && all_of(Class::LetterOrDigit, value),
            Item::Tracking => len == 36 && is_tracked(value),
        }
    }
}

// Which item begins at the front of the bytes.
fn item_of(bytes: &[u8]) -> Option<Item>
    ensures { result ≡ item_of bytes.now }
{
    match part(bytes, 0, 5) {
        b"{108:" => Some(Item::UserReference),
        b"{111:" => Some(Item::ServiceType),
        b"{113:" => Some(Item::Priority),
        b"{121:" => Some(Item::Tracking),
        _ => None,
    }
}

impl UserHeader {
    // The header with one value more; none where the item has a value already.
    fn with(mut self, item: Item, value: Span) -> Option<UserHeader>
        ensures { result ≡ put_in item value self }
    {
        let earlier = match item {
            Item::UserReference => self.user_reference.replace(value),
            Item::ServiceType => self.service_type.replace(value),
            Item::Priority => self.priority.replace(value),
            Item::Tracking => self.tracking.replace(value),
        };
        if earlier.is_some() { None } else { Some(self) }
    }

    // Whether any value is given.
    fn is_given(self) -> bool
        ensures { result ≡ is_given self }
    {
        self != UserHeader::default()
    }
}

// The end of block 3, which some value must stand before.
fn closed(header: UserHeader, end: usize) -> Option<Step>
    ensures { result ≡ closed_at end header }
{
    header.is_given().then_some(Step::Closed { end })
}

// Where the brace stands that closes a value; none where it is not closed.
fn closing_brace(value: &[u8]) -> Option<usize>
    ensures { result ≡ position (λ b. b == 125) value.now }
{
    value.iter().position(|b| *b == b'}')
}

// One step through block 3, whose rest is these bytes at an offset, with the values so far.
fn step_at(bytes: &[u8], at: usize, header: UserHeader) -> Option<Step>
    requires { at + length bytes.now < 2 ^ 64 }
    ensures { result ≡ step_at at bytes.now header }
{
    if byte_at(bytes, 0) == b'}' {
        return closed(header, at + 1);
    }
    let item = item_of(bytes)?;
    let value = rest(bytes, 5);
    let len = closing_brace(value)?;
    if !item.takes(&value[..len]) {
        return None;
    }
    let header = header.with(item, Span { at: at + 5, len })?;
    Some(Step::More {
        header,
        next: at + 6 + len,
    })
}

// Block 3 at an offset of a text, in which its values are told by their offsets: its values and its end,
// if it is one.
pub fn read_user_header(text: &[u8], at: usize) -> Option<UserBlock>
    ensures { result ≡ user_at text.now at }
{
    if !rest(text, at).starts_with(b"{3:") {
        return None;
    }
    let mut header = UserHeader::default();
    let mut from = at + 3;
    for _ in 0..MAX_STEPS {
        match step_at(rest(text, from), from, header)? {
            Step::More { header: more, next } => {
                header = more;
                from = next;
            }
            Step::Closed { end } => return Some(UserBlock { header, end }),
        }
    }
    None
}
