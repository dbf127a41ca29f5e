//! Times of day, HHMM.
ghost use Rattle.std.specs.Prelude.{◌≡◌, is_some};
ghost use Rattle.contents.specs.Times.{time_of};

use crate::digits::pair_at;

// A minute of the day.
#[derive(Clone, Copy, PartialEq, Eq, Debug)]
pub struct Time {
    pub hour: u8,
    pub minute: u8,
}

// The time that HHMM names, 0000 to 2359, if it is a real one.
pub fn read_time(text: &[u8]) -> Option<Time>
    ensures { result ≡ time_of text.now }
{
    if text.len() != 4 {
        return None;
    }
    let hour = pair_at(text, 0)?;
    let minute = pair_at(text, 2)?;
    let is_real = hour <= 23 && minute <= 59;
    is_real.then_some(Time { hour, minute })
}

// Whether HHMM names a real time.
pub fn is_time(text: &[u8]) -> bool
    ensures { result ≡ is_some (time_of text.now) }
{
    read_time(text).is_some()
}
