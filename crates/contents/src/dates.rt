//! Days: YYMMDD from 1980 to 2079, and MMDD of any year.
ghost use Rattle.std.specs.Prelude.{◌≡◌, is_some};
ghost use Rattle.contents.specs.Dates.{leap, days_in, real_day, full_year, date_of, month_day_of, before, ComparesAsDays};

use crate::digits::pair_at;

// A day of the calendar. The derived order is the calendar's: by year, then by month, then by day.
#[derive(Clone, Copy, PartialEq, Eq, PartialOrd, Ord, Debug)]
pub struct Date {
    pub year: u16,
    pub month: u8,
    pub day: u8,
}

// A day of some year that is not told.
#[derive(Clone, Copy, PartialEq, Eq, Debug)]
pub struct MonthDay {
    pub month: u8,
    pub day: u8,
}

fn is_leap(year: u16) -> bool
    ensures { result ≡ leap year }
{
    year % 4 == 0 && (year % 100 != 0 || year % 400 == 0)
}

fn last_day(in_leap_year: bool, month: u8) -> u8
    ensures { result ≡ days_in in_leap_year month }
{
    match month {
        2 => { if in_leap_year { 29 } else { 28 } }
        4 | 6 | 9 | 11 => 30,
        _ => 31,
    }
}

fn is_real_day(in_leap_year: bool, month: u8, day: u8) -> bool
    ensures { result ≡ real_day in_leap_year month day }
{
    month >= 1 && month <= 12 && day >= 1 && day <= last_day(in_leap_year, month)
}

// The year of two digits: 80 to 99 are of the last century, 00 to 79 of this one.
fn year_of(two_digits: u8) -> u16
    ensures { result ≡ full_year two_digits }
{
    let year = u16::from(two_digits);
    if year >= 80 { 1900 + year } else { 2000 + year }
}

// The day that YYMMDD names, if it is a real one.
pub fn read_date(text: &[u8]) -> Option<Date>
    ensures { result ≡ date_of text.now }
{
    if text.len() != 6 {
        return None;
    }
    let year = year_of(pair_at(text, 0)?);
    let month = pair_at(text, 2)?;
    let day = pair_at(text, 4)?;
    is_real_day(is_leap(year), month, day).then_some(Date { year, month, day })
}

// Whether YYMMDD names a real day.
pub fn is_date(text: &[u8]) -> bool
    ensures { result ≡ is_some (date_of text.now) }
{
    read_date(text).is_some()
}

// The day that MMDD names, if some year has it: 29 February always counts.
pub fn read_month_day(text: &[u8]) -> Option<MonthDay>
    ensures { result ≡ month_day_of text.now }
{
    if text.len() != 4 {
        return None;
    }
    let month = pair_at(text, 0)?;
    let day = pair_at(text, 2)?;
    is_real_day(true, month, day).then_some(MonthDay { month, day })
}

impl Date {
    // Whether this day comes before the other.
    pub fn is_before(self, other: Date) -> bool
        ensures answer { result ≡ before self other }
        ensures days { ComparesAsDays self other }
    {
        self < other
    }
}
