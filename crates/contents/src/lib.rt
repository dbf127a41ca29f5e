//! The contents of fields: one file per format, each with what it accepts and what it means.
#![tactic(auto)]

mod amounts;
mod dates;
mod digits;
mod examples;
mod times;

pub use amounts::{MAX_AMOUNT, leading_zeros, normal_amount, read_amount, write_normal_amount};
pub use dates::{Date, MonthDay, is_date, read_date, read_month_day};
pub use digits::{place_of, read_number};
pub use examples::worked_examples;
pub use times::{Time, is_time, read_time};
