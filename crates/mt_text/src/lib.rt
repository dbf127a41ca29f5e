//! The text of one message: its bytes and the refusals that every layer speaks in.
#![tactic(auto)]

mod bytes;
mod classes;
mod fault;
mod lent;
mod parts;

pub use bytes::{MAX_TEXT, byte_at, check_bytes};
pub use classes::{
    Class, all_of, is_alphanumeric, is_capital, is_digit, is_hex, is_letter_or_digit, is_printable,
};
pub use fault::Fault;
pub use lent::put_front;
pub use parts::{part, rest};
