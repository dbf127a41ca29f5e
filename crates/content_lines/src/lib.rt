//! Field formats made of whole lines, and what every field format owes.
//!
//! Each writing call names its own format in its three clauses. A trait over the formats would say them
//! once, but what a format tells may borrow the content, and a trait here has no type with a lifetime.
#![tactic(auto)]

mod customers;
mod lines;
mod parts;
mod words;

pub use customers::{is_customer, write_customer};
pub use lines::{Lines, first_end, first_line, is_line, next_line};
pub use parts::{put_accepted, put_parts};
pub use words::{Words, is_word, write_word};
