//! Field formats of answers and related messages.
#![tactic(auto)]

mod answers;
mod related;

pub use answers::{AnswerCode, read_answer, write_answer};
pub use related::{is_related, write_related};
