//! The field format of a party: an account line, which may be absent, and a bank code.
#![tactic(auto)]

mod parties;

pub use parties::{Part, Party, Places, read_party, write_party};
