//! The field format of a statement entry.
#![tactic(auto)]

mod behind;
mod entries;

pub use entries::{read_entry, write_entry};
