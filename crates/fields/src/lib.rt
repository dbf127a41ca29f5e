//! Block 4 of a text: its lines, tags and fields, from `{4:` CR LF to `-}`.
#![tactic(auto)]

mod scan;
mod tags;

pub use scan::{Body, Field, Next, next_field, read_body};
pub use tags::Tag;
