//! The layout of a whole text: one walk from the left over its blocks and lines.
#![tactic(auto)]

mod examples;
mod walk;

pub use examples::worked_layouts;
pub use walk::{Layout, lay_out};
