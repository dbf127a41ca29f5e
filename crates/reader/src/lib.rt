//! The reader: what a text's fields are by the rows of a module, what they tell, and whether the text is sound.
#![tactic(auto)]

mod gathered;
mod interface;
mod iter;
mod laid;
mod rows;
mod texts;
mod values;
mod views;

pub use interface::{Module, Row};
pub use rows::format_for;
pub use texts::{Reading, read_text};
pub use values::Values;
pub use views::{FieldView, Kind, view_field};
