//! Books: records under keys, in order of arrival, for each account apart.
#![tactic(auto)]

mod book;
mod calls;
mod keys;
mod number;
mod records;
mod reference;
mod rows;
mod shares;

pub use book::{Book, Entry};
pub use calls::{Call, replay};
pub use keys::Key;
pub use number::{LAST_NUMBER, Number};
pub use records::{Currency, Order, OrderType, State, Statement};
pub use reference::{MAX_REFERENCE, Reference};
pub use shares::{MAX_ROOM, Shares};
