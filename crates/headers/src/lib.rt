//! Blocks 1, 2, 3 and 5 of a text: the headers and the trailer. All but block 3 have their parts at fixed
//! places, so that ranges cut them out behind one test of the length.
#![tactic(auto)]

mod application;
mod basic;
mod trailer;
mod user;

pub use application::{Application, Direction, read_application};
pub use basic::{BASIC_WIDTH, is_basic_header};
pub use trailer::{TRAILER_WIDTH, is_trailer};
pub use user::{Item, Span, Step, UserBlock, UserHeader, read_user_header};
