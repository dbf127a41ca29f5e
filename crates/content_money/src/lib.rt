//! Field formats of amounts and numbers: money, balances, statement numbers.
#![tactic(auto)]

mod balances;
mod examples;
mod money;
mod numbers;
mod signs;

pub use balances::{Balance, read_balance, write_balance};
pub use examples::worked_contents;
pub use money::{Money, read_money, write_money};
pub use numbers::{read_statement_number, write_statement_number};
pub use signs::{Sign, read_signed};
