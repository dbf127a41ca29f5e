//! What the two books of a gateway keep: orders and statements.
ghost use Rattle.std.specs.Prelude.{◌≡◌};
ghost use Rattle.books.specs.States.{state_number, type_number};

use contents::Date;

// The types of text that are orders.
#[derive(Clone, Copy, PartialEq, Eq)]
pub enum OrderType {
    Customer,
    Bank,
}

impl OrderType {
    // The type's number: 103 for a customer's order, 202 for a bank's own. A method and no conversion, since
    // `u16::from(kind)` would not say which number.
    pub fn number(self) -> u16
        ensures { result ≡ type_number self }
    {
        match self {
            OrderType::Customer => 103,
            OrderType::Bank => 202,
        }
    }
}

// How far an order has come.
#[derive(Clone, Copy, PartialEq, Eq)]
pub enum State {
    Sent,
    RecallAsked,
    ReportedSettled,
    Confirmed,
    Ended,
}

impl State {
    // The state's number, 1 to 5; a method for the same reason.
    pub fn number(self) -> u8
        ensures { result ≡ state_number self }
    {
        match self {
            State::Sent => 1,
            State::RecallAsked => 2,
            State::ReportedSettled => 3,
            State::Confirmed => 4,
            State::Ended => 5,
        }
    }
}

// The three letters of a currency. A rule of the project: an entry of a book holds no array.
#[derive(Clone, Copy, PartialEq, Eq)]
pub struct Currency(pub u8, pub u8, pub u8);

// An order, kept under its reference. The amount is in hundredths.
#[derive(Clone, Copy, PartialEq, Eq)]
pub struct Order {
    pub kind: OrderType,
    pub date: Date,
    pub currency: Currency,
    pub amount: u64,
    pub state: State,
}

// The closing of a statement, kept under its number. The amount is in hundredths, below 0 for a
// debit.
#[derive(Clone, Copy, PartialEq, Eq)]
pub struct Statement {
    pub date: Date,
    pub currency: Currency,
    pub amount: i64,
}
