//! The eight calls of a book.
use super::Order;

/// A call of the book.
#[derive(Clone, Copy, Debug, PartialEq, Eq, Hash)]
pub enum Call {
    /// A new book opens.
    Open,
    /// Entering stops, and every setter mark is lost.
    Halt,
    /// A halted book opens again.
    Resume,
    /// The book shuts, and every order is given back.
    Close,
    // A number, as the session's columns have it: a wrong one must be refused by its number.
    /// The prices quoted away from this venue; 0 means none.
    Quote { bid: u32, offer: u32 },
    /// An order arrives, trades, and rests or is given back.
    Enter(Order),
    /// All that rests of an order is given back.
    Cancel { order: u32 },
    /// Some of what rests of an order is given back.
    Reduce { order: u32, quantity: u32 },
}
