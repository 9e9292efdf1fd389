//! The memory of a book: one value of fixed size.
ghost use Rattle.std.specs.Prelude.{◌≡◌, length};

use levels::{Levels, PARTS};
use orders::OrderTable;
use rules::{Phase, Step};

/// The price levels of each side, best price first.
#[derive(Drop)]
pub struct Sides {
    pub buys: Levels,
    pub sells: Levels,
}

/// All that a book holds. Nothing of it is on the heap.
#[derive(Drop)]
pub struct State {
    /// The round lot.
    pub lot: u32,
    /// The steps of trading at a price, in their order.
    pub steps: [Step; 3],
    pub phase: Phase,
    /// The number of the last accepted order.
    pub last: u32,
    /// The away quote, as the session file and the rules have it; 0 means none.
    // Numbers and no options, since the session's columns and the rules' book have 0 for none.
    pub bid: u32,
    pub offer: u32,
    /// The orders that rest, by rising number.
    pub orders: OrderTable,
    pub sides: Sides,
    /// Room for the shares of one queue. It is no part of the book.
    pub shares: [u32; PARTS],
    ghost sized: { length shares ≡ 384 },
}
