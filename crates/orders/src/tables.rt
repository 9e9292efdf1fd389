//! The table's memory.
use arrays::ArrayVec;
use rules::Order;

mod changing;
mod deducting;
mod finding;

/// As many orders as can rest.
pub const ORDERS: usize = 128;

/// An order at rest, and how many shares of it rest.
#[derive(Clone, Copy, Debug, PartialEq, Eq)]
pub struct Resting {
    pub order: Order,
    pub quantity: u32,
}

/// The orders at rest, by rising number. The place of one that goes is used again.
#[derive(Drop)]
pub struct OrderTable {
    rows: ArrayVec<Resting, ORDERS>,
}
