//! The table is made, and looked at.
ghost use Rattle.std.specs.Prelude.{◌≡◌, ◌<◌, ◌≤◌, [], length, ◌==◌, position, slice_index_or};
ghost use Rattle.orders.specs.Rows.{rows_of};

use super::{OrderTable, Resting};
use arrays::ArrayVec;
use rules::{Kind, Order, Side};

impl Resting {
    /// No order.
    const NONE: Resting = Resting {
        order: Order {
            number: 0,
            participant: 0,
            side: Side::Buy,
            kind: Kind::Limit,
            quantity: 0,
            display: 0,
            price: 0,
        },
        quantity: 0,
    };
}

impl OrderTable {
    /// A table without orders.
    pub fn new() -> OrderTable
        ensures { rows_of result ≡ [] }
    {
        OrderTable {
            rows: ArrayVec::new(Resting::NONE),
        }
    }

    /// How many orders rest.
    pub fn len(&self) -> usize
        ensures count { result ≡ length (rows_of self.now) }
        ensures most { result ≤ 128 }
    {
        self.rows.len()
    }

    /// The rows, by rising number of their orders.
    pub fn rows(&self) -> &[Resting]
        ensures rows { result.now ≡ rows_of self.now }
        ensures most { length result.now ≤ 128 }
    {
        self.rows.as_slice()
    }

    /// The row at `i`.
    pub fn row(&self, i: usize) -> &Resting
        requires { i < length (rows_of self.now) }
        ensures { result.now ≡ slice_index_or (rows_of self.now) i result.now }
    {
        self.rows.at(i)
    }

    // From the front: that numbers rise is no fact of the table's type, and a ghost field for it would ask more of `push`.
    /// The place of an order; none if it does not rest.
    pub fn find(&self, number: u32) -> Option<usize>
        ensures { result ≡ position (λ r. r.order.number == number) (rows_of self.now) }
    {
        let rows = self.rows.as_slice();
        rows.iter().position(|row| row.order.number == number)
    }
}

// Written and not derived, so that the contract says which value it is.
impl Default for OrderTable {
    ghost is_default = { λ t. rows_of t ≡ [] };

    fn default() -> Self {
        OrderTable::new()
    }
}
