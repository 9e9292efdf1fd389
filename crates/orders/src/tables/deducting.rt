//! Trades take their shares off the orders at rest.
ghost use Rattle.std.specs.Prelude.{◌≡◌, ◌≤◌};
ghost use Rattle.std.specs.List.{AllByRecursion};
ghost use Rattle.rules.specs.Lists.{Distinct};
ghost use Rattle.rules.specs.Invariants.{numbers};
ghost use Rattle.orders.specs.Rows.{rows_of, orders_of};
ghost use Rattle.orders.specs.Deducted.{takes, taken_from, deducted_by, deducted, Named};

use super::OrderTable;
use rules::Row;

impl OrderTable {
    /// A trade takes its shares off the order that rested. A row of shares given back changes nothing.
    fn deduct_row(&mut self, row: Row)
        requires once { Distinct (numbers (orders_of self.old)) }
        requires named { Named (numbers (orders_of self.old)) row }
        requires enough { AllByRecursion (λ r. takes r.order.number row ≤ r.quantity) (rows_of self.old) }
        ensures { rows_of self.new ≡ deducted_by row (rows_of self.old) }
    {
        match row {
            Row::Trade {
                resting,
                quantity,
                ..
            } => {
                if let Some(i) = self.find(resting) {
                    self.decrement(i, quantity);
                }
            }
            Row::GivenBack { .. } => {}
        }
    }

    /// Trades take their shares off the orders that rested. No other row changes.
    pub fn deduct(&mut self, rows: &[Row])
        requires once { Distinct (numbers (orders_of self.old)) }
        requires named { AllByRecursion (Named (numbers (orders_of self.old))) rows.now }
        requires enough { AllByRecursion (λ r. taken_from r.order.number rows.now ≤ r.quantity) (rows_of self.old) }
        ensures { rows_of self.new ≡ deducted rows.now (rows_of self.old) }
    {
        for row in rows {
            self.deduct_row(*row);
        }
    }
}
