//! The rows of orders that are given back.
ghost use Rattle.std.specs.Prelude.{◌≡◌, ◌<◌, ◌≤◌, [], ◌∷◌, length};
ghost use Rattle.std.specs.List.{AllByRecursion};
ghost use Rattle.rules.specs.Lists.{sum_of};
ghost use Rattle.rules.specs.Rules.{row_given_back};
ghost use Rattle.rules.specs.declared.answers.Row.TheVariants.{GivenBack};
ghost use Rattle.trading.specs.Written.{written};
ghost use Rattle.orders.specs.Rows.{rows_of};
ghost use Rattle.giving_back.specs.Backs.{backs};

use memory::Reply;
use orders::OrderTable;
use rules::{Accepted, Row};

/// Shares of one order are given back: one row, and the reply.
pub(crate) fn give_back(order: u32, quantity: u32, report: &mut [Row]) -> Reply
    requires { 0 < length report.old }
    ensures reply { result ≡ record { accepted = record { traded = 0; given_back = quantity }; rows = 1 } }
    ensures rows { report.new ≡ written report.old 0 (GivenBack order quantity ∷ []) }
{
    report[0] = Row::GivenBack { order, quantity };
    Reply {
        accepted: Accepted {
            traded: 0,
            given_back: quantity,
        },
        rows: 1,
    }
}

/// Writes a row for each order of the table, with all that rests of it. How many shares these are.
pub(crate) fn give_all_back(orders: &OrderTable, report: &mut [Row]) -> u32
    requires small { AllByRecursion (λ r. r.quantity ≤ 500000) (rows_of orders.now) }
    requires room { 128 ≤ length report.old }
    ensures rows { report.new ≡ written report.old 0 (backs (rows_of orders.now)) }
    ensures total { result ≡ sum_of row_given_back (backs (rows_of orders.now)) }
{
    let mut total = 0;
    // By index: after an adapter of `iter_mut` a proof knows only how many rows there are.
    for (i, row) in orders.rows().iter().enumerate() {
        report[i] = Row::GivenBack {
            order: row.order.number,
            quantity: row.quantity,
        };
        total += row.quantity;
    }
    total
}
