//! An order arrives and trades.
ghost use Rattle.std.specs.Prelude.{◌≡◌, ◌≤◌, length};
ghost use Rattle.std.specs.List.{AllByRecursion};
ghost use Rattle.rules.specs.Books.{ranked_by};
ghost use Rattle.rules.specs.Reserve.{replenish as replenish_book};
ghost use Rattle.rules.specs.Invariants.{numbers};
ghost use Rattle.rules.specs.Entering.{arrived, trade};
ghost use Rattle.trading.specs.Written.{written};
ghost use Rattle.orders.specs.Rows.{rows_of, orders_of};
ghost use Rattle.orders.specs.Deducted.{taken_from, deducted, Named};
ghost use Rattle.memory.specs.States.{book_of, Tallied, Stands};
ghost use Rattle.matching.specs.Underway.{Underway};

use crate::opposites::trade_opposite;
use crate::renewals::replenish_all;
use allocation::{Dealing, Ranking};
use memory::State;
use rules::{Order, Row};
use trading::Progress;

/// What orders traded is taken off their rows of the table, and then reserve is replenished.
fn settle_trades<K: Ranking>(state: &mut State, rows: &[Row])
    requires book { Underway (ranked_by K.initial K.good) (book_of state.old).lot (book_of state.old).orders 128 (book_of state.old) }
    requires named { AllByRecursion (Named (numbers (orders_of state.old.orders))) rows.now }
    requires enough { AllByRecursion (λ r. taken_from r.order.number rows.now ≤ r.quantity) (rows_of state.old.orders) }
    ensures book { book_of state.new ≡ replenish_book (ranked_by K.initial K.good) (book_of state.old) }
    ensures table { rows_of state.new.orders ≡ deducted rows.now (rows_of state.old.orders) }
{
    state.orders.deduct(rows);
    replenish_all::<K>(state);
}

// A state, and not one that stands by its type: when this ends, levels may be empty and orders spent.
/// An accepted order's number is spent; the order trades with the other side, what orders traded is taken off their rows
/// of the table, and then reserve is replenished. Where nothing traded no reserve runs low.
pub fn match_order<K: Ranking, D: Dealing>(
    state: &mut State,
    dealing: &D,
    order: Order,
    report: &mut [Row],
) -> Progress
    requires stands { Stands (ranked_by K.initial K.good) state.old }
    requires room { 400 ≤ length report.old }
    ensures book { book_of state.new ≡ (trade (ranked_by K.initial K.good) D.meaning order (arrived order (book_of state.old))).rest }
    ensures left { result.left ≡ (trade (ranked_by K.initial K.good) D.meaning order (arrived order (book_of state.old))).left }
    ensures rows { report.new ≡ written report.old 0 (trade (ranked_by K.initial K.good) D.meaning order (arrived order (book_of state.old))).rows }
    ensures count { result.rows ≡ length (trade (ranked_by K.initial K.good) D.meaning order (arrived order (book_of state.old))).rows }
    ensures table { rows_of state.new.orders ≡ deducted (trade (ranked_by K.initial K.good) D.meaning order (arrived order (book_of state.old))).rows (rows_of state.old.orders) }
    ensures tallied { Tallied (rows_of state.new.orders) (book_of state.new) }
{
    state.last = order.number;
    let progress = trade_opposite::<K, D>(state, dealing, order, report);
    let n = progress.rows;
    if n > 0 {
        settle_trades::<K>(state, &report[0..n]);
    }
    progress
}
