//! Rows of a report.
ghost use Rattle.std.specs.Prelude.{◌≡◌, ◌+◌, ◌≤◌, length};
ghost use Rattle.rules.specs.Trading.{rows_of};
ghost use Rattle.trading.specs.Written.{written};

use rules::{Part, Row, Step};

// The rows name what trades with what: a struct of these would be the row itself.
/// Writes a row for each part that trades, from `at` on. Where the next row goes.
pub fn write_rows(
    report: &mut [Row],
    at: usize,
    step: Step,
    arriving: u32,
    price: u32,
    parts: &[Part],
    shares: &[u32],
) -> usize
    requires each { length shares.now ≡ length parts.now }
    requires room { at + length (rows_of step arriving price parts.now shares.now) ≤ length report.old }
    ensures rows { report.new ≡ written report.old at (rows_of step arriving price parts.now shares.now) }
    ensures count { result ≡ at + length (rows_of step arriving price parts.now shares.now) }
{
    // By index, and `end` counts the rows: a `zip` here leaves the iterator's part of the invariant to be proved by hand.
    let mut end = at;
    for (i, part) in parts.iter().enumerate() {
        let quantity = shares[i];
        if quantity > 0 {
            report[end] = Row::Trade {
                step,
                resting: part.order,
                arriving,
                price,
                quantity,
            };
            end += 1;
        }
    }
    end
}
