//! A cancel gives back all that rests of an order.
ghost use Rattle.std.specs.Prelude.{◌≡◌, false, length};
ghost use Rattle.allocation.specs.Dealings.{Deal};
ghost use Rattle.rules.specs.Books.{ranked_by};
ghost use Rattle.rules.specs.Refusals.{bad_number};
ghost use Rattle.rules.specs.declared.calls.Call.TheVariants.{Cancel};
ghost use Rattle.memory.specs.States.{book_of};
ghost use Rattle.memory.specs.Following.{Follows};
ghost use Rattle.giving_back.specs.Permitted.{Permitted};

use crate::offs::{drop_level, level_of, take_off_order};
use crate::reports::give_back;
use allocation::Ranking;
use memory::{Reply, Standing};
use rules::{Refusal, Row};

/// All that rests of an order is given back. Refused if no such order rests.
pub fn cancel<K: Ranking>(
    book: &mut Standing<K>,
    order: u32,
    report: &mut [Row],
) -> Result<Reply, Refusal>
    requires number { bad_number order ≡ false }
    requires permitted { Permitted (book_of book.old.state) (length report.old) (Cancel order) }
    ensures { (deal : Deal) → Follows (ranked_by K.initial K.good) deal (Cancel order) book.old.state report.old book.new.state report.new result }
{
    let k = book.state.orders.find(order).ok_or(Refusal::NoSuchOrder)?;
    let i = level_of(book, k);
    let row = *book.state.orders.row(k);
    take_off_order(&mut book.state, i, row.order, row.quantity);
    drop_level(&mut book.state, row.order.side, i);
    book.state.orders.remove(k);
    Ok(give_back(order, row.quantity, report))
}
