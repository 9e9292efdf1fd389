//! A reduction gives back some of what rests of an order.
ghost use Rattle.std.specs.Prelude.{◌≡◌, false, length};
ghost use Rattle.allocation.specs.Dealings.{Deal};
ghost use Rattle.rules.specs.Books.{ranked_by};
ghost use Rattle.rules.specs.Refusals.{bad_number, bad_quantity};
ghost use Rattle.rules.specs.declared.calls.Call.TheVariants.{Reduce};
ghost use Rattle.memory.specs.States.{book_of};
ghost use Rattle.memory.specs.Following.{Follows};
ghost use Rattle.giving_back.specs.Permitted.{Permitted};

use crate::offs::{level_of, take_off_order};
use crate::reports::give_back;
use allocation::Ranking;
use memory::{Reply, Standing};
use rules::{Refusal, Row};

/// Some of what rests of an order is given back. Refused if no such order rests, and if no share of it would be left.
pub fn reduce<K: Ranking>(
    book: &mut Standing<K>,
    order: u32,
    quantity: u32,
    report: &mut [Row],
) -> Result<Reply, Refusal>
    requires number { bad_number order ≡ false }
    requires quantity { bad_quantity quantity ≡ false }
    requires permitted { Permitted (book_of book.old.state) (length report.old) (Reduce order quantity) }
    ensures { (deal : Deal) → Follows (ranked_by K.initial K.good) deal (Reduce order quantity) book.old.state report.old book.new.state report.new result }
{
    let k = book.state.orders.find(order).ok_or(Refusal::NoSuchOrder)?;
    let row = *book.state.orders.row(k);
    if row.quantity <= quantity {
        return Err(Refusal::ReductionTooLarge);
    }
    let i = level_of(book, k);
    take_off_order(&mut book.state, i, row.order, quantity);
    book.state.orders.decrement(k, quantity);
    Ok(give_back(order, quantity, report))
}
