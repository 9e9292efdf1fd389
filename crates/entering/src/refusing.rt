//! The refusals of an enter that ask the book's orders and prices.
ghost use Rattle.std.specs.Prelude.{◌≡◌};
ghost use Rattle.rules.specs.Refusals.{first, passed, no_place, no_opposite};
ghost use Rattle.memory.specs.States.{book_of};
ghost use Rattle.entering.specs.Refused.{late_refusals};

use memory::State;
use orders::ORDERS;
use resting::best_price;
use rules::{Order, Refusal};

/// Whether as many orders rest as can, and one more would.
fn is_full(state: &State, order: Order) -> bool
    ensures { result ≡ no_place (book_of state.now) order }
{
    state.orders.len() >= ORDERS && order.kind.can_rest()
}

/// Whether a market order meets neither a best price nor an away price.
fn meets_nothing(state: &State, order: Order) -> bool
    ensures { result ≡ no_opposite (book_of state.now) order }
{
    let side = order.side.opposite();
    !order.kind.has_limit()
        && best_price(state.side(side), state.lot).is_none()
        && state.away(side).is_none()
}

/// Refused by the first of these that applies: an old number, no place for one more order, nothing for a market order to meet.
pub(crate) fn check_book(state: &State, order: Order) -> Result<(), Refusal>
    ensures { result ≡ passed (first (late_refusals (book_of state.now) order)) }
{
    Refusal::OldNumber.when(order.number <= state.last)?;
    Refusal::BookFull.when(is_full(state, order))?;
    Refusal::NoOppositePrice.when(meets_nothing(state, order))
}
