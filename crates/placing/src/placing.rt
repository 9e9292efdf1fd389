//! What is left of an order comes to rest in the book.
ghost use Rattle.std.specs.Prelude.{◌≡◌, ◌<◌, true, [], ◌∷◌, ◌++◌, length};
ghost use Rattle.rules.specs.Books.{ranked_by, side as levels_on};
ghost use Rattle.rules.specs.Refusals.{rests};
ghost use Rattle.rules.specs.Entering.{place, with_order};
ghost use Rattle.orders.specs.Rows.{rows_of};
ghost use Rattle.memory.specs.States.{book_of};
ghost use Rattle.placing.specs.Placed.{Fits};

use crate::sides::place_on;
use allocation::Ranking;
use memory::State;
use orders::Resting;
use resting::MarkTerms;
use rules::Order;

/// What is left of an order comes to rest on its side, by its kind.
fn place_parts<K: Ranking>(state: &mut State, order: Order, left: u32)
    requires rests { rests order.kind ≡ true }
    requires fits { Fits order left (levels_on order.side (book_of state.old)) }
    ensures book { book_of state.new ≡ place (ranked_by K.initial K.good) order.kind order left (book_of state.old) }
    ensures table { rows_of state.new.orders ≡ rows_of state.old.orders }
{
    let terms = MarkTerms {
        lot: state.lot,
        away: state.away(order.side),
    };
    place_on::<K>(state.sides.side_mut(order.side), order, left, terms);
}

/// What is left of an order comes to rest, by its kind, and the order joins the table, last.
pub fn place_order<K: Ranking>(state: &mut State, order: Order, left: u32)
    requires rests { rests order.kind ≡ true }
    requires fits { Fits order left (levels_on order.side (book_of state.old)) }
    requires table { length (rows_of state.old.orders) < 128 }
    ensures book { book_of state.new ≡ with_order order (place (ranked_by K.initial K.good) order.kind order left (book_of state.old)) }
    ensures table { rows_of state.new.orders ≡ rows_of state.old.orders ++ record { order = order; quantity = left } ∷ [] }
{
    place_parts::<K>(state, order, left);
    state.orders.push(Resting {
        order,
        quantity: left,
    });
}
