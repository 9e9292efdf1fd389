//! Reserve orders of the book show anew what they hide.
ghost use Rattle.std.specs.Prelude.{◌≡◌, true};
ghost use Rattle.std.specs.List.{ContainsAt as Has};
ghost use Rattle.rules.specs.Books.{ranked_by};
ghost use Rattle.rules.specs.Reserve.{is_reserve, replenish_order, replenish as replenish_book};
ghost use Rattle.memory.specs.States.{book_of};
ghost use Rattle.matching.specs.Underway.{Underway};

use allocation::Ranking;
use memory::State;
use resting::MarkTerms;
use rules::Order;

/// A reserve order is replenished on its side, if it runs low.
fn replenish_reserve<K: Ranking>(state: &mut State, order: Order)
    requires book { Underway (ranked_by K.initial K.good) (book_of state.old).lot (book_of state.old).orders 384 (book_of state.old) }
    requires rests { Has (book_of state.old).orders order }
    requires kind { is_reserve order.kind ≡ true }
    ensures book { book_of state.new ≡ replenish_order (ranked_by K.initial K.good) (book_of state.old) order }
    ensures orders { state.new.orders ≡ state.old.orders }
{
    let terms = MarkTerms {
        lot: state.lot,
        away: state.away(order.side),
    };
    let levels = state.sides.side_mut(order.side);
    terms.replenish::<K>(levels, order, &mut state.shares);
}

/// An order is replenished: only one of the kind reserve can change.
fn renew_order<K: Ranking>(state: &mut State, order: Order)
    requires book { Underway (ranked_by K.initial K.good) (book_of state.old).lot (book_of state.old).orders 384 (book_of state.old) }
    requires rests { Has (book_of state.old).orders order }
    ensures book { book_of state.new ≡ replenish_order (ranked_by K.initial K.good) (book_of state.old) order }
    ensures orders { state.new.orders ≡ state.old.orders }
{
    if order.kind.is_reserve() {
        replenish_reserve::<K>(state, order);
    }
}

/// Every order that rests is looked at, lower number first, and reserve that runs low is replenished.
pub(crate) fn replenish_all<K: Ranking>(state: &mut State)
    requires { Underway (ranked_by K.initial K.good) (book_of state.old).lot (book_of state.old).orders 128 (book_of state.old) }
    ensures book { book_of state.new ≡ replenish_book (ranked_by K.initial K.good) (book_of state.old) }
    ensures orders { state.new.orders ≡ state.old.orders }
{
    // By place, since the state is lent out while its orders are gone over.
    for i in 0..state.orders.len() {
        let order = state.orders.row(i).order;
        renew_order::<K>(state, order);
    }
}
