//! Shares are taken off one order of a book.
ghost use Rattle.std.specs.Prelude.{◌≡◌, ◌+◌, ◌<◌, ◌++◌, length, get_or, take, drop, if◌then◌else◌, slice_index_or};
ghost use Rattle.rules.specs.Books.{Level, side as levels_on, with_side};
ghost use Rattle.rules.specs.Rules.{holds};
ghost use Rattle.rules.specs.TakingOff.{take_off};
ghost use Rattle.orders.specs.Rows.{rows_of};
ghost use Rattle.memory.specs.States.{book_of};
ghost use Rattle.giving_back.specs.Places.{RestsAt};

use allocation::Ranking;
use memory::{Standing, State};
use orders::Resting;
use resting::take_off_side;
use rules::{Order, Side};

/// The place of the level at which the order of a row rests, on its side.
pub(crate) fn level_of<K: Ranking>(book: &Standing<K>, k: usize) -> usize
    requires { k < length (rows_of book.now.state.orders) }
    ensures { (d : Resting) → RestsAt (book_of book.now.state) (get_or (rows_of book.now.state.orders) k d).order result }
{
    let order = book.state.orders.row(k).order;
    book.state.side(order.side).find_price(order.price).unwrap()
}

/// Takes shares off an order that rests at the level at `i` of its side alone.
pub(crate) fn take_off_order(state: &mut State, i: usize, order: Order, quantity: u32)
    requires { RestsAt (book_of state.old) order i }
    ensures book { book_of state.new ≡ take_off order.number quantity (book_of state.old) }
    ensures rows { rows_of state.new.orders ≡ rows_of state.old.orders }
{
    let lot = state.lot;
    let levels = state.sides.side_mut(order.side);
    take_off_side(levels, i, order.number, quantity, lot, &mut state.shares);
}

/// The level at `i` of a side goes if it has no part.
pub(crate) fn drop_level(state: &mut State, side: Side, i: usize)
    requires { i < length (levels_on side (book_of state.old)) }
    ensures book { (d : Level) → book_of state.new ≡ with_side side (if holds (slice_index_or (levels_on side (book_of state.old)) i d) then levels_on side (book_of state.old) else take i (levels_on side (book_of state.old)) ++ drop (i + 1) (levels_on side (book_of state.old))) (book_of state.old) }
    ensures rows { rows_of state.new.orders ≡ rows_of state.old.orders }
{
    state.sides.side_mut(side).drop_empty(i);
}
