//! Shares are taken off an order: from its hidden part, then the later shown part, then the earlier.
ghost use Rattle.std.specs.Prelude.{◌≡◌, ◌-◌, ◌<◌, ◌≤◌, reverse, length, get_or, slice_index_or, slice_set};
ghost use Rattle.allocation.specs.ByTime.{shares_in_order};
ghost use Rattle.allocation.specs.Dealings.{sum};
ghost use Rattle.rules.specs.Books.{Level, level};
ghost use Rattle.rules.specs.Changes.{lose};
ghost use Rattle.rules.specs.Quantities.{pieces};
ghost use Rattle.rules.specs.TakingOff.{take_off_level, take_off_side};
ghost use Rattle.levels.specs.Sides.{levels_of};
ghost use Rattle.resting.specs.Alone.{Alone};

use amounts::{left_of, to_order, to_order_latest_first};
use levels::Levels;
use rules::Step;

// `room`, the side and the place are lent by the caller, here and below: a struct of these loans would be made anew at each call,
// which is no plainer; and an array for a slice with room for 384 shares would be asking more.
/// Shares off the hidden part of an order at `i`. How many are still to be taken.
pub(crate) fn off_hidden(
    levels: &mut Levels,
    i: usize,
    order: u32,
    quantity: u32,
    room: &mut [u32],
) -> u32
    requires place { i < length (levels_of levels.old) }
    requires room { 384 ≤ length room.old }
    ensures level { (d : Level) → levels_of levels.new ≡ slice_set (levels_of levels.old) i (level (get_or (levels_of levels.old) i d).price (get_or (levels_of levels.old) i d).shown (lose (shares_in_order quantity (pieces order (get_or (levels_of levels.old) i d).hidden.parts)) (get_or (levels_of levels.old) i d).hidden)) }
    ensures left { (d : Level) → result ≡ quantity - sum (shares_in_order quantity (pieces order (get_or (levels_of levels.old) i d).hidden.parts)) }
{
    let parts = levels.parts(i, Step::Hidden);
    let shares = &mut room[0..parts.len()];
    to_order(order, quantity, parts, shares);
    levels.lose(i, Step::Hidden, shares);
    left_of(quantity, shares)
}

/// Shares off the shown parts of an order at `i`, the later first.
fn off_shown(levels: &mut Levels, i: usize, order: u32, quantity: u32, room: &mut [u32])
    requires place { i < length (levels_of levels.old) }
    requires room { 384 ≤ length room.old }
    ensures { (d : Level) → levels_of levels.new ≡ slice_set (levels_of levels.old) i (level (get_or (levels_of levels.old) i d).price (lose (reverse (shares_in_order quantity (reverse (pieces order (get_or (levels_of levels.old) i d).shown.parts)))) (get_or (levels_of levels.old) i d).shown) (get_or (levels_of levels.old) i d).hidden) }
{
    let parts = levels.parts(i, Step::Displayed);
    let shares = &mut room[0..parts.len()];
    to_order_latest_first(order, quantity, parts, shares);
    levels.lose(i, Step::Displayed, shares);
}

/// Takes shares off an order at the level at `i`. `room` is for the amounts.
pub fn take_off(levels: &mut Levels, i: usize, order: u32, quantity: u32, room: &mut [u32])
    requires place { i < length (levels_of levels.old) }
    requires room { 384 ≤ length room.old }
    ensures { (d : Level) → levels_of levels.new ≡ slice_set (levels_of levels.old) i (take_off_level order quantity (slice_index_or (levels_of levels.old) i d)) }
{
    let left = off_hidden(levels, i, order, quantity, room);
    off_shown(levels, i, order, left, room);
}

/// Takes shares off an order that rests at the level at `i` alone. `room` is for the amounts.
// Beside take_off, since its clause speaks of the whole side; the lot is named by its clauses alone.
pub fn take_off_side(
    levels: &mut Levels,
    i: usize,
    order: u32,
    quantity: u32,
    lot: u32,
    room: &mut [u32],
)
    requires place { i < length (levels_of levels.old) }
    requires alone { Alone lot order i (levels_of levels.old) }
    requires room { 384 ≤ length room.old }
    ensures { levels_of levels.new ≡ take_off_side order quantity (levels_of levels.old) }
{
    take_off(levels, i, order, quantity, room);
}
