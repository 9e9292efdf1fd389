//! A reserve order shows anew what it hides.
ghost use Rattle.std.specs.Prelude.{◌≡◌, ◌+◌, ◌<◌, ◌≤◌, length, get_or, slice_index_or, slice_set};
ghost use Rattle.rules.specs.Books.{Level, level, queue, nothing_at};
ghost use Rattle.rules.specs.Quantities.{of_order as shares_of, of_level};
ghost use Rattle.rules.specs.Reserve.{runs_low, raised, join_hidden, show_anew};
ghost use Rattle.levels.specs.Heads.{count};
ghost use Rattle.levels.specs.Sides.{levels_of};
ghost use Rattle.resting.specs.Replenished.{CanShow};

use crate::offs::off_hidden;
use amounts::{latest_alone, of_order, place_of};
use levels::Levels;
use rules::{Order, Step};

/// Whether an order shows less than the round lot at `i`, and hides something.
pub fn is_low(levels: &Levels, i: usize, lot: u32, order: u32) -> bool
    requires { i < length (levels_of levels.now) }
    ensures { (d : Level) → result ≡ runs_low lot order (slice_index_or (levels_of levels.now) i d) }
{
    of_order(order, levels.parts(i, Step::Displayed)) < lot
        && of_order(order, levels.parts(i, Step::Hidden)) > 0
}

/// The hidden part of an order at `i` grows, and keeps its working time.
fn raise(levels: &mut Levels, i: usize, order: u32, more: u32)
    requires place { i < length (levels_of levels.old) }
    requires small { shares_of order (get_or (levels_of levels.old) i (nothing_at 0)).hidden.parts + more ≤ 500000 }
    ensures { (d : Level) → levels_of levels.new ≡ slice_set (levels_of levels.old) i (level (get_or (levels_of levels.old) i d).price (get_or (levels_of levels.old) i d).shown (queue (raised order more (get_or (levels_of levels.old) i d).hidden.parts) (get_or (levels_of levels.old) i d).hidden.wheel)) }
{
    let parts = levels.parts(i, Step::Hidden);
    if let Some(k) = place_of(order, parts) {
        let part = parts[k];
        levels.set_part(i, Step::Hidden, k, part.with_quantity(part.quantity + more));
    }
}

// `room`, the side and the place are lent by the caller, here and below: a struct of these loans would be made anew at each call.
/// If an order that runs low shows two parts at `i`, the later joins the hidden part. `room` is for the amounts.
pub fn join_later_part(levels: &mut Levels, i: usize, lot: u32, order: u32, room: &mut [u32])
    requires place { i < length (levels_of levels.old) }
    requires small { of_level order (slice_index_or (levels_of levels.old) i (nothing_at 0)) ≤ 500000 }
    requires room { 384 ≤ length room.old }
    ensures { (d : Level) → levels_of levels.new ≡ slice_set (levels_of levels.old) i (join_hidden lot order (slice_index_or (levels_of levels.old) i d)) }
{
    if !is_low(levels, i, lot, order) {
        return;
    }
    let parts = levels.parts(i, Step::Displayed);
    let shares = &mut room[0..parts.len()];
    let latest = latest_alone(order, parts, shares);
    if latest < of_order(order, parts) {
        levels.lose(i, Step::Displayed, shares);
        raise(levels, i, order, latest);
    }
}

/// If an order runs low at `i`, a new part of it is shown, with a new working time:
/// the lesser of its display quantity and what it hides. `room` is for the amounts.
pub fn show_new_part(
    levels: &mut Levels,
    i: usize,
    lot: u32,
    order: Order,
    mark: bool,
    room: &mut [u32],
)
    requires place { i < length (levels_of levels.old) }
    requires order { CanShow order }
    requires parts { count (levels_of levels.old) < 384 }
    requires room { 384 ≤ length room.old }
    ensures { (d : Level) → levels_of levels.new ≡ slice_set (levels_of levels.old) i (show_anew lot order mark (slice_index_or (levels_of levels.old) i d)) }
{
    if !is_low(levels, i, lot, order.number) {
        return;
    }
    let n = order
        .display
        .min(of_order(order.number, levels.parts(i, Step::Hidden)));
    levels.put(i, Step::Displayed, order.part(n, mark));
    let _ = off_hidden(levels, i, order.number, n, room);
}
