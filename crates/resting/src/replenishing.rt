//! A reserve order is replenished on its side.
ghost use Rattle.std.specs.Prelude.{◌≡◌, ◌<◌, ◌≤◌, min, length, slice_index_or};
ghost use Rattle.rules.specs.Books.{Level, ranked_by};
ghost use Rattle.rules.specs.Quantities.{of_order as shares_of, of_side};
ghost use Rattle.rules.specs.Reserve.{hidden_of};
ghost use Rattle.levels.specs.Sides.{levels_of};
ghost use Rattle.resting.specs.Replenished.{CanShow, replenished, RoomToShow};

use crate::marks::MarkTerms;
use crate::reserves::{is_low, join_later_part, show_new_part};
use allocation::Ranking;
use amounts::of_order;
use levels::Levels;
use rules::{Order, Step};

/// What an order hides at the level at `i`.
fn hidden_at(levels: &Levels, i: usize, order: u32) -> u32
    requires { i < length (levels_of levels.now) }
    ensures { (d : Level) → result ≡ shares_of order (slice_index_or (levels_of levels.now) i d).hidden.parts }
{
    of_order(order, levels.parts(i, Step::Hidden))
}

/// The lesser of a display quantity and what an order hides on the side.
fn size_to_show(levels: &Levels, order: u32, display: u32) -> u32
    ensures { result ≡ min display (hidden_of order (levels_of levels.now)) }
{
    // By place: in memory a level is a head and a stretch of parts, and an iterator would have to make a view of each.
    let left = (0..levels.len()).fold(
        display,
        |left, i| left.saturating_sub(hidden_at(levels, i, order)),
    );
    display - left
}

impl MarkTerms {
    /// A reserve order that runs low is replenished: a later part of two joins the hidden part, then a new part is shown.
    /// The mark of the new part is judged after the later part has joined. Room for one more part is asked only where the order
    /// runs low. `room` is for the amounts.
    pub fn replenish<K: Ranking>(self, levels: &mut Levels, order: Order, room: &mut [u32])
        requires prices { length (levels_of levels.old) < 385 }
        requires order { CanShow order }
        requires small { of_side order.number (levels_of levels.old) ≤ 500000 }
        requires parts { RoomToShow (ranked_by K.initial K.good) self.lot order (levels_of levels.old) }
        requires room { 384 ≤ length room.old }
        ensures { levels_of levels.new ≡ replenished (ranked_by K.initial K.good) self.lot self.away order (levels_of levels.old) }
    {
        let i = levels.find_or_make::<K>(order.side, order.price);
        if !is_low(levels, i, self.lot, order.number) {
            return;
        }
        join_later_part(levels, i, self.lot, order.number, room);
        let n = size_to_show(levels, order.number, order.display);
        let mark = self.earns_mark::<K>(levels, order.side, order.price, n);
        show_new_part(levels, i, self.lot, order, mark, room);
    }
}
