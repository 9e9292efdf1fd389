//! The best price of a side, and the setter mark.
ghost use Rattle.std.specs.Prelude.{◌≡◌, ◌<◌, ◌&&◌, length, get_or, ◌==◌, nat_le, slice_index_or};
ghost use Rattle.rules.specs.Lists.{any};
ghost use Rattle.rules.specs.Books.{Level, ranked_by, better};
ghost use Rattle.rules.specs.Quantities.{displayed, best};
ghost use Rattle.rules.specs.Marks.{beats, mark_at};
ghost use Rattle.levels.specs.Sides.{levels_of};
ghost use Rattle.resting.specs.Earned.{earned};

use allocation::Ranking;
use amounts::{any_marked, come_to};
use levels::{Levels, at_least};
use rules::{Side, Step};

/// Whether the displayed quantity of the level at `i` comes to the round lot.
fn displays_lot(levels: &Levels, i: usize, lot: u32) -> bool
    requires { i < length (levels_of levels.now) }
    ensures { (d : Level) → result ≡ nat_le lot (displayed (slice_index_or (levels_of levels.now) i d)) }
{
    come_to(lot, levels.parts(i, Step::Displayed))
}

/// The best price of a side: its best price at which the displayed quantity comes to the round lot.
pub fn best_price(levels: &Levels, lot: u32) -> Option<u32>
    ensures { result ≡ best lot (levels_of levels.now) }
{
    // By place: in memory a level is a head and a stretch of parts, and an iterator would have to make a view of each.
    (0..levels.len())
        .find(|&i| displays_lot(levels, i, lot))
        .map(|i| levels.price(i))
}

/// Whether the level at `i` has the price, and a marked part.
fn marked_there(levels: &Levels, i: usize, price: u32) -> bool
    requires { i < length (levels_of levels.now) }
    ensures { (d : Level) → result ≡ ((get_or (levels_of levels.now) i d).price == price && any (λ p. p.marked) (get_or (levels_of levels.now) i d).shown.parts) }
{
    levels.price(i) == price && any_marked(levels.parts(i, Step::Displayed))
}

/// Whether a part at the price is marked.
pub fn has_mark(levels: &Levels, price: u32) -> bool
    ensures { result ≡ mark_at price (levels_of levels.now) }
{
    // By place, as above.
    (0..levels.len()).any(|i| marked_there(levels, i, price))
}

/// Whether a price is better than another that there may be.
fn beats_price<K: Ranking>(side: Side, price: u32, other: Option<u32>) -> bool
    ensures { result ≡ beats (ranked_by K.initial K.good) side price other }
{
    other.is_none_or(|w| !at_least::<K>(side, w, price))
}

/// What a mark on a side is judged by.
#[derive(Clone, Copy, Debug, PartialEq, Eq)]
pub struct MarkTerms {
    /// The round lot.
    pub lot: u32,
    /// The away price of the side, if there is one.
    pub away: Option<u32>,
}

impl MarkTerms {
    /// Whether a part of `n` shares that is shown at the price, beside what the side has, is marked: it is at least the round lot,
    /// better than the best price of its side without it and than its side's away price, and no part at that price is marked.
    pub fn earns_mark<K: Ranking>(self, levels: &Levels, side: Side, price: u32, n: u32) -> bool
        ensures { result ≡ earned (ranked_by K.initial K.good) side price n self.lot self.away (levels_of levels.now) }
    {
        self.lot <= n
            && beats_price::<K>(side, price, best_price(levels, self.lot))
            && beats_price::<K>(side, price, self.away)
            && !has_mark(levels, price)
    }
}
