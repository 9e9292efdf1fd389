//! A price's place among the levels, and a queue's place among the parts.
ghost use Rattle.std.specs.Prelude.{◌≡◌, ◌+◌, ◌<◌, ◌≤◌, true, ◌++◌, length, take, drop, ◌==◌, position, slice_index_or, slice_set};
ghost use Rattle.arrays.specs.Items.{items};
ghost use Rattle.rules.specs.Books.{Level, ranked_by, good};
ghost use Rattle.rules.specs.Changes.{on_price};
ghost use Rattle.levels.specs.Heads.{span, count};
ghost use Rattle.levels.specs.Queues.{head_of, ahead};
ghost use Rattle.levels.specs.Prices.{first_at, no_better};
ghost use Rattle.levels.specs.Sides.{levels_of};

use super::Levels;
use crate::heads::LevelHead;
use crate::ranked::at_least;
use allocation::Ranking;
use rules::{Side, Step};

// From the front, by the library's `position`: that prices stand in order is no fact of the side's type, and a ghost field for it would ask more of callers.
/// The place of the first head at the price.
fn first_at_price(heads: &[LevelHead], price: u32) -> Option<usize>
    ensures { result ≡ position (λ h. h.price == price) heads.now }
{
    heads.iter().position(|head| head.price == price)
}

/// The place of the first head that is no better than the price.
fn first_no_better<K: Ranking>(heads: &[LevelHead], side: Side, price: u32) -> Option<usize>
    ensures { result ≡ position (λ h. good (ranked_by K.initial K.good) side price h.price) heads.now }
{
    heads
        .iter()
        .position(|head| at_least::<K>(side, price, head.price))
}

impl Levels {
    /// How many parts come before those of the level at `i`.
    fn start(&self, i: usize) -> usize
        requires { i ≤ length (items self.now.heads) }
        ensures { result ≡ span (take i (items self.now.heads)) }
    {
        let mut start = 0;
        for head in &self.heads.as_slice()[..i] {
            start += head.shown.count + head.hidden.count;
        }
        start
    }

    /// How many parts come before those of the queue of a step at `i`.
    pub(super) fn queue_start(&self, i: usize, step: Step) -> usize
        requires { i < length (levels_of self.now) }
        ensures start { (d : LevelHead) → result ≡ span (take i (items self.now.heads)) + ahead step (slice_index_or (items self.now.heads) i d) }
        ensures within { (d : LevelHead) → result + (head_of step (slice_index_or (items self.now.heads) i d)).count ≤ length (items self.now.parts) }
    {
        let start = self.start(i);
        start + self.heads.at(i).ahead(step)
    }

    /// The place of the first level that is no better than the price.
    fn seek<K: Ranking>(&self, side: Side, price: u32) -> usize
        ensures within { result ≤ length (levels_of self.now) }
        ensures skips { (f : Level → Level) → on_price (ranked_by K.initial K.good) side price f (levels_of self.now) ≡ take result (levels_of self.now) ++ on_price (ranked_by K.initial K.good) side price f (drop result (levels_of self.now)) }
        ensures stops { no_better (ranked_by K.initial K.good) side price (drop result (levels_of self.now)) ≡ true }
    {
        let heads = self.heads.as_slice();
        first_no_better::<K>(heads, side, price).unwrap_or(heads.len())
    }

    /// The place of the first level at the price; none if there is none.
    pub fn find_price(&self, price: u32) -> Option<usize>
        ensures { result ≡ position (λ l. l.price == price) (levels_of self.now) }
    {
        first_at_price(self.heads.as_slice(), price)
    }

    /// Whether the level at `i` has the price.
    fn stands(&self, i: usize, price: u32) -> bool
        ensures { result ≡ first_at price (drop i (levels_of self.now)) }
    {
        i < self.heads.len() && self.heads.at(i).price == price
    }

    /// The place of a price. Its level is found, or made without parts.
    pub fn find_or_make<K: Ranking>(&mut self, side: Side, price: u32) -> usize
        requires { length (levels_of self.old) < 385 }
        ensures within { result < length (levels_of self.new) }
        ensures finds { (f : Level → Level) (d : Level) → on_price (ranked_by K.initial K.good) side price f (levels_of self.old) ≡ slice_set (levels_of self.new) result (f (slice_index_or (levels_of self.new) result d)) }
        ensures parts { count (levels_of self.new) ≡ count (levels_of self.old) }
    {
        let i = self.seek::<K>(side, price);
        if !self.stands(i, price) {
            self.heads.insert(i, LevelHead::new(price));
        }
        i
    }
}
