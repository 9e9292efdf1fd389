//! A side is made, and parts come to it.
ghost use Rattle.std.specs.Prelude.{◌≡◌, ◌<◌, ◌≤◌, [], length, slice_index_or, slice_set};
ghost use Rattle.rules.specs.Books.{Level, ranked_by};
ghost use Rattle.rules.specs.Changes.{on_price, put};
ghost use Rattle.rules.specs.Trading.{queue_of, with_queue};
ghost use Rattle.levels.specs.Heads.{count};
ghost use Rattle.levels.specs.Sides.{levels_of};

use super::Levels;
use crate::heads::LevelHead;
use allocation::Ranking;
use arrays::ArrayVec;
use rules::{Part, Side, Step};

impl Levels {
    /// A side without levels.
    pub fn new() -> Levels
        ensures { levels_of result ≡ [] }
    {
        Levels {
            heads: ArrayVec::new(LevelHead::new(0)),
            parts: ArrayVec::new(Part {
                order: 0,
                participant: 0,
                quantity: 0,
                marked: false,
            }),
        }
    }

    // What a part must be, and that there is room, is asked here: a type for it would ask more of callers, and a name for two clauses says no more.
    /// A part comes last in the queue of a step at `i`. Its participant has a seat, or takes the last one.
    pub fn put(&mut self, i: usize, step: Step, part: Part)
        requires place { i < length (levels_of self.old) }
        requires known { (0 < part.participant) × (part.participant < 25) }
        requires small { part.quantity ≤ 500000 }
        requires room { count (levels_of self.old) < 384 }
        ensures { (d : Level) → levels_of self.new ≡ slice_set (levels_of self.old) i (with_queue step (put part (queue_of step (slice_index_or (levels_of self.old) i d))) (slice_index_or (levels_of self.old) i d)) }
    {
        let start = self.queue_start(i, step);
        let mut queue = *self.heads.at(i).queue(step);
        self.parts.insert(start + queue.count, part);
        queue.wheel.ensure_seat(part.participant);
        queue.count += 1;
        self.heads.edit(i, |head| head.set_queue(step, queue));
    }

    /// A part comes last in the queue of a step at its price. The level is found, or made at its place.
    pub fn place<K: Ranking>(&mut self, side: Side, price: u32, step: Step, part: Part)
        requires prices { length (levels_of self.old) < 385 }
        requires known { (0 < part.participant) × (part.participant < 25) }
        requires small { part.quantity ≤ 500000 }
        requires room { count (levels_of self.old) < 384 }
        ensures { levels_of self.new ≡ on_price (ranked_by K.initial K.good) side price (λ l. with_queue step (put part (queue_of step l)) l) (levels_of self.old) }
    {
        let i = self.find_or_make::<K>(side, price);
        self.put(i, step, part);
    }
}

// Written and not derived, so that the contract says which value it is.
impl Default for Levels {
    ghost is_default = { λ s. levels_of s ≡ [] };

    fn default() -> Self {
        Levels::new()
    }
}
