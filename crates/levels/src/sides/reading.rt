//! The levels of a side are looked at.
ghost use Rattle.std.specs.Prelude.{◌≡◌, ◌^◌, ◌<◌, ◌≤◌, length, get_or, slice_index_or};
ghost use Rattle.std.specs.List.{AllByRecursion};
ghost use Rattle.allocation.specs.Dealings.{total};
ghost use Rattle.allocation.specs.Memory.{wheel_of};
ghost use Rattle.rules.specs.Books.{Level};
ghost use Rattle.rules.specs.Quantities.{claims};
ghost use Rattle.rules.specs.Trading.{queue_of};
ghost use Rattle.levels.specs.Limits.{WithinLimits};
ghost use Rattle.levels.specs.Sides.{levels_of};

use super::Levels;
use allocation::Wheel;
use rules::{Part, Step};

impl Levels {
    /// How many levels there are.
    pub fn len(&self) -> usize
        ensures count { result ≡ length (levels_of self.now) }
        ensures most { result ≤ 385 }
    {
        self.heads.len()
    }

    /// The price of the level at `i`.
    pub fn price(&self, i: usize) -> u32
        requires { i < length (levels_of self.now) }
        ensures { (d : Level) → result ≡ (get_or (levels_of self.now) i d).price }
    {
        self.heads.at(i).price
    }

    /// The parts of the queue of a step at `i`.
    pub fn parts(&self, i: usize, step: Step) -> &[Part]
        requires { i < length (levels_of self.now) }
        ensures value { (d : Level) → result.now ≡ (queue_of step (slice_index_or (levels_of self.now) i d)).parts }
        ensures short { length result.now ≤ 384 }
        ensures limits { AllByRecursion WithinLimits result.now }
        ensures fits { total (claims result.now) < 2 ^ 32 }
    {
        let start = self.queue_start(i, step);
        self.parts.slice(start, self.heads.at(i).queue(step).count)
    }

    /// The wheel of the queue of a step at `i`.
    pub fn wheel(&self, i: usize, step: Step) -> &Wheel
        requires { i < length (levels_of self.now) }
        ensures { (d : Level) → wheel_of result.now ≡ (queue_of step (slice_index_or (levels_of self.now) i d)).wheel }
    {
        &self.heads.at(i).queue(step).wheel
    }
}
