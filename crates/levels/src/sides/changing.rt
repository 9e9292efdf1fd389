//! A part of a side changes where it stands.
ghost use Rattle.std.specs.Prelude.{◌≡◌, ◌<◌, ◌≤◌, length, slice_index_or, slice_set};
ghost use Rattle.rules.specs.Books.{Level, queue, nothing_at};
ghost use Rattle.rules.specs.Trading.{queue_of, with_queue};
ghost use Rattle.levels.specs.Sides.{levels_of};

use super::Levels;
use rules::{Part, Step};

impl Levels {
    /// Another part stands at the place `k` of the queue of a step at `i`. The wheel stays as it is.
    pub fn set_part(&mut self, i: usize, step: Step, k: usize, part: Part)
        requires place { i < length (levels_of self.old) }
        requires within { k < length (queue_of step (slice_index_or (levels_of self.old) i (nothing_at 0))).parts }
        requires known { part.participant < 25 }
        requires small { part.quantity ≤ 500000 }
        ensures { (d : Level) → levels_of self.new ≡ slice_set (levels_of self.old) i (with_queue step (queue (slice_set (queue_of step (slice_index_or (levels_of self.old) i d)).parts k part) (queue_of step (slice_index_or (levels_of self.old) i d)).wheel) (slice_index_or (levels_of self.old) i d)) }
    {
        let start = self.queue_start(i, step);
        self.parts.set(start + k, part);
    }
}
