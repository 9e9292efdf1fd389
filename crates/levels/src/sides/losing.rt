//! Parts of a side lose shares, seats are lost, and levels without a part go.
ghost use Rattle.std.specs.Prelude.{◌≡◌, ◌+◌, ◌<◌, [], ◌++◌, length, take, drop, if◌then◌else◌, filter, nat_lt, slice_index_or, slice_set};
ghost use Rattle.arrays.specs.Items.{items};
ghost use Rattle.allocation.specs.Memory.{wheel_of};
ghost use Rattle.rules.specs.Books.{Level, queue, nothing_at};
ghost use Rattle.rules.specs.Changes.{lose, lowered};
ghost use Rattle.rules.specs.Trading.{queue_of, with_queue};
ghost use Rattle.rules.specs.Rules.{holds};
ghost use Rattle.levels.specs.Heads.{size};
ghost use Rattle.levels.specs.Sides.{levels_of};

use super::Levels;
use crate::claiming::settle_wheel;
use crate::heads::QueueHead;
use crate::sides::lowering::lower_each;
use allocation::Wheel;
use rules::{Part, Step};

impl Levels {
    /// The parts of the queue of a step at `i` lose shares, and the queue has another wheel.
    pub fn trade(&mut self, i: usize, step: Step, shares: &[u32], wheel: Wheel)
        requires place { i < length (levels_of self.old) }
        requires each { length shares.now ≡ length (queue_of step (slice_index_or (levels_of self.old) i (nothing_at 0))).parts }
        ensures { (d : Level) → levels_of self.new ≡ slice_set (levels_of self.old) i (with_queue step (queue (lowered (queue_of step (slice_index_or (levels_of self.old) i d)).parts shares.now) (wheel_of wheel)) (slice_index_or (levels_of self.old) i d)) }
    {
        let start = self.queue_start(i, step);
        let n = self.heads.at(i).queue(step).count;
        let count = lower_each(&mut self.parts, start, n, shares);
        let queue = QueueHead { count, wheel };
        self.heads.edit(i, |head| head.set_queue(step, queue));
    }

    /// The parts of the queue of a step at `i` lose amounts, and participants without interest left their seats.
    pub fn lose(&mut self, i: usize, step: Step, amounts: &[u32])
        requires place { i < length (levels_of self.old) }
        requires each { length amounts.now ≡ length (queue_of step (slice_index_or (levels_of self.old) i (nothing_at 0))).parts }
        ensures { (d : Level) → levels_of self.new ≡ slice_set (levels_of self.old) i (with_queue step (lose amounts.now (queue_of step (slice_index_or (levels_of self.old) i d))) (slice_index_or (levels_of self.old) i d)) }
    {
        let mut wheel = *self.wheel(i, step);
        settle_wheel(&mut wheel, self.parts(i, step), amounts);
        self.trade(i, step, amounts, wheel);
    }

    /// Levels without a part go.
    pub fn tidy(&mut self)
        ensures { levels_of self.new ≡ filter holds (levels_of self.old) }
    {
        self.heads.retain(|head| head.holds());
    }

    /// The level at `i` goes if it has no part.
    pub fn drop_empty(&mut self, i: usize)
        requires { i < length (levels_of self.old) }
        ensures { (d : Level) → levels_of self.new ≡ (if holds (slice_index_or (levels_of self.old) i d) then levels_of self.old else take i (levels_of self.old) ++ drop (i + 1) (levels_of self.old)) }
    {
        if !self.heads.at(i).holds() {
            self.heads.remove(i);
        }
    }

    /// All levels go.
    pub fn clear(&mut self)
        ensures { levels_of self.new ≡ [] }
    {
        self.heads.clear();
        self.parts.clear();
    }
}
