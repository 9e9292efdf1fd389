//! Trading at one price, and with a side.
ghost use Rattle.std.specs.Prelude.{◌≡◌, ◌+◌, ◌<◌, ◌≤◌, length, slice_set};
ghost use Rattle.std.specs.List.{AllByRecursion};
ghost use Rattle.rules.specs.Books.{ranked_by};
ghost use Rattle.rules.specs.Trading.{trade_price, trade_side};
ghost use Rattle.levels.specs.Sides.{levels_of};
ghost use Rattle.trading.specs.Steps.{at_place};
ghost use Rattle.trading.specs.Reached.{reached};
ghost use Rattle.trading.specs.Written.{written};
ghost use Rattle.rules.specs.Invariants.{SoundLevel};

use crate::states::{Progress, Reach, Terms};
use allocation::{Dealing, Ranking};
use levels::Levels;
use rules::Row;

impl<D: Dealing> Terms<'_, D> {
    // Side, report, room and how far it has come are the caller's, here and below: a struct of these loans would be made anew at each call.
    /// Trading at one price, step after step of the table. `room` is for the shares.
    pub fn trade_price(
        &self,
        levels: &mut Levels,
        i: usize,
        so_far: Progress,
        report: &mut [Row],
        room: &mut [u32],
    ) -> Progress
        requires place { i < length (levels_of levels.old) }
        requires ready { SoundLevel self.now.lot (at_place (levels_of levels.old) i) }
        requires rows { so_far.rows + length (trade_price D.meaning self.now.lot self.now.arriving self.now.table.now so_far.left (at_place (levels_of levels.old) i)).rows ≤ length report.old }
        requires room { 384 ≤ length room.old }
        ensures level { levels_of levels.new ≡ slice_set (levels_of levels.old) i (trade_price D.meaning self.now.lot self.now.arriving self.now.table.now so_far.left (at_place (levels_of levels.old) i)).rest }
        ensures left { result.left ≡ (trade_price D.meaning self.now.lot self.now.arriving self.now.table.now so_far.left (at_place (levels_of levels.old) i)).left }
        ensures rows { report.new ≡ written report.old so_far.rows (trade_price D.meaning self.now.lot self.now.arriving self.now.table.now so_far.left (at_place (levels_of levels.old) i)).rows }
        ensures count { result.rows ≡ so_far.rows + length (trade_price D.meaning self.now.lot self.now.arriving self.now.table.now so_far.left (at_place (levels_of levels.old) i)).rows }
    {
        let mut now = so_far;
        for step in self.table {
            now = self.trade_step(levels, i, *step, now, report, room);
        }
        now
    }

    // Beside trade_best_first, which is faster, since this asks nothing of the order of the levels.
    /// Trading with a side: at every price in reach, in the order of its levels.
    pub fn trade_side<K: Ranking>(
        &self,
        levels: &mut Levels,
        reach: Reach,
        so_far: Progress,
        report: &mut [Row],
        room: &mut [u32],
    ) -> Progress
        requires ready { AllByRecursion (SoundLevel self.now.lot) (levels_of levels.old) }
        requires rows { so_far.rows + length (trade_side D.meaning self.now.lot self.now.arriving self.now.table.now (reached (ranked_by K.initial K.good) reach) so_far.left (levels_of levels.old)).rows ≤ length report.old }
        requires room { 384 ≤ length room.old }
        ensures levels { levels_of levels.new ≡ (trade_side D.meaning self.now.lot self.now.arriving self.now.table.now (reached (ranked_by K.initial K.good) reach) so_far.left (levels_of levels.old)).rest }
        ensures left { result.left ≡ (trade_side D.meaning self.now.lot self.now.arriving self.now.table.now (reached (ranked_by K.initial K.good) reach) so_far.left (levels_of levels.old)).left }
        ensures rows { report.new ≡ written report.old so_far.rows (trade_side D.meaning self.now.lot self.now.arriving self.now.table.now (reached (ranked_by K.initial K.good) reach) so_far.left (levels_of levels.old)).rows }
        ensures count { result.rows ≡ so_far.rows + length (trade_side D.meaning self.now.lot self.now.arriving self.now.table.now (reached (ranked_by K.initial K.good) reach) so_far.left (levels_of levels.old)).rows }
    {
        let mut now = so_far;
        // By place: an iterator would have to lend each level out of the side.
        for i in 0..levels.len() {
            if now.left == 0 {
                break;
            }
            if reach.has::<K>(levels.price(i)) {
                now = self.trade_price(levels, i, now, report, room);
            }
        }
        now
    }
}
