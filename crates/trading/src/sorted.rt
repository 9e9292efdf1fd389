//! Trading with a side whose levels stand best price first.
ghost use Rattle.std.specs.Prelude.{◌≡◌, ◌+◌, ◌≤◌, length};
ghost use Rattle.std.specs.List.{AllByRecursion};
ghost use Rattle.rules.specs.Books.{ranked_by};
ghost use Rattle.rules.specs.Trading.{trade_side};
ghost use Rattle.levels.specs.Sides.{levels_of};
ghost use Rattle.trading.specs.Reached.{reached};
ghost use Rattle.trading.specs.Written.{written};
ghost use Rattle.rules.specs.Invariants.{SoundLevel, BestFirst, prices};

use crate::states::{Progress, Reach, Terms};
use allocation::{Dealing, Ranking};
use levels::Levels;
use rules::Row;

impl<D: Dealing> Terms<'_, D> {
    // Side, report, room and how far it has come are the caller's: a struct of these loans would be made anew at each call.
    /// Trading with a side whose levels stand best price first. It ends at the first price out of reach: those behind it are out of reach too.
    pub fn trade_best_first<K: Ranking>(
        &self,
        levels: &mut Levels,
        reach: Reach,
        so_far: Progress,
        report: &mut [Row],
        room: &mut [u32],
    ) -> Progress
        requires sorted { BestFirst (ranked_by K.initial K.good) reach.side (prices (levels_of levels.old)) }
        requires ready { AllByRecursion (SoundLevel self.now.lot) (levels_of levels.old) }
        requires rows { so_far.rows + length (trade_side D.meaning self.now.lot self.now.arriving self.now.table.now (reached (ranked_by K.initial K.good) reach) so_far.left (levels_of levels.old)).rows ≤ length report.old }
        requires room { 384 ≤ length room.old }
        ensures levels { levels_of levels.new ≡ (trade_side D.meaning self.now.lot self.now.arriving self.now.table.now (reached (ranked_by K.initial K.good) reach) so_far.left (levels_of levels.old)).rest }
        ensures left { result.left ≡ (trade_side D.meaning self.now.lot self.now.arriving self.now.table.now (reached (ranked_by K.initial K.good) reach) so_far.left (levels_of levels.old)).left }
        ensures rows { report.new ≡ written report.old so_far.rows (trade_side D.meaning self.now.lot self.now.arriving self.now.table.now (reached (ranked_by K.initial K.good) reach) so_far.left (levels_of levels.old)).rows }
        ensures count { result.rows ≡ so_far.rows + length (trade_side D.meaning self.now.lot self.now.arriving self.now.table.now (reached (ranked_by K.initial K.good) reach) so_far.left (levels_of levels.old)).rows }
    {
        let mut now = so_far;
        // By place: an iterator would have to lend each level out of the side.
        for i in 0..levels.len() {
            if now.left == 0 || !reach.has::<K>(levels.price(i)) {
                break;
            }
            now = self.trade_price(levels, i, now, report, room);
        }
        now
    }
}
