//! One side of two.
ghost use Rattle.std.specs.Prelude.{◌≡◌};
ghost use Rattle.std.specs.Borrow.{sem};
ghost use Rattle.levels.specs.Sides.{levels_of};
ghost use Rattle.memory.specs.Sides.{levels_on, LendsSide};

use super::Sides;
use levels::Levels;
use rules::Side;

impl Sides {
    /// The price levels of a side.
    pub fn side(&self, side: Side) -> &Levels
        ensures { levels_of result.now ≡ levels_on side self.now }
    {
        match side {
            Side::Buy => &self.buys,
            Side::Sell => &self.sells,
        }
    }

    /// The price levels of a side, lent to be changed. The other side stays as it is.
    pub fn side_mut(&mut self, side: Side) -> &mut Levels
        ensures* writes_back { sem 𝓛 (LendsSide self.entry side result) }
        ensures value { levels_of result.now ≡ levels_on side self.old }
    {
        match side {
            Side::Buy => &mut self.buys,
            Side::Sell => &mut self.sells,
        }
    }
}
