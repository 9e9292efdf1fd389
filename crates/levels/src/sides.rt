//! The memory of one side.
ghost use Rattle.std.specs.Prelude.{◌≡◌, true, length};
ghost use Rattle.arrays.specs.Items.{items};
ghost use Rattle.levels.specs.Heads.{span};
ghost use Rattle.levels.specs.Limits.{within_limits};

use crate::heads::LevelHead;
use arrays::ArrayVec;
use rules::Part;

mod changing;
mod finding;
mod losing;
mod lowering;
mod placing;
mod reading;

/// As many parts as a side can have: three for each of 128 orders.
pub const PARTS: usize = 384;

/// One level more than parts, since a new level stands empty for a moment.
pub const LEVELS: usize = 385;

// A level is named by its place, like an item of a slice: a cursor that borrows the side would be made anew for each call, which is no plainer.
/// The price levels of one side, best price first. Their parts stand in one run:
/// those of a better price first, and at a price the displayed queue before the hidden one.
#[derive(Drop)]
pub struct Levels {
    heads: ArrayVec<LevelHead, LEVELS>,
    parts: ArrayVec<Part, PARTS>,
    ghost whole: { span (items heads) ≡ length (items parts) },
    ghost limits: { within_limits (items parts) ≡ true },
}
