//! A halt loses every mark of a side.
ghost use Rattle.std.specs.Prelude.{◌≡◌, ◌<◌, length, get_or, slice_index_or, slice_set};
ghost use Rattle.rules.specs.Books.{Level, level, queue, nothing_at};
ghost use Rattle.rules.specs.Marks.{unmarked};
ghost use Rattle.rules.specs.declared.orders.Part.{Part as RulePart};
ghost use Rattle.levels.specs.Sides.{levels_of};
ghost use Rattle.resting.specs.Unmarked.{plain, plain_level};

use levels::Levels;
use rules::{Part, Step};

/// The shown part at the place `k` of the level at `i` loses its mark.
fn unmark_part(levels: &mut Levels, i: usize, k: usize)
    requires place { i < length (levels_of levels.old) }
    requires within { k < length (get_or (levels_of levels.old) i (nothing_at 0)).shown.parts }
    ensures { (d : Level) (e : RulePart) → levels_of levels.new ≡ slice_set (levels_of levels.old) i (level (get_or (levels_of levels.old) i d).price (queue (slice_set (get_or (levels_of levels.old) i d).shown.parts k (plain (slice_index_or (get_or (levels_of levels.old) i d).shown.parts k e))) (get_or (levels_of levels.old) i d).shown.wheel) (get_or (levels_of levels.old) i d).hidden) }
{
    let p = levels.parts(i, Step::Displayed)[k];
    let part = Part { marked: false, ..p };
    levels.set_part(i, Step::Displayed, k, part);
}

/// The shown parts of the level at `i` lose their marks.
fn unmark_level(levels: &mut Levels, i: usize)
    requires { i < length (levels_of levels.old) }
    ensures { (d : Level) → levels_of levels.new ≡ slice_set (levels_of levels.old) i (plain_level (slice_index_or (levels_of levels.old) i d)) }
{
    let n = levels.parts(i, Step::Displayed).len();
    // By place: an iterator would have to lend each part out of the side to be changed.
    for k in 0..n {
        unmark_part(levels, i, k);
    }
}

/// Every mark of a side is lost.
pub fn unmark(levels: &mut Levels)
    ensures { levels_of levels.new ≡ unmarked (levels_of levels.old) }
{
    // By place: an iterator would have to lend each level out of the side.
    for i in 0..levels.len() {
        unmark_level(levels, i);
    }
}
