//! Prices compared on a side.
ghost use Rattle.std.specs.Prelude.{◌≡◌};
ghost use Rattle.rules.specs.Books.{ranked_by, same_side, good};

use allocation::Ranking;
use rules::Side;

/// Whether the side is the one of the ranking's letter.
fn owns<K: Ranking>(side: Side) -> bool
    ensures { result ≡ same_side side (ranked_by K.initial K.good).letter }
{
    side.letter() == K::initial()
}

/// Whether `a` is at least as good as `b` on a side: the side of the ranking's letter uses the ranking as it is,
/// the other one turns it round.
pub fn at_least<K: Ranking>(side: Side, a: u32, b: u32) -> bool
    ensures { result ≡ good (ranked_by K.initial K.good) side a b }
{
    if owns::<K>(side) {
        K::at_least(a, b)
    } else {
        K::at_least_opposite(a, b)
    }
}
