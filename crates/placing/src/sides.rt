//! What is left of an order comes to rest on its side.
ghost use Rattle.std.specs.Prelude.{◌≡◌};
ghost use Rattle.rules.specs.Books.{ranked_by};
ghost use Rattle.levels.specs.Sides.{levels_of};
ghost use Rattle.placing.specs.Placed.{Fits, reserve_placed, placed};

use allocation::Ranking;
use levels::Levels;
use resting::MarkTerms;
use rules::{Kind, Order, Step};

/// A reserve order shows the lesser of its display quantity and what is left of it, and hides the rest.
fn place_reserve<K: Ranking>(levels: &mut Levels, order: Order, left: u32, terms: MarkTerms)
    requires { Fits order left (levels_of levels.old) }
    ensures { levels_of levels.new ≡ reserve_placed (ranked_by K.initial K.good) terms.lot terms.away order left (levels_of levels.old) }
{
    let shown = order.display.min(left);
    let mark = terms.earns_mark::<K>(levels, order.side, order.price, shown);
    let i = levels.find_or_make::<K>(order.side, order.price);
    levels.put(i, Step::Displayed, order.part(shown, mark));
    if shown < left {
        levels.put(i, Step::Hidden, order.part(left - shown, false));
    }
}

/// What is left of an order comes to rest on its side, by its kind. A mark is judged by what the side has before.
pub(crate) fn place_on<K: Ranking>(levels: &mut Levels, order: Order, left: u32, terms: MarkTerms)
    requires { Fits order left (levels_of levels.old) }
    ensures { levels_of levels.new ≡ placed (ranked_by K.initial K.good) order.kind terms.lot terms.away order left (levels_of levels.old) }
{
    match order.kind {
        Kind::Limit => {
            let mark = terms.earns_mark::<K>(levels, order.side, order.price, left);
            let part = order.part(left, mark);
            levels.place::<K>(order.side, order.price, Step::Displayed, part);
        }
        Kind::Hidden => {
            let part = order.part(left, false);
            levels.place::<K>(order.side, order.price, Step::Hidden, part);
        }
        Kind::Reserve => place_reserve::<K>(levels, order, left, terms),
        Kind::Immediate | Kind::Market => {}
    }
}
