//! The side that an arriving order trades with.
ghost use Rattle.std.specs.Prelude.{◌≡◌, ◌≤◌, length};
ghost use Rattle.std.specs.List.{AllByRecursion};
ghost use Rattle.rules.specs.Books.{Ranking as Ranked, ranked_by, other, side, with_side};
ghost use Rattle.rules.specs.Trading.{in_reach};
ghost use Rattle.rules.specs.Invariants.{SoundLevel, BestFirst, prices};
ghost use Rattle.trading.specs.Reached.{reached};
ghost use Rattle.trading.specs.Written.{written};
ghost use Rattle.memory.specs.States.{book_of};
ghost use Rattle.matching.specs.Meeting.{met};

use allocation::{Dealing, Ranking};
use memory::State;
use rules::{Order, Row};
use trading::{Progress, Reach, Terms};

/// Which prices of the other side an arriving order reaches: those within its limit, if it has one, and within that side's away price.
fn reach_of(state: &State, order: Order) -> Reach
    ensures side { result.side ≡ other order.side }
    ensures prices { (rank : Ranked) → reached rank result ≡ in_reach rank (book_of state.now) order }
{
    let side = order.side.opposite();
    Reach {
        side,
        limit: order.kind.has_limit().then_some(order.price),
        away: state.away(side),
    }
}

/// The order trades with the other side. Its own side and the order table stay as they are.
pub(crate) fn trade_opposite<K: Ranking, D: Dealing>(
    state: &mut State,
    dealing: &D,
    order: Order,
    report: &mut [Row],
) -> Progress
    requires ready { AllByRecursion (SoundLevel state.old.lot) (side (other order.side) (book_of state.old)) }
    requires sorted { BestFirst (ranked_by K.initial K.good) (other order.side) (prices (side (other order.side) (book_of state.old))) }
    requires rows { length (met (ranked_by K.initial K.good) D.meaning order (book_of state.old)).rows ≤ length report.old }
    ensures book { book_of state.new ≡ with_side (other order.side) (met (ranked_by K.initial K.good) D.meaning order (book_of state.old)).rest (book_of state.old) }
    ensures orders { state.new.orders ≡ state.old.orders }
    ensures left { result.left ≡ (met (ranked_by K.initial K.good) D.meaning order (book_of state.old)).left }
    ensures rows { report.new ≡ written report.old 0 (met (ranked_by K.initial K.good) D.meaning order (book_of state.old)).rows }
    ensures count { result.rows ≡ length (met (ranked_by K.initial K.good) D.meaning order (book_of state.old)).rows }
{
    let reach = reach_of(state, order);
    let terms = Terms {
        lot: state.lot,
        arriving: order.number,
        table: &state.steps,
        dealing,
    };
    let start = Progress {
        left: order.quantity,
        rows: 0,
    };
    let levels = state.sides.side_mut(reach.side);
    terms.trade_best_first::<K>(levels, reach, start, report, &mut state.shares)
}
