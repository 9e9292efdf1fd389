//! A close gives back every order, and the book is shut.
ghost use Rattle.std.specs.Prelude.{◌≡◌, false, length, Ok};
ghost use Rattle.allocation.specs.Dealings.{Deal};
ghost use Rattle.rules.specs.Books.{ranked_by};
ghost use Rattle.rules.specs.declared.calls.Call.TheVariants.{Close};
ghost use Rattle.memory.specs.States.{book_of};
ghost use Rattle.memory.specs.Following.{Follows};
ghost use Rattle.giving_back.specs.Permitted.{Permitted};

use crate::reports::give_all_back;
use allocation::Ranking;
use memory::{Reply, Standing};
use rules::{Accepted, Phase, Row};

/// Every order is given back, lower number first, and the book is shut.
pub fn close<K: Ranking>(book: &mut Standing<K>, report: &mut [Row]) -> Reply
    requires { Permitted (book_of book.old.state) (length report.old) Close }
    ensures { (deal : Deal) → Follows (ranked_by K.initial K.good) deal Close book.old.state report.old book.new.state report.new (Ok result) }
{
    let rows = book.state.orders.len();
    let given_back = give_all_back(&book.state.orders, report);
    book.state.sides.buys.clear();
    book.state.sides.sells.clear();
    book.state.orders.clear();
    book.state.phase = Phase::Shut;
    Reply {
        accepted: Accepted {
            traded: 0,
            given_back,
        },
        rows,
    }
}
