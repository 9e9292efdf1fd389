//! The three states of an order that enters. Each is made from the one before, and none can be let go or used twice.
ghost use Rattle.std.specs.Prelude.{◌≡◌, ◌+◌, ◌<◌, ◌≤◌, length, Ok};
ghost use Rattle.rules.specs.Books.{ranked_by};
ghost use Rattle.rules.specs.Entering.{trade, arrived, not_placed};
ghost use Rattle.trading.specs.Written.{written};
ghost use Rattle.orders.specs.Rows.{rows_of};
ghost use Rattle.memory.specs.States.{book_of, Tallied, Stands};
ghost use Rattle.entering.specs.Remainders.{ended, Ready};

use allocation::{Dealing, Ranking};
use levels::at_least;
use matching::match_order;
use memory::{Reply, State};
use placing::place_order;
use rules::{Accepted, Order, Row};

/// An order that has come in, and has not traded.
pub struct Arrived {
    order: Order,
}

/// An order that has traded. What is left of it is neither placed nor given back.
pub struct Traded {
    order: Order,
    /// The shares left.
    left: u32,
    /// The rows written.
    rows: usize,
}

/// An order of which nothing is left to place.
pub struct Placed {
    /// The reply to its enter.
    reply: Reply,
}

/// An order comes in.
pub(crate) fn arrive(order: Order) -> Arrived
    ensures { result.order ≡ order }
{
    Arrived { order }
}

/// Whether what is left of an order is given back: it cannot rest, or its limit reaches the opposite away price.
fn is_given_back<K: Ranking>(state: &State, order: Order) -> bool
    ensures { result ≡ not_placed (ranked_by K.initial K.good) (book_of state.now) order }
{
    let side = order.side.opposite();
    !order.kind.can_rest()
        || state
            .away(side)
            .is_some_and(|quote| at_least::<K>(side, quote, order.price))
}

impl Arrived {
    // A state, and not one that stands by its type: until it is tidied, levels may be empty and orders spent.
    /// The order trades with the other side, and reserve is replenished. Its rows stand first in the report.
    pub fn trade<K: Ranking, D: Dealing>(
        self,
        state: &mut State,
        dealing: &D,
        report: &mut [Row],
    ) -> Traded
        requires stands { Stands (ranked_by K.initial K.good) state.old }
        requires room { 400 ≤ length report.old }
        ensures order { result.order ≡ self.order }
        ensures book { book_of state.new ≡ (trade (ranked_by K.initial K.good) D.meaning self.order (arrived self.order (book_of state.old))).rest }
        ensures left { result.left ≡ (trade (ranked_by K.initial K.good) D.meaning self.order (arrived self.order (book_of state.old))).left }
        ensures report { report.new ≡ written report.old 0 (trade (ranked_by K.initial K.good) D.meaning self.order (arrived self.order (book_of state.old))).rows }
        ensures rows { result.rows ≡ length (trade (ranked_by K.initial K.good) D.meaning self.order (arrived self.order (book_of state.old))).rows }
        ensures tallied { Tallied (rows_of state.new.orders) (book_of state.new) }
    {
        let Arrived { order } = self;
        let progress = match_order::<K, D>(state, dealing, order, report);
        Traded {
            order,
            left: progress.left,
            rows: progress.rows,
        }
    }
}

impl Traded {
    /// What is left of the order is placed, or given back with a row of its own.
    pub fn place<K: Ranking>(self, state: &mut State, report: &mut [Row]) -> Placed
        requires ready { Ready self.order self.left (book_of state.old) }
        requires tallied { Tallied (rows_of state.old.orders) (book_of state.old) }
        requires room { self.rows < length report.old }
        ensures book { book_of state.new ≡ (ended (ranked_by K.initial K.good) self.order self.left (book_of state.old)).book }
        ensures answer { Ok result.reply.accepted ≡ (ended (ranked_by K.initial K.good) self.order self.left (book_of state.old)).answer }
        ensures report { report.new ≡ written report.old self.rows (ended (ranked_by K.initial K.good) self.order self.left (book_of state.old)).rows }
        ensures rows { result.reply.rows ≡ self.rows + length (ended (ranked_by K.initial K.good) self.order self.left (book_of state.old)).rows }
        ensures tallied { Tallied (rows_of state.new.orders) (book_of state.new) }
    {
        let Traded { order, left, rows } = self;
        let traded = order.quantity - left;
        let given_back = 0;
        let accepted = Accepted { traded, given_back };
        let reply = Reply { accepted, rows };
        if left == 0 {
            return Placed { reply };
        }
        if is_given_back::<K>(state, order) {
            report[rows] = Row::GivenBack {
                order: order.number,
                quantity: left,
            };
            let given_back = left;
            let accepted = Accepted { traded, given_back };
            let reply = Reply {
                accepted,
                rows: rows + 1,
            };
            return Placed { reply };
        }
        place_order::<K>(state, order, left);
        Placed { reply }
    }
}

impl Placed {
    /// The reply to the enter.
    pub fn reply(self) -> Reply
        ensures { result ≡ self.reply }
    {
        let Placed { reply } = self;
        reply
    }
}
