//! A book's memory is made, and looked at.
ghost use Rattle.std.specs.Prelude.{◌≡◌, ◌<◌, [], Ok as Done};
ghost use Rattle.rules.specs.Books.{side as levels_on, away as away_price};
ghost use Rattle.rules.specs.Marks.{quoted};
ghost use Rattle.rules.specs.Rules.{make, new_book};
ghost use Rattle.levels.specs.Sides.{levels_of};
ghost use Rattle.orders.specs.Rows.{rows_of};
ghost use Rattle.memory.specs.States.{book_of, made};
ghost use Rattle.memory.specs.declared.states.State.{State as StateType};

use super::{Sides, State};
use levels::{Levels, PARTS};
use orders::OrderTable;
use rules::{Phase, Refusal, Side, Step};

impl State {
    /// The memory of a new book, or refusal 8 for a round lot that is not 1 to 1,000.
    pub fn make(lot: u32) -> Result<State, Refusal>
        ensures book { made (λ s. s) result ≡ make lot }
        ensures rows { (s : StateType) → result ≡ Done s → rows_of s.orders ≡ [] }
        ensures lot { (s : StateType) → result ≡ Done s → 0 < lot }
    {
        if (1..=1_000).contains(&lot) {
            Ok(State::new(lot))
        } else {
            Err(Refusal::RoundLot)
        }
    }

    /// The memory of a new book: without orders or quote.
    fn new(lot: u32) -> State
        ensures book { book_of result ≡ new_book lot }
        ensures rows { rows_of result.orders ≡ [] }
    {
        State {
            lot,
            steps: [Step::Setter, Step::Displayed, Step::Hidden],
            phase: Phase::New,
            last: 0,
            bid: 0,
            offer: 0,
            orders: OrderTable::new(),
            sides: Sides {
                buys: Levels::new(),
                sells: Levels::new(),
            },
            shares: [0; PARTS],
        }
    }

    /// The price levels of a side.
    pub fn side(&self, side: Side) -> &Levels
        ensures { levels_of result.now ≡ levels_on side (book_of self.now) }
    {
        self.sides.side(side)
    }

    /// The away price of a side, if there is one.
    pub fn away(&self, side: Side) -> Option<u32>
        ensures { result ≡ quoted (away_price side (book_of self.now)) }
    {
        let price = match side {
            Side::Buy => self.bid,
            Side::Sell => self.offer,
        };
        (price != 0).then_some(price)
    }
}
