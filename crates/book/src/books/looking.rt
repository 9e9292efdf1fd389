//! A book is looked at. Nothing here lets a caller change it.
ghost use Rattle.std.specs.Prelude.{◌≡◌};
ghost use Rattle.rules.specs.Books.{ranked_by, side as levels_on, away as away_price};
ghost use Rattle.rules.specs.Invariants.{SoundBook};
ghost use Rattle.rules.specs.Marks.{quoted};
ghost use Rattle.levels.specs.Sides.{levels_of};
ghost use Rattle.orders.specs.Rows.{orders_of, rows_of};
ghost use Rattle.memory.specs.States.{Tallied};

use super::Book;
use allocation::{Dealing, Ranking};
use levels::Levels;
use orders::OrderTable;
use rules::{Phase, Side};

impl<K: Ranking, D: Dealing> Book<K, D> {
    /// Whoever holds a book holds that it is sound by its ranking: levels best price first, wheels that seat exactly those
    /// with interest, at most 128 orders, by rising number, and so on.
    pub fn stays_sound(&self)
        ensures { SoundBook (ranked_by K.initial K.good) self.now }
    {
        // The memory's type says it.
        let _memory = &self.memory;
    }

    /// The price levels of a side, best price first: at each its price, and of each category the parts by working time and the wheel.
    pub fn side(&self, side: Side) -> &Levels
        ensures { levels_of result.now ≡ levels_on side self.now }
    {
        self.memory.state.side(side)
    }

    /// The orders that rest, by rising number, and how much of each.
    pub fn orders(&self) -> &OrderTable
        ensures orders { orders_of result.now ≡ self.now.orders }
        ensures tallied { Tallied (rows_of result.now) self.now }
    {
        &self.memory.state.orders
    }

    /// The away price of a side, if there is one.
    pub fn away(&self, side: Side) -> Option<u32>
        ensures { result ≡ quoted (away_price side self.now) }
    {
        self.memory.state.away(side)
    }

    /// The phase.
    pub fn phase(&self) -> Phase
        ensures { result ≡ self.now.phase }
    {
        self.memory.state.phase
    }
}
