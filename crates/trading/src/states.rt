//! What an arriving order trades by, and how far it has come.
ghost use Rattle.std.specs.Prelude.{◌≡◌, ⊤};
ghost use Rattle.rules.specs.Books.{ranked_by};
ghost use Rattle.trading.specs.Reached.{reached};

use allocation::Ranking;
use levels::at_least;
use rules::{Side, Step};
use std::alloc::AllocError;

/// What stays the same while an order trades.
pub struct Terms<'a, D> {
    /// The round lot.
    pub lot: u32,
    /// The number of the arriving order.
    pub arriving: u32,
    /// The steps of trading at a price.
    pub table: &'a [Step],
    /// How the shares of a step are dealt.
    pub dealing: &'a D,
}

// Not derived: that would ask of a dealing that it is copied, where only a loan of it is.
impl<D> Clone for Terms<'_, D> {
    ghost is_clone = { λ x y. y ≡ x };

    ghost is_infallible = { λ _. ⊤ };

    fn clone(&self) -> Result<Self, AllocError> {
        Ok(*self)
    }
}

impl<D> Copy for Terms<'_, D> {}

/// How far trading has come.
#[derive(Clone, Copy, Debug, PartialEq, Eq)]
pub struct Progress {
    /// The shares still to trade.
    pub left: u32,
    /// The rows written.
    pub rows: usize,
}

/// Which prices of a side an arriving order reaches.
#[derive(Clone, Copy, Debug, PartialEq, Eq)]
pub struct Reach {
    /// The side that it trades with.
    pub side: Side,
    /// Its limit, if it has one.
    pub limit: Option<u32>,
    /// The away price of the side, if there is one.
    pub away: Option<u32>,
}

impl Reach {
    /// Whether a price is in reach: at least as good, by its own side's order, as the limit and as the away price.
    pub fn has<K: Ranking>(&self, price: u32) -> bool
        ensures { result ≡ reached (ranked_by K.initial K.good) self.now price }
    {
        let good = |bound| at_least::<K>(self.side, price, bound);
        self.limit.is_none_or(good) && self.away.is_none_or(good)
    }
}
