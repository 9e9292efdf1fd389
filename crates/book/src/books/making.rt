//! A book is made, with all that is promised of it.
ghost use Rattle.std.specs.Prelude.{◌≡◌};
ghost use Rattle.rules.specs.Books.{ranked_by};
ghost use Rattle.rules.specs.Rules.{make};
ghost use Rattle.book.specs.Promises.{Promised};

use super::Book;
use allocation::{Dealing, Ranking};
use memory::Standing;
use rules::Refusal;

impl<K: Ranking, D: Dealing + Default> Book<K, D> {
    /// A new book, without orders or quote; or refusal 8, for a round lot that is not 1 to 1,000.
    ///
    /// Of every run of calls from it, at every moment, is promised: an accepted order's traded, given-back and resting shares
    /// add up to what was entered; a worse price or later step trades only when all that is better in reach is gone;
    /// and where the dealing means parity, nobody gets more than one round lot ahead of one who kept its seat.
    pub fn new(lot: u32) -> Result<Book<K, D>, Refusal>
        ensures book { result ≡ make lot }
        ensures promises { Promised (ranked_by K.initial K.good) D.meaning result }
    {
        let memory = Standing::make(lot)?;
        Ok(Book {
            memory,
            dealing: D::default(),
        })
    }
}
