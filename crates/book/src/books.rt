//! A book, for every ranking and every dealing.
use allocation::{Dealing, Ranking};
use memory::Standing;
use std::marker::Model;

mod calling;
mod looking;
mod making;

/// A book ranked by `K` and dealt by `D`, as `Book<Buyers, Parity>`. Only its own calls change it.
/// A contract sees it as the rules' book.
#[derive(Drop)]
pub struct Book<K: Ranking, D: Dealing> {
    memory: Standing<K>,
    dealing: D,
}

impl<K: Ranking, D: Dealing> Model for Book<K, D> {
    ghost use Rattle.rules.specs.Books.{Book as RuleBook};
    ghost use Rattle.memory.specs.States.{book_of};

    ghost Value = { RuleBook };

    ghost view = { λ b. book_of b.memory.state };
}
