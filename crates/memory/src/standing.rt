//! Memory that stands by a ranking.
ghost use Rattle.std.specs.Prelude.{◌≡◌};
ghost use Rattle.rules.specs.Books.{ranked_by};
ghost use Rattle.rules.specs.Rules.{make};
ghost use Rattle.memory.specs.States.{Stands, made};

use super::State;
use allocation::Ranking;
use rules::Refusal;
use std::marker::PhantomData;

/// The memory of a book between calls. It stands by the ranking `K`: levels best price first, wheels that seat exactly
/// those with interest, a table that tells what rests, and so on. A call has it standing again when it ends.
#[derive(Drop)]
pub struct Standing<K: Ranking> {
    pub state: State,
    ranking: PhantomData<K>,
    ghost stands: { ∥ Stands (ranked_by K.initial K.good) state ∥₁ },
}

impl<K: Ranking> Standing<K> {
    /// A memory that stands.
    pub fn new(state: State) -> Standing<K>
        requires { Stands (ranked_by K.initial K.good) state }
        ensures { result.state ≡ state }
    {
        Standing {
            state,
            ranking: PhantomData,
        }
    }

    /// The memory of a new book, or refusal 8 for a round lot that is not 1 to 1,000.
    pub fn make(lot: u32) -> Result<Standing<K>, Refusal>
        ensures { made (λ s. s.state) result ≡ make lot }
    {
        Ok(Standing::new(State::make(lot)?))
    }
}
