//! Rankings of prices: which of two prices is at least as good.
ghost use Rattle.std.specs.Prelude.{◌≡◌, ℕ, Bool, ◌⊎◌};
ghost use Rattle.allocation.specs.Rankings.{TotalOrder, higher_is_better, lower_is_better, buyers_letter, sellers_letter};
ghost use Rattle.std.proofs.Common.{rules};

/// A total order on prices, and the letter of the side that it is for.
pub trait Ranking {
    // A letter and no `Side`: this crate stands below the rule book, which has the sides.
    /// B for buyers, S for sellers.
    const LETTER: char;

    /// Whether the first price is at least as good as the second.
    ghost good: { ℕ → ℕ → Bool };

    /// The constant, as clauses name it.
    ghost LETTER: { ℕ };

    /// The letter.
    ghost initial: { ℕ };

    /// The letter.
    fn initial() -> char
        ensures { result ≡ initial }
    {
        Self::LETTER
    }

    /// Whether `a` is at least as good as `b`.
    fn at_least(a: u32, b: u32) -> bool
        ensures { result ≡ good a b };

    /// The order turned round, for the opposite side: whether `a` is at least as good as `b` there.
    fn at_least_opposite(a: u32, b: u32) -> bool
        ensures { result ≡ good b a }
    {
        Self::at_least(b, a)
    }

    ghost ordered: { TotalOrder good };

    /// The letter is the constant.
    ghost told: { LETTER ≡ initial };

    ghost lettered: { (initial ≡ buyers_letter) ⊎ (initial ≡ sellers_letter) };
}

/// Buyers: a higher price is better.
#[derive(Clone, Copy)]
pub struct Buyers;

/// Sellers: a lower price is better.
#[derive(Clone, Copy)]
pub struct Sellers;

impl Ranking for Buyers {
    const LETTER: char = 'B';

    ghost good = { higher_is_better };

    ghost LETTER = { buyers_letter };

    ghost initial = { buyers_letter };

    ghost ordered = { Prim.search rules };

    ghost told = { Prim.search rules };

    ghost lettered = { Prim.search rules };

    fn at_least(a: u32, b: u32) -> bool {
        b <= a
    }
}

impl Ranking for Sellers {
    const LETTER: char = 'S';

    ghost good = { lower_is_better };

    ghost LETTER = { sellers_letter };

    ghost initial = { sellers_letter };

    ghost ordered = { Prim.search rules };

    ghost told = { Prim.search rules };

    ghost lettered = { Prim.search rules };

    fn at_least(a: u32, b: u32) -> bool {
        a <= b
    }
}

/// The constants are the letters that the rankings tell.
pub fn letters() -> (char, char)
    ensures { result ≡ (buyers_letter, sellers_letter) }
{
    (Buyers::LETTER, Sellers::LETTER)
}
