//! What holds of books of both letters.
ghost use Rattle.book.specs.Alike.{BothLettersAnswerAlike};

use allocation::Dealing;

/// The book ranked by buyers and the one ranked by sellers answer every run of calls alike.
pub fn letters_answer_alike<D: Dealing>()
    ensures { BothLettersAnswerAlike D.meaning }
{}
