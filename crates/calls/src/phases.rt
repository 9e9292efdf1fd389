//! The calls that trade nothing and give nothing back: open, halt, resume, quote.
ghost use Rattle.std.specs.Prelude.{◌≡◌, false, ◌||◌, List, Some, Ok};
ghost use Rattle.allocation.specs.Dealings.{Deal};
ghost use Rattle.rules.specs.Books.{ranked_by};
ghost use Rattle.rules.specs.Refusals.{bad_away, phase_after};
ghost use Rattle.rules.specs.declared.phases.Phase.TheVariants as PhaseIs;
ghost use Rattle.rules.specs.declared.calls.Call.TheVariants as CallIs;
ghost use Rattle.rules.specs.declared.answers.Row.{Row};
ghost use Rattle.memory.specs.States.{book_of};
ghost use Rattle.memory.specs.Following.{Follows};

use allocation::Ranking;
use memory::{Reply, Standing};
use resting::unmark;
use rules::{Accepted, Phase};

/// Nothing traded, nothing given back, and no row.
const DONE: Reply = Reply {
    accepted: Accepted {
        traded: 0,
        given_back: 0,
    },
    rows: 0,
};

/// A new book opens.
pub(crate) fn open<K: Ranking>(book: &mut Standing<K>) -> Reply
    requires phase { book.old.state.phase ≡ PhaseIs.New }
    ensures { (deal : Deal) (rows : List Row) → Follows (ranked_by K.initial K.good) deal CallIs.Open book.old.state rows book.new.state rows (Ok result) }
{
    book.state.phase = Phase::Open;
    DONE
}

/// A halted book opens again. No mark comes back.
// Beside open: one function would take the call as an argument that its body never reads.
pub(crate) fn resume<K: Ranking>(book: &mut Standing<K>) -> Reply
    requires phase { book.old.state.phase ≡ PhaseIs.Halted }
    ensures { (deal : Deal) (rows : List Row) → Follows (ranked_by K.initial K.good) deal CallIs.Resume book.old.state rows book.new.state rows (Ok result) }
{
    book.state.phase = Phase::Open;
    DONE
}

/// Entering stops, and every setter mark is lost.
pub(crate) fn halt<K: Ranking>(book: &mut Standing<K>) -> Reply
    requires phase { book.old.state.phase ≡ PhaseIs.Open }
    ensures { (deal : Deal) (rows : List Row) → Follows (ranked_by K.initial K.good) deal CallIs.Halt book.old.state rows book.new.state rows (Ok result) }
{
    unmark(&mut book.state.sides.buys);
    unmark(&mut book.state.sides.sells);
    book.state.phase = Phase::Halted;
    DONE
}

/// The prices quoted away from this venue change; 0 means none.
pub(crate) fn quote<K: Ranking>(book: &mut Standing<K>, bid: u32, offer: u32) -> Reply
    requires fine { (bad_away bid || bad_away offer) ≡ false }
    requires phase { phase_after book.old.state.phase (CallIs.Quote bid offer) ≡ Some book.old.state.phase }
    ensures { (deal : Deal) (rows : List Row) → Follows (ranked_by K.initial K.good) deal (CallIs.Quote bid offer) book.old.state rows book.new.state rows (Ok result) }
{
    book.state.bid = bid;
    book.state.offer = offer;
    DONE
}
