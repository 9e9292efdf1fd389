//! The phase and the call together decide.
ghost use Rattle.std.specs.Prelude.{◌≡◌, length, None as Nothing};
ghost use Rattle.rules.specs.Refusals.{first};
ghost use Rattle.calls.specs.Inputs.{inputs};
ghost use Rattle.rules.specs.Books.{ranked_by};
ghost use Rattle.memory.specs.Following.{Follows};

use crate::inputs::check_inputs;
use crate::phases::{halt, open, quote, resume};
use allocation::{Dealing, Ranking};
use entering::enter;
use giving_back::{cancel, close, reduce};
use memory::{Reply, Standing};
use rules::{Call, Phase, Refusal, Row};

/// The phase and the call together decide. What the caller gave is fine.
fn decide<K: Ranking, D: Dealing>(
    book: &mut Standing<K>,
    dealing: &D,
    call: Call,
    report: &mut [Row],
) -> Result<Reply, Refusal>
    requires { first (inputs book.old.state.lot (length report.old) call) ≡ Nothing }
    ensures { Follows (ranked_by K.initial K.good) D.meaning call book.old.state report.old book.new.state report.new result }
{
    match (book.state.phase, call) {
        (Phase::New, Call::Open) => Ok(open(book)),
        (Phase::Open, Call::Halt) => Ok(halt(book)),
        (Phase::Halted, Call::Resume) => Ok(resume(book)),
        (Phase::Open | Phase::Halted, Call::Close) => Ok(close(book, report)),
        // An arm for each pair: `|` beside a field that is bound gets no proof, and a guard would take the phase out of the pair.
        (Phase::New, Call::Quote { bid, offer }) => Ok(quote(book, bid, offer)),
        (Phase::Open, Call::Quote { bid, offer }) => Ok(quote(book, bid, offer)),
        (Phase::Halted, Call::Quote { bid, offer }) => Ok(quote(book, bid, offer)),
        (Phase::Open, Call::Enter(order)) => enter(book, dealing, order, report),
        (Phase::Open, Call::Cancel { order }) => cancel(book, order, report),
        (Phase::Halted, Call::Cancel { order }) => cancel(book, order, report),
        (Phase::Open, Call::Reduce { order, quantity }) => reduce(book, order, quantity, report),
        (Phase::Halted, Call::Reduce { order, quantity }) => reduce(book, order, quantity, report),
        _ => Err(Refusal::Phase),
    }
}

/// Every call of a book on its memory, in every outcome. A refused call changes nothing and writes no row.
pub fn call<K: Ranking, D: Dealing>(
    book: &mut Standing<K>,
    dealing: &D,
    call: Call,
    report: &mut [Row],
) -> Result<Reply, Refusal>
    ensures { Follows (ranked_by K.initial K.good) D.meaning call book.old.state report.old book.new.state report.new result }
{
    check_inputs(book.state.lot, report.len(), call)?;
    decide(book, dealing, call, report)
}
