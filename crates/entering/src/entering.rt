//! An order enters.
ghost use Rattle.std.specs.Prelude.{◌≡◌, length, Ok, None as Nothing};
ghost use Rattle.rules.specs.declared.calls.Call.TheVariants.{Enter};
ghost use Rattle.rules.specs.Books.{ranked_by};
ghost use Rattle.rules.specs.Refusals.{first};
ghost use Rattle.memory.specs.States.{book_of};
ghost use Rattle.memory.specs.Following.{Follows};
ghost use Rattle.entering.specs.Refused.{Presentable, late_refusals};

use crate::refusing::check_book;
use crate::stages::arrive;
use allocation::{Dealing, Ranking};
use memory::{Reply, Standing};
use placing::tidy;
use rules::{Order, Refusal, Row};

/// An order that nothing refuses arrives, trades, and what is left of it is placed or given back.
fn accept<K: Ranking, D: Dealing>(
    book: &mut Standing<K>,
    dealing: &D,
    order: Order,
    report: &mut [Row],
) -> Reply
    requires presentable { Presentable (book_of book.old.state) (length report.old) order }
    requires allowed { first (late_refusals (book_of book.old.state) order) ≡ Nothing }
    ensures { Follows (ranked_by K.initial K.good) D.meaning (Enter order) book.old.state report.old book.new.state report.new (Ok result) }
{
    let arrived = arrive(order);
    let traded = arrived.trade::<K, D>(&mut book.state, dealing, report);
    let placed = traded.place::<K>(&mut book.state, report);
    tidy(&mut book.state);
    placed.reply()
}

/// Enters an order in an open book. What the order says is in order by itself, and the report has room for every row.
/// It is refused for an old number, in a full book, or as a market order that meets no price; else it is accepted.
pub fn enter<K: Ranking, D: Dealing>(
    book: &mut Standing<K>,
    dealing: &D,
    order: Order,
    report: &mut [Row],
) -> Result<Reply, Refusal>
    requires { Presentable (book_of book.old.state) (length report.old) order }
    ensures { Follows (ranked_by K.initial K.good) D.meaning (Enter order) book.old.state report.old book.new.state report.new result }
{
    check_book(&book.state, order)?;
    Ok(accept(book, dealing, order, report))
}
