//! What a call answers, and what a book holds, in print.
ghost use Rattle.std.specs.Prelude.{◌<◌, length};
ghost use Rattle.levels.specs.Sides.{levels_of};

use allocation::{Dealing, Ranking};
use book::Book;
use levels::Levels;
use memory::Reply;
use rules::{
    Call, Category, Columns, Part, Refusal, Row, Side, Step, answer_code, given_back, traded,
};

/// The name of a call, with the number of its order.
// No `Display`: that would belong to the rule book, and these words are the demonstration's.
fn name(call: Call) -> (&'static str, u32) {
    match call {
        Call::Open => ("open", 0),
        Call::Halt => ("halt", 0),
        Call::Resume => ("resume", 0),
        Call::Close => ("close", 0),
        Call::Quote { .. } => ("quote", 0),
        Call::Enter(order) => ("enter", order.number),
        Call::Cancel { order } => ("cancel", order),
        Call::Reduce { order, .. } => ("reduce", order),
    }
}

/// Prints a row of the report.
fn show_row(rt: &HostRuntime, row: Row) -> anyhow::Result<()> {
    let Columns {
        letter,
        step,
        order,
        arriving,
        price,
        quantity,
    } = row.columns();
    println!(rt;
        "    {letter}{step} order {order}, arriving {arriving}, price {price}, quantity {quantity}"
    )?;
    Ok(())
}

/// Prints a call, its answer and its rows.
pub(crate) fn show_call(
    rt: &HostRuntime,
    call: Call,
    reply: Result<Reply, Refusal>,
    report: &[Row],
) -> anyhow::Result<()> {
    let (what, order) = name(call);
    let answer = reply.map(|reply| reply.accepted);
    let code = answer_code(answer);
    let traded = traded(answer);
    let given_back = given_back(answer);
    let rows = reply.map_or(0, |reply| reply.rows);
    println!(rt; "  {what} {order}: answer {code}, traded {traded}, given back {given_back}")?;
    for row in report.iter().take(rows) {
        show_row(rt, *row)?;
    }
    Ok(())
}

/// Prints the parts and the wheel of one category at the level at `i`.
fn show_queue(
    rt: &HostRuntime,
    side: Side,
    levels: &Levels,
    i: usize,
    step: Step,
) -> anyhow::Result<()>
    requires { i < length (levels_of levels.now) }
{
    let category = match step {
        Step::Setter | Step::Displayed => Category::Displayed,
        Step::Hidden => Category::Hidden,
    };
    let number = category.number();
    let price = levels.price(i);
    for part in levels.parts(i, step) {
        let Part {
            order,
            participant,
            quantity,
            marked,
        } = *part;
        let mark = if marked { '*' } else { '.' };
        println!(rt;
            "  {side}{number} order {order}, participant {participant}, price {price}, quantity {quantity}{mark}"
        )?;
    }
    let wheel = levels.wheel(i, step);
    let seats = wheel.seats();
    let used = wheel.used();
    if !seats.is_empty() {
        println!(rt; "  {side}{number} wheel at {price}: used {used}, seats {seats:?}")?;
    }
    Ok(())
}

/// Prints one side, best price first.
fn show_side(rt: &HostRuntime, side: Side, levels: &Levels) -> anyhow::Result<()> {
    // By place: each step can fail, and a level has no value of its own in memory.
    for i in 0..levels.len() {
        show_queue(rt, side, levels, i, Step::Displayed)?;
        show_queue(rt, side, levels, i, Step::Hidden)?;
    }
    Ok(())
}

/// Prints both sides, buys first.
pub(crate) fn show_book<K: Ranking, D: Dealing>(
    rt: &HostRuntime,
    book: &Book<K, D>,
) -> anyhow::Result<()> {
    show_side(rt, Side::Buy, book.side(Side::Buy))?;
    show_side(rt, Side::Sell, book.side(Side::Sell))
}
