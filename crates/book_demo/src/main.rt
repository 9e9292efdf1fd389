//! A worked session through the calls of a book, by parity and by time: rows, parts and wheels, as they stand in the book.
#![tactic(auto)]

mod printing;
mod session;

use allocation::{Buyers, Dealing, Parity, Ranking, Time};
use book::Book;
use printing::{show_book, show_call};
use rules::{Call, Row};
use session::{calls_after_it, worked_session};

/// The round lot.
const LOT: u32 = 100;

/// A row that no call has written.
const NONE: Row = Row::GivenBack {
    order: 0,
    quantity: 0,
};

/// Makes calls, and prints each with its rows, and the book after the last.
fn play<K: Ranking, D: Dealing>(
    rt: &HostRuntime,
    book: &mut Book<K, D>,
    calls: &[Call],
    report: &mut [Row],
) -> anyhow::Result<()> {
    for call in calls {
        let reply = book.call(*call, report);
        show_call(rt, *call, reply, report)?;
    }
    show_book(rt, book)
}

/// Plays the session on a new book, and prints what came of it.
fn play_on_new<D: Dealing + Default + Drop>(rt: &HostRuntime) -> anyhow::Result<()> {
    let mut book = Book::<Buyers, D>::new(LOT)?;
    let mut report = [NONE; 400];
    play(rt, &mut book, &worked_session(), &mut report)?;
    play(rt, &mut book, &calls_after_it(), &mut report)
}

fn main(rt: HostRuntime) -> anyhow::Result<()> {
    println!(rt; "By parity")?;
    play_on_new::<Parity>(&rt)?;
    println!(rt; "\nBy time")?;
    play_on_new::<Time>(&rt)
}
