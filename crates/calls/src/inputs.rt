//! Refusals 1 to 7: what the caller gave, whatever the book holds.
ghost use Rattle.std.specs.Prelude.{◌≡◌, ◌<◌};
ghost use Rattle.rules.specs.Refusals.{first, passed, bad_number, bad_participant, bad_quantity, bad_price, bad_display, small_report, bad_away};
ghost use Rattle.calls.specs.Inputs.{inputs, entry_inputs, bad_limit};

use rules::{Call, Kind, Order, Refusal};

// Each limit is a rule of its own: one function over two bounds would hide which.
/// An order number is 1 to 999,999.
fn bad_number(number: u32) -> bool
    ensures { result ≡ bad_number number }
{
    !(1..=999_999).contains(&number)
}

/// A participant is 1 to 24.
fn bad_participant(participant: u8) -> bool
    ensures { result ≡ bad_participant participant }
{
    !(1..=24).contains(&participant)
}

/// A quantity is 1 to 500,000.
fn bad_quantity(quantity: u32) -> bool
    ensures { result ≡ bad_quantity quantity }
{
    !(1..=500_000).contains(&quantity)
}

/// A limit is 1 to 99,999,999, and from 10,000 up a multiple of 100.
fn bad_limit(price: u32) -> bool
    ensures { result ≡ bad_limit price }
{
    !(1..=99_999_999).contains(&price) || (10_000 <= price && price % 100 != 0)
}

/// A price is 0 for a market order, and a limit for any other.
fn bad_price(kind: Kind, price: u32) -> bool
    ensures { result ≡ bad_price kind price }
{
    match kind {
        Kind::Market => price != 0,
        _ => bad_limit(price),
    }
}

// The lot above 0 is asked here and below: the lot is a number of the book's, and no type of its own would be plainer.
/// A display quantity is a positive multiple of the round lot up to the quantity for a reserve order, and 0 for any other.
fn bad_display(lot: u32, kind: Kind, quantity: u32, display: u32) -> bool
    requires { 0 < lot }
    ensures { result ≡ bad_display lot kind quantity display }
{
    match kind {
        Kind::Reserve => !((1..=quantity).contains(&display) && display % lot == 0),
        _ => display != 0,
    }
}

/// A report has room for 400 rows at least.
fn small_report(room: usize) -> bool
    ensures { result ≡ small_report room }
{
    room < 400
}

/// An away price is at most 99,999,999.
fn bad_away(price: u32) -> bool
    ensures { result ≡ bad_away price }
{
    99_999_999 < price
}

/// Refused for what the order says, or for the room of the report.
fn check_order(lot: u32, room: usize, order: Order) -> Result<(), Refusal>
    requires { 0 < lot }
    ensures { result ≡ passed (first (entry_inputs lot room order)) }
{
    Refusal::OrderNumber.when(bad_number(order.number))?;
    Refusal::Participant.when(bad_participant(order.participant))?;
    Refusal::Quantity.when(bad_quantity(order.quantity))?;
    Refusal::Price.when(bad_price(order.kind, order.price))?;
    Refusal::DisplayQuantity.when(bad_display(lot, order.kind, order.quantity, order.display))?;
    Refusal::ReportRoom.when(small_report(room))
}

/// Refused for what the caller gave.
pub(crate) fn check_inputs(lot: u32, room: usize, call: Call) -> Result<(), Refusal>
    requires { 0 < lot }
    ensures { result ≡ passed (first (inputs lot room call)) }
{
    match call {
        Call::Open | Call::Halt | Call::Resume => Ok(()),
        Call::Close => Refusal::ReportRoom.when(small_report(room)),
        Call::Quote { bid, offer } => Refusal::AwayPrice.when(bad_away(bid) || bad_away(offer)),
        Call::Enter(order) => check_order(lot, room, order),
        Call::Cancel { order } => {
            Refusal::OrderNumber.when(bad_number(order))?;
            Refusal::ReportRoom.when(small_report(room))
        }
        Call::Reduce { order, quantity } => {
            Refusal::OrderNumber.when(bad_number(order))?;
            Refusal::Quantity.when(bad_quantity(quantity))?;
            Refusal::ReportRoom.when(small_report(room))
        }
    }
}
