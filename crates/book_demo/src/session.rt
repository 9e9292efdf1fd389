//! The worked session.
ghost use Rattle.std.specs.Prelude.{◌≡◌};
ghost use Rattle.rules.specs.declared.calls.Call.TheVariants.{Enter};

use rules::{Call, Kind, Order, Side};

/// An order without a display quantity.
fn order(number: u32, participant: u8, side: Side, kind: Kind, quantity: u32, price: u32) -> Call
    ensures { result ≡ Enter (record { number = number; participant = participant; side = side; kind = kind; quantity = quantity; display = 0; price = price }) }
{
    Call::Enter(Order {
        number,
        participant,
        side,
        kind,
        quantity,
        display: 0,
        price,
    })
}

/// Three buys at a price, of which the first has the setter mark; a sale takes from all of them, and a second goes on where it stopped.
pub(crate) fn worked_session() -> [Call; 6] {
    [
        Call::Open,
        order(1, 5, Side::Buy, Kind::Limit, 300, 100_000),
        order(2, 7, Side::Buy, Kind::Limit, 250, 100_000),
        order(3, 9, Side::Buy, Kind::Limit, 200, 100_000),
        order(4, 2, Side::Sell, Kind::Immediate, 430, 100_000),
        order(5, 2, Side::Sell, Kind::Market, 100, 0),
    ]
}

/// The one whose turn it is cancels, and the next has the first seat; an order without shares is refused.
pub(crate) fn calls_after_it() -> [Call; 2] {
    [
        Call::Cancel { order: 2 },
        order(6, 11, Side::Sell, Kind::Limit, 0, 100_000),
    ]
}
