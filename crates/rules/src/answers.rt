//! What a call answers: accepted or refused, shares traded and given back, and the rows of its report.
ghost use Rattle.std.specs.Prelude.{◌≡◌, [], ◌∷◌};
ghost use Rattle.rules.specs.Refusals.{first, passed};
ghost use Rattle.rules.specs.Codes.{refusal_number, answer_number, shares_traded, shares_given_back, row_columns};

use super::Step;
use std::error::Error;
use std::fmt;

/// Why a call, or the making of a book, is refused.
#[derive(Clone, Copy, Debug, PartialEq, Eq, Hash)]
pub enum Refusal {
    /// 1: the order number is not 1 to 999,999.
    OrderNumber,
    /// 2: the participant is not 1 to 24.
    Participant,
    /// 3: the quantity is not 1 to 500,000.
    Quantity,
    /// 4: the price is not 0 for a market order; for any other it is not 1 to 99,999,999, or it is 10,000 or more and no multiple of 100.
    Price,
    /// 5: the display quantity is no positive multiple of the round lot up to the quantity, for a reserve order; not 0 for any other.
    DisplayQuantity,
    /// 6: the report has room for fewer than 400 rows.
    ReportRoom,
    /// 7: an away price is above 99,999,999.
    AwayPrice,
    /// 8: the round lot is not 1 to 1,000.
    RoundLot,
    /// 20: the book's phase does not allow the call.
    Phase,
    /// 21: the order number is not above the last accepted one.
    OldNumber,
    /// 22: 128 orders rest, and the kind is one that rests.
    BookFull,
    /// 23: no such order rests.
    NoSuchOrder,
    /// 24: the reduction is not below what rests.
    ReductionTooLarge,
    /// 25: a market order, with no opposite best price and no opposite away quote.
    NoOppositePrice,
}

/// An accepted call, with the shares traded and given back.
#[derive(Clone, Copy, Debug, PartialEq, Eq, Hash)]
pub struct Accepted {
    pub traded: u32,
    pub given_back: u32,
}

/// What a call answers. A refused call trades nothing and gives nothing back, and the book stays as it was.
pub type Answer = Result<Accepted, Refusal>;

/// The answer's number: 0, or the refusal's.
pub fn answer_code(answer: Answer) -> u8
    ensures { result ≡ answer_number answer }
{
    match answer {
        Ok(_) => 0,
        Err(refusal) => refusal.code(),
    }
}

/// The shares traded.
pub fn traded(answer: Answer) -> u32
    ensures { result ≡ shares_traded answer }
{
    answer.map_or(0, |accepted| accepted.traded)
}

/// The shares given back.
pub fn given_back(answer: Answer) -> u32
    ensures { result ≡ shares_given_back answer }
{
    answer.map_or(0, |accepted| accepted.given_back)
}

/// A row of a call's report.
#[derive(Clone, Copy, Debug, PartialEq, Eq, Hash)]
pub enum Row {
    /// A resting part traded with the arriving order.
    Trade {
        step: Step,
        resting: u32,
        arriving: u32,
        price: u32,
        quantity: u32,
    },
    /// Shares of an order were given back.
    GivenBack {
        order: u32,
        quantity: u32,
    },
}

/// The columns of a row's line: letter, step or `-`, the order named first, the arriving order, price and quantity.
#[derive(Clone, Copy, Debug, PartialEq, Eq, Hash)]
// Zeros and `-` for what is not there, as the columns of the output have them.
pub struct Columns {
    pub letter: char,
    pub step: char,
    pub order: u32,
    pub arriving: u32,
    pub price: u32,
    pub quantity: u32,
}

/// What a row's line says. What is given back has no step, no arriving order and no price.
impl From<Row> for Columns {
    ghost from_gives = { λ r c. c ≡ row_columns r };

    fn from(row: Row) -> Columns {
        match row {
            Row::Trade {
                step,
                resting,
                arriving,
                price,
                quantity,
            } => Columns {
                letter: 'T',
                step: step.letter(),
                order: resting,
                arriving,
                price,
                quantity,
            },
            Row::GivenBack { order, quantity } => Columns {
                letter: 'G',
                step: '-',
                order,
                arriving: 0,
                price: 0,
                quantity,
            },
        }
    }
}

impl Row {
    // Landed names beside the conversions: `Columns::from(row)` reads no plainer.
    /// What the row's line says.
    pub fn columns(self) -> Columns
        ensures { result ≡ row_columns self }
    {
        Columns::from(self)
    }
}

/// The refusal's number.
impl From<Refusal> for u8 {
    ghost from_gives = { λ r n. n ≡ refusal_number r };

    fn from(refusal: Refusal) -> u8 {
        match refusal {
            Refusal::OrderNumber => 1,
            Refusal::Participant => 2,
            Refusal::Quantity => 3,
            Refusal::Price => 4,
            Refusal::DisplayQuantity => 5,
            Refusal::ReportRoom => 6,
            Refusal::AwayPrice => 7,
            Refusal::RoundLot => 8,
            Refusal::Phase => 20,
            Refusal::OldNumber => 21,
            Refusal::BookFull => 22,
            Refusal::NoSuchOrder => 23,
            Refusal::ReductionTooLarge => 24,
            Refusal::NoOppositePrice => 25,
        }
    }
}

impl Refusal {
    /// The refusal's number.
    pub fn code(self) -> u8
        ensures { result ≡ refusal_number self }
    {
        u8::from(self)
    }

    /// Refuses, where a limit is broken.
    pub fn when(self, broken: bool) -> Result<(), Refusal>
        ensures { result ≡ passed (first ((self, broken) ∷ [])) }
    {
        if broken { Err(self) } else { Ok(()) }
    }
}

impl fmt::Display for Refusal {
    fn fmt<W: fmt::Write>(&self, f: &mut fmt::Formatter<W>) -> fmt::Result {
        f.write_str(match self {
            Refusal::OrderNumber => "the order number is not 1 to 999,999",
            Refusal::Participant => "the participant is not 1 to 24",
            Refusal::Quantity => "the quantity is not 1 to 500,000",
            Refusal::Price => "the price is not allowed",
            Refusal::DisplayQuantity => "the display quantity is not allowed",
            Refusal::ReportRoom => "the report has room for fewer than 400 rows",
            Refusal::AwayPrice => "an away price is above 99,999,999",
            Refusal::RoundLot => "the round lot is not 1 to 1,000",
            Refusal::Phase => "the phase of the book does not allow the call",
            Refusal::OldNumber => "the order number is not above the last accepted one",
            Refusal::BookFull => "128 orders rest",
            Refusal::NoSuchOrder => "no such order rests",
            Refusal::ReductionTooLarge => "the reduction is not below what rests",
            Refusal::NoOppositePrice => "no opposite price for a market order",
        })
    }
}

impl Error for Refusal {}
