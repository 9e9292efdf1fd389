//! Orders and their parts.
ghost use Rattle.std.specs.Prelude.{◌≡◌, Some, [], ◌∷◌};
ghost use Rattle.rules.specs.Codes.{side_letter, kind_letter, category_number};
ghost use Rattle.rules.specs.Books.{other, part};
ghost use Rattle.rules.specs.Refusals.{rests};
ghost use Rattle.rules.specs.Reserve.{is_reserve};
ghost use Rattle.rules.specs.Trading.{has_limit};

use allocation::{Claim, Claimed};
use std::fmt;

/// The side of an order.
#[derive(Clone, Copy, Debug, PartialEq, Eq, Hash)]
pub enum Side {
    /// Buys; letter B.
    Buy,
    /// Sells; letter S.
    Sell,
}

/// What an order does with shares that do not trade on arrival.
#[derive(Clone, Copy, Debug, PartialEq, Eq, Hash)]
pub enum Kind {
    /// They rest, displayed; letter L.
    Limit,
    /// They rest, not displayed; letter N.
    Hidden,
    /// They rest, some displayed and the others not; letter R.
    Reserve,
    /// They are given back; letter I.
    Immediate,
    /// They are given back, and the order has no price; letter M.
    Market,
}

/// An order as it was entered. A price is a whole number of hundredths of a cent.
#[derive(Clone, Copy, Debug, PartialEq, Eq, Hash)]
pub struct Order {
    pub number: u32,
    pub participant: u8,
    pub side: Side,
    pub kind: Kind,
    pub quantity: u32,
    // A number, as the session's columns have it: a wrong one must be refused by its number.
    /// How much of it a reserve order displays at a time; 0 for the other kinds.
    pub display: u32,
    // A number for the same reason.
    /// The limit; 0 for a market order.
    pub price: u32,
}

/// Whether resting shares are displayed.
#[derive(Clone, Copy, Debug, PartialEq, Eq, Hash)]
pub enum Category {
    /// Displayed; number 2.
    Displayed,
    /// Not displayed; number 3.
    Hidden,
}

/// A part of a resting order. A queue holds its parts in the order of their working times.
#[derive(Clone, Copy, Debug, PartialEq, Eq, Hash)]
pub struct Part {
    /// The number of its order.
    pub order: u32,
    pub participant: u8,
    pub quantity: u32,
    /// Whether it has the setter mark: it trades first at its price.
    pub marked: bool,
}

/// A part claims its quantity for its participant.
impl Claimed for Part {
    ghost claim = { λ p. record { participant = p.participant; size = p.quantity } };

    fn claim(&self) -> Claim {
        Claim {
            participant: self.participant,
            size: self.quantity,
        }
    }
}

/// The letter of the side.
impl From<Side> for char {
    ghost from_gives = { λ s c. c ≡ side_letter s };

    // Inlined, since every comparison of prices asks a side's letter.
    #[inline(always)]
    fn from(side: Side) -> char {
        match side {
            Side::Buy => 'B',
            Side::Sell => 'S',
        }
    }
}

/// The letter of the kind.
impl From<Kind> for char {
    ghost from_gives = { λ k c. c ≡ kind_letter k };

    fn from(kind: Kind) -> char {
        match kind {
            Kind::Limit => 'L',
            Kind::Hidden => 'N',
            Kind::Reserve => 'R',
            Kind::Immediate => 'I',
            Kind::Market => 'M',
        }
    }
}

/// The number of the category.
impl From<Category> for u8 {
    ghost from_gives = { λ c n. n ≡ category_number c };

    fn from(category: Category) -> u8 {
        match category {
            Category::Displayed => 2,
            Category::Hidden => 3,
        }
    }
}

impl Side {
    // Landed names beside the conversions: `char::from(side)` reads no plainer.
    /// The letter of the side.
    #[inline(always)]
    pub fn letter(self) -> char
        ensures { result ≡ side_letter self }
    {
        char::from(self)
    }

    /// The opposite side.
    pub fn opposite(self) -> Side
        ensures { result ≡ other self }
    {
        match self {
            Side::Buy => Side::Sell,
            Side::Sell => Side::Buy,
        }
    }
}

impl Kind {
    /// The letter of the kind.
    pub fn letter(self) -> char
        ensures { result ≡ kind_letter self }
    {
        char::from(self)
    }

    /// Whether an order of the kind can rest: a limit, hidden or reserve order.
    pub fn can_rest(self) -> bool
        ensures { result ≡ rests self }
    {
        matches!(self, Kind::Limit | Kind::Hidden | Kind::Reserve)
    }

    /// Whether an order of the kind has a limit: any but a market order.
    pub fn has_limit(self) -> bool
        ensures { result ≡ has_limit self }
    {
        self != Kind::Market
    }

    /// Whether the kind is reserve.
    pub fn is_reserve(self) -> bool
        ensures { result ≡ is_reserve self }
    {
        self == Kind::Reserve
    }
}

impl Category {
    /// The number of the category.
    pub fn number(self) -> u8
        ensures { result ≡ category_number self }
    {
        u8::from(self)
    }
}

impl Order {
    /// The part of the order with so many shares.
    #[inline(always)]
    pub fn part(self, quantity: u32, marked: bool) -> Part
        ensures { result ≡ part self.number self.participant quantity marked }
    {
        Part {
            order: self.number,
            participant: self.participant,
            quantity,
            marked,
        }
    }
}

impl Part {
    // Inlined, since each part that trades in part asks it.
    /// The same part with another quantity.
    #[inline(always)]
    pub fn with_quantity(self, quantity: u32) -> Part
        ensures { result ≡ part self.order self.participant quantity self.marked }
    {
        Part { quantity, ..self }
    }
}

/// Its letter.
impl fmt::Display for Side {
    ghost output = { λ x. Some (side_letter x ∷ []) };

    fn fmt<W: fmt::Write>(&self, f: &mut fmt::Formatter<W>) -> fmt::Result {
        f.write_char(self.letter())
    }
}

/// Its letter.
impl fmt::Display for Kind {
    ghost output = { λ x. Some (kind_letter x ∷ []) };

    fn fmt<W: fmt::Write>(&self, f: &mut fmt::Formatter<W>) -> fmt::Result {
        f.write_char(self.letter())
    }
}
