//! The phases of a book, and the steps of trading at a price.
ghost use Rattle.std.specs.Prelude.{◌≡◌, Some, [], ◌∷◌};
ghost use Rattle.rules.specs.Codes.{step_letter};

use std::fmt;

/// The phase of a book.
#[derive(Clone, Copy, Debug, PartialEq, Eq, Hash)]
pub enum Phase {
    /// Made, and not yet open.
    New,
    /// Takes orders.
    Open,
    /// Takes no orders; those that rest can be cancelled and reduced.
    Halted,
    /// Closed for good.
    Shut,
}

/// A step of trading at a price.
#[derive(Clone, Copy, Debug, PartialEq, Eq, Hash)]
pub enum Step {
    /// The part with the setter mark; letter S.
    Setter,
    /// The displayed parts; letter D.
    Displayed,
    /// The parts that are not displayed; letter N.
    Hidden,
}

/// The letter of the step.
impl From<Step> for char {
    ghost from_gives = { λ s c. c ≡ step_letter s };

    fn from(step: Step) -> char {
        match step {
            Step::Setter => 'S',
            Step::Displayed => 'D',
            Step::Hidden => 'N',
        }
    }
}

impl Step {
    // A landed name beside the conversion: `char::from(step)` reads no plainer.
    /// The letter of the step.
    pub fn letter(self) -> char
        ensures { result ≡ step_letter self }
    {
        char::from(self)
    }
}

/// Its letter.
impl fmt::Display for Step {
    ghost output = { λ x. Some (step_letter x ∷ []) };

    fn fmt<W: fmt::Write>(&self, f: &mut fmt::Formatter<W>) -> fmt::Result {
        f.write_char(self.letter())
    }
}
