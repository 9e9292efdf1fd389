//! Why a queue refuses what it is asked.
use std::error::Error;
use std::fmt;

/// What a queue cannot take.
#[derive(Clone, Copy, Debug, PartialEq, Eq)]
pub enum Refused {
    Lot,
    Full,
    Participant,
    Size,
    Places,
}

impl fmt::Display for Refused {
    fn fmt<W: fmt::Write>(&self, f: &mut fmt::Formatter<W>) -> fmt::Result {
        f.write_str(match self {
            Refused::Lot => "a round lot is from 1 to 1,000",
            Refused::Full => "a queue holds 64 claims",
            Refused::Participant => "participants are numbered from 1 to 24",
            Refused::Size => "a claim is of 1 to 500,000 shares",
            Refused::Places => "there is one share for each claim",
        })
    }
}

impl Error for Refused {}
