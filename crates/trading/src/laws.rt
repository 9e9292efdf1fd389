//! What trading keeps, in the contract of a function.
ghost use Rattle.trading.specs.Fits.{NoMoreRowsThanParts};

use allocation::Dealing;

/// Trading with a side writes no more rows than the side has parts, for every dealing and every table of steps.
pub fn rows_fit<D: Dealing>()
    ensures { NoMoreRowsThanParts D.meaning }
{}
