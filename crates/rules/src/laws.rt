//! What is proved of the rule book as a whole.
ghost use Rattle.rules.specs.Books.{ranked_by};
ghost use Rattle.rules.specs.Cases.{Cases};
ghost use Rattle.rules.specs.Laws.{Laws};
ghost use Rattle.rules.specs.Readings.{Readings};

use allocation::{Dealing, Ranking};

/// The worked cases come out as the rules say.
pub fn cases_come_out()
    ensures { Cases }
{}

/// Small sessions come out, each of which shows a rule that is easily read otherwise.
pub fn readings_come_out()
    ensures { Readings }
{}

/// The laws of every run of calls, for every ranking and every dealing.
pub fn laws_hold<R: Ranking, D: Dealing>()
    ensures { Laws (ranked_by R.initial R.good) D.meaning }
{}
