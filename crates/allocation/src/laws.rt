//! The laws of this layer, each in the contract of a function.
ghost use Rattle.allocation.specs.Rankings.{TurnedRoundItRanksToo};
ghost use Rattle.allocation.specs.Leads.{NobodyLeadsByMoreThanALot, ParityIsARunOfTurns};
ghost use Rattle.allocation.specs.Cases.{PricesRanked, SeatsLost, DealtByParity, DealtByTime};

/// A ranking turned round is a total order too.
/// On one wheel, over any run of turns, seats taken and seats lost, and between any two moments of it, nobody takes
/// more than a round lot above one who kept its seat; and a dealing by parity is a run of turns,
/// in which each participant takes what its claims get.
pub fn allocation_laws()
    ensures turned { TurnedRoundItRanksToo }
    ensures lead { NobodyLeadsByMoreThanALot }
    ensures parity { ParityIsARunOfTurns }
{}

/// The worked cases come out.
pub fn worked_cases()
    ensures prices { PricesRanked }
    ensures seats { SeatsLost }
    ensures parity { DealtByParity }
    ensures time { DealtByTime }
{}
