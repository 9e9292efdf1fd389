//! The wheel at work: claims dealt to by parity and by time, printed step by step.
#![tactic(auto)]

ghost use Rattle.std.specs.Prelude.{◌≡◌};

mod queues;
mod report;

use allocation::{Claim, Dealing, Parity, Time};
use queues::Queue;
use report::{add, deal, leave};

const LOT: u32 = 100;

/// A claim of `size` by `participant`.
fn claim(participant: u8, size: u32) -> Claim
    ensures { result ≡ record { participant = participant; size = size } }
{
    Claim { participant, size }
}

/// The claims that most stories begin with; participants 5 and 7 have two each.
fn five_claims() -> [Claim; 5] {
    [
        claim(5, 100),
        claim(7, 150),
        claim(5, 120),
        claim(9, 40),
        claim(7, 30),
    ]
}

/// A queue with these claims.
fn open<D: Dealing + Drop>(
    rt: &HostRuntime,
    dealing: D,
    claims: &[Claim],
) -> anyhow::Result<Queue<D>> {
    let mut queue = Queue::new(dealing, LOT)?;
    for c in claims {
        add(rt, &mut queue, *c)?;
    }
    Ok(queue)
}

/// A seat whose claims are filled is lost, and the next has used nothing.
fn filled_claims(rt: &HostRuntime) -> anyhow::Result<()> {
    println!(rt; "\nInterests 60 and 300, by parity")?;
    let mut queue = open(rt, Parity, &[claim(5, 60), claim(7, 300)])?;
    deal(rt, &mut queue, 200)
}

/// What the first seat has used counts in the next dealing, and who comes back takes the last seat.
fn turns_carried_over(rt: &HostRuntime) -> anyhow::Result<()> {
    println!(rt; "\nTurns carried over, by parity")?;
    let mut queue = open(rt, Parity, &five_claims())?;
    deal(rt, &mut queue, 40)?;
    deal(rt, &mut queue, 250)?;
    deal(rt, &mut queue, 30)?;
    add(rt, &mut queue, claim(9, 200))?;
    deal(rt, &mut queue, 100)
}

/// One gives up its claims while the first seat, participant 5's, has used 40.
fn seat_lost(rt: &HostRuntime, participant: u8) -> anyhow::Result<()> {
    println!(rt; "\nSeats 5, 7, 9 with used 40, and {participant} gives up its claims, by parity")?;
    let mut queue = open(rt, Parity, &five_claims())?;
    deal(rt, &mut queue, 40)?;
    leave(rt, &mut queue, participant)?;
    deal(rt, &mut queue, 150)
}

/// By time nobody uses a lot: the wheel only loses seats.
fn same_claims_by_time(rt: &HostRuntime) -> anyhow::Result<()> {
    println!(rt; "\nThe same claims, by time")?;
    let mut queue = open(rt, Time, &five_claims())?;
    deal(rt, &mut queue, 40)?;
    deal(rt, &mut queue, 250)?;
    deal(rt, &mut queue, 100)?;
    leave(rt, &mut queue, 7)?;
    deal(rt, &mut queue, 50)
}

/// Claims that no queue takes change nothing.
fn refused_claims(rt: &HostRuntime) -> anyhow::Result<()> {
    println!(rt; "\nClaims that no queue takes: answers 2 and 3 of an order")?;
    let mut queue = open(rt, Parity, &[claim(24, 500_000)])?;
    add(rt, &mut queue, claim(0, 100))?;
    add(rt, &mut queue, claim(25, 100))?;
    add(rt, &mut queue, claim(7, 0))?;
    add(rt, &mut queue, claim(7, 500_001))
}

fn main(rt: HostRuntime) -> anyhow::Result<()> {
    println!(rt; "The round lot is {LOT}. Seats stand from the pointer onward.")?;
    filled_claims(&rt)?;
    turns_carried_over(&rt)?;
    seat_lost(&rt, 5)?;
    seat_lost(&rt, 7)?;
    same_claims_by_time(&rt)?;
    refused_claims(&rt)
}
