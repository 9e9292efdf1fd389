//! Steps on a queue, each printed with what comes of it.
use crate::queues::Queue;
use allocation::{Claim, Dealing, Wheel};
use std::fmt;

/// A wheel as it is printed: the seats from the pointer onward, how much of its lot the first has used, and who is next.
#[derive(Clone, Copy)]
struct Shown(Wheel);

impl fmt::Display for Shown {
    fn fmt<W: fmt::Write>(&self, f: &mut fmt::Formatter<W>) -> fmt::Result {
        let seats = self.0.seats();
        let used = self.0.used();
        match seats.first() {
            Some(next) => write!(f, "    seats {seats:?}, used {used}; {next} is next"),
            None => write!(f, "    no seats, used {used}; nobody is next"),
        }
    }
}

/// Adds a claim, and prints whether it stands.
pub(crate) fn add<D: Dealing>(
    rt: &HostRuntime,
    queue: &mut Queue<D>,
    claim: Claim,
) -> anyhow::Result<()> {
    let Claim { participant, size } = claim;
    match queue.add(claim) {
        Ok(()) => println!(rt; "  Participant {participant} claims {size}.")?,
        Err(_) => println!(rt; "  Participant {participant} claims {size}: refused.")?,
    }
    println!(rt; "{}", Shown(queue.wheel()))?;
    Ok(())
}

/// Deals a quantity, and prints each claim with its size before and its share.
pub(crate) fn deal<D: Dealing>(
    rt: &HostRuntime,
    queue: &mut Queue<D>,
    quantity: u32,
) -> anyhow::Result<()> {
    let claims = queue.claims().to_vec(rt.alloc())?;
    let mut shares = vec![in rt.alloc(); 0; claims.len()]?;
    if queue.deal(quantity, &mut shares).is_err() {
        println!(rt; "  Deal {quantity}: refused.")?;
        return Ok(());
    }
    println!(rt; "  Deal {quantity}.")?;
    for (claim, share) in claims.iter().zip(&shares) {
        let Claim { participant, size } = *claim;
        println!(rt; "    participant {participant} claims {size}, gets {share}")?;
    }
    println!(rt; "{}", Shown(queue.wheel()))?;
    Ok(())
}

/// Lets a participant leave.
pub(crate) fn leave<D: Dealing>(
    rt: &HostRuntime,
    queue: &mut Queue<D>,
    participant: u8,
) -> anyhow::Result<()> {
    queue.leave(participant);
    println!(rt; "  Participant {participant} gives up its claims.")?;
    println!(rt; "{}", Shown(queue.wheel()))?;
    Ok(())
}
