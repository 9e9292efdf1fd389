//! What makes a queue, and adds a claim to it.
ghost use Rattle.std.specs.Prelude.{◌≡◌, true, false, ◌&&◌, [], length, is_ok, if◌then◌else◌, MatchResult, nat_le, nat_lt};
ghost use Rattle.allocation.specs.Wheels.{wheel_with};
ghost use Rattle.wheel_demo.specs.Admitted.{admissible};
ghost use Rattle.wheel_demo.specs.Answers.{admitted, answer};
ghost use Rattle.wheel_demo.specs.Queues.{joined};
ghost use Rattle.wheel_demo.specs.Memory.{standing};

use super::{Queue, ROOM, Refused};
use allocation::{Claim, Dealing, Wheel};
use arrays::ArrayVec;

/// Whether queues take the claim: a participant from 1 to 24, a size from 1 to 500,000.
fn admit(claim: Claim) -> Result<(), Refused>
    ensures { result ≡ admitted claim }
{
    if !(1..=24).contains(&claim.participant) {
        return Err(Refused::Participant);
    }
    if !(1..=500_000).contains(&claim.size) {
        return Err(Refused::Size);
    }
    Ok(())
}

impl<D: Dealing + Drop> Queue<D> {
    /// A queue without claims. Refused if the round lot is not from 1 to 1,000.
    pub fn new(dealing: D, lot: u32) -> Result<Queue<D>, Refused>
        ensures { MatchResult result (λ q. (standing q ≡ record { claims = []; wheel = wheel_with [] 0 }) × (q.dealing ≡ dealing) × (q.lot ≡ lot) × ((nat_le 1 lot && nat_le lot 1000) ≡ true)) (λ e. (e ≡ Refused.Lot) × ((nat_le 1 lot && nat_le lot 1000) ≡ false)) }
    {
        if !(1..=1000).contains(&lot) {
            return Err(Refused::Lot);
        }
        Ok(Queue {
            dealing,
            lot,
            wheel: Wheel::new(),
            claims: ArrayVec::new(Claim {
                participant: 0,
                size: 0,
            }),
        })
    }
}

impl<D: Dealing> Queue<D> {
    /// A claim stands behind the others, and its participant takes the last seat unless it has one.
    /// Refused, and nothing changes, if the participant is not from 1 to 24, the size not from 1 to 500,000,
    /// or 64 claims stand.
    pub fn add(&mut self, claim: Claim) -> Result<(), Refused>
        ensures answer { result ≡ answer (standing self.old) claim }
        ensures taken { is_ok result ≡ (nat_lt (length (standing self.old).claims) 64 && admissible claim) }
        ensures after { standing self.new ≡ (if is_ok result then joined (standing self.old) claim else standing self.old) }
        ensures same { (self.new.dealing ≡ self.old.dealing) × (self.new.lot ≡ self.old.lot) }
    {
        if self.count() == ROOM {
            return Err(Refused::Full);
        }
        admit(claim)?;
        self.wheel.ensure_seat(claim.participant);
        self.claims.push(claim);
        Ok(())
    }
}
