//! A queue's memory: the claims of one side, price and category in time order, with their wheel.
ghost use Rattle.arrays.specs.Items.{items};
ghost use Rattle.allocation.specs.Dealings.{Seated, interest};
ghost use Rattle.allocation.specs.Memory.{wheel_of};
ghost use Rattle.wheel_demo.specs.Admitted.{Admitted};

use allocation::{Claim, Dealing, Wheel};
use arrays::ArrayVec;

mod dealing;
mod joining;
mod leaving;
mod looking;
mod refusing;

pub use refusing::Refused;

/// As many claims as a queue holds.
pub const ROOM: usize = 64;

/// The claims of one side, price and category in time order, their wheel, the round lot, and how a quantity is dealt.
/// The wheel seats exactly the claimants, and the first seat has used less than a lot.
#[derive(Drop)]
pub struct Queue<D: Dealing> {
    dealing: D,
    lot: u32,
    wheel: Wheel,
    claims: ArrayVec<Claim, ROOM>,
    ghost admitted: { Admitted (items claims) },
    ghost seated: { Seated lot (wheel_of wheel) (λ p. interest p (items claims)) },
}
