//! The parity wheel's memory: seats from the pointer onward, and how much of its lot the first seat has used.
ghost use Rattle.std.specs.Prelude.{◌≡◌, ℕ, ◌<◌, ◌≤◌, []};
ghost use Rattle.arrays.specs.Items.{items};
ghost use Rattle.allocation.specs.Wheels.{seats_of};

use arrays::ArrayVec;

mod filtering;
mod seating;
mod turning;

/// As many seats as there can be participants.
pub(crate) const SEATS: usize = 24;

/// The wheel of one side, price and category. Participants 1 to 24 sit on it, each once at most.
/// A wheel without seats has used 0.
#[derive(Clone, Copy)]
pub struct Wheel {
    seats: ArrayVec<u8, SEATS>,
    used: u32,
    ghost once: { (k : ℕ) → seats_of k (items seats) ≤ 1 },
    ghost empty: { items seats ≡ [] → used ≡ 0 },
    ghost known: { (k : ℕ) → 0 < seats_of k (items seats) → (0 < k) × (k < 25) },
}
