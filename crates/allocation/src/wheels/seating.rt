//! Seats looked at and taken.
ghost use Rattle.std.specs.Prelude.{◌≡◌, ◌<◌, ◌≤◌, [], length, nat_lt};
ghost use Rattle.allocation.specs.Wheels.{wheel_with, seats_of, no_seat, take_last_seat, ensure_seat};
ghost use Rattle.allocation.specs.Memory.{wheel_of};

use super::Wheel;
use arrays::ArrayVec;

impl Wheel {
    /// A wheel without seats.
    pub fn new() -> Wheel
        ensures { wheel_of result ≡ wheel_with [] 0 }
    {
        Wheel {
            seats: ArrayVec::new(0),
            used: 0,
        }
    }

    /// Whether nobody has a seat.
    pub(crate) fn is_empty(&self) -> bool
        ensures { result ≡ no_seat (wheel_of self.now).seats }
    {
        self.seats.is_empty()
    }

    /// The seats from the pointer onward.
    pub fn seats(&self) -> &[u8]
        ensures seats { result.now ≡ (wheel_of self.now).seats }
        ensures most { length result.now ≤ 24 }
    {
        self.seats.as_slice()
    }

    /// How much of its lot the first seat has used.
    pub fn used(&self) -> u32
        ensures { result ≡ (wheel_of self.now).used }
    {
        self.used
    }

    /// Whether `participant` has a seat.
    pub(crate) fn has_seat(&self, participant: u8) -> bool
        ensures { result ≡ nat_lt 0 (seats_of participant (wheel_of self.now).seats) }
    {
        self.seats().contains(&participant)
    }

    /// `participant`, who has no seat, takes the last one.
    pub fn take_last_seat(&mut self, participant: u8)
        requires known { (0 < participant) × (participant < 25) }
        requires away { seats_of participant (wheel_of self.old).seats ≡ 0 }
        ensures { wheel_of self.new ≡ take_last_seat (wheel_of self.old) participant }
    {
        self.seats.push(participant);
    }

    /// `participant` takes the last seat unless it has a seat.
    pub fn ensure_seat(&mut self, participant: u8)
        requires known { (0 < participant) × (participant < 25) }
        ensures { wheel_of self.new ≡ ensure_seat (wheel_of self.old) participant }
    {
        if !self.has_seat(participant) {
            self.take_last_seat(participant);
        }
    }
}

// Written and not derived, so that the contract says which value it is.
impl Default for Wheel {
    ghost is_default = { λ w. wheel_of w ≡ wheel_with [] 0 };

    fn default() -> Self {
        Wheel::new()
    }
}
