//! Turns of the first seat.
ghost use Rattle.std.specs.Prelude.{◌≡◌, ◌+◌, ◌-◌, ◌<◌, min, ◌++◌, length, take, drop, nat_lt};
ghost use Rattle.allocation.specs.Wheels.{wheel_with, first_seat, first_served};
ghost use Rattle.allocation.specs.Memory.{wheel_of};

use super::Wheel;

impl Wheel {
    // A seat is asked for here and below, since a wheel may have none.
    /// Who has the first seat.
    pub(crate) fn first_seat(&self) -> u8
        requires { 0 < length (wheel_of self.now).seats }
        ensures { result ≡ first_seat (wheel_of self.now).seats }
    {
        self.seats.get(0)
    }

    /// The first seat goes last.
    fn rotate(&mut self)
        requires { 0 < length (wheel_of self.old).seats }
        ensures { wheel_of self.new ≡ wheel_with (drop 1 (wheel_of self.old).seats ++ take 1 (wheel_of self.old).seats) 0 }
    {
        self.seats.rotate_left(1);
        self.used = 0;
    }

    /// The first seat is lost, and the next has used nothing.
    fn lose_first(&mut self)
        requires { 0 < length (wheel_of self.old).seats }
        ensures { wheel_of self.new ≡ wheel_with (drop 1 (wheel_of self.old).seats) 0 }
    {
        self.seats.remove(0);
        self.used = 0;
    }

    /// The first seat's turn: the shares that it takes, and the shares left to deal.
    pub fn turn(&mut self, lot: u32, interest: u32, left: u32) -> (u32, u32)
        requires seated { 0 < length (wheel_of self.old).seats }
        requires below { self.old.used < lot }
        ensures taken { result.0 ≡ min (lot - self.old.used) (min interest left) }
        ensures left { result.1 ≡ left - result.0 }
        ensures after { wheel_of self.new ≡ first_served lot (nat_lt 0 (interest - result.0)) (wheel_of self.old).seats (self.old.used + result.0) }
    {
        let taken = (lot - self.used).min(interest.min(left));
        let used = self.used + taken;
        if taken == interest {
            self.lose_first();
        } else if used == lot {
            self.rotate();
        } else {
            self.used = used;
        }
        (taken, left - taken)
    }
}
