//! Claims that are given up.
ghost use Rattle.std.specs.Prelude.{◌≡◌};
ghost use Rattle.wheel_demo.specs.Queues.{without};
ghost use Rattle.wheel_demo.specs.Memory.{standing};

use super::Queue;
use allocation::Dealing;

impl<D: Dealing> Queue<D> {
    /// `participant` gives up its claims, and loses its seat.
    pub fn leave(&mut self, participant: u8)
        ensures after { standing self.new ≡ without (standing self.old) participant }
        ensures same { (self.new.dealing ≡ self.old.dealing) × (self.new.lot ≡ self.old.lot) }
    {
        self.wheel.lose_seat(participant);
        self.claims.retain(|claim| claim.participant != participant);
    }
}
