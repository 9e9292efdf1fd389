//! What a queue shows.
ghost use Rattle.std.specs.Prelude.{◌≡◌, length};
ghost use Rattle.wheel_demo.specs.Memory.{standing};

use super::Queue;
use allocation::{Claim, Dealing, Wheel};

impl<D: Dealing> Queue<D> {
    /// The claims that stand, in time order.
    pub fn claims(&self) -> &[Claim]
        ensures { result.now ≡ (standing self.now).claims }
    {
        self.claims.as_slice()
    }

    /// How many claims stand.
    pub(crate) fn count(&self) -> usize
        ensures { result ≡ length (standing self.now).claims }
    {
        self.claims.len()
    }

    /// The wheel of those who have a claim.
    pub fn wheel(&self) -> Wheel
        ensures { result ≡ self.now.wheel }
    {
        self.wheel
    }
}
