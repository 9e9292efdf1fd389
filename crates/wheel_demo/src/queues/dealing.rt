//! A quantity dealt to the claims of a queue.
ghost use Rattle.std.specs.Prelude.{◌≡◌, Ok, Err, length, is_ok, if◌then◌else◌, ◌==◌};
ghost use Rattle.arrays.specs.Items.{items};
ghost use Rattle.allocation.specs.Dealings.{claims_left};
ghost use Rattle.wheel_demo.specs.Queues.{dealt, served};
ghost use Rattle.wheel_demo.specs.Memory.{standing};

use super::{Queue, ROOM, Refused};
use allocation::{Claim, Dealing};
use arrays::ArrayVec;

/// Takes each share from its claim.
fn reduce(claims: &mut ArrayVec<Claim, ROOM>, shares: &[u32])
    requires { length shares.now ≡ length (items claims.old) }
    ensures { items claims.new ≡ claims_left (items claims.old) shares.now }
{
    // By place: a claim of the list is changed at its place.
    for (i, &share) in shares.iter().enumerate() {
        claims.edit(i, |claim| claim.size = claim.size.saturating_sub(share));
    }
}

impl<D: Dealing> Queue<D> {
    /// Deals `quantity` to the claims by the queue's dealing, and writes a share for each claim, in the same order.
    /// Each claim is then less its share, and a claim with nothing left goes.
    /// Refused, and nothing changes, if there are not as many places for shares as claims.
    pub fn deal(&mut self, quantity: u32, shares: &mut [u32]) -> Result<(), Refused>
        ensures fits { result ≡ (if length shares.old == length (standing self.old).claims then Ok tt else Err Refused.Places) }
        ensures shares { shares.new ≡ (if is_ok result then (dealt D.meaning quantity self.old.lot (standing self.old)).shares else shares.old) }
        ensures after { standing self.new ≡ (if is_ok result then served (standing self.old) (dealt D.meaning quantity self.old.lot (standing self.old)) else standing self.old) }
        ensures same { (self.new.dealing ≡ self.old.dealing) × (self.new.lot ≡ self.old.lot) }
    {
        if shares.len() != self.count() {
            return Err(Refused::Places);
        }
        let claims = self.claims.as_slice();
        self.dealing
            .deal(quantity, &mut self.wheel, self.lot, claims, shares);
        reduce(&mut self.claims, shares);
        self.claims.retain(|claim| claim.size > 0);
        Ok(())
    }
}
