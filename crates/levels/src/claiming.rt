//! Parts as claims: a part claims its quantity for its participant.
ghost use Rattle.std.specs.Prelude.{◌≡◌, length};
ghost use Rattle.allocation.specs.Dealings.{Seated, interest};
ghost use Rattle.allocation.specs.Memory.{wheel_of};
ghost use Rattle.rules.specs.Changes.{lowered, settle};
ghost use Rattle.rules.specs.Quantities.{claims as claims_of};
ghost use Rattle.levels.specs.Limits.{Dealable};

use allocation::{Dealing, Wheel};
use rules::Part;

/// Participants without interest left lose their seats, once the parts have lost their amounts.
pub fn settle_wheel(wheel: &mut Wheel, parts: &[Part], amounts: &[u32])
    requires dealable { Dealable parts.now }
    ensures { wheel_of wheel.new ≡ settle (wheel_of wheel.old) (lowered parts.now amounts.now) }
{
    wheel.lose_seats_without_interest(parts, amounts);
}

/// Deals a quantity to the parts of a queue: writes a share for each, and turns the wheel.
pub fn deal_parts<D: Dealing>(
    dealing: &D,
    quantity: u32,
    wheel: &mut Wheel,
    lot: u32,
    parts: &[Part],
    shares: &mut [u32],
)
    requires dealable { Dealable parts.now }
    requires one_each { length shares.old ≡ length parts.now }
    requires seated { Seated lot (wheel_of wheel.old) (λ p. interest p (claims_of parts.now)) }
    ensures shares { shares.new ≡ (D.meaning quantity (wheel_of wheel.old) lot (claims_of parts.now)).shares }
    ensures wheel { wheel_of wheel.new ≡ (D.meaning quantity (wheel_of wheel.old) lot (claims_of parts.now)).wheel }
{
    dealing.deal(quantity, wheel, lot, parts, shares);
}
