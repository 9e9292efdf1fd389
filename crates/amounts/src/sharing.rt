//! A quantity is shared out among some of the parts: each takes what it can.
ghost use Rattle.std.specs.Prelude.{◌≡◌, ℕ, map, reverse, length, if◌then◌else◌};
ghost use Rattle.std.specs.Fn.{FnReturnsAt};
ghost use Rattle.allocation.specs.ByTime.{shares_in_order};
ghost use Rattle.allocation.specs.Dealings.{sum};
ghost use Rattle.rules.specs.Lists.{last_alone};
ghost use Rattle.rules.specs.Quantities.{of_part, pieces};
ghost use Rattle.rules.specs.declared.orders.Part.{Part as RulePart};

use crate::summing::of_part;
use rules::Part;

/// Each part takes what it can of what counts of it, earliest first.
fn share_in_order<F: Fn(&Part) -> u32>(
    counted: F,
    quantity: u32,
    parts: &[Part],
    shares: &mut [u32],
)
    requires lengths { length shares.old ≡ length parts.now }
    requires callable { F.IsAlwaysCallable counted }
    ensures { (size : RulePart → ℕ) → ((p : RulePart) (n : ℕ) → FnReturnsAt F.Fn counted p n → n ≡ size p) → shares.new ≡ shares_in_order quantity (map size parts.now) }
{
    let mut left = quantity;
    // By index: after an adapter of `iter_mut` a proof knows only how many there are.
    for (i, part) in parts.iter().enumerate() {
        let size = counted(part);
        shares[i] = left.min(size);
        left = left.saturating_sub(size);
    }
}

/// Marked parts take what they can, earliest first.
pub fn to_marked(quantity: u32, parts: &[Part], shares: &mut [u32])
    requires { length shares.old ≡ length parts.now }
    ensures { shares.new ≡ shares_in_order quantity (map (λ p. (if p.marked then p.quantity else 0)) parts.now) }
{
    share_in_order(
        |p| if p.marked { p.quantity } else { 0 },
        quantity,
        parts,
        shares,
    );
}

/// The parts of one order take what they can, earliest first.
pub fn to_order(order: u32, quantity: u32, parts: &[Part], shares: &mut [u32])
    requires { length shares.old ≡ length parts.now }
    ensures { shares.new ≡ shares_in_order quantity (pieces order parts.now) }
{
    share_in_order(|p| of_part(order, p), quantity, parts, shares);
}

// Beside `share_in_order`: one text for both would take the walk as a parameter, which is no plainer.
/// The parts of one order take what they can, latest first.
pub fn to_order_latest_first(order: u32, quantity: u32, parts: &[Part], shares: &mut [u32])
    requires { length shares.old ≡ length parts.now }
    ensures { shares.new ≡ reverse (shares_in_order quantity (reverse (pieces order parts.now))) }
{
    let mut left = quantity;
    // By index: after an adapter of `iter_mut` a proof knows only how many there are.
    for (i, part) in parts.iter().enumerate().rev() {
        let size = of_part(order, part);
        shares[i] = left.min(size);
        left = left.saturating_sub(size);
    }
}

/// The latest part of one order takes all it has, and the others nothing. What it has.
pub fn latest_alone(order: u32, parts: &[Part], shares: &mut [u32]) -> u32
    requires { length shares.old ≡ length parts.now }
    ensures shares { shares.new ≡ last_alone (pieces order parts.now) }
    ensures size { result ≡ sum (last_alone (pieces order parts.now)) }
{
    let latest = parts.iter().rposition(|p| of_part(order, p) > 0);
    let size = latest.map_or(0, |i| of_part(order, &parts[i]));
    shares.fill(0);
    if let Some(i) = latest {
        shares[i] = size;
    }
    size
}
