//! What parts and shares come to.
ghost use Rattle.std.specs.Prelude.{◌≡◌, ℕ, ◌+◌, ◌-◌, ◌^◌, ◌<◌, ◌≤◌, length, nat_le, slice_index_or, slice_set, IsNone, IfSome};
ghost use Rattle.allocation.specs.Dealings.{sum};
ghost use Rattle.rules.specs.Lists.{sum_of, any};
ghost use Rattle.rules.specs.Books.{part};
ghost use Rattle.rules.specs.Quantities.{of_part, of_order as shares_of};
ghost use Rattle.rules.specs.Reserve.{raised};
ghost use Rattle.rules.specs.declared.orders.Part.{Part as RulePart};

use rules::Part;

/// What a part counts for one order.
pub(crate) fn of_part(order: u32, part: &Part) -> u32
    ensures { result ≡ of_part order part.now }
{
    if part.order == order {
        part.quantity
    } else {
        0
    }
}

/// What is left of a quantity without the shares.
pub fn left_of(quantity: u32, shares: &[u32]) -> u32
    ensures { result ≡ quantity - sum shares.now }
{
    shares
        .iter()
        .fold(quantity, |left, x| left.saturating_sub(*x))
}

/// Whether the parts come to the round lot.
pub fn come_to(lot: u32, parts: &[Part]) -> bool
    ensures { result ≡ nat_le lot (sum_of (λ p. p.quantity) parts.now) }
{
    let left = parts
        .iter()
        .fold(lot, |left, p| left.saturating_sub(p.quantity));
    left == 0
}

/// What the parts of one order come to.
pub fn of_order(order: u32, parts: &[Part]) -> u32
    requires { shares_of order parts.now < 2 ^ 32 }
    ensures { result ≡ shares_of order parts.now }
{
    parts.iter().map(|p| of_part(order, p)).sum()
}

/// Whether a part is marked.
pub fn any_marked(parts: &[Part]) -> bool
    ensures { result ≡ any (λ p. p.marked) parts.now }
{
    parts.iter().any(|p| p.marked)
}

/// The place of the first part of an order, if there is one.
pub fn place_of(order: u32, parts: &[Part]) -> Option<usize>
    ensures within { IfSome result (λ k. k < length parts.now) }
    ensures found { (m : ℕ) (d : RulePart) → IfSome result (λ k. raised order m parts.now ≡ slice_set parts.now k (part (slice_index_or parts.now k d).order (slice_index_or parts.now k d).participant ((slice_index_or parts.now k d).quantity + m) (slice_index_or parts.now k d).marked)) }
    ensures none { (m : ℕ) → IsNone result → raised order m parts.now ≡ parts.now }
    ensures owner { (d : RulePart) → IfSome result (λ k. (slice_index_or parts.now k d).order ≡ order) }
{
    parts.iter().position(|p| p.order == order)
}
