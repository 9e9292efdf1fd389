//! Claims, and shares by time: one text for every kind of claim.
ghost use Rattle.std.specs.Prelude.{◌≡◌, ℕ, ◌-◌, ◌<◌, min, map, length, slice_index, slice_set};
ghost use Rattle.std.specs.List.{AllByRecursion};
ghost use Rattle.allocation.specs.ByTime.{time_shares, shares_in_order};
ghost use Rattle.allocation.specs.declared.claims.Claim.{Claim};

/// A claim: who claims, and how many shares.
#[derive(Clone, Copy, Debug, PartialEq, Eq)]
pub struct Claim {
    pub participant: u8,
    pub size: u32,
}

/// What makes a claim: a part of a category, one of a participant's parts, a piece of an order.
pub trait Claimed {
    ghost claim: { Self → Claim };

    fn claim(&self) -> Claim
        ensures { result ≡ claim self.now };
}

impl Claimed for Claim {
    ghost claim = { λ c. c };

    fn claim(&self) -> Claim {
        *self
    }
}

/// Takes what it can of `size` from the allotment at `k`.
pub(crate) fn draw(allotted: &mut [u32], k: usize, size: u32) -> u32
    requires { k < length allotted.old }
    ensures takes { result ≡ min (slice_index allotted.old k) size }
    ensures after { allotted.new ≡ slice_set allotted.old k (slice_index allotted.old k - size) }
{
    let x = allotted[k].min(size);
    allotted[k] -= x;
    x
}

/// Each claim in order takes what it can of what is allotted to its group.
pub(crate) fn by_time<C: Claimed, F: Fn(Claim) -> usize>(
    claims: &[C],
    allotted: &mut [u32],
    shares: &mut [u32],
    group: F,
)
    requires one_each { length shares.old ≡ length claims.now }
    requires callable { F.IsAlwaysCallable group }
    requires groups_there { AllByRecursion (λ c. (k : ℕ) → F.post group (C.claim c) k → k < length allotted.old) claims.now }
    ensures { (g : Claim → ℕ) → ((c : Claim) (k : ℕ) → F.post group c k → k ≡ g c) → shares.new ≡ time_shares (λ k. slice_index allotted.old k) (map (λ c. (g (C.claim c), (C.claim c).size)) claims.now) }
{
    // Shares are written by index: after an adapter of `iter_mut` a proof knows only how many there are.
    for (i, item) in claims.iter().enumerate() {
        let claim = item.claim();
        shares[i] = draw(allotted, group(claim), claim.size);
    }
}

/// By time: each claim in order takes what it can of one quantity.
pub fn in_order<C: Claimed>(quantity: u32, claims: &[C], shares: &mut [u32])
    requires { length shares.old ≡ length claims.now }
    ensures { shares.new ≡ shares_in_order quantity (map (λ c. (C.claim c).size) claims.now) }
{
    by_time(claims, &mut [quantity], shares, |_| 0);
}
