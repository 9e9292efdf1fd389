//! Parts lose shares where they stand.
ghost use Rattle.std.specs.Prelude.{◌≡◌, ◌+◌, ◌≤◌, length, take, drop};
ghost use Rattle.arrays.specs.Items.{items};
ghost use Rattle.rules.specs.Changes.{lowered};
ghost use Rattle.levels.specs.Splices.{spliced};

use super::PARTS;
use arrays::ArrayVec;
use rules::Part;

/// Each of the `n` parts from `start` on loses its amount. A part at 0 goes. How many stay.
pub(super) fn lower_each(
    parts: &mut ArrayVec<Part, PARTS>,
    start: usize,
    n: usize,
    amounts: &[u32],
) -> usize
    requires place { start + n ≤ length (items parts.old) }
    requires each { length amounts.now ≡ n }
    ensures after { items parts.new ≡ spliced (items parts.old) start (start + n) (lowered (take n (drop start (items parts.old))) amounts.now) }
    ensures count { result ≡ length (lowered (take n (drop start (items parts.old))) amounts.now) }
{
    // By index, and `k` counts those that stay: after an adapter of `iter_mut` a proof knows only how many there are.
    let mut k = start;
    for (j, amount) in amounts.iter().enumerate() {
        let p = parts.get(start + j);
        if *amount < p.quantity {
            parts.set(k, p.with_quantity(p.quantity - *amount));
            k += 1;
        }
    }
    parts.remove_range(k, start + n);
    k - start
}
