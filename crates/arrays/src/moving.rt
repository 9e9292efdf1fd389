//! A stretch of an array moves down.
ghost use Rattle.std.specs.Prelude.{◌≡◌, ◌-◌, ◌≤◌, ◌++◌, length, take};
ghost use Rattle.std.specs.List.{between};

/// Moves what stands from `j` to before `n` down to `i`.
pub fn close<T: Copy, const N: usize>(all: &mut [T; N], i: usize, j: usize, n: usize)
    requires { (i ≤ j) × ((j ≤ n) × (n ≤ N)) }
    ensures front { take (n - (j - i)) all.new ≡ take i all.old ++ between j n all.old }
    ensures long { length all.new ≡ length all.old }
{
    all.copy_within(j..n, i);
}
