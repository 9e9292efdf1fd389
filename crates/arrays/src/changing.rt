//! Items change in place, come and go.
ghost use Rattle.std.specs.Prelude.{◌≡◌, ◌+◌, ◌<◌, ◌≤◌, [], ◌∷◌, ◌++◌, length, take, drop, slice_index_or, slice_set};
ghost use Rattle.std.specs.Fn.{FnOnceTakesAtMut, FnOnceReturnsAtMut};
ghost use Rattle.std.specs.List.{insert};
ghost use Rattle.arrays.specs.Items.{items};

use super::ArrayVec;
use crate::moving::close;

impl<T: Copy, const N: usize> ArrayVec<T, N> {
    /// Puts `x` in the place of the item at `i`.
    pub fn set(&mut self, i: usize, x: T)
        requires { i < length (items self.old) }
        ensures { items self.new ≡ slice_set (items self.old) i x }
    {
        self.items[i] = x;
    }

    /// Changes the item at `i` where it stands.
    pub fn edit<F: FnOnce(&mut T)>(&mut self, i: usize, how: F)
        requires place { i < length (items self.old) }
        requires takes { (d : T) → FnOnceTakesAtMut F.FnOnce how (slice_index_or (items self.old) i d) }
        ensures { (d : T) → (y : T) × FnOnceReturnsAtMut F.FnOnce how (slice_index_or (items self.old) i d) tt y × (items self.new ≡ slice_set (items self.old) i y) }
    {
        how(&mut self.items[i]);
    }

    /// Puts `x` behind the last item.
    pub fn push(&mut self, x: T)
        requires { length (items self.old) < N }
        ensures { items self.new ≡ items self.old ++ x ∷ [] }
    {
        self.items[self.len] = x;
        self.len += 1;
    }

    /// Puts `x` at `i`, and moves what stands from there on one up.
    pub fn insert(&mut self, i: usize, x: T)
        requires room { length (items self.old) < N }
        requires place { i ≤ length (items self.old) }
        ensures { items self.new ≡ insert (items self.old) i x }
    {
        let n = self.len;
        self.items[n] = x;
        let all = &mut self.items[..];
        all[i..n + 1].rotate_right(1);
        self.len = n + 1;
    }

    /// Removes the item at `i`.
    pub fn remove(&mut self, i: usize)
        requires { i < length (items self.old) }
        ensures { items self.new ≡ take i (items self.old) ++ drop (i + 1) (items self.old) }
    {
        self.remove_range(i, i + 1);
    }

    /// Removes the items from `i` to before `j`.
    pub fn remove_range(&mut self, i: usize, j: usize)
        requires { (i ≤ j) × (j ≤ length (items self.old)) }
        ensures { items self.new ≡ take i (items self.old) ++ drop j (items self.old) }
    {
        if i == j {
            return;
        }
        let n = self.len;
        close(&mut self.items, i, j, n);
        self.len = n - (j - i);
    }

    /// Keeps the first `n` items.
    pub fn truncate(&mut self, n: usize)
        requires { n ≤ length (items self.old) }
        ensures { items self.new ≡ take n (items self.old) }
    {
        self.len = n;
    }

    /// Removes every item.
    pub fn clear(&mut self)
        ensures { items self.new ≡ [] }
    {
        self.truncate(0);
    }

    /// The first `mid` items go behind the others.
    pub fn rotate_left(&mut self, mid: usize)
        requires { mid ≤ length (items self.old) }
        ensures { items self.new ≡ drop mid (items self.old) ++ take mid (items self.old) }
    {
        let n = self.len;
        let all = &mut self.items[..];
        all[0..n].rotate_left(mid);
    }
}
