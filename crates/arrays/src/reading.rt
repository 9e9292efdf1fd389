//! A list is made, and read.
ghost use Rattle.std.specs.Prelude.{◌≡◌, ◌+◌, ◌<◌, ◌≤◌, ◌↔◌, [], IsTrue, length, take, drop, slice_index_or};
ghost use Rattle.arrays.specs.Items.{items};

use super::ArrayVec;

// Inlined, since a dealing was measured to take a tenth longer where they are calls.
impl<T: Copy, const N: usize> ArrayVec<T, N> {
    /// A list without items; `fill` stands in the unused places.
    #[inline(always)]
    pub fn new(fill: T) -> ArrayVec<T, N>
        ensures { items result ≡ [] }
    {
        ArrayVec {
            items: [fill; N],
            len: 0,
        }
    }

    /// How many items there are.
    #[inline(always)]
    pub fn len(&self) -> usize
        ensures { result ≡ length (items self.now) }
    {
        self.len
    }

    /// Whether there is no item.
    #[inline(always)]
    pub fn is_empty(&self) -> bool
        ensures { IsTrue result ↔ (items self.now ≡ []) }
    {
        self.as_slice().is_empty()
    }

    /// All items.
    #[inline(always)]
    pub fn as_slice(&self) -> &[T]
        ensures { result.now ≡ items self.now }
    {
        let all = &self.items[..];
        &all[0..self.len]
    }

    /// The `n` items from `start` on.
    #[inline(always)]
    pub fn slice(&self, start: usize, n: usize) -> &[T]
        requires { start + n ≤ length (items self.now) }
        ensures { result.now ≡ take n (drop start (items self.now)) }
    {
        let all = self.as_slice();
        &all[start..start + n]
    }

    /// The item at `i`, where it stands.
    #[inline(always)]
    pub fn at(&self, i: usize) -> &T
        requires { i < length (items self.now) }
        ensures { result.now ≡ slice_index_or (items self.now) i result.now }
    {
        &self.items[i]
    }

    /// A copy of the item at `i`.
    #[inline(always)]
    pub fn get(&self, i: usize) -> T
        requires { i < length (items self.now) }
        ensures { result ≡ slice_index_or (items self.now) i result }
    {
        self.items[i]
    }
}

// Written and not derived, so that the contract says which value it is.
impl<T: Copy + Default, const N: usize> Default for ArrayVec<T, N> {
    ghost is_default = { λ v. items v ≡ [] };

    fn default() -> Self {
        ArrayVec::new(T::default())
    }
}
