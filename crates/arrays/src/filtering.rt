//! Items are kept by a test.
ghost use Rattle.std.specs.Prelude.{◌≡◌, Bool, filter};
ghost use Rattle.std.specs.Fn.{FnReturnsAt};
ghost use Rattle.arrays.specs.Items.{items};

use super::ArrayVec;

impl<T: Copy, const N: usize> ArrayVec<T, N> {
    /// Keeps the items at which `keep` answers true, in their order.
    pub fn retain<F: Fn(&T) -> bool>(&mut self, keep: F)
        requires { F.IsAlwaysCallable keep }
        ensures { (p : T → Bool) → ((x : T) (b : Bool) → FnReturnsAt F.Fn keep x b → b ≡ p x) → items self.new ≡ filter p (items self.old) }
    {
        let mut k = 0;
        // By index, since one pass reads and writes the items.
        for j in 0..self.len {
            if keep(&self.items[j]) {
                // What is in place is not written again.
                if k < j {
                    self.items[k] = self.items[j];
                }
                k += 1;
            }
        }
        self.len = k;
    }
}
