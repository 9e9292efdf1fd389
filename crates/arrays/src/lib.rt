//! A list of bounded length in the front of an array: no heap, no allocation.
#![tactic(auto)]

ghost use Rattle.std.specs.Prelude.{◌≡◌, ◌≤◌, ⊤, length};

mod changing;
mod filtering;
mod moving;
mod reading;

pub use moving::close;
use std::alloc::AllocError;

// The wheel must be Copy, and the kit's own ArrayVec is not; one list for all is plainer than two.
/// At most `N` items, in the front of an array.
#[derive(Copy)]
pub struct ArrayVec<T, const N: usize> {
    items: [T; N],
    len: usize,
    ghost fits: { len ≤ N },
    ghost long: { length items ≡ N },
}

// Not derived: a derived clone promises only what T's clone does, and not that it equals its source.
impl<T: Copy, const N: usize> Clone for ArrayVec<T, N> {
    ghost is_clone = { λ x y. y ≡ x };

    ghost is_infallible = { λ _. ⊤ };

    fn clone(&self) -> Result<Self, AllocError> {
        Ok(*self)
    }
}
