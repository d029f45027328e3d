ghost use Rattle.std.specs.Prelude.{◌≡◌, ℕ, ◌<◌, ◌≤◌, length, ⊤};

use std::alloc::AllocError;

/// A thing that was not put, since the list is full.
#[derive(Clone, Copy, PartialEq, Eq, Debug)]
pub struct Full;

// Not `Vec`, since the libraries use no heap.
/// A list of at most N things: the first `count` places of an array. The places after them say nothing.
pub struct Fixed<T, const N: usize> {
    pub(super) slots: [T; N],
    pub(super) count: u16,
    ghost within: { count ≤ N },
    ghost countable: { N < 65536 },
    ghost whole: { length slots ≡ N },
}

// Not derived: `Clone` is refused for a struct with a type parameter and a ghost field.
impl<T: Copy, const N: usize> Clone for Fixed<T, N> {
    ghost is_clone = { λ old new. new ≡ old };

    ghost is_infallible = { λ _. ⊤ };

    fn clone(&self) -> Result<Self, AllocError> {
        Ok(*self)
    }
}

impl<T: Copy, const N: usize> Copy for Fixed<T, N> {}
