ghost use Rattle.std.specs.Prelude.{◌≡◌, ℕ, ◌<◌, ◌≤◌, true, [], ◌∷◌, ◌++◌, length, is_ok, is_some, if◌then◌else◌, nat_lt, slice_set};
ghost use Rattle.std.specs.List.{slice_get};
ghost use Rattle.std.specs.Option.{option_map};
ghost use Rattle.fixed.specs.Items.{items};

use crate::{Fixed, Full};

impl<T: Copy, const N: usize> Fixed<T, N> {
    /// An empty list. `blank` fills the places that say nothing yet.
    pub fn new(blank: T) -> Fixed<T, N>
        requires { N < 65536 }
        ensures { items result ≡ [] }
    {
        Fixed {
            slots: [blank; N],
            count: 0,
        }
    }

    /// How many things the list holds.
    pub fn len(&self) -> usize
        ensures value { result ≡ length (items self.now) }
        ensures bound { result ≤ N }
    {
        usize::from(self.count)
    }

    /// A copy of what stands at place `i`, or `None` from the end on.
    pub fn get(&self, i: usize) -> Option<T>
        ensures item { result ≡ slice_get (items self.now) i }
        ensures bound { is_some result ≡ true → i < N }
    {
        self.peek(i).copied()
    }

    /// What stands at place `i`, lent and not copied, or `None` from the end on.
    pub fn peek(&self, i: usize) -> Option<&T>
        ensures item { option_map (λ x. x.now) result ≡ slice_get (items self.now) i }
        ensures bound { is_some result ≡ true → i < N }
    {
        self.as_slice().get(i)
    }

    /// All that the list holds, in its order.
    pub fn as_slice(&self) -> &[T]
        ensures { result.now ≡ items self.now }
    {
        &self.slots[..self.count as usize]
    }

    /// Puts `x` at the end. A full list takes nothing more, and stays as it is.
    pub fn push(&mut self, x: T) -> Result<(), Full>
        ensures room { is_ok result ≡ nat_lt (length (items self.old)) N }
        ensures after { items self.new ≡ (if is_ok result then items self.old ++ (x ∷ []) else items self.old) }
    {
        if self.count as usize >= N {
            return Err(Full);
        }
        self.slots[self.count as usize] = x;
        self.count += 1;
        Ok(())
    }

    /// Puts `x` in place of what stands at `i`. From the end on nothing changes.
    pub fn change(&mut self, i: usize, x: T)
        ensures { items self.new ≡ slice_set (items self.old) i x }
    {
        if i < self.len() {
            self.slots[i] = x;
        }
    }
}
