//! Many pairs put into any keeper.
ghost use Rattle.std.specs.Prelude.{◌≡◌, ℕ, List, is_ok, if◌then◌else◌, Some, None};
ghost use Rattle.std.specs.Iterator.{AlwaysYields, IsFinite};
ghost use Rattle.order.specs.Puts.{Low, put_each};
ghost use Rattle.semantics.specs.Closures.{try_all};

use crate::keeper::{Keeper, Refused};

/// Puts the pairs that an iterator hands out one by one until one is refused; those before it stay.
pub fn put_each<K: Keeper, I: Iterator<Item = (u8, u8)> + Drop>(
    keeper: &mut K,
    pairs: I,
) -> Result<(), Refused>
    requires can { I.can_next pairs }
    requires ends { IsFinite (I.remaining pairs) }
    ensures { (ps : List (ℕ × ℕ)) → AlwaysYields I.next_gives (λ p. p) pairs ps → (is_ok result, K.before keeper.new) ≡ put_each K.CAPACITY (K.before keeper.old) ps }
{
    for (a, b) in pairs {
        keeper.put(a, b)?;
    }
    Ok(())
}

/// Puts the pairs one by one until one is refused; those before it stay.
///
/// Where all numbers are below the capacity, the order at the end is the smallest that holds the old one and all the pairs, and
/// a pair is refused exactly where that would put a step before itself.
pub fn put_all<K: Keeper>(keeper: &mut K, pairs: &[(u8, u8)]) -> Result<(), Refused>
    ensures puts { (is_ok result, K.before keeper.new) ≡ put_each K.CAPACITY (K.before keeper.old) pairs.now }
    ensures closes { Low K.CAPACITY pairs.now → (if is_ok result then Some (K.before keeper.new) else None) ≡ try_all (Some (K.before keeper.old)) pairs.now }
{
    put_each(keeper, pairs.iter().copied())
}
