ghost use Rattle.std.specs.Prelude.{◌≡◌, ℕ, ◌<◌, true};
ghost use Rattle.fixed.specs.Items.{items};
ghost use Rattle.semantics.specs.Facts.{among};
ghost use Rattle.masks.specs.Bits.{bit};

use fixed::Fixed;

/// A list of at most 32 facts, each below 64, and the same facts as the bits of a mask.
///
/// A fact's label is its place in the list. A fact may stand twice.
#[derive(Clone, Copy)]
pub struct FactList {
    pub(super) list: Fixed<u8, 32>,
    pub(super) mask: u64,
    ghost small: { (f : ℕ) → among f (items list) ≡ true → f < 64 },
    ghost marked: { (f : ℕ) → bit mask f ≡ among f (items list) },
}
