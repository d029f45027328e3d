ghost use Rattle.fixed.specs.Items.{items};
ghost use Rattle.order.specs.Stored.{Stored};

use fixed::Fixed;

/// The pairs that are stored, the earlier step of each first. A pair that follows from those before it is not stored, so that
/// 496 places suffice.
#[derive(Clone, Copy)]
pub struct PairList {
    pub(super) pairs: Fixed<(u8, u8), 496>,
    ghost ok: { ∥ Stored 32 (items pairs) ∥₁ },
}
