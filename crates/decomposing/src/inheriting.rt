//! Order that the new steps inherit from the step that leaves.
ghost use Rattle.std.specs.Prelude.{◌≡◌, ◌&&◌, is_ok};
ghost use Rattle.semantics.specs.OpenLines.{is_step};
ghost use Rattle.semantics.specs.Plans.{present_from};
ghost use Rattle.decomposing.specs.Exchanges.{beside, facing_pair, inherited, numbers, old_steps};
ghost use Rattle.decomposing.specs.Trying.{Tried};

use crate::exchange::{Exchange, Side};
use order::{Keeper, Refused, put_each};

impl Side {
    /// A step on that side of another, and that other, as the earlier and the later one.
    fn pair(self, x: u8, y: u8) -> (u8, u8)
        ensures { result ≡ facing_pair self x y }
    {
        match self {
            Side::Before => (x, y),
            Side::After => (y, x),
        }
    }
}

impl Exchange<'_> {
    /// Whether step `x` is present and stands on that side of the step that leaves.
    fn is_beside<K: Keeper>(&self, keeper: &K, side: Side, x: u8) -> bool
        ensures { result ≡ (is_step (old_steps self.now) x && beside side (K.before keeper.now) self.now.leaving x) }
    {
        let (a, b) = side.pair(x, self.leaving);
        self.target.is_step(x) && keeper.before(a, b)
    }

    /// Puts each present step on that side of the step that leaves on the same side of each new step.
    pub fn put_inherited<K: Keeper>(
        &self,
        next: &mut K,
        keeper: &K,
        side: Side,
    ) -> Result<(), Refused>
        ensures { Tried K.CAPACITY (K.before next.old) (inherited side (K.before keeper.now) self.now.leaving (present_from 0 (old_steps self.now)) (numbers self.now)) (is_ok result) (K.before next.new) }
    {
        let old = (0..self.target.given()).filter(|x| self.is_beside(keeper, side, *x));
        let pairs = old.flat_map(|x| self.numbers().map(move |y| side.pair(x, y)));
        put_each(next, pairs)
    }
}
