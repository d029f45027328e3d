ghost use Rattle.fixed.specs.Items.{items};
ghost use Rattle.methods.specs.Ends.{SmallEnds};
ghost use Rattle.methods.specs.Places.{going};
ghost use Rattle.methods.specs.Routes.{SmallSteps};

use crate::Entries;
use fixed::Fixed;
use order::Table;
use semantics::Link;

/// The order of the at most 8 steps of a method.
pub type SmallOrder = Table<8>;

/// A method: its task, the tasks of its steps, its links, its own order, and where each need and each add of its task
/// goes. Both ends of each link are numbers below 8, and each entry names a step below 8.
#[derive(Clone, Copy)]
pub struct Method {
    pub(super) task: u8,
    pub(super) steps: Fixed<u8, 8>,
    pub(super) links: Fixed<Link, 16>,
    pub(super) order: SmallOrder,
    pub(super) needs: Entries,
    pub(super) adds: Entries,
    ghost ends: { SmallEnds (items links) },
    ghost needs_within: { SmallSteps (going needs) },
    ghost adds_within: { SmallSteps (going adds) },
}
