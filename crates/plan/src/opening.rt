//! A plan before its first line.
ghost use Rattle.std.specs.Prelude.{◌≡◌, [], ◌∷◌, Some};
ghost use Rattle.fixed.specs.Items.{items};
ghost use Rattle.semantics.specs.States.{opening_plan};
ghost use Rattle.plan.specs.Meaning.{given_steps, plan};

use crate::{Plan, Steps};
use fixed::Fixed;
use order::Keeper;
use semantics::Link;

/// A keeper in which init is before goal, and nothing else.
fn framed<K: Keeper>() -> K
    ensures { K.before result ≡ opening_plan.before }
{
    let mut keeper = K::new();
    let _ = keeper.put(0, 1);
    keeper
}

impl Plan {
    /// The steps init (0) and goal (1), and no links.
    fn framed() -> Plan
        ensures steps { given_steps result.steps ≡ Some 0 ∷ Some 1 ∷ [] }
        ensures links { items result.links ≡ [] }
    {
        Plan {
            steps: Steps::framed(),
            links: Fixed::new(Link::default()),
        }
    }

    /// The plan as it opens, with its keeper: init before goal, and no links.
    pub fn open<K: Keeper>() -> (Plan, K)
        ensures { plan (K.before result.1) result.0 ≡ opening_plan }
    {
        (Plan::framed(), framed())
    }
}
