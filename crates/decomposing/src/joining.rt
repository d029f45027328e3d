//! Order that joins with a method: that of its own steps, and that of the links between primitive steps.
ghost use Rattle.std.specs.Prelude.{◌≡◌, is_ok};
ghost use Rattle.domain.specs.Meaning.{tasks};
ghost use Rattle.methods.specs.Meaning.{method};
ghost use Rattle.plan.specs.Meaning.{given_steps};
ghost use Rattle.semantics.specs.Decomposing.{link_pairs, pairs_of, shifted};
ghost use Rattle.decomposing.specs.Exchanges.{first};
ghost use Rattle.decomposing.specs.Trying.{Tried};

use crate::exchange::Exchange;
use domain::Tasks;
use order::{Keeper, Refused, put_each};
use plan::Steps;
use semantics::Link;

impl Exchange<'_> {
    /// Puts the method's own order.
    pub fn put_own<K: Keeper>(&self, next: &mut K) -> Result<(), Refused>
        ensures { Tried K.CAPACITY (K.before next.old) (shifted (first self.now) (pairs_of (method self.now.method.now))) (is_ok result) (K.before next.new) }
    {
        let count = self.method.count_steps();
        let own = (0..count).flat_map(|a| {
            (0..count)
                .filter(move |b| self.method.before(a, *b))
                .map(move |b| (self.first() + a, self.first() + b))
        });
        put_each(next, own)
    }
}

/// Puts the producer before the consumer for each link between primitive steps.
pub fn put_links<K: Keeper>(
    next: &mut K,
    known: &Tasks,
    steps: &Steps,
    links: &[Link],
) -> Result<(), Refused>
    ensures { Tried K.CAPACITY (K.before next.old) (link_pairs (tasks known.now) (given_steps steps.now) links.now) (is_ok result) (K.before next.new) }
{
    let ordering = links
        .iter()
        .filter(|link| steps.has_primitive_ends(known, **link));
    put_each(next, ordering.map(|link| (link.producer, link.consumer)))
}
