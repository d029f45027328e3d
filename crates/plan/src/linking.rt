//! The links of a plan.
ghost use Rattle.std.specs.Prelude.{◌≡◌, ◌<◌, ◌≤◌, not, ◌&&◌, ◌||◌, is_ok, length, if◌then◌else◌, ◌==◌};
ghost use Rattle.std.specs.List.{slice_get};
ghost use Rattle.std.specs.Option.{option_map};
ghost use Rattle.fixed.specs.Items.{items};
ghost use Rattle.page.specs.Answers.{row};
ghost use Rattle.semantics.specs.Causes.{first_of, told};
ghost use Rattle.semantics.specs.OpenLines.{link_causes};
ghost use Rattle.semantics.specs.Orders.{put};
ghost use Rattle.semantics.specs.PlanLines.{producer};
ghost use Rattle.semantics.specs.Plans.{at_task, primitive_at};
ghost use Rattle.semantics.specs.States.{plan_link};
ghost use Rattle.semantics.specs.Tasks.{adds_of, needs_of};
ghost use Rattle.links.specs.Parts.{end_causes, first_cause, refused, room_causes};
ghost use Rattle.domain.specs.Meaning.{tasks};
ghost use Rattle.plan.specs.Meaning.{given_steps, linked_in, plan};

use crate::Plan;
use domain::Tasks;
use links::{check_ends, has_room, join};
use order::{Keeper, Refused};
use page::{Answer, Refusal};
use semantics::Link;

/// Lets a link join two steps. Where both are primitive, the first is before the second from then on.
// The method's function of this name is over a table: the project keeps the order of a method out of keepers. What is alike is in links: a
// trait over methods and plans would have eight members for two types. So below, for the ends of a link and its entry.
fn arrange<K: Keeper>(keeper: &mut K, p: u8, q: u8, ordered: bool) -> Result<(), Refused>
    ensures answer { p < K.CAPACITY → q < K.CAPACITY → is_ok result ≡ not (p == q || (ordered && K.before keeper.old q p)) }
    ensures after { K.before keeper.new ≡ (if is_ok result && ordered then put (K.before keeper.old) p q else K.before keeper.old) }
{
    if ordered {
        return keeper.put(p, q);
    }
    if p == q {
        return Err(Refused);
    }
    Ok(())
}

impl Plan {
    /// The producer of need `j` of step `s`: the lowest linked step, or none.
    pub fn producer(&self, s: u8, j: u8) -> Option<u8>
        ensures { result ≡ producer (items self.now.links) s j }
    {
        self.links()
            .iter()
            .filter(|link| link.consumer == s && link.need == j)
            .map(|link| link.producer)
            .min()
    }

    /// The fact that a link is wanted for, by its consumer.
    fn fact_wanted(&self, known: &Tasks, link: Link) -> Option<u8>
        ensures { result ≡ slice_get (needs_of (at_task (tasks known.now) (slice_get (given_steps self.now.steps) link.consumer))) link.need }
    {
        self.task(known, link.consumer)?.needs().get(link.need)
    }

    /// Whether the fields of a link name a link's ends, which name one fact.
    fn check_ends(&self, known: &Tasks, l: Link) -> Result<(), Refusal>
        ensures { refused result ≡ first_cause (end_causes (tasks known.now) (given_steps self.now.steps) l) }
    {
        check_ends(
            self.is_step(l.producer),
            self.fact_of(known, l),
            self.is_step(l.consumer),
            self.fact_wanted(known, l),
        )
    }

    /// Enters a link whose ends name one fact, unless the list is full or the order has no room for it.
    fn tie<K: Keeper>(&mut self, keeper: &mut K, l: Link, ordered: bool) -> Answer
        ensures answer { l.producer < K.CAPACITY → l.consumer < K.CAPACITY → row result ≡ first_of (room_causes (items self.old.links) (K.before keeper.old) 256 l ordered) 0 }
        ensures after { plan (K.before keeper.new) self.new ≡ told (row result) (linked_in (plan (K.before keeper.old) self.old) l ordered) (plan (K.before keeper.old) self.old) }
    {
        // Asked before the order changes, so that a refused link changes nothing.
        if !has_room(&self.links, l) {
            return Err(Refusal::LimitPassed);
        }
        arrange(keeper, l.producer, l.consumer, ordered)?;
        join(&mut self.links, l);
        Ok(0)
    }

    /// L: a link from an add of one step to a need of another. Between primitive steps the producer is before the consumer from
    /// then on. A link that stands already is accepted again, also on a full list. The plan has no more step numbers than the
    /// keeper.
    pub fn put_link<K: Keeper>(&mut self, keeper: &mut K, known: &Tasks, link: Link) -> Answer
        ensures answer { length (given_steps self.old.steps) ≤ K.CAPACITY → row result ≡ first_of (link_causes (tasks known.now) (given_steps self.old.steps) (items self.old.links) (K.before keeper.old) 256 link) 0 }
        ensures after { plan (K.before keeper.new) self.new ≡ told (row result) (plan_link (tasks known.now) (plan (K.before keeper.old) self.old) link) (plan (K.before keeper.old) self.old) }
    {
        self.check_ends(known, link)?;
        let ordered = self.steps.has_primitive_ends(known, link);
        self.tie(keeper, link, ordered)
    }
}
