//! The links of a method.
ghost use Rattle.std.specs.Prelude.{◌≡◌, ℕ, ◌<◌, true, not, ◌&&◌, ◌||◌, is_ok, map, if◌then◌else◌, Some, ◌==◌, [], ◌∷◌};
ghost use Rattle.page.specs.Answers.{row};
ghost use Rattle.semantics.specs.Causes.{first_of, told, when};
ghost use Rattle.semantics.specs.Methods.{link_of};
ghost use Rattle.semantics.specs.OpenLines.{link_causes};
ghost use Rattle.semantics.specs.Orders.{put};
ghost use Rattle.semantics.specs.Plans.{both_primitive};
ghost use Rattle.links.specs.Parts.{end_causes, first_cause, refused, room_causes};
ghost use Rattle.domain.specs.Meaning.{tasks};
ghost use Rattle.methods.specs.Linking.{linked_in};
ghost use Rattle.methods.specs.Meaning.{method};
ghost use Rattle.order.specs.Tables.{relation};

use crate::{Method, SmallOrder};
use domain::Tasks;
use links::{check_ends, has_room, join};
use page::{Answer, Refusal, Side};
use semantics::Link;

/// Lets a link join two steps. Where both are primitive, the first is before the second from then on.
// The plan's function of this name is over a keeper, and the project keeps the order of a method out of keepers. What is alike is in links:
// a trait over methods and plans would have eight members for two types. So below, for the ends of a link and its entry.
fn arrange(order: &mut SmallOrder, p: u8, q: u8, ordered: bool) -> Result<(), Refusal>
    requires producer { p < 8 }
    requires consumer { q < 8 }
    ensures answer { refused result ≡ first_cause ((11, when (p == q || (ordered && relation order.old q p))) ∷ []) }
    ensures after { relation order.new ≡ (if is_ok result && ordered then put (relation order.old) p q else relation order.old) }
{
    if ordered {
        order.put(p, q)?;
    } else if p == q {
        return Err(Refusal::Circle);
    }
    Ok(())
}

impl Method {
    /// Whether the fields of a link name a link's ends, which name one fact.
    fn check_ends(&self, known: &Tasks, l: Link) -> Result<(), Refusal>
        ensures refusal { refused result ≡ first_cause (end_causes (tasks known.now) (map Some (method self.now).steps) l) }
        ensures small { is_ok result ≡ true → (l.producer < 8) × (l.consumer < 8) }
    {
        check_ends(
            self.has_step(l.producer),
            self.step_fact(known, l.producer, Side::Add, l.add),
            self.has_step(l.consumer),
            self.step_fact(known, l.consumer, Side::Need, l.need),
        )
    }

    /// Whether both ends of a link are of primitive tasks.
    fn joins_primitive(&self, known: &Tasks, l: Link) -> bool
        ensures { result ≡ both_primitive (tasks known.now) (map Some (method self.now).steps) l }
    {
        self.is_primitive_step(known, l.producer) && self.is_primitive_step(known, l.consumer)
    }

    /// Enters a link whose ends name one fact, unless the list is full or the order has no room for it.
    fn tie(&mut self, l: Link, ordered: bool) -> Answer
        requires producer { l.producer < 8 }
        requires consumer { l.consumer < 8 }
        ensures answer { row result ≡ first_of (room_causes (method self.old).links (method self.old).before 16 l ordered) 0 }
        ensures after { method self.new ≡ told (row result) (linked_in (method self.old) l ordered) (method self.old) }
    {
        if !has_room(&self.links, l) {
            return Err(Refusal::LimitPassed);
        }
        arrange(&mut self.order, l.producer, l.consumer, ordered)?;
        join(&mut self.links, l);
        Ok(0)
    }

    /// L: a link from an add of one step to a need of another.
    pub fn link(&mut self, known: &Tasks, link: Link) -> Answer
        ensures answer { row result ≡ first_of (link_causes (tasks known.now) (map Some (method self.old).steps) (method self.old).links (method self.old).before 16 link) 0 }
        ensures after { method self.new ≡ told (row result) (link_of (tasks known.now) (method self.old) link) (method self.old) }
    {
        self.check_ends(known, link)?;
        self.tie(link, self.joins_primitive(known, link))
    }
}
