//! Judging a plan: three criteria, tried in their order. The keeper is only asked.
//!
//! Needs, and the steps that have them, are gone over by loops with their numbers: a form that the project wants in judging.
ghost use Rattle.std.specs.Prelude.{◌≡◌, length};
ghost use Rattle.domain.specs.Meaning.{tasks};
ghost use Rattle.fixed.specs.Items.{items};
ghost use Rattle.page.specs.Answers.{row};
ghost use Rattle.semantics.specs.Causes.{first_found, first_of, first_such};
ghost use Rattle.semantics.specs.PlanLines.{judge_causes, lowest_link, threatens};
ghost use Rattle.semantics.specs.Plans.{at_task, present_from, steps_of};
ghost use Rattle.semantics.specs.Tasks.{adds_of};
ghost use Rattle.std.specs.List.{slice_get};
ghost use Rattle.plan.specs.Meaning.{given_steps, plan};
ghost use Rattle.plan.specs.Turns.{at_step, is_compound, paired, threatened, unlinked, unlinked_of};

use crate::Plan;
use domain::Tasks;
use order::Keeper;
use page::{Answer, Refusal};
use semantics::Link;

impl Plan {
    /// The lowest compound step.
    fn first_compound(&self, known: &Tasks) -> Option<u8>
        ensures { result ≡ first_such (is_compound (tasks known.now) (given_steps self.now.steps)) (present_from 0 (given_steps self.now.steps)) }
    {
        (0..self.given()).find(|s| self.is_step(*s) && !self.steps.is_primitive(known, *s))
    }

    // A loop with numbers: a form that the project wants in judging.
    /// The lowest of the first `count` needs of step `s` that no link goes to.
    fn first_unlinked(&self, count: u8, s: u8) -> Option<u8>
        ensures { result ≡ unlinked (items self.now.links) count s }
    {
        for j in 0..count {
            if self.producer(s, j).is_none() {
                return Some(j);
            }
        }
        None
    }

    /// The step, if it is present and has a need that no link goes to, and the lowest such need.
    fn open_at(&self, known: &Tasks, s: u8) -> Option<(u8, u8)>
        ensures { result ≡ at_step (given_steps self.now.steps) (λ x. paired x (unlinked_of (tasks known.now) (given_steps self.now.steps) (items self.now.links) x)) s }
    {
        let task = self.task(known, s)?;
        let label = self.first_unlinked(task.needs().len(), s)?;
        Some((s, label))
    }

    // As in `first_unlinked`.
    /// The lowest step with a need that no link goes to, and its lowest such need.
    fn first_open(&self, known: &Tasks) -> Option<(u8, u8)>
        ensures { result ≡ first_found (unlinked_of (tasks known.now) (given_steps self.now.steps) (items self.now.links)) (present_from 0 (given_steps self.now.steps)) }
    {
        for s in 0..self.given() {
            if let Some(found) = self.open_at(known, s) {
                return Some(found);
            }
        }
        None
    }

    /// The fact that a link protects, by its producer.
    pub(super) fn fact_of(&self, known: &Tasks, link: Link) -> Option<u8>
        ensures { result ≡ slice_get (adds_of (at_task (tasks known.now) (slice_get (given_steps self.now.steps) link.producer))) link.add }
    {
        self.task(known, link.producer)?.adds().get(link.add)
    }

    /// Whether step `s` threatens the link.
    fn is_threat<K: Keeper>(&self, keeper: &K, known: &Tasks, s: u8, link: Link) -> bool
        ensures { result ≡ threatens (tasks known.now) (plan (K.before keeper.now) self.now) s link }
    {
        let Some(fact) = self.fact_of(known, link) else {
            return false;
        };
        self.task(known, s)
            .is_some_and(|task| task.deletes().has(fact))
            && s != link.producer
            && s != link.consumer
            && !keeper.before(s, link.producer)
            && !keeper.before(link.consumer, s)
    }

    /// The lowest link that step `s` threatens.
    fn lowest_threatened<K: Keeper>(&self, keeper: &K, known: &Tasks, s: u8) -> Option<Link>
        ensures { result ≡ lowest_link (threatens (tasks known.now) (plan (K.before keeper.now) self.now) s) (items self.now.links) }
    {
        self.links()
            .iter()
            .copied()
            .filter(|link| self.is_threat(keeper, known, s, *link))
            .min_by_key(|link| (link.producer, link.consumer))
    }

    /// The step, if it is present and threatens a link, and the lowest such link.
    fn threat_at<K: Keeper>(&self, keeper: &K, known: &Tasks, s: u8) -> Option<(u8, Link)>
        ensures { result ≡ at_step (given_steps self.now.steps) (λ x. paired x (threatened (tasks known.now) (plan (K.before keeper.now) self.now) x)) s }
    {
        self.task_number(s)?;
        let link = self.lowest_threatened(keeper, known, s)?;
        Some((s, link))
    }

    /// The lowest step that threatens a link, and the lowest link that it threatens.
    fn first_threat<K: Keeper>(&self, keeper: &K, known: &Tasks) -> Option<(u8, Link)>
        ensures { result ≡ first_found (threatened (tasks known.now) (plan (K.before keeper.now) self.now)) (present_from 0 (given_steps self.now.steps)) }
    {
        (0..self.given()).find_map(|s| self.threat_at(keeper, known, s))
    }

    /// Judges the plan: accepted with the count of its steps, or the first criterion that fails and its lowest spot.
    pub fn judge<K: Keeper>(&self, keeper: &K, known: &Tasks) -> Answer
        ensures { row result ≡ first_of (judge_causes (tasks known.now) (plan (K.before keeper.now) self.now)) (length (steps_of (plan (K.before keeper.now) self.now))) }
    {
        if let Some(step) = self.first_compound(known) {
            return Err(Refusal::CompoundStep { step });
        }
        if let Some((step, label)) = self.first_open(known) {
            return Err(Refusal::OpenNeed { step, label });
        }
        match self.first_threat(keeper, known) {
            Some((threat, link)) => Err(Refusal::Threatened {
                threat,
                producer: link.producer,
                consumer: link.consumer,
            }),
            None => Ok(self.steps.count_present() as u64),
        }
    }
}
