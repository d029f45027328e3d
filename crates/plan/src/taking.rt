//! Taking steps: by order alone.
ghost use Rattle.std.specs.Prelude.{◌≡◌, ℕ, List, [], if◌then◌else◌, Some, None};
ghost use Rattle.std.specs.List.{slice_get};
ghost use Rattle.masks.specs.Bits.{bit};
ghost use Rattle.semantics.specs.Causes.{first_such};
ghost use Rattle.page.specs.Answers.{row};
ghost use Rattle.semantics.specs.Facts.{after, after_step};
ghost use Rattle.semantics.specs.Plans.{at_task, present_from};
ghost use Rattle.semantics.specs.Plans as planned;
ghost use Rattle.semantics.specs.Tasks as meant;
ghost use Rattle.domain.specs.Meaning.{task, tasks};
ghost use Rattle.plan.specs.Following.{Follows, is_behind, Took};
ghost use Rattle.plan.specs.Meaning.{given_steps, plan};
ghost use Rattle.plan.specs.Turns.{at_step};

use crate::{Plan, Progress};
use domain::{Task, Tasks};
use masks::{marked, only};
use order::Keeper;
use page::{Answer, Refusal};

/// The facts after a task is carried out: its deletes are removed, then its adds join.
fn facts_after(done: &Task, facts: u64) -> u64
    ensures { (f : ℕ) → bit result f ≡ after (task done.now) (bit facts) f }
{
    done.adds().mask() | facts & !done.deletes().mask()
}

impl Progress {
    /// No step is taken, and no fact holds.
    pub fn new() -> Progress
        ensures { (ts : List meant.Task) (p : planned.Plan) → Follows ts p [] result }
    {
        Progress { taken: 0, facts: 0 }
    }
}

impl Plan {
    /// The facts after a step of the plan is carried out.
    fn facts_then(&self, known: &Tasks, facts: u64, s: u8) -> u64
        ensures { (f : ℕ) → bit result f ≡ after_step (at_task (tasks known.now) (slice_get (given_steps self.now.steps) s)) (bit facts) f }
    {
        self.task(known, s)
            .map_or(facts, |done| facts_after(done, facts))
    }

    /// The lowest step before step `s` that is not yet taken.
    fn first_behind<K: Keeper>(&self, keeper: &K, taken: u64, s: u8) -> Option<u8>
        ensures { result ≡ first_such (is_behind (K.before keeper.now) taken s) (present_from 0 (given_steps self.now.steps)) }
    {
        (0..self.given()).find(|x| self.is_step(*x) && keeper.before(*x, s) && !marked(taken, *x))
    }

    /// R: takes a step, by order alone. The facts just after are the answer. A refused step leaves the progress as it was.
    ///
    /// Whatever steps the progress stands for in this plan, the answer and the progress after are those of the rules. A progress
    /// that belongs to another plan stands for no steps of this one, and nothing is said of it.
    pub fn take<K: Keeper>(
        &self,
        keeper: &K,
        known: &Tasks,
        progress: &mut Progress,
        s: u8,
    ) -> Answer
        ensures { (taken : List ℕ) → Follows (tasks known.now) (plan (K.before keeper.now) self.now) taken progress.old → Took (tasks known.now) (plan (K.before keeper.now) self.now) taken s (row result) progress.new }
    {
        if !self.is_step(s) {
            return Err(Refusal::NoSuchName { field: 1 });
        }
        if marked(progress.taken, s) {
            return Err(Refusal::AlreadyGiven);
        }
        if let Some(step) = self.first_behind(keeper, progress.taken, s) {
            return Err(Refusal::StepWaiting { step });
        }
        progress.taken |= only(s);
        progress.facts = self.facts_then(known, progress.facts, s);
        Ok(progress.facts)
    }
}
