//! What can be asked of a plan.
ghost use Rattle.std.specs.Prelude.{◌≡◌, ◌<◌, ◌≤◌, true, length, is_some};
ghost use Rattle.std.specs.List.{slice_get};
ghost use Rattle.std.specs.Option.{option_map};
ghost use Rattle.domain.specs.Meaning.{task, tasks};
ghost use Rattle.fixed.specs.Items.{items};
ghost use Rattle.plan.specs.Meaning.{given_steps, present};
ghost use Rattle.semantics.specs.OpenLines.{is_step};
ghost use Rattle.semantics.specs.Plans.{at_task};

use crate::{Links, Plan, Steps};
use domain::{Task, Tasks};
use semantics::Link;

// A plan answers for its steps, so that a caller need not reach into it.

impl Plan {
    /// How many step numbers were given.
    pub fn given(&self) -> u8
        ensures value { result ≡ length (given_steps self.now.steps) }
        ensures bound { result ≤ 64 }
    {
        self.steps.given()
    }

    /// The steps.
    pub fn steps(&self) -> &Steps
        ensures { given_steps result.now ≡ given_steps self.now.steps }
    {
        &self.steps
    }

    /// The links.
    pub fn links(&self) -> &[Link]
        ensures { result.now ≡ items self.now.links }
    {
        self.links.as_slice()
    }

    /// Puts other steps and links in place of these.
    pub fn revise(&mut self, steps: Steps, links: Links)
        ensures steps { given_steps self.new.steps ≡ given_steps steps }
        ensures links { items self.new.links ≡ items links }
    {
        self.steps = steps;
        self.links = links;
    }

    /// The task number of a present step.
    pub fn task_number(&self, s: u8) -> Option<u8>
        ensures task { result ≡ present (slice_get (given_steps self.now.steps) s) }
        ensures bound { is_some result ≡ true → s < 64 }
    {
        self.steps.task_number(s)
    }

    /// Whether a step is present.
    pub fn is_step(&self, s: u8) -> bool
        ensures test { result ≡ is_step (given_steps self.now.steps) s }
        ensures bound { result ≡ true → s < 64 }
    {
        self.steps.is_step(s)
    }

    /// The task of a present step.
    pub fn task<'a>(&self, known: &'a Tasks, s: u8) -> Option<&'a Task>
        ensures { option_map (λ x. task x.now) result ≡ at_task (tasks known.now) (slice_get (given_steps self.now.steps) s) }
    {
        self.steps.task(known, s)
    }
}
