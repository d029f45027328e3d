//! What the fields of a method's lines name.
ghost use Rattle.std.specs.Prelude.{◌≡◌, ℕ, ◌<◌, ◌≤◌, true, map, is_some, Some};
ghost use Rattle.std.specs.List.{slice_get};
ghost use Rattle.std.specs.Option.{option_map};
ghost use Rattle.semantics.specs.Methods.{own_task_of};
ghost use Rattle.semantics.specs.OpenLines.{is_step};
ghost use Rattle.semantics.specs.Tasks.{is_primitive};
ghost use Rattle.domain.specs.Meaning.{facts, task, tasks};
ghost use Rattle.methods.specs.Meaning.{method};
ghost use Rattle.methods.specs.Sides.{facts_on};

use crate::Method;
use domain::{FactList, Task, Tasks};
use page::Side;

/// The facts on that side of a task, which entries and links name by their labels.
// A match picks the field, here and below: a task's lists and a method's entries are few, and have names.
pub(super) fn labelled(known: &Task, side: Side) -> &FactList
    ensures { facts result.now ≡ facts_on side (Some (task known.now)) }
{
    match side {
        Side::Need => known.needs(),
        Side::Add => known.adds(),
    }
}

impl Method {
    /// Whether the method has a step `s`.
    pub(super) fn has_step(&self, s: u8) -> bool
        ensures step { result ≡ is_step (map Some (method self.now).steps) s }
        ensures small { result ≡ true → s < 8 }
    {
        self.steps.get(s as usize).is_some()
    }

    /// The task of step `s`.
    pub(super) fn own_task<'a>(&self, known: &'a Tasks, s: u8) -> Option<&'a Task>
        ensures { option_map (λ x. task x.now) result ≡ own_task_of (tasks known.now) (method self.now) s }
    {
        known.task(self.steps.get(s as usize)?)
    }

    /// Whether the task of step `s` is primitive.
    pub(super) fn is_primitive_step(&self, known: &Tasks, s: u8) -> bool
        ensures { result ≡ is_primitive (own_task_of (tasks known.now) (method self.now) s) }
    {
        self.own_task(known, s).is_some_and(|t| t.is_primitive())
    }

    /// The fact with this label on a side of step `s`.
    pub(super) fn step_fact(&self, known: &Tasks, s: u8, side: Side, label: u8) -> Option<u8>
        ensures { result ≡ slice_get (facts_on side (own_task_of (tasks known.now) (method self.now) s)) label }
    {
        labelled(self.own_task(known, s)?, side).get(label)
    }

    /// The fact with this label on a side of the method's task.
    pub(super) fn task_fact(&self, known: &Tasks, side: Side, label: u8) -> Option<u8>
        ensures fact { result ≡ slice_get (facts_on side (slice_get (tasks known.now) self.now.task)) label }
        ensures small { is_some result ≡ true → label < 32 }
    {
        labelled(known.task(self.task)?, side).get(label)
    }
}
