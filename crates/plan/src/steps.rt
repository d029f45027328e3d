//! The steps of a plan, by their numbers.
ghost use Rattle.std.specs.Prelude.{◌≡◌, ℕ, ◌<◌, ◌≤◌, true, [], ◌∷◌, ◌++◌, length, is_ok, is_some, Some, None, if◌then◌else◌, nat_lt, slice_set};
ghost use Rattle.std.specs.List.{slice_get};
ghost use Rattle.std.specs.Option.{option_map};
ghost use Rattle.domain.specs.Meaning.{task, tasks};
ghost use Rattle.fixed.specs.Items.{items};
ghost use Rattle.plan.specs.Meaning.{given_steps, present};
ghost use Rattle.semantics.specs.OpenLines.{is_step};
ghost use Rattle.semantics.specs.Plans.{at_task, both_primitive, present_from, primitive_at};

use domain::{Task, Tasks};
use fixed::{Fixed, Full};
use semantics::Link;

/// At each step number given so far, of which there are at most 64, the number of the step's task, or `None` once the step has left.
#[derive(Clone, Copy)]
pub struct Steps {
    pub(super) list: Fixed<Option<u8>, 64>,
}

/// The steps that a list names.
impl From<Fixed<Option<u8>, 64>> for Steps {
    ghost from_gives = { λ list steps. given_steps steps ≡ items list };

    fn from(list: Fixed<Option<u8>, 64>) -> Steps {
        Steps { list }
    }
}

impl Steps {
    /// The steps init (0) and goal (1).
    pub(super) fn framed() -> Steps
        ensures { given_steps result ≡ Some 0 ∷ Some 1 ∷ [] }
    {
        let mut list = Fixed::new(None);
        let _ = list.push(Some(0));
        let _ = list.push(Some(1));
        Steps { list }
    }

    /// How many step numbers were given.
    pub fn given(&self) -> u8
        ensures value { result ≡ length (given_steps self.now) }
        ensures bound { result ≤ 64 }
    {
        self.list.len() as u8
    }

    /// How many steps are present.
    pub fn count_present(&self) -> usize
        ensures { result ≡ length (present_from 0 (given_steps self.now)) }
    {
        self.list
            .as_slice()
            .iter()
            .filter(|task| task.is_some())
            .count()
    }

    /// The task number of a present step.
    pub fn task_number(&self, s: u8) -> Option<u8>
        ensures task { result ≡ present (slice_get (given_steps self.now) s) }
        ensures bound { is_some result ≡ true → s < 64 }
    {
        self.list.get(s as usize)?
    }

    /// Whether a step is present.
    pub fn is_step(&self, s: u8) -> bool
        ensures test { result ≡ is_step (given_steps self.now) s }
        ensures bound { result ≡ true → s < 64 }
    {
        self.task_number(s).is_some()
    }

    /// The task of a present step.
    pub fn task<'a>(&self, known: &'a Tasks, s: u8) -> Option<&'a Task>
        ensures { option_map (λ x. task x.now) result ≡ at_task (tasks known.now) (slice_get (given_steps self.now) s) }
    {
        known.task(self.task_number(s)?)
    }

    /// Whether a step is present and its task is primitive.
    pub(super) fn is_primitive(&self, known: &Tasks, s: u8) -> bool
        ensures { result ≡ primitive_at (tasks known.now) (given_steps self.now) s }
    {
        self.task(known, s).is_some_and(|task| task.is_primitive())
    }

    /// Whether both ends of a link are primitive. Then the link orders them.
    pub fn has_primitive_ends(&self, known: &Tasks, link: Link) -> bool
        ensures { result ≡ both_primitive (tasks known.now) (given_steps self.now) link }
    {
        self.is_primitive(known, link.producer) && self.is_primitive(known, link.consumer)
    }

    /// Gives a step of a task the next number. Where 64 were given, nothing changes.
    pub fn push(&mut self, task: u8) -> Result<(), Full>
        ensures room { is_ok result ≡ nat_lt (length (given_steps self.old)) 64 }
        ensures after { given_steps self.new ≡ (if is_ok result then given_steps self.old ++ (Some task ∷ []) else given_steps self.old) }
    {
        self.list.push(Some(task))
    }

    /// A step leaves. Its number is not given again.
    pub fn leave(&mut self, s: u8)
        ensures { given_steps self.new ≡ slice_set (given_steps self.old) s None }
    {
        self.list.change(s as usize, None)
    }
}
