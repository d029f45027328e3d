//! The places of the tasks.
ghost use Rattle.std.specs.Prelude.{◌≡◌, ℕ, ◌||◌, length, is_some, ◌==◌, nat_lt, slice_set};
ghost use Rattle.std.specs.List.{slice_get};
ghost use Rattle.std.specs.Option.{option_map};
ghost use Rattle.semantics.specs.Tasks.{bare, first_tasks};
ghost use Rattle.domain.specs.Meaning.{is_primitive_kind, task, tasks};

use crate::{FactList, Kind, Task, Tasks};
use fixed::Fixed;

impl Task {
    /// A task without facts.
    pub(super) fn bare(kind: Kind) -> Task
        ensures { task result ≡ bare (is_primitive_kind kind) }
    {
        Task {
            kind,
            needs: FactList::new(),
            adds: FactList::new(),
            deletes: FactList::new(),
        }
    }
}

impl Tasks {
    /// The tasks of a domain before its first line: init and goal, without facts.
    pub fn open() -> Tasks
        ensures { tasks result ≡ first_tasks }
    {
        let init = Task::bare(Kind::Primitive);
        let goal = Task::bare(Kind::Primitive);
        let mut list = Fixed::new(init);
        let _ = list.push(init);
        let _ = list.push(goal);
        Tasks { list }
    }

    /// Task `t`, or `None` where no task has this number.
    pub fn task(&self, t: u8) -> Option<&Task>
        ensures { option_map (λ x. task x.now) result ≡ slice_get (tasks self.now) t }
    {
        self.list.peek(t as usize)
    }

    /// Whether there is a task `t`.
    pub fn has(&self, t: u8) -> bool
        ensures { result ≡ nat_lt t (length (tasks self.now)) }
    {
        self.task(t).is_some()
    }

    /// A copy of task `t`.
    pub(super) fn copy_of(&self, t: u8) -> Option<Task>
        ensures item { option_map task result ≡ slice_get (tasks self.now) t }
        ensures named { is_some result ≡ nat_lt t (length (tasks self.now)) }
    {
        self.list.get(t as usize)
    }

    /// Puts `x` in place of task `t`.
    pub(super) fn replace(&mut self, t: u8, x: Task)
        ensures { tasks self.new ≡ slice_set (tasks self.old) t (task x) }
    {
        self.list.change(t as usize, x)
    }
}

/// Whether a task is init or goal, of which no step is told.
pub fn is_init_or_goal(task: u8) -> bool
    ensures { result ≡ (task == 0 || task == 1) }
{
    task <= 1
}
