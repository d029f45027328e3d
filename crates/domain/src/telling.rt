//! The lines that tell tasks. A refused line leaves the tasks as they were.
ghost use Rattle.std.specs.Prelude.{◌≡◌, ◌<◌, is_ok, length, if◌then◌else◌, Some};
ghost use Rattle.std.specs.List.{slice_get};
ghost use Rattle.std.specs.Result.{result_ok};
ghost use Rattle.page.specs.Answers.{row};
ghost use Rattle.semantics.specs.Causes.{first_of, told};
ghost use Rattle.semantics.specs.TaskLines.{task_causes, tasks_with_task};
ghost use Rattle.domain.specs.Facts.{label_of_next};
ghost use Rattle.domain.specs.Meaning.{is_primitive_kind, task, tasks};
ghost use Rattle.domain.specs.Roles.{append_causes, facts_of, may_play, tasks_with_fact, with_fact};

use crate::{Kind, Role, Task, Tasks};
use fixed::Full;
use page::{Answer, Refusal};

/// Facts are the numbers below this one.
const FACTS: u8 = 64;

impl Task {
    // A match, since each role has a condition of its own.
    /// Whether facts can play this role in the task, whose number is `t`: init needs nothing, goal adds nothing, and neither they nor
    /// compound tasks delete.
    fn may_play(&self, t: u8, role: Role) -> bool
        ensures { result ≡ may_play role t (task self.now) }
    {
        match role {
            Role::Need => t != 0,
            Role::Add => t != 1,
            Role::Delete => t > 1 && self.is_primitive(),
        }
    }

    // A match picks the list: a task has three lists with names, and no table of them by role.

    /// Ends the list of a role with a fact and answers its label. A full list stays as it is.
    fn push(&mut self, role: Role, fact: u8) -> Result<u8, Full>
        requires { fact < 64 }
        ensures label { result_ok result ≡ label_of_next (facts_of role (Some (task self.old))) }
        ensures after { task self.new ≡ (if is_ok result then with_fact role fact (task self.old) else task self.old) }
    {
        match role {
            Role::Need => self.needs.push(fact),
            Role::Add => self.adds.push(fact),
            Role::Delete => self.deletes.push(fact),
        }
    }
}

impl Tasks {
    /// P and C: a new task without facts. Its number is the answer.
    pub fn new_task(&mut self, kind: Kind) -> Answer
        ensures answer { row result ≡ first_of (task_causes (tasks self.old)) (length (tasks self.old)) }
        ensures after { tasks self.new ≡ told (row result) (tasks_with_task (is_primitive_kind kind) (tasks self.old)) (tasks self.old) }
    {
        let number = self.list.len();
        self.list.push(Task::bare(kind))?;
        Ok(number as u64)
    }

    /// N, A and D: a fact ends the needs, the adds or the deletes of a task. Its label is the answer.
    pub fn append(&mut self, role: Role, task: u8, fact: u8) -> Answer
        ensures answer { row result ≡ first_of (append_causes role (tasks self.old) task fact) (length (facts_of role (slice_get (tasks self.old) task))) }
        ensures after { tasks self.new ≡ told (row result) (tasks_with_fact role task fact (tasks self.old)) (tasks self.old) }
    {
        let mut entry = self.copy_of(task).ok_or(Refusal::NoSuchName { field: 1 })?;
        if fact >= FACTS {
            return Err(Refusal::NoSuchName { field: 2 });
        }
        if !entry.may_play(task, role) {
            return Err(Refusal::WrongKind);
        }
        let label = entry.push(role, fact)?;
        self.replace(task, entry);
        Ok(u64::from(label))
    }
}
