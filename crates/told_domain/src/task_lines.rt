//! The lines that tell tasks. They are of phase tasks.
ghost use Rattle.std.specs.Prelude.{◌≡◌, [], ◌∷◌, length};
ghost use Rattle.std.specs.List.{slice_get};
ghost use Rattle.page.specs.Answers.{row};
ghost use Rattle.semantics.specs.Causes.{first_of, told};
ghost use Rattle.semantics.specs.Rules.{outside};
ghost use Rattle.semantics.specs.TaskLines.{task_causes, tasks_with_task};
ghost use Rattle.semantics.specs.declared.phase.Phase.TheVariants as at;
ghost use Rattle.domain.specs.Meaning.{is_primitive_kind};
ghost use Rattle.domain.specs.Roles.{append_causes, facts_of, tasks_with_fact};
ghost use Rattle.told_domain.specs.Domains.{parts, with_tasks};

use crate::Domain;
use domain::{Kind, Role};
use page::Answer;
use semantics::Phase;

impl Domain {
    /// P and C: a new task without facts. Its number is the answer.
    pub fn new_task(&mut self, kind: Kind) -> Answer
        ensures answer { row result ≡ first_of ((5, outside (parts self.old).phase (at.Tasks ∷ [])) ∷ task_causes (parts self.old).tasks) (length (parts self.old).tasks) }
        ensures after { parts self.new ≡ told (row result) (with_tasks (tasks_with_task (is_primitive_kind kind) (parts self.old).tasks) (parts self.old)) (parts self.old) }
    {
        self.must_be_in(Phase::Tasks)?;
        self.known.new_task(kind)
    }

    /// N, A and D: a fact ends the needs, the adds or the deletes of a task. Its label is the answer.
    pub fn append(&mut self, role: Role, task: u8, fact: u8) -> Answer
        ensures answer { row result ≡ first_of ((5, outside (parts self.old).phase (at.Tasks ∷ [])) ∷ append_causes role (parts self.old).tasks task fact) (length (facts_of role (slice_get (parts self.old).tasks task))) }
        ensures after { parts self.new ≡ told (row result) (with_tasks (tasks_with_fact role task fact (parts self.old).tasks) (parts self.old)) (parts self.old) }
    {
        self.must_be_in(Phase::Tasks)?;
        self.known.append(role, task, fact)
    }
}
