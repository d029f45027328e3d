//! What can be asked of a task.
ghost use Rattle.std.specs.Prelude.{◌≡◌};
ghost use Rattle.domain.specs.Meaning.{facts, task};

use crate::{FactList, Kind, Task};

impl Task {
    /// Whether the task is primitive.
    pub fn is_primitive(&self) -> bool
        ensures { result ≡ (task self.now).primitive }
    {
        self.kind == Kind::Primitive
    }

    /// The facts that the task needs.
    pub fn needs(&self) -> &FactList
        ensures { facts result.now ≡ (task self.now).needs }
    {
        &self.needs
    }

    /// The facts that the task adds.
    pub fn adds(&self) -> &FactList
        ensures { facts result.now ≡ (task self.now).adds }
    {
        &self.adds
    }

    /// The facts that the task deletes.
    pub fn deletes(&self) -> &FactList
        ensures { facts result.now ≡ (task self.now).deletes }
    {
        &self.deletes
    }
}
