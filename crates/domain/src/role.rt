/// What a fact is to a task. Each role has a list of its own.
#[derive(Clone, Copy, PartialEq, Eq, Debug)]
pub enum Role {
    /// The task needs the fact.
    Need,
    /// The task adds the fact.
    Add,
    /// The task deletes the fact.
    Delete,
}
