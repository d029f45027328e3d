use crate::Task;
use fixed::Fixed;

/// The tasks of a domain, at most 32: init (0), goal (1), and those that lines told, by their numbers.
#[derive(Drop)]
pub struct Tasks {
    pub(super) list: Fixed<Task, 32>,
}
