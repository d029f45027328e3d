/// Whether a task is a step of its own, or stands for the steps of a method.
#[derive(Clone, Copy, PartialEq, Eq, Debug)]
pub enum Kind {
    /// The task is carried out as it is.
    Primitive,
    /// The task is replaced by the steps of a method.
    Compound,
}
