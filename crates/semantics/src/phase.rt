/// The phases of a checker, in their order.
#[derive(Clone, Copy, PartialEq, Eq, Debug)]
pub enum Phase {
    /// Tasks are told.
    Tasks,
    /// Methods are told, one after the other.
    Methods,
    /// A method is open.
    MethodOpen,
    /// The initial plan is told.
    Initial,
    /// The plan is decomposed, constrained and judged.
    Refine,
    /// The plan is accepted, and its steps are taken.
    Running,
}
