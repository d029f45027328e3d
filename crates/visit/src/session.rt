use line::{Command, Refusal};
use page::Answer;
use semantics::Phase;
use told_domain::Domain;

/// A domain that is told line by line, as far as the plan.
#[derive(Drop)]
pub struct Session {
    pub(super) domain: Domain,
}

/// What becomes of a command: its answer, unless it is about the plan, and the phase after it.
#[derive(Clone, Copy)]
pub struct Told {
    pub command: Command,
    pub answer: Option<Answer>,
    pub phase: Phase,
}

/// What becomes of a line, or why it is no command.
pub type Reply = Result<Told, Refusal>;
