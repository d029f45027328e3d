//! How the phases follow one another.
ghost use Rattle.std.specs.Prelude.{◌≡◌, [], ◌∷◌, if◌then◌else◌, Some, None};
ghost use Rattle.page.specs.Answers.{row};
ghost use Rattle.semantics.specs.Causes.{first_of, told};
ghost use Rattle.semantics.specs.Phases.{ended};
ghost use Rattle.semantics.specs.Rules.{one_of, outside};
ghost use Rattle.semantics.specs.declared.phase.Phase.TheVariants as at;
ghost use Rattle.told_domain.specs.Domains.{in_phase, parts, started};

use crate::Domain;
use page::{Answer, Refusal};
use semantics::Phase;

/// The phase that E moves to, if the phase has that letter.
fn phase_after(phase: Phase) -> Option<Phase>
    ensures { result ≡ (if one_of phase (at.Tasks ∷ at.Methods ∷ at.Initial ∷ []) then Some (ended phase) else None) }
{
    match phase {
        Phase::Tasks => Some(Phase::Methods),
        Phase::Methods => Some(Phase::Initial),
        Phase::Initial => Some(Phase::Refine),
        Phase::MethodOpen | Phase::Refine | Phase::Running => None,
    }
}

/// The phase after the plan is accepted.
fn running_after(phase: Phase) -> Phase
    ensures { result ≡ started phase }
{
    match phase {
        Phase::Refine => Phase::Running,
        other => other,
    }
}

impl Domain {
    /// E: the next phase.
    pub fn end_phase(&mut self) -> Answer
        ensures answer { row result ≡ first_of ((5, outside (parts self.old).phase (at.Tasks ∷ at.Methods ∷ at.Initial ∷ [])) ∷ []) 0 }
        ensures after { parts self.new ≡ told (row result) (in_phase (ended (parts self.old).phase) (parts self.old)) (parts self.old) }
    {
        self.phase = phase_after(self.phase).ok_or(Refusal::WrongPhase)?;
        Ok(0)
    }

    /// The plan is accepted: phase refine becomes phase running. In any other phase nothing changes.
    pub fn start_running(&mut self)
        ensures { parts self.new ≡ in_phase (started (parts self.old).phase) (parts self.old) }
    {
        self.phase = running_after(self.phase);
    }
}
