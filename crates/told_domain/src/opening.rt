//! A domain before its first line, and whether a line is of its phase.
ghost use Rattle.std.specs.Prelude.{◌≡◌, true, is_ok, [], ◌∷◌};
ghost use Rattle.semantics.specs.Methods.{blank};
ghost use Rattle.semantics.specs.Rules.{outside};
ghost use Rattle.semantics.specs.Tasks.{first_tasks};
ghost use Rattle.semantics.specs.declared.phase.Phase.TheVariants as at;
ghost use Rattle.links.specs.Parts.{first_cause, refused};
ghost use Rattle.told_domain.specs.Domains.{Parts, parts};

use crate::Domain;
use domain::Tasks;
use fixed::Fixed;
use methods::Method;
use page::Refusal;
use semantics::Phase;

impl Domain {
    /// A domain before its first line: init and goal, and no method.
    pub fn open() -> Domain
        ensures { parts result ≡ record { phase = at.Tasks; tasks = first_tasks; methods = []; draft = blank 0 } }
    {
        let draft = Method::blank(0);
        Domain {
            phase: Phase::Tasks,
            known: Tasks::open(),
            list: Fixed::new(draft),
            draft,
        }
    }

    /// Refuses a line of a letter that only this phase has, where the domain is in another.
    pub(super) fn must_be_in(&self, phase: Phase) -> Result<(), Refusal>
        ensures test { refused result ≡ first_cause ((5, outside self.now.phase (phase ∷ [])) ∷ []) }
        ensures same { is_ok result ≡ true → self.now.phase ≡ phase }
    {
        if self.phase != phase {
            return Err(Refusal::WrongPhase);
        }
        Ok(())
    }
}
