//! What can be asked of a domain.
ghost use Rattle.std.specs.Prelude.{◌≡◌, ℕ, IfSome};
ghost use Rattle.std.specs.List.{slice_get};
ghost use Rattle.std.specs.Option.{option_map};
ghost use Rattle.semantics.specs.Methods.{Fits};
ghost use Rattle.domain.specs.Meaning.{tasks};
ghost use Rattle.methods.specs.Meaning.{method};
ghost use Rattle.told_domain.specs.Domains.{parts};

use crate::Domain;
use domain::Tasks;
use methods::Method;
use semantics::Phase;

impl Domain {
    /// The phase.
    pub fn phase(&self) -> Phase
        ensures { result ≡ (parts self.now).phase }
    {
        self.phase
    }

    /// The tasks.
    pub fn tasks(&self) -> &Tasks
        ensures { tasks result.now ≡ (parts self.now).tasks }
    {
        &self.known
    }

    /// Method `m`, which fits, or `None` where no method has this number.
    pub fn method(&self, m: u8) -> Option<&Method>
        ensures item { option_map (λ x. method x.now) result ≡ slice_get (parts self.now).methods m }
        ensures fits { IfSome result (λ x. ∥ Fits (parts self.now).tasks (method x.now) ∥₁) }
    {
        self.list.peek(m as usize)
    }

    /// The method that is open, or was open last.
    pub fn draft(&self) -> &Method
        ensures { method result.now ≡ (parts self.now).draft }
    {
        &self.draft
    }
}
