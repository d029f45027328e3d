ghost use Rattle.std.specs.Prelude.{◌≡◌, ℕ, ◌<◌, length, Some};
ghost use Rattle.std.specs.List.{slice_get};
ghost use Rattle.fixed.specs.Items.{items};
ghost use Rattle.semantics.specs.Drafts.{Draft};
ghost use Rattle.semantics.specs.Methods.{Fits};
ghost use Rattle.semantics.specs.declared.phase.Phase.TheVariants as at;
ghost use Rattle.domain.specs.Meaning.{tasks};
ghost use Rattle.methods.specs.Meaning.{method};
ghost use Rattle.methods.specs.declared.method.Method.{Method};

use domain::Tasks;
use fixed::Fixed;
use methods::Method;
use semantics::Phase;

/// A told domain: the phase, the tasks, the closed methods, and the method that is open or was open last.
///
/// Every closed method fits the tasks. While a method is open, what is told of it so far fits, and there is room for it.
/// In phase tasks there is no method.
#[derive(Drop)]
pub struct Domain {
    pub(super) phase: Phase,
    pub(super) known: Tasks,
    pub(super) list: Fixed<Method, 32>,
    pub(super) draft: Method,
    ghost fitting: { (k : ℕ) (m : Method) → slice_get (items list) k ≡ Some m → ∥ Fits (tasks known) (method m) ∥₁ },
    ghost drafting: { phase ≡ at.MethodOpen → ∥ Draft (tasks known) (method draft) ∥₁ },
    ghost unused: { phase ≡ at.Tasks → length (items list) ≡ 0 },
    ghost room: { phase ≡ at.MethodOpen → length (items list) < 32 },
}
