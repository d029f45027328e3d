//! X: a step of a plan is decomposed by a method.
ghost use Rattle.std.specs.Prelude.{◌≡◌, false, length, is_ok, Some, ◌==◌};
ghost use Rattle.std.specs.List.{slice_get};
ghost use Rattle.std.specs.Option.{option_map};
ghost use Rattle.std.specs.Result.{result_ok};
ghost use Rattle.domain.specs.Meaning.{tasks};
ghost use Rattle.fixed.specs.Items.{items};
ghost use Rattle.methods.specs.Meaning.{method};
ghost use Rattle.page.specs.Answers.{row};
ghost use Rattle.plan.specs.Meaning.{given_steps, plan};
ghost use Rattle.semantics.specs.Causes.{first_of, told};
ghost use Rattle.semantics.specs.Closures.{try_all};
ghost use Rattle.semantics.specs.Decomposing.{new_pairs};
ghost use Rattle.semantics.specs.Orders.{dropped};
ghost use Rattle.semantics.specs.PlanLines.{decompose_causes};
ghost use Rattle.semantics.specs.States.{decompose_with};
ghost use Rattle.told_domain.specs.Domains.{parts};
ghost use Rattle.decomposing.specs.Revising.{brought, Revises};
ghost use Rattle.decomposing.specs.Trying.{Tried};

use crate::exchange::{Exchange, Side};
use crate::joining::put_links;
use crate::revising::Revised;
use domain::Tasks;
use order::{Keeper, Refused};
use page::{Answer, Refusal};
use plan::Plan;
use told_domain::Domain;

impl Exchange<'_> {
    /// Puts the pairs that the exchange brings, where `keeper` has the order before it and `after` the steps and links after it.
    fn put_brought<K: Keeper>(
        &self,
        next: &mut K,
        keeper: &K,
        known: &Tasks,
        after: &Revised,
    ) -> Result<(), Refused>
        ensures { Tried K.CAPACITY (K.before next.old) (brought (tasks known.now) (K.before keeper.now) self.now (given_steps after.now.steps) (items after.now.links)) (is_ok result) (K.before next.new) }
    {
        self.put_inherited(next, keeper, Side::Before)?;
        self.put_inherited(next, keeper, Side::After)?;
        self.put_own(next)?;
        put_links(next, known, &after.steps, after.links.as_slice())
    }

    /// A keeper of the order once the step has left, unless a step would be before itself. `after` has the steps and links then,
    /// and there are numbers enough for them.
    fn order_after<K: Keeper>(
        &self,
        keeper: &K,
        known: &Tasks,
        after: &Revised,
    ) -> Result<K, Refused>
        requires { Revises K.CAPACITY (plan (K.before keeper.now) self.now.target.now) self.now.leaving (method self.now.method.now) (given_steps after.now.steps) (items after.now.links) }
        ensures { option_map K.before (result_ok result) ≡ try_all (Some (dropped (K.before keeper.now) self.now.leaving)) (new_pairs (tasks known.now) (plan (K.before keeper.now) self.now.target.now) self.now.leaving (method self.now.method.now)) }
    {
        let mut next = keeper.copied();
        next.drop_step(self.leaving);
        self.put_brought(&mut next, keeper, known, after)?;
        Ok(next)
    }
}

/// X: step `s` is decomposed by method `m`. The number of the first new step is the answer, also where a method has no steps.
///
/// The pairs are put into a second keeper, which takes the place of the first only once all of them are put: a refused line
/// changes nothing.
pub fn decompose<K: Keeper>(
    target: &mut Plan,
    keeper: &mut K,
    domain: &Domain,
    s: u8,
    m: u8,
) -> Answer
    ensures answer { row result ≡ first_of (decompose_causes K.CAPACITY (parts domain.now).tasks (parts domain.now).methods (plan (K.before keeper.old) target.old) s m) (length (plan (K.before keeper.old) target.old).steps) }
    ensures after { plan (K.before keeper.new) target.new ≡ told (row result) (decompose_with (parts domain.now).tasks (plan (K.before keeper.old) target.old) s (slice_get (parts domain.now).methods m)) (plan (K.before keeper.old) target.old) }
    ensures same { ((row result).code == 0) ≡ false → (keeper.new ≡ keeper.old) × (target.new ≡ target.old) }
{
    let task = target
        .task_number(s)
        .ok_or(Refusal::NoSuchName { field: 1 })?;
    let by = domain.method(m).ok_or(Refusal::NoSuchName { field: 2 })?;
    if task != by.task() {
        return Err(Refusal::WrongKind);
    }
    let exchange = Exchange {
        target,
        leaving: s,
        method: by,
    };
    let after = exchange.revise(K::CAPACITY)?;
    let next = exchange.order_after(keeper, domain.tasks(), &after)?;
    let number = exchange.first() as u64;
    *keeper = next;
    target.revise(after.steps, after.links);
    Ok(number)
}
