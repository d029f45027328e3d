//! The lines of a plan that put order.
ghost use Rattle.std.specs.Prelude.{◌≡◌, ◌≤◌, true, length};
ghost use Rattle.page.specs.Answers.{row};
ghost use Rattle.semantics.specs.Causes.{first_of, told};
ghost use Rattle.semantics.specs.OpenLines.{order_causes, step_causes};
ghost use Rattle.semantics.specs.Orders.{put};
ghost use Rattle.domain.specs.Meaning.{tasks};
ghost use Rattle.semantics.specs.States.{plan_step};
ghost use Rattle.plan.specs.Meaning.{given_steps, plan, Suits};
ghost use Rattle.order.specs.Puts.{can_put};

use crate::Plan;
use domain::{Tasks, is_init_or_goal};
use order::Keeper;
use page::{Answer, Refusal};

/// Puts step `s` after init and before goal, where neither pair is refused.
fn put_between<K: Keeper>(keeper: &mut K, s: u8)
    ensures { can_put K.CAPACITY (K.before keeper.old) 0 s ≡ true → can_put K.CAPACITY (put (K.before keeper.old) 0 s) s 1 ≡ true → K.before keeper.new ≡ put (put (K.before keeper.old) 0 s) s 1 }
{
    let _ = keeper.put(0, s);
    let _ = keeper.put(s, 1);
}

impl Plan {
    /// S: a new step of a task, after init and before goal. Its number is the answer. The keeper suits the plan.
    pub fn new_step<K: Keeper>(&mut self, keeper: &mut K, known: &Tasks, task: u8) -> Answer
        ensures answer { row result ≡ first_of (step_causes (tasks known.now) (length (given_steps self.old.steps)) K.CAPACITY task) (length (given_steps self.old.steps)) }
        ensures after { Suits K.CAPACITY (plan (K.before keeper.old) self.old) → plan (K.before keeper.new) self.new ≡ told (row result) (plan_step (plan (K.before keeper.old) self.old) task) (plan (K.before keeper.old) self.old) }
    {
        if !known.has(task) {
            return Err(Refusal::NoSuchName { field: 1 });
        }
        if is_init_or_goal(task) {
            return Err(Refusal::WrongKind);
        }
        let number = self.given();
        if number >= K::CAPACITY {
            return Err(Refusal::LimitPassed);
        }
        put_between(keeper, number);
        let _ = self.steps.push(task);
        Ok(number as u64)
    }

    /// O: one step before another, with all that follows. The plan has no more step numbers than the keeper.
    pub fn put_order<K: Keeper>(&self, keeper: &mut K, earlier: u8, later: u8) -> Answer
        ensures answer { length (given_steps self.now.steps) ≤ K.CAPACITY → row result ≡ first_of (order_causes (given_steps self.now.steps) (K.before keeper.old) earlier later) 0 }
        ensures after { K.before keeper.new ≡ told (row result) (put (K.before keeper.old) earlier later) (K.before keeper.old) }
    {
        if !self.is_step(earlier) {
            return Err(Refusal::NoSuchName { field: 1 });
        }
        if !self.is_step(later) {
            return Err(Refusal::NoSuchName { field: 2 });
        }
        keeper.put(earlier, later)?;
        Ok(0)
    }
}
