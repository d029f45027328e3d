//! The lines of a plan. While a method is open, steps, pairs and links are the method's.
ghost use Rattle.std.specs.Prelude.{◌≡◌};
ghost use Rattle.line.specs.declared.command.Command.TheVariants as tells;
ghost use Rattle.page.specs.Answers.{row};
ghost use Rattle.semantics.specs.Causes.{told};
ghost use Rattle.told_domain.specs.Domains.{in_phase, parts, started};
ghost use Rattle.checker.specs.Meaning.{held};
ghost use Rattle.checker.specs.Outcomes.{Obeys};

use crate::Checker;
use decomposing::decompose;
use order::Keeper;
use page::{Answer, Refusal};
use semantics::{Link, Phase};
use told_domain::Domain;

/// The domain after its plan is judged: an accepted plan is carried out from then on.
fn judged(domain: &mut Domain, answer: Answer)
    ensures { parts domain.new ≡ told (row answer) (in_phase (started (parts domain.old).phase) (parts domain.old)) (parts domain.old) }
{
    if answer.is_ok() {
        domain.start_running();
    }
}

// In each line of these a match on the phase says whose it is. No table of functions: the plan's take the keeper, and the domain's don't.
// X, J and R are the plan's alone: a match of two arms is as plain as a test of its own would be.

impl<K: Keeper> Checker<K> {
    /// S: a new step of a task, of the open method or of the initial plan.
    pub(super) fn new_step(&mut self, task: u8) -> Answer
        ensures { Obeys K.CAPACITY (tells.NewStep task) (row result) (held (K.before self.old.keeper) self.old) (held (K.before self.new.keeper) self.new) }
    {
        match self.domain.phase() {
            Phase::Initial => self
                .plan
                .new_step(&mut self.keeper, self.domain.tasks(), task),
            _ => self.domain.new_step(task),
        }
    }

    /// O: one step before another, of the open method or of the plan.
    pub(super) fn put_order(&mut self, earlier: u8, later: u8) -> Answer
        ensures { Obeys K.CAPACITY (tells.PutOrder earlier later) (row result) (held (K.before self.old.keeper) self.old) (held (K.before self.new.keeper) self.new) }
    {
        match self.domain.phase() {
            Phase::Initial | Phase::Refine => {
                self.plan.put_order(&mut self.keeper, earlier, later)
            }
            _ => self.domain.put_order(earlier, later),
        }
    }

    /// L: a link from an add of one step to a need of another, of the open method or of the plan.
    pub(super) fn put_link(&mut self, link: Link) -> Answer
        ensures { Obeys K.CAPACITY (tells.PutLink link.producer link.add link.consumer link.need) (row result) (held (K.before self.old.keeper) self.old) (held (K.before self.new.keeper) self.new) }
    {
        match self.domain.phase() {
            Phase::Initial | Phase::Refine => {
                self.plan
                    .put_link(&mut self.keeper, self.domain.tasks(), link)
            }
            _ => self.domain.put_link(link),
        }
    }

    /// X: a step of the plan is decomposed by a method.
    pub(super) fn decompose(&mut self, step: u8, method: u8) -> Answer
        ensures { Obeys K.CAPACITY (tells.Decompose step method) (row result) (held (K.before self.old.keeper) self.old) (held (K.before self.new.keeper) self.new) }
    {
        match self.domain.phase() {
            Phase::Refine => decompose(
                &mut self.plan,
                &mut self.keeper,
                &self.domain,
                step,
                method,
            ),
            _ => Err(Refusal::WrongPhase),
        }
    }

    /// J: the plan is judged. An accepted plan is carried out from then on; a refused one stays open to more lines.
    pub(super) fn judge(&mut self) -> Answer
        ensures { Obeys K.CAPACITY tells.Judge (row result) (held (K.before self.old.keeper) self.old) (held (K.before self.new.keeper) self.new) }
    {
        let Phase::Refine = self.domain.phase() else {
            return Err(Refusal::WrongPhase);
        };
        let answer = self.plan.judge(&self.keeper, self.domain.tasks());
        judged(&mut self.domain, answer);
        answer
    }

    /// R: a step is taken, by order alone.
    pub(super) fn take(&mut self, step: u8) -> Answer
        ensures { Obeys K.CAPACITY (tells.Take step) (row result) (held (K.before self.old.keeper) self.old) (held (K.before self.new.keeper) self.new) }
    {
        match self.domain.phase() {
            Phase::Running => {
                self.plan.take(&self.keeper, self.domain.tasks(), &mut self.progress, step)
            }
            _ => Err(Refusal::WrongPhase),
        }
    }
}
