//! The lines that tell methods.
ghost use Rattle.std.specs.Prelude.{◌≡◌, [], ◌∷◌, ◌++◌, map, length, Some};
ghost use Rattle.page.specs.Answers.{row};
ghost use Rattle.semantics.specs.Causes.{first_of, told};
ghost use Rattle.semantics.specs.Methods.{blank, link_of, order_of, step_of};
ghost use Rattle.semantics.specs.OpenLines.{close_causes, link_causes, method_causes, order_causes, step_causes};
ghost use Rattle.semantics.specs.Rules.{outside};
ghost use Rattle.semantics.specs.declared.phase.Phase.TheVariants as at;
ghost use Rattle.methods.specs.Sides.{entry_causes, with_entry};
ghost use Rattle.told_domain.specs.Domains.{in_phase, parts, with_draft, with_methods};

use crate::Domain;
use methods::Method;
use page::{Answer, Refusal, Side};
use semantics::{Link, Phase};

/// There are at most this many methods.
const MOST_METHODS: usize = 32;

impl Domain {
    /// M: a method for a task is opened. Its number is the answer.
    pub fn open_method(&mut self, task: u8) -> Answer
        ensures answer { row result ≡ first_of ((5, outside (parts self.old).phase (at.Methods ∷ [])) ∷ method_causes (parts self.old).tasks (length (parts self.old).methods) task) (length (parts self.old).methods) }
        ensures after { parts self.new ≡ told (row result) (in_phase at.MethodOpen (with_draft (blank task) (parts self.old))) (parts self.old) }
    {
        self.must_be_in(Phase::Methods)?;
        let entry = self
            .known
            .task(task)
            .ok_or(Refusal::NoSuchName { field: 1 })?;
        if entry.is_primitive() {
            return Err(Refusal::WrongKind);
        }
        let number = self.list.len();
        if number >= MOST_METHODS {
            return Err(Refusal::LimitPassed);
        }
        self.draft = Method::blank(task);
        self.phase = Phase::MethodOpen;
        Ok(number as u64)
    }

    /// S while a method is open: a new step of a task. Its number in the method is the answer.
    ///
    /// In any other phase the line is refused here; in phase initial it is the plan's.
    pub fn new_step(&mut self, task: u8) -> Answer
        ensures answer { row result ≡ first_of ((5, outside (parts self.old).phase (at.MethodOpen ∷ [])) ∷ step_causes (parts self.old).tasks (length (parts self.old).draft.steps) 8 task) (length (parts self.old).draft.steps) }
        ensures after { parts self.new ≡ told (row result) (with_draft (step_of (parts self.old).draft task) (parts self.old)) (parts self.old) }
    {
        self.must_be_in(Phase::MethodOpen)?;
        self.draft.step(&self.known, task)
    }

    /// O while a method is open: one step before another.
    ///
    /// In any other phase the line is refused here; in the phases initial and refine it is the plan's.
    pub fn put_order(&mut self, earlier: u8, later: u8) -> Answer
        ensures answer { row result ≡ first_of ((5, outside (parts self.old).phase (at.MethodOpen ∷ [])) ∷ order_causes (map Some (parts self.old).draft.steps) (parts self.old).draft.before earlier later) 0 }
        ensures after { parts self.new ≡ told (row result) (with_draft (order_of (parts self.old).draft earlier later) (parts self.old)) (parts self.old) }
    {
        self.must_be_in(Phase::MethodOpen)?;
        self.draft.order(earlier, later)
    }

    /// L while a method is open: a link from an add of one step to a need of another.
    ///
    /// In any other phase the line is refused here; in the phases initial and refine it is the plan's.
    pub fn put_link(&mut self, link: Link) -> Answer
        ensures answer { row result ≡ first_of ((5, outside (parts self.old).phase (at.MethodOpen ∷ [])) ∷ link_causes (parts self.old).tasks (map Some (parts self.old).draft.steps) (parts self.old).draft.links (parts self.old).draft.before 16 link) 0 }
        ensures after { parts self.new ≡ told (row result) (with_draft (link_of (parts self.old).tasks (parts self.old).draft link) (parts self.old)) (parts self.old) }
    {
        self.must_be_in(Phase::MethodOpen)?;
        self.draft.link(&self.known, link)
    }

    /// U and V: a need or an add of the method's task goes to one of a step of the method.
    pub fn route(&mut self, side: Side, from: u8, step: u8, label: u8) -> Answer
        ensures answer { row result ≡ first_of ((5, outside (parts self.old).phase (at.MethodOpen ∷ [])) ∷ entry_causes side (parts self.old).tasks (parts self.old).draft from step label) 0 }
        ensures after { parts self.new ≡ told (row result) (with_draft (with_entry side (parts self.old).draft from (step, label)) (parts self.old)) (parts self.old) }
    {
        self.must_be_in(Phase::MethodOpen)?;
        self.draft.route(&self.known, side, from, step, label)
    }

    /// K: the open method is closed, and fits.
    pub fn close_method(&mut self) -> Answer
        ensures answer { row result ≡ first_of ((5, outside (parts self.old).phase (at.MethodOpen ∷ [])) ∷ close_causes (parts self.old).tasks (parts self.old).draft) 0 }
        ensures after { parts self.new ≡ told (row result) (in_phase at.Methods (with_methods ((parts self.old).methods ++ ((parts self.old).draft ∷ [])) (parts self.old))) (parts self.old) }
    {
        self.must_be_in(Phase::MethodOpen)?;
        self.draft.close(&self.known)?;
        self.list.push(self.draft)?;
        self.phase = Phase::Methods;
        Ok(0)
    }
}
