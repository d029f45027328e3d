//! A method from its opening on: its steps and their order. A refused line changes nothing.
ghost use Rattle.std.specs.Prelude.{◌≡◌, map, length, Some};
ghost use Rattle.page.specs.Answers.{row};
ghost use Rattle.semantics.specs.Causes.{first_of, told};
ghost use Rattle.semantics.specs.Methods.{blank, order_of, step_of};
ghost use Rattle.semantics.specs.OpenLines.{order_causes, step_causes};
ghost use Rattle.domain.specs.Meaning.{tasks};
ghost use Rattle.methods.specs.Meaning.{method};

use crate::{Entries, Method, SmallOrder};
use domain::{Tasks, is_init_or_goal};
use fixed::Fixed;
use page::{Answer, Refusal};
use semantics::Link;

impl Method {
    /// A method for a task, of which nothing is told yet.
    // Not inlined: where the compiler sees the parts of a blank method, it fills a list of methods part by part, with code and stack for each.
    #[inline(never)]
    pub fn blank(task: u8) -> Method
        ensures { method result ≡ blank task }
    {
        Method {
            task,
            steps: Fixed::new(0),
            links: Fixed::new(Link::default()),
            order: SmallOrder::new(),
            needs: Entries::new(),
            adds: Entries::new(),
        }
    }

    /// S: a new step of a task. Its number is the answer.
    pub fn step(&mut self, known: &Tasks, task: u8) -> Answer
        ensures answer { row result ≡ first_of (step_causes (tasks known.now) (length (method self.old).steps) 8 task) (length (method self.old).steps) }
        ensures after { method self.new ≡ told (row result) (step_of (method self.old) task) (method self.old) }
    {
        if !known.has(task) {
            return Err(Refusal::NoSuchName { field: 1 });
        }
        if is_init_or_goal(task) {
            return Err(Refusal::WrongKind);
        }
        let number = self.steps.len();
        self.steps.push(task)?;
        Ok(number as u64)
    }

    /// O: one step before another.
    pub fn order(&mut self, earlier: u8, later: u8) -> Answer
        ensures answer { row result ≡ first_of (order_causes (map Some (method self.old).steps) (method self.old).before earlier later) 0 }
        ensures after { method self.new ≡ told (row result) (order_of (method self.old) earlier later) (method self.old) }
    {
        if !self.has_step(earlier) {
            return Err(Refusal::NoSuchName { field: 1 });
        }
        if !self.has_step(later) {
            return Err(Refusal::NoSuchName { field: 2 });
        }
        self.order.put(earlier, later)?;
        Ok(0)
    }
}
