//! A checker from its opening on, and what becomes of each line.
ghost use Rattle.std.specs.Prelude.{ℕ, List, [], ◌∷◌};
ghost use Rattle.page.specs.Answers.{row};
ghost use Rattle.semantics.specs.Promise.{History, state};
ghost use Rattle.checker.specs.Meaning.{held, Means};
ghost use Rattle.checker.specs.Outcomes.{Obeys};
ghost use Rattle.checker.specs.Promises.{Kept};

use crate::Checker;
use line::{Command, parse};
use order::Keeper;
use page::Answer;
use plan::{Plan, Progress};
use semantics::Link;
use told_domain::Domain;

impl<K: Keeper> Checker<K> {
    /// A checker before its first line.
    pub fn open() -> Checker<K>
        ensures { Means (held (K.before result.keeper) result) (state K.CAPACITY []) }
    {
        let (plan, keeper) = Plan::open();
        Checker {
            domain: Domain::open(),
            plan,
            keeper,
            progress: Progress::new(),
        }
    }

    /// Tells one line, given without its break, and answers what becomes of it. A refused line changes nothing.
    ///
    /// Whatever lines led from a newly opened checker to this one, its answer and the checker after it are those of the rules, and
    /// all that is promised beside the gate book holds of them.
    pub fn tell(&mut self, line: &[u8]) -> Answer
        ensures { (told : History) → Means (held (K.before self.old.keeper) self.old) (state K.CAPACITY told) → Kept K.CAPACITY told line.now (row result) (held (K.before self.new.keeper) self.new) }
    {
        self.carry_out(parse(line)?)
    }

    // One arm for each letter of the plan, since each command has fields of its own.
    /// Carries a command out: the plan's in their phases, and any other as the domain does.
    fn carry_out(&mut self, command: Command) -> Answer
        ensures { Obeys K.CAPACITY command (row result) (held (K.before self.old.keeper) self.old) (held (K.before self.new.keeper) self.new) }
    {
        match command {
            Command::NewStep { task } => self.new_step(task),
            Command::PutOrder { earlier, later } => self.put_order(earlier, later),
            // Field by field: `Link` is of semantics, which stands above line.
            Command::PutLink {
                producer,
                add,
                consumer,
                need,
            } => self.put_link(Link {
                producer,
                add,
                consumer,
                need,
            }),
            Command::Decompose { step, method } => self.decompose(step, method),
            Command::Judge => self.judge(),
            Command::Take { step } => self.take(step),
            _ => self.domain.carry_out(command),
        }
    }
}
