//! What becomes of a command in a domain.
ghost use Rattle.std.specs.Prelude.{◌≡◌, true, false};
ghost use Rattle.page.specs.Answers.{as_row, row};
ghost use Rattle.told_domain.specs.Domains.{of_domain, parts, Tells};

use crate::Domain;
use domain::{Kind, Role};
use line::Command;
use page::{Answer, Refusal, Side};
use semantics::Link;

impl Domain {
    // One arm for each letter, since each command has fields of its own.
    /// Carries a command out, unless it is the plan's: then it is of the wrong phase here, and nothing changes.
    pub fn carry_out(&mut self, command: Command) -> Answer
        ensures domain { of_domain (parts self.old).phase command ≡ true → Tells (parts self.old) command (row result) (parts self.new) }
        ensures plan { of_domain (parts self.old).phase command ≡ false → (row result ≡ as_row 5 0 0 0) × (parts self.new ≡ parts self.old) }
    {
        match command {
            Command::NewPrimitive => self.new_task(Kind::Primitive),
            Command::NewCompound => self.new_task(Kind::Compound),
            Command::AppendNeed { task, fact } => self.append(Role::Need, task, fact),
            Command::AppendAdd { task, fact } => self.append(Role::Add, task, fact),
            Command::AppendDelete { task, fact } => self.append(Role::Delete, task, fact),
            Command::EndPhase => self.end_phase(),
            Command::OpenMethod { task } => self.open_method(task),
            Command::NewStep { task } => self.new_step(task),
            Command::PutOrder { earlier, later } => self.put_order(earlier, later),
            // Field by field: `Link` is of semantics, which stands above line.
            Command::PutLink {
                producer,
                add,
                consumer,
                need,
            } => self.put_link(Link {
                producer,
                add,
                consumer,
                need,
            }),
            Command::RouteNeed { need, step, label } => self.route(Side::Need, need, step, label),
            Command::RouteAdd { add, step, label } => self.route(Side::Add, add, step, label),
            Command::CloseMethod => self.close_method(),
            Command::Decompose { .. } | Command::Judge | Command::Take { .. } => {
                Err(Refusal::WrongPhase)
            }
        }
    }
}
