ghost use Rattle.std.specs.Prelude.{◌≡◌, []};
ghost use Rattle.line.specs.Parse.{parsed};
ghost use Rattle.semantics.specs.Methods.{blank};
ghost use Rattle.semantics.specs.Tasks.{first_tasks};
ghost use Rattle.semantics.specs.declared.phase.Phase.TheVariants as at;
ghost use Rattle.told_domain.specs.Domains.{Parts, parts};
ghost use Rattle.visit.specs.Sessions.{answer_row, before_plan, command_after, command_row, line_after, line_row, read, reply_row};

use crate::session::{Reply, Session, Told};
use line::{Command, parse};
use page::{Answer, Refusal};
use semantics::Phase;
use told_domain::Domain;

/// Whether the plan is not told yet.
fn is_before_plan(phase: Phase) -> bool
    ensures { result ≡ before_plan phase }
{
    match phase {
        Phase::Tasks | Phase::Methods | Phase::MethodOpen => true,
        Phase::Initial | Phase::Refine | Phase::Running => false,
    }
}

impl Session {
    /// A domain before its first line.
    pub fn open() -> Session
        ensures { parts result.domain ≡ record { phase = at.Tasks; tasks = first_tasks; methods = []; draft = blank 0 } }
    {
        Session {
            domain: Domain::open(),
        }
    }

    /// Tells one line, given without its break. A refused line changes nothing.
    pub fn tell(&mut self, line: &[u8]) -> Reply
        ensures read { read result ≡ parsed line.now }
        ensures row { reply_row result ≡ line_row (parts self.old.domain) (parsed line.now) }
        ensures after { parts self.new.domain ≡ line_after (parts self.old.domain) (parsed line.now) }
    {
        let command = parse(line)?;
        let answer = self.carry_out(command);
        Ok(Told {
            command,
            answer,
            phase: self.domain.phase(),
        })
    }

    /// Carries a command out. `None`: the command is about the plan.
    fn carry_out(&mut self, command: Command) -> Option<Answer>
        ensures row { answer_row result ≡ command_row (parts self.old.domain) command }
        ensures after { parts self.new.domain ≡ command_after (parts self.old.domain) command }
    {
        if is_before_plan(self.domain.phase()) {
            Some(self.domain.carry_out(command))
        } else {
            None
        }
    }
}

/// The answer that a line gets, if it gets one yet.
pub fn answer_of(reply: Reply) -> Option<Answer>
    ensures { answer_row result ≡ reply_row reply }
{
    match reply {
        Ok(told) => told.answer,
        Err(refusal) => Some(Err(Refusal::from(refusal))),
    }
}
