//! What became of a line, in words.
use crate::session::{Reply, Told};
use crate::telling::answer_of;
use line::Command;
use page::{Refusal, Row, Side};
use semantics::Phase;
use std::fmt;

/// The bytes of a line as they are printed: printable ASCII as it stands, a backslash doubled, any other byte as `\x`
/// and two digits.
#[derive(Clone, Copy)]
pub struct Shown<'a>(pub &'a [u8]);

impl fmt::Display for Shown<'_> {
    fn fmt<W: fmt::Write>(&self, f: &mut fmt::Formatter<W>) -> fmt::Result {
        for b in self.0 {
            show_byte(*b, f)?;
        }
        Ok(())
    }
}

/// One byte, as it is printed.
// By hand: std has no escape that leaves quotation marks as they are.
fn show_byte<W: fmt::Write>(b: u8, f: &mut fmt::Formatter<W>) -> fmt::Result {
    match b {
        b'\\' => write!(f, "\\\\"),
        0x20..=0x7E => {
            let c = b as char;
            write!(f, "{c}")
        }
        _ => write!(f, "\\x{b:02x}"),
    }
}

/// A line of the printed report: the line with its number, its row and a sentence.
#[derive(Drop)]
pub struct Report<'a> {
    pub number: usize,
    pub line: &'a [u8],
    pub reply: Reply,
}

impl fmt::Display for Report<'_> {
    fn fmt<W: fmt::Write>(&self, f: &mut fmt::Formatter<W>) -> fmt::Result {
        let number = self.number;
        let line = Shown(self.line);
        write!(f, "Line {number}: {line} | ")?;
        match answer_of(self.reply) {
            Some(answer) => {
                let row = Row::from(answer);
                write!(f, "{row}")?;
            }
            None => write!(f, "no row")?,
        }
        write!(f, " | ")?;
        sentence(self.reply, f)
    }
}

/// What happened, as one sentence.
fn sentence<W: fmt::Write>(reply: Reply, f: &mut fmt::Formatter<W>) -> fmt::Result {
    match reply {
        Err(refusal) => unread(Refusal::from(refusal), f),
        Ok(
            Told {
                command,
                answer,
                phase,
            },
        ) => match answer {
            Some(Ok(number)) => accepted(command, number, phase, f),
            Some(Err(refusal)) => refused(command, refusal, f),
            None => write!(f, "Not carried out: this version stops before the plan."),
        },
    }
}

/// What an accepted command did.
fn accepted<W: fmt::Write>(
    command: Command,
    number: u64,
    phase: Phase,
    f: &mut fmt::Formatter<W>,
) -> fmt::Result {
    match command {
        Command::NewPrimitive => write!(f, "Task {number} is new and primitive."),
        Command::NewCompound => write!(f, "Task {number} is new and compound."),
        Command::AppendNeed { task, fact } => write!(
            f,
            "Task {task} needs fact {fact}, label {number}."
        ),
        Command::AppendAdd { task, fact } => write!(
            f,
            "Task {task} adds fact {fact}, label {number}."
        ),
        Command::AppendDelete { task, fact } => write!(
            f,
            "Task {task} deletes fact {fact}, label {number}."
        ),
        Command::EndPhase => ended(phase, f),
        _ => method_accepted(command, number, f),
    }
}

/// Which phase begins.
fn ended<W: fmt::Write>(phase: Phase, f: &mut fmt::Formatter<W>) -> fmt::Result {
    match phase {
        Phase::Methods => write!(f, "The tasks are complete; the phase is methods."),
        _ => write!(f, "The methods are complete; the phase is initial."),
    }
}

/// What an accepted command about a method did.
fn method_accepted<W: fmt::Write>(
    command: Command,
    number: u64,
    f: &mut fmt::Formatter<W>,
) -> fmt::Result {
    match command {
        Command::OpenMethod { task } => write!(f, "Method {number} is opened, for task {task}."),
        Command::NewStep { task } => write!(f, "Step {number} of the method is of task {task}."),
        Command::PutOrder { earlier, later } => write!(f, "Step {earlier} is before step {later}."),
        Command::PutLink {
            producer,
            add,
            consumer,
            need,
        } => write!(
            f,
            "Add {add} of step {producer} serves need {need} of step {consumer}."
        ),
        Command::RouteNeed { need, step, label } => write!(
            f,
            "Need {need} of the method's task goes to need {label} of step {step}."
        ),
        Command::RouteAdd { add, step, label } => write!(
            f,
            "Add {add} of the method's task goes to add {label} of step {step}."
        ),
        Command::CloseMethod => write!(f, "The method is closed, and fits its task."),
        _ => write!(f, "Accepted."),
    }
}

/// Why a line is no command.
fn unread<W: fmt::Write>(refusal: Refusal, f: &mut fmt::Formatter<W>) -> fmt::Result {
    let Row { code, .. } = Row::from(refusal);
    write!(f, "Refused, number {code}: ")?;
    match refusal {
        Refusal::BadByte { place } => write!(
            f,
            "the byte at place {place} may not stand in a line."
        ),
        Refusal::NoLetter => write!(f, "the first field is not the letter of a command."),
        Refusal::FieldCount { count } => write!(
            f,
            "the letter takes another count of fields than {count}."
        ),
        Refusal::NoNumber { field } => write!(
            f,
            "field {field} is no number from 0 to 255 without leading zeros."
        ),
        _ => write!(f, "the line is no command."),
    }
}

/// Why a command is refused.
fn refused<W: fmt::Write>(
    command: Command,
    refusal: Refusal,
    f: &mut fmt::Formatter<W>,
) -> fmt::Result {
    let Row { code, .. } = Row::from(refusal);
    write!(f, "Refused, number {code}: ")?;
    match refusal {
        Refusal::WrongPhase => wrong_phase(command, f),
        Refusal::NoSuchName { field } => nameless(command, field, f),
        Refusal::WrongKind => wrong_kind(command, f),
        Refusal::AlreadyGiven => write!(f, "this entry is given already."),
        Refusal::FactsDiffer => write!(f, "the two ends name different facts."),
        Refusal::LimitPassed => limit_passed(command, f),
        Refusal::Circle => write!(f, "a step would come before itself."),
        Refusal::EntryMissing { side, label } => missing(side, label, f),
        _ => write!(f, "the rules forbid it."),
    }
}

/// Why the phase has no such letter.
fn wrong_phase<W: fmt::Write>(command: Command, f: &mut fmt::Formatter<W>) -> fmt::Result {
    match command {
        Command::NewPrimitive
        | Command::NewCompound
        | Command::AppendNeed { .. }
        | Command::AppendAdd { .. }
        | Command::AppendDelete { .. } => write!(
            f,
            "the letter belongs to phase tasks, which has ended."
        ),
        Command::EndPhase => write!(f, "the open method must be closed first."),
        Command::OpenMethod { .. } => write!(
            f,
            "methods are opened in phase methods, one at a time."
        ),
        Command::NewStep { .. }
        | Command::PutOrder { .. }
        | Command::PutLink { .. }
        | Command::RouteNeed { .. }
        | Command::RouteAdd { .. }
        | Command::CloseMethod => write!(f, "no method is open."),
        Command::Decompose { .. } | Command::Judge | Command::Take { .. } => write!(
            f,
            "the letter belongs to the plan, which comes later."
        ),
    }
}

/// Which number names nothing.
fn nameless<W: fmt::Write>(command: Command, field: u8, f: &mut fmt::Formatter<W>) -> fmt::Result {
    match command {
        Command::AppendNeed { task, fact }
        | Command::AppendAdd { task, fact }
        | Command::AppendDelete { task, fact } => {
            if field == 1 {
                write!(f, "there is no task {task}.")
            } else {
                write!(
                    f,
                    "facts are the numbers 0 to 63, and {fact} is none of them."
                )
            }
        }
        Command::OpenMethod { task } | Command::NewStep { task } => write!(
            f,
            "there is no task {task}."
        ),
        Command::PutOrder { earlier, later } => {
            let step = if field == 1 { earlier } else { later };
            write!(f, "the method has no step {step}.")
        }
        _ => nameless_end(command, field, f),
    }
}

/// Which number of a link or of an entry names nothing.
fn nameless_end<W: fmt::Write>(
    command: Command,
    field: u8,
    f: &mut fmt::Formatter<W>,
) -> fmt::Result {
    match (command, field) {
        (Command::PutLink { producer: s, .. }, 1)
        | (Command::PutLink { consumer: s, .. }, 3)
        | (Command::RouteNeed { step: s, .. }, 2)
        | (Command::RouteAdd { step: s, .. }, 2) => write!(f, "the method has no step {s}."),
        (
            Command::PutLink {
                producer: s,
                add: k,
                ..
            },
            2,
        )
        | (
            Command::RouteAdd {
                step: s,
                label: k,
                ..
            },
            3,
        ) => write!(f, "step {s} has no add {k}."),
        (
            Command::PutLink {
                consumer: s,
                need: k,
                ..
            },
            4,
        )
        | (
            Command::RouteNeed {
                step: s,
                label: k,
                ..
            },
            3,
        ) => write!(f, "step {s} has no need {k}."),
        (Command::RouteNeed { need, .. }, 1) => write!(f, "the method's task has no need {need}."),
        (Command::RouteAdd { add, .. }, 1) => write!(f, "the method's task has no add {add}."),
        _ => write!(f, "field {field} names nothing."),
    }
}

/// What the kind of the task forbids.
fn wrong_kind<W: fmt::Write>(command: Command, f: &mut fmt::Formatter<W>) -> fmt::Result {
    match command {
        Command::AppendNeed { .. } => write!(f, "task 0, init, has no needs."),
        Command::AppendAdd { .. } => write!(f, "task 1, goal, has no adds."),
        Command::AppendDelete { task, .. } => write!(
            f,
            "init, goal and compound tasks have no deletes, and task {task} is one of them."
        ),
        Command::OpenMethod { task } => write!(
            f,
            "methods are for compound tasks, and task {task} is primitive."
        ),
        Command::NewStep { task } => write!(
            f,
            "no step is of init or goal, and task {task} is one of them."
        ),
        _ => write!(f, "the task is of the wrong kind."),
    }
}

/// Which limit is reached.
fn limit_passed<W: fmt::Write>(command: Command, f: &mut fmt::Formatter<W>) -> fmt::Result {
    match command {
        Command::NewPrimitive | Command::NewCompound => write!(f, "there are 32 tasks already."),
        Command::OpenMethod { .. } => write!(f, "there are 32 methods already."),
        Command::NewStep { .. } => write!(f, "the method has 8 steps already."),
        Command::PutLink { .. } => write!(f, "the method has 16 links already."),
        _ => write!(f, "the list has 32 facts already."),
    }
}

/// Which entry of the method's task is missing.
fn missing<W: fmt::Write>(side: Side, label: u8, f: &mut fmt::Formatter<W>) -> fmt::Result {
    match side {
        Side::Need => write!(f, "need {label} of the method's task goes nowhere yet."),
        Side::Add => write!(f, "add {label} of the method's task goes nowhere yet."),
    }
}
