ghost use Rattle.std.specs.Prelude.{◌≡◌};
ghost use Rattle.line.specs.Bytes.{bad_byte, plain};
ghost use Rattle.line.specs.Fields.{fields_left};
ghost use Rattle.line.specs.Letters.{kind_of, kinds, plan_kinds};
ghost use Rattle.line.specs.Parse.{counted, of_kind, parsed, without_numbers};

use crate::number::number;
use crate::{Command, Fields, Refusal};

/// Whether a line may hold this byte.
fn is_plain(b: u8) -> bool
    ensures { result ≡ plain b }
{
    (0x20..=0x7E).contains(&b) && b != b'"'
}

/// The place of the first byte that no line may hold.
fn first_bad(line: &[u8]) -> Option<usize>
    ensures { result ≡ bad_byte line.now }
{
    line.iter().position(|b| !is_plain(*b))
}

/// The numbers of the fields after the letter, of which there are to be `N`.
// Inlined, here and in `alone`: each letter has its own count of fields, and most have few.
#[inline(always)]
fn numbers<const N: usize>(rest: Option<&[u8]>) -> Result<[u8; N], Refusal>
    ensures { result ≡ counted N (fields_left rest.entry) }
{
    let after = Fields::after_letter(rest);
    let count = after.remaining();
    if count != N {
        return Err(Refusal::FieldCount { count: count + 1 });
    }
    let mut all = [0; N];
    for field in after {
        all[field.place - 1] = number(field.text).ok_or(Refusal::NoNumber { field: field.place })?;
    }
    Ok(all)
}

/// A command whose letter stands alone.
#[inline(always)]
fn alone(rest: Option<&[u8]>, command: Command) -> Result<Command, Refusal>
    ensures { result ≡ without_numbers command (counted 0 (fields_left rest.entry)) }
{
    let [] = numbers::<0>(rest)?;
    Ok(command)
}

/// The command of a line that tells tasks and methods, or of any other line.
fn command_of(letter: char, rest: Option<&[u8]>) -> Result<Command, Refusal>
    ensures { result ≡ of_kind (kind_of kinds letter) (fields_left rest.entry) }
{
    // tried: `numbers::<2>(rest).map(|[task, fact]| ..)`; a proof learns nothing of a closure that takes an array apart
    match letter {
        'P' => alone(rest, Command::NewPrimitive),
        'C' => alone(rest, Command::NewCompound),
        'N' => {
            let [task, fact] = numbers::<2>(rest)?;
            Ok(Command::AppendNeed { task, fact })
        }
        'A' => {
            let [task, fact] = numbers::<2>(rest)?;
            Ok(Command::AppendAdd { task, fact })
        }
        'D' => {
            let [task, fact] = numbers::<2>(rest)?;
            Ok(Command::AppendDelete { task, fact })
        }
        'E' => alone(rest, Command::EndPhase),
        'M' => {
            let [task] = numbers::<1>(rest)?;
            Ok(Command::OpenMethod { task })
        }
        'U' => {
            let [need, step, label] = numbers::<3>(rest)?;
            Ok(Command::RouteNeed { need, step, label })
        }
        'V' => {
            let [add, step, label] = numbers::<3>(rest)?;
            Ok(Command::RouteAdd { add, step, label })
        }
        'K' => alone(rest, Command::CloseMethod),
        _ => plan_command(letter, rest),
    }
}

/// The command of a line that tells, judges or follows a plan.
fn plan_command(letter: char, rest: Option<&[u8]>) -> Result<Command, Refusal>
    ensures { result ≡ of_kind (kind_of plan_kinds letter) (fields_left rest.entry) }
{
    match letter {
        'S' => {
            let [task] = numbers::<1>(rest)?;
            Ok(Command::NewStep { task })
        }
        'O' => {
            let [earlier, later] = numbers::<2>(rest)?;
            Ok(Command::PutOrder { earlier, later })
        }
        'L' => {
            let [producer, add, consumer, need] = numbers::<4>(rest)?;
            Ok(Command::PutLink {
                producer,
                add,
                consumer,
                need,
            })
        }
        'X' => {
            let [step, method] = numbers::<2>(rest)?;
            Ok(Command::Decompose { step, method })
        }
        'J' => alone(rest, Command::Judge),
        'R' => {
            let [step] = numbers::<1>(rest)?;
            Ok(Command::Take { step })
        }
        _ => Err(Refusal::NoLetter),
    }
}

/// What a line tells, or the lowest-numbered of the causes 1 to 4 why it is turned down.
pub fn parse(line: &[u8]) -> Result<Command, Refusal>
    ensures { result ≡ parsed line.now }
{
    if let Some(place) = first_bad(line) {
        return Err(Refusal::BadByte { place });
    }
    match line {
        [letter, b',', rest @ ..] => command_of(*letter as char, Some(rest)),
        [letter] => command_of(*letter as char, None),
        _ => Err(Refusal::NoLetter),
    }
}
