//! Where the needs and adds of a method's task go, and whether the method may be closed.
ghost use Rattle.std.specs.Prelude.{◌≡◌, ℕ, ◌<◌, length};
ghost use Rattle.std.specs.List.{slice_get};
ghost use Rattle.std.specs.Option.{option_map};
ghost use Rattle.page.specs.Answers.{as_row, row, side_number};
ghost use Rattle.semantics.specs.Causes.{first_of, told};
ghost use Rattle.semantics.specs.OpenLines.{close_causes, unentered};
ghost use Rattle.links.specs.Parts.{refused};
ghost use Rattle.domain.specs.Meaning.{tasks};
ghost use Rattle.methods.specs.Meaning.{method};
ghost use Rattle.methods.specs.Places.{going};
ghost use Rattle.methods.specs.Sides.{entry_causes, facts_on, goes_on, with_entry};

use crate::lookup::labelled;
use crate::{Entries, Entry, Method};
use domain::Tasks;
use page::{Answer, Refusal, Side};

/// How many facts task `t` has on that side.
fn count(known: &Tasks, t: u8, side: Side) -> u8
    ensures { result ≡ length (facts_on side (slice_get (tasks known.now) t)) }
{
    known.task(t).map_or(0, |task| labelled(task, side).len())
}

impl Method {
    // A match picks the field, here and in `enter`: a method has two lists of entries, with names.
    /// Where the needs or the adds of the method's task go.
    pub(super) fn entries(&self, side: Side) -> &Entries
        ensures { going result.now ≡ goes_on side (method self.now) }
    {
        match side {
            Side::Need => &self.needs,
            Side::Add => &self.adds,
        }
    }

    /// Gives a need or an add of the method's task its entry.
    fn enter(&mut self, side: Side, from: u8, entry: Entry)
        requires label { from < 32 }
        requires small { entry.step < 8 }
        ensures { method self.new ≡ with_entry side (method self.old) from (entry.step, entry.label) }
    {
        match side {
            Side::Need => self.needs.put(from, entry),
            Side::Add => self.adds.put(from, entry),
        }
    }

    /// U and V: a need or an add of the method's task goes to one of a step of the method.
    pub fn route(&mut self, known: &Tasks, side: Side, from: u8, step: u8, label: u8) -> Answer
        ensures answer { row result ≡ first_of (entry_causes side (tasks known.now) (method self.old) from step label) 0 }
        ensures after { method self.new ≡ told (row result) (with_entry side (method self.old) from (step, label)) (method self.old) }
    {
        let own = self
            .task_fact(known, side, from)
            .ok_or(Refusal::NoSuchName { field: 1 })?;
        if !self.has_step(step) {
            return Err(Refusal::NoSuchName { field: 2 });
        }
        let fact = self
            .step_fact(known, step, side, label)
            .ok_or(Refusal::NoSuchName { field: 3 })?;
        if self.entries(side).has(from) {
            return Err(Refusal::AlreadyGiven);
        }
        if own != fact {
            return Err(Refusal::FactsDiffer);
        }
        self.enter(side, from, Entry { step, label });
        Ok(0)
    }

    /// Whether each need or each add of the method's task has its entry.
    fn check_entries(&self, known: &Tasks, side: Side) -> Result<(), Refusal>
        ensures { refused result ≡ option_map (λ k. as_row 12 (side_number side) k 0) (unentered (facts_on side (slice_get (tasks known.now) self.now.task)) (goes_on side (method self.now))) }
    {
        match self.entries(side).missing(count(known, self.task, side)) {
            Some(label) => Err(Refusal::EntryMissing { side, label }),
            None => Ok(()),
        }
    }

    /// K: whether each need and each add of the method's task has its entry. Nothing changes.
    pub fn close(&self, known: &Tasks) -> Answer
        ensures { row result ≡ first_of (close_causes (tasks known.now) (method self.now)) 0 }
    {
        self.check_entries(known, Side::Need)?;
        self.check_entries(known, Side::Add)?;
        Ok(0)
    }
}
