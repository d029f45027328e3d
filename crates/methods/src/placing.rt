//! Entries by label.
ghost use Rattle.std.specs.Prelude.{◌≡◌, ℕ, ◌<◌, ◌≤◌, is_some, not, None};
ghost use Rattle.std.specs.Option.{option_map};
ghost use Rattle.semantics.specs.Causes.{first_such};
ghost use Rattle.semantics.specs.Decomposing.{upfrom};
ghost use Rattle.semantics.specs.Methods.{entered};
ghost use Rattle.methods.specs.Places.{going, place};

use crate::entries::LABELS;
use crate::{Entries, Entry};

impl Entries {
    /// No entry.
    pub fn new() -> Entries
        ensures { going result ≡ (λ j. None) }
    {
        Entries {
            places: [None; LABELS],
        }
    }

    /// Where a label goes.
    pub fn get(&self, label: u8) -> Option<Entry>
        ensures { option_map place result ≡ going self.now label }
    {
        *self.places.get(label as usize)?
    }

    /// Whether a label has an entry.
    pub fn has(&self, label: u8) -> bool
        ensures { result ≡ is_some (going self.now label) }
    {
        self.get(label).is_some()
    }

    /// Gives a label its entry.
    pub(super) fn put(&mut self, label: u8, entry: Entry)
        requires { label < 32 }
        ensures { going self.new ≡ entered (going self.old) label (entry.step, entry.label) }
    {
        self.places[label as usize] = Some(entry);
    }

    /// The lowest of the first `count` labels that has no entry.
    pub fn missing(&self, count: u8) -> Option<u8>
        ensures { result ≡ first_such (λ k. not (is_some (going self.now k))) (upfrom 0 count) }
    {
        (0..count).find(|label| !self.has(*label))
    }
}
