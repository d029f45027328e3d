ghost use Rattle.std.specs.Prelude.{◌≡◌, ℕ, ◌<◌, ◌≤◌, true, [], ◌∷◌, ◌++◌, length, is_ok, is_some, if◌then◌else◌};
ghost use Rattle.std.specs.List.{slice_get};
ghost use Rattle.std.specs.Result.{result_ok};
ghost use Rattle.semantics.specs.Facts.{among};
ghost use Rattle.domain.specs.Facts.{label_of_next};
ghost use Rattle.masks.specs.Bits.{bit};
ghost use Rattle.domain.specs.Meaning.{facts};

use crate::FactList;
use fixed::{Fixed, Full};
use masks::{marked, only};

impl FactList {
    /// A list without facts.
    pub fn new() -> FactList
        ensures { facts result ≡ [] }
    {
        FactList {
            list: Fixed::new(0),
            mask: 0,
        }
    }

    /// The fact with this label.
    pub fn get(&self, label: u8) -> Option<u8>
        ensures item { result ≡ slice_get (facts self.now) label }
        ensures bound { is_some result ≡ true → label < 32 }
    {
        self.list.get(label as usize)
    }

    /// How many facts the list has.
    pub fn len(&self) -> u8
        ensures value { result ≡ length (facts self.now) }
        ensures bound { result ≤ 32 }
    {
        self.list.len() as u8
    }

    /// The facts as bits: bit f is set exactly where f is in the list.
    pub fn mask(&self) -> u64
        ensures { (f : ℕ) → bit result f ≡ among f (facts self.now) }
    {
        self.mask
    }

    /// Whether the fact is in the list.
    pub fn has(&self, fact: u8) -> bool
        ensures { result ≡ among fact (facts self.now) }
    {
        fact < 64 && marked(self.mask, fact)
    }

    /// Ends the list with a fact and answers its label. A full list stays as it is.
    pub(super) fn push(&mut self, fact: u8) -> Result<u8, Full>
        requires { fact < 64 }
        ensures label { result_ok result ≡ label_of_next (facts self.old) }
        ensures after { facts self.new ≡ (if is_ok result then facts self.old ++ (fact ∷ []) else facts self.old) }
    {
        let label = self.list.len() as u8;
        self.list.push(fact)?;
        self.mask |= only(fact);
        Ok(label)
    }
}
