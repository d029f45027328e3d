//! The numbers of the new steps.
ghost use Rattle.std.specs.Prelude.{◌≡◌, ◌+◌, ◌≤◌, length};
ghost use Rattle.methods.specs.Meaning.{method};
ghost use Rattle.decomposing.specs.Exchanges.{first};

use crate::exchange::Exchange;
use std::ops::Range;

impl Exchange<'_> {
    /// The number of the first new step, also where the method has no steps.
    pub fn first(&self) -> u8
        ensures value { result ≡ first self.now }
        ensures bound { result ≤ 64 }
    {
        self.target.given()
    }

    /// The numbers of the new steps.
    pub fn numbers(&self) -> Range<u8>
        ensures start { result.start ≡ first self.now }
        ensures end { result.end ≡ first self.now + length (method self.now.method.now).steps }
    {
        self.first()..self.first() + self.method.count_steps()
    }
}
