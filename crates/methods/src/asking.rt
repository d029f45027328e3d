//! What can be asked of a method.
ghost use Rattle.std.specs.Prelude.{◌≡◌, ℕ, ◌<◌, ◌≤◌, length};
ghost use Rattle.std.specs.Option.{option_map};
ghost use Rattle.methods.specs.Ends.{SmallEnds};
ghost use Rattle.methods.specs.Meaning.{method};
ghost use Rattle.methods.specs.Places.{place};
ghost use Rattle.methods.specs.Routes.{entry_step};
ghost use Rattle.methods.specs.Sides.{goes_on};

use crate::{Entry, Method};
use page::Side;
use semantics::Link;

impl Method {
    /// The task that the method carries out.
    pub fn task(&self) -> u8
        ensures { result ≡ (method self.now).task }
    {
        self.task
    }

    /// How many steps the method has.
    pub fn count_steps(&self) -> u8
        ensures value { result ≡ length (method self.now).steps }
        ensures bound { result ≤ 8 }
    {
        self.steps.len() as u8
    }

    /// The tasks of the steps, by the steps' numbers.
    pub fn steps(&self) -> &[u8]
        ensures { result.now ≡ (method self.now).steps }
    {
        self.steps.as_slice()
    }

    /// The links of the method.
    pub fn links(&self) -> &[Link]
        ensures items { result.now ≡ (method self.now).links }
        ensures small { SmallEnds result.now }
    {
        self.links.as_slice()
    }

    /// Whether step `a` is before step `b`.
    pub fn before(&self, a: u8, b: u8) -> bool
        ensures { result ≡ (method self.now).before a b }
    {
        self.order.before(a, b)
    }

    /// Where a need or an add of the method's task goes.
    pub fn goes(&self, side: Side, label: u8) -> Option<Entry>
        ensures item { option_map place result ≡ goes_on side (method self.now) label }
        ensures small { entry_step result < 8 }
    {
        self.entries(side).get(label)
    }
}
