//! The theorems. Each function's contract is one.
ghost use Rattle.semantics.specs.Laws.{AlwaysFramed, JudgedExactly, LimitsHold, LowestCause, LowestNamed, OnlyFitting};
ghost use Rattle.semantics.specs.Listing.{AsListed};
ghost use Rattle.semantics.specs.Promise.{PromiseHolds};
ghost use Rattle.semantics.specs.Theorems.{Decomposition, NeedsAreMet, PutIsSmallest, PutsAreTheClosure, SequenceOrdersNothing, SomeStepIsNext, ThreatComesTrue};

/// The formula for putting a pair gives the smallest transitive relation that holds the old pairs and the new one, and no
/// other relation is that.
pub fn put_is_smallest()
    ensures { PutIsSmallest }
{}

/// Pairs put one by one give the smallest transitive relation of them all, and are refused exactly where it has a circle.
pub fn puts_are_the_closure()
    ensures { PutsAreTheClosure }
{}

/// In an executable plan, whatever way steps are taken by order alone, each finds its needs.
pub fn needs_are_met()
    ensures { NeedsAreMet }
{}

/// While a step is untaken, some step can be taken.
pub fn some_step_is_next()
    ensures { SomeStepIsNext }
{}

/// A threat comes true in some permitted order.
pub fn threat_comes_true()
    ensures { ThreatComesTrue }
{}

/// The rules keep the promise, for every capacity from 2 to 64 and every list of lines.
pub fn promise_holds()
    ensures { PromiseHolds }
{}

/// A decomposition by a fitting method keeps a sound plan sound; no link is lost, multiplied or made up, and no pair between
/// steps that stay is lost. It is refused exactly where a step would be before itself.
pub fn decomposition()
    ensures { Decomposition }
{}

/// A line is answered by the lowest-numbered cause that applies, and accepted where none does.
pub fn lowest_cause()
    ensures { LowestCause }
{}

/// What J and R name is so, and is the lowest.
pub fn lowest_named()
    ensures { LowestNamed }
{}

/// J is accepted exactly where the plan is executable.
pub fn judged_exactly()
    ensures { JudgedExactly }
{}

/// From its opening a domain holds only methods that fit, and a plan only links that fit.
pub fn only_fitting()
    ensures { OnlyFitting }
{}

/// From its opening on a plan has init and goal at its ends, and every other step between them.
pub fn always_framed()
    ensures { AlwaysFramed }
{}

/// In which sequence steps are listed orders nothing, in a plan or in a method.
pub fn sequence_orders_nothing()
    ensures { SequenceOrdersNothing }
{}

/// No limit is ever passed.
pub fn limits_hold()
    ensures { LimitsHold }
{}

/// The texts of the worked listing and its variants end with their rows.
pub fn as_listed()
    ensures { AsListed }
{}
