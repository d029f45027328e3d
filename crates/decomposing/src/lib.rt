//! Decomposing a step of a plan by a method, over any order keeper.
//!
//! The step leaves, the method's steps get the next numbers, links at the step are handed on, and what was before or after the
//! step is before or after each new one. Nothing here allocates, and no public function asks anything of its caller.
#![tactic(auto)]

mod decomposing;
mod exchange;
mod inheriting;
mod joining;
mod numbering;
mod passing;
mod revising;

pub use decomposing::decompose;
