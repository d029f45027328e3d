//! Plans over any order keeper: steps, links, judging and taking.
//!
//! The plan and its keeper are two values, and what only asks for order cannot write the keeper. Nothing here allocates.
#![tactic(auto)]

mod asking;
mod judging;
mod linking;
mod opening;
mod ordering;
mod plan;
mod progress;
mod steps;
mod taking;

pub use plan::{Links, Plan};
pub use progress::Progress;
pub use steps::Steps;
