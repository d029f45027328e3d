//! A domain as it is told line by line: its phase, its tasks, its methods and the open method.
//!
//! It is all of a checker but the plan. From its opening on it holds only methods that fit their tasks. Nothing here
//! allocates, and no public function asks anything of its caller.
#![tactic(auto)]

mod asking;
mod method_lines;
mod opening;
mod phase_lines;
mod task_lines;
mod telling;
mod told;

pub use told::Domain;
