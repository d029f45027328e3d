//! The checker: phases, lines and what each is answered, over any order keeper.
//!
//! Nothing here allocates, and no public function asks anything of its caller.
#![tactic(auto)]

mod checker;
mod plan_lines;
mod running;
mod telling;

pub use checker::Checker;
pub use running::Ran;
