//! The tasks of a domain: what each needs, adds and deletes, and the lines that tell them.
//!
//! Nothing here allocates, and no public function asks anything of its caller.
#![tactic(auto)]

mod asking;
mod facts;
mod kind;
mod listing;
mod places;
mod role;
mod task;
mod tasks;
mod telling;

pub use facts::FactList;
pub use kind::Kind;
pub use places::is_init_or_goal;
pub use role::Role;
pub use task::Task;
pub use tasks::Tasks;
