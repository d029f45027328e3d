//! Lists of links: whether a link may join one, and how it joins.
//!
//! Nothing here allocates, and no public function asks anything of its caller.
#![tactic(auto)]

mod ends;
mod listing;

pub use ends::check_ends;
pub use listing::{has_room, is_linked, join, try_join};
