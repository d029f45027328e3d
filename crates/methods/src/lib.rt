//! Methods, told line by line: their steps, links, order and entries.
//!
//! Nothing here allocates, and no public function asks anything of its caller (`SmallOrder::new` is the one of `Table`, at 8 numbers: 8 ≤ 64).
#![tactic(auto)]

mod asking;
mod drafting;
mod entries;
mod linking;
mod lookup;
mod method;
mod placing;
mod routing;

pub use entries::{Entries, Entry};
pub use method::{Method, SmallOrder};
