//! Orders between step numbers, and what keeps one.
//!
//! A keeper holds a strict order: which steps are before which. Everything above is written over the trait `Keeper`, once for
//! every keeper. `BitTable` has a bit for each pair of 64 steps, `PairList` a list of pairs of 32 steps from which the others
//! follow. A `Table` is such an order in rows of bits for any size up to 64, of which `BitTable` is the keeper.
#![tactic(auto)]

mod bit_table;
mod following;
mod keeper;
mod operation;
mod ordering;
mod pair_list;
mod putting;
mod table;

pub use bit_table::BitTable;
pub use keeper::{Keeper, Refused};
pub use operation::{Operation, agree, apply};
pub use pair_list::PairList;
pub use putting::{put_all, put_each};
pub use table::Table;
