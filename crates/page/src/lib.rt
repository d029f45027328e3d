//! The edges of the checker: what a line is answered, the answer as a row on a page, and the lines of a text.
//!
//! Nothing here allocates, and no public function asks anything of its caller.
#![tactic(auto)]

mod answer;
mod reading;
mod row;
mod text;

pub use answer::{Answer, Refusal, Row, Side};
pub use reading::Lines;
pub use row::{has_room, rows_end_in_breaks, write};
pub use text::{Line, line_at, lines_are_the_text};
