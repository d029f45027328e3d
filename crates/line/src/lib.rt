//! A line of bytes becomes a command, or is turned down for the lowest-numbered of the causes 1 to 4.
//!
//! The fields of a line are parts of it and never copies. Nothing here allocates, and no public function asks anything
//! of its caller.
#![tactic(auto)]

mod command;
mod fields;
mod laws;
mod number;
mod parsing;
mod reading;

pub use command::{Command, Refusal};
pub use fields::{Field, Fields};
pub use laws::{every_command_has_one_text, fields_are_parts, number_fields_are_decimal};
pub use parsing::parse;
