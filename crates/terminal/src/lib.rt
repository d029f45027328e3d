//! The call of a terminal written in C: a text is told to a new checker, and its rows are written onto a page.
//!
//! `include/yardcheck.h` says to a C programmer what the call does. Nothing here allocates, and the call asks nothing of its caller
//! but that the two pieces of memory are there and do not overlap.
#![tactic(auto)]

ghost use Rattle.std.specs.Prelude.{◌≡◌};
ghost use Rattle.terminal.specs.Calls.{Called};

use checker::Checker;
use order::BitTable;

/// Opens a checker whose plan has 64 step numbers, runs the text onto the page, and answers how many bytes of the page are written.
#[unsafe(no_mangle)]
pub extern "C" fn yardcheck_run(text: &[u8], page: &mut [u8]) -> usize
    ensures { Called text.now page.old result page.new }
{
    let mut checker = Checker::<BitTable>::open();
    checker.run(text, page).written
}
