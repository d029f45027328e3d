//! Prints the rows of the lines on standard input, a row for each line.
#![tactic(auto)]

ghost use Rattle.std.specs.Prelude.{◌≡◌, ◌≤◌, [], length, IfOk};
ghost use Rattle.page.specs.Lines.{lines};
ghost use Rattle.checker.specs.Runs.{rows_text};
ghost use Rattle.yardcheck.specs.Printed.{printed};

use checker::Checker;
use order::{BitTable, Keeper};
use std::alloc::{AllocError, Global};
use std::io;
use std::io::{Read, Write};

// The program `visit` has this limit too; a crate for what two programs share would be one constant.
/// A longer text is not read.
const MOST_BYTES: usize = 16384;

// As page has it; with less, `rows_of` would not have all rows, and would be refused.
/// No row is longer than this.
const ROW_BYTES: usize = 28;

// Written out: no answer has this row, so a `Row` would be made by hand all the same.
/// The row of a text that is too long.
const TOO_LONG: [u8; 14] = *b"10,16384,0,0\r\n";

/// The rows of all lines of a text, told to a new checker whose plan has 64 step numbers.
fn rows_of(heap: Global, text: &[u8]) -> Result<Vec<u8>, AllocError>
    requires { length text.now ≤ 16384 }
    ensures { IfOk result (λ v. v.items ≡ rows_text 64 [] (lines text.now)) }
{
    let mut page = Vec::new(heap);
    page.resize(ROW_BYTES * text.len(), 0)?;
    let mut checker = Checker::<BitTable>::open();
    let ran = checker.run(text, page.as_mut_slice());
    page.truncate(ran.written);
    Ok(page)
}

/// All that the program prints for a text.
fn printed(heap: Global, text: &[u8]) -> Result<Vec<u8>, AllocError>
    ensures { IfOk result (λ v. v.items ≡ printed text.now) }
{
    if text.len() <= MOST_BYTES {
        return rows_of(heap, text);
    }
    let mut row = Vec::new(heap);
    row.extend_from_slice(&TOO_LONG)?;
    Ok(row)
}

fn main(rt: HostRuntime) -> io::Result<()> {
    let mut text = Vec::new(rt.alloc());
    rt.stdin()
        .take(MOST_BYTES as u64 + 1)
        .read_to_end(&mut text)?;
    let rows = printed(rt.alloc(), text.as_slice())?;
    rt.stdout().write_all(rows.as_slice())
}
