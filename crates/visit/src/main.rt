//! Reads the domain of a truck's visit to a quarry's weighbridge, its tasks and methods, line by line, and says what becomes
//! of each line.
#![tactic(auto)]

ghost use Rattle.std.specs.Prelude.{◌≡◌, length, OnOk, nat_lt};
ghost use Rattle.page.specs.Lines.{lines};
ghost use Rattle.told_domain.specs.Domains.{parts};
ghost use Rattle.visit.specs.Sessions.{lines_after};

mod session;
mod telling;
mod words;

use page::Lines;
use session::Session;
use std::io;
use std::io::Read;
use words::Report;

/// The program reads at most this many bytes.
const MOST_BYTES: usize = 16384;

/// What the numbers of the visit's facts and tasks stand for, and how to read the report.
const LEGEND: &str = "\
A truck's visit, told line by line.
Facts: 0 truck on the bridge, 1 empty weight stored, 2 load on board, 3 full weight stored.
Tasks: 0 init, 1 goal, 2 weigh empty, 3 load, 4 weigh full, 5 serve truck (compound).
For each line: the line, its row (code and three numbers), and what happened. Code 0 is accepted.
";

/// Whether a text has more bytes than the program reads.
fn is_too_long(text: &[u8]) -> bool
    ensures { result ≡ nat_lt 16384 (length text.now) }
{
    text.len() > MOST_BYTES
}

/// Tells each line of the text, and prints what became of it.
///
/// Where all could be printed, the domain stands as the lines of the text leave it.
fn tell_all(rt: &HostRuntime, session: &mut Session, text: &[u8]) -> io::Result<()>
    ensures { OnOk result (parts session.new.domain ≡ lines_after (parts session.old.domain) (lines text.now)) }
{
    for (index, line) in Lines::new(text).enumerate() {
        let reply = session.tell(line);
        rt.println(Report {
            number: index + 1,
            line,
            reply,
        })?;
    }
    Ok(())
}

fn main(rt: HostRuntime) -> io::Result<()> {
    let mut text = Vec::new(rt.alloc());
    rt.stdin()
        .take(MOST_BYTES as u64 + 1)
        .read_to_end(&mut text)?;
    if is_too_long(text.as_slice()) {
        return println!(rt; "The text is longer than {MOST_BYTES} bytes, and is not read.");
    }
    rt.println(LEGEND)?;
    let mut session = Session::open();
    tell_all(&rt, &mut session, text.as_slice())
}
