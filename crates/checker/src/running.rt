//! A whole text, told line by line, and its rows on a page.
ghost use Rattle.std.specs.Prelude.{◌≡◌, ◌≤◌, true, length};
ghost use Rattle.page.specs.Rows.{fits};
ghost use Rattle.semantics.specs.Promise.{History, state};
ghost use Rattle.checker.specs.Meaning.{held, Means};
ghost use Rattle.checker.specs.Runs.{AnsweredOn, Runs};

use crate::Checker;
use order::Keeper;
use page::{has_room, line_at, write};

/// How far a run came.
#[derive(Clone, Copy, PartialEq, Eq, Debug)]
pub struct Ran {
    /// The place of the next line, or the text's length where none is left.
    pub next: usize,
    /// How many bytes of the page are written.
    pub written: usize,
}

impl<K: Keeper> Checker<K> {
    /// Tells one line, writes its row at a place of the page with room for it, and answers the place after the row.
    fn answer_on(&mut self, line: &[u8], page: &mut [u8], at: usize) -> usize
        requires { fits page.old at ≡ true }
        ensures within { result ≤ length page.old }
        ensures told { (past : History) → Means (held (K.before self.old.keeper) self.old) (state K.CAPACITY past) → AnsweredOn K.CAPACITY past line.now page.old at result page.new (held (K.before self.new.keeper) self.new) }
    {
        let answer = self.tell(line);
        write(answer, page, at).unwrap_or(at)
    }

    /// Tells the lines of a text one after the other and writes their rows, until no line is left or fewer than 28 bytes of the
    /// page are free. Later bytes of the page stay as they are.
    pub fn run(&mut self, text: &[u8], page: &mut [u8]) -> Ran
        ensures within { (result.next ≤ length text.now) × (result.written ≤ length page.old) }
        ensures runs { (past : History) → Means (held (K.before self.old.keeper) self.old) (state K.CAPACITY past) → Runs K.CAPACITY past text.now page.old result.next result.written page.new (held (K.before self.new.keeper) self.new) }
    {
        // The place of the next line is part of the answer, so the loop goes by places and not over `Lines`.
        let mut next = 0;
        let mut written = 0;
        while has_room(page, written) {
            let Some(line) = line_at(text, next) else {
                break;
            };
            written = self.answer_on(line.text, page, written);
            next = line.next;
        }
        Ran { next, written }
    }
}
