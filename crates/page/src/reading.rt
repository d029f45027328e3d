//! The lines of a text, one after the other.
ghost use Rattle.std.specs.Prelude.{◌≡◌, ◌≤◌, length};
ghost use Rattle.std.specs.Iterator.{YieldsFirstRef, item_count};
ghost use Rattle.page.specs.Lines.{lines};
ghost use Rattle.page.specs.Reading.{lines_left};

use crate::text::line_at;

/// Hands out the lines of a text, each without its break. It borrows the text and copies nothing.
#[derive(Clone, Copy)]
pub struct Lines<'a> {
    text: &'a [u8],
    place: usize,
}

impl<'a> Lines<'a> {
    /// All lines of a text.
    pub fn new(text: &'a [u8]) -> Lines<'a>
        ensures { lines_left result ≡ lines text.now }
    {
        Lines { text, place: 0 }
    }
}

impl<'a> Iterator for Lines<'a> {
    type Item = &'a [u8];

    ghost next_gives = { YieldsFirstRef lines_left };

    ghost remaining = { item_count lines_left };

    fn next(&mut self) -> Option<&'a [u8]> {
        let line = line_at(self.text, self.place)?;
        self.place = line.next;
        Some(line.text)
    }
}
