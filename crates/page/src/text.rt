//! The lines of a text.
ghost use Rattle.std.specs.Prelude.{◌≡◌, ℕ, ◌<◌, ◌≤◌, length, drop, MatchOption, ◌≢◌, slice_index};
ghost use Rattle.std.specs.Option.{option_map};
ghost use Rattle.page.specs.Lines.{LinesOfAText, NoFeed, broken, first_line, without_cr};

/// A line of a text, without its break, and the place after the break, where the next line begins.
#[derive(Clone, Copy)]
pub struct Line<'a> {
    pub text: &'a [u8],
    pub next: usize,
}

/// The first line of the text from a place on, or `None` at or past the text's end.
///
/// A line ends at LF or CR LF, or at the end of the text. After the last break there is no further line.
pub fn line_at(text: &[u8], at: usize) -> Option<Line<'_>>
    ensures line { option_map (λ l. (l.text.now, l.next)) result ≡ first_line at (broken (drop at text.now)) }
    ensures next { MatchOption result (length text.now ≤ at) (λ l. (at < l.next) × (l.next ≤ length text.now)) }
{
    if at >= text.len() {
        return None;
    }
    let rest = &text[at..];
    match line_feed(rest) {
        Some(feed) => Some(Line {
            text: without_return(&rest[..feed]),
            next: at + feed + 1,
        }),
        None => Some(Line {
            text: rest,
            next: text.len(),
        }),
    }
}

/// The place of the first LF.
fn line_feed(text: &[u8]) -> Option<usize>
    ensures { MatchOption result (NoFeed text.now (length text.now)) (λ i. (i < length text.now) × (slice_index text.now i ≡ 10) × NoFeed text.now i) }
{
    text.iter().position(|b| *b == b'\n')
}

/// A line without the CR at its end, if there is one: that CR belongs to the break.
fn without_return(line: &[u8]) -> &[u8]
    ensures { result.now ≡ without_cr line.now }
{
    match line {
        [text @ .., b'\r'] => text,
        _ => line,
    }
}

/// The lines with their breaks make up the text, each line and each break has its proper shape, and no other lines do so.
pub fn lines_are_the_text()
    ensures { LinesOfAText }
{}
