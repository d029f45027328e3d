ghost use Rattle.std.specs.Prelude.{◌≡◌, ◌+◌, ◌^◌, ◌<◌, ◌==◌, ◌∷◌, length, position, IfSome};
ghost use Rattle.std.specs.Option.{ForSome};
ghost use Rattle.std.specs.Iterator.{item_count, YieldsFirstBy};
ghost use Rattle.line.specs.Fields.{fields, fields_left, left, placed};

use crate::{Field, Fields};

/// The place of the first comma.
fn comma(text: &[u8]) -> Option<usize>
    ensures { result ≡ position (λ b. b == 44) text.now }
{
    text.iter().position(|b| *b == b',')
}

/// The first field of a line, and what stands after its comma, if it has one.
fn cut(line: &[u8]) -> (&[u8], Option<&[u8]>)
    ensures fields { fields line.now ≡ result.0.now ∷ fields_left result.1 }
    ensures shorter { ForSome result.1 (λ rest. length rest.now < length line.now) }
{
    match comma(line) {
        Some(i) => (&line[..i], Some(&line[i + 1..])),
        None => (line, None),
    }
}

impl<'a> Fields<'a> {
    /// All fields of a line.
    pub fn new(line: &'a [u8]) -> Fields<'a>
        ensures { left result.rest ≡ placed 0 (fields line.now) }
    {
        Fields {
            rest: Some((0, line)),
        }
    }

    /// The fields after a line's letter, from what stands after the letter's comma, if it has one.
    pub(super) fn after_letter(rest: Option<&'a [u8]>) -> Fields<'a>
        ensures fields { left result.rest ≡ placed 1 (fields_left rest.entry) }
        ensures place { IfSome result.rest (λ r. r.0 ≡ 1) }
    {
        Fields {
            rest: rest.map(|text| (1, text)),
        }
    }

    /// How many fields are left.
    pub fn remaining(self) -> usize
        ensures value { result ≡ length (left self.entry.rest) }
        ensures fits { IfSome self.entry.rest (λ r. r.0 + result < 2 ^ 64) }
    {
        self.count()
    }
}

impl<'a> Iterator for Fields<'a> {
    type Item = Field<'a>;

    ghost next_gives = { YieldsFirstBy (λ f. (f.place, f.text.now)) (λ s. left s.rest) };

    ghost remaining = { item_count (λ s. left s.rest) };

    fn next(&mut self) -> Option<Field<'a>> {
        let (place, line) = self.rest?;
        let (text, after) = cut(line);
        *self = Fields {
            rest: after.map(|rest| (place + 1, rest)),
        };
        Some(Field { place, text })
    }
}
