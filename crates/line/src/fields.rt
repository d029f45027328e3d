ghost use Rattle.std.specs.Prelude.{ℕ, ◌+◌, ◌^◌, ◌<◌, length};
ghost use Rattle.std.specs.Option.{ForSome};

/// A part of a line between commas, with its place among the line's fields.
#[derive(Clone, Copy)]
pub struct Field<'a> {
    pub place: usize,
    pub text: &'a [u8],
}

/// Hands out the fields of a line, from the first on. It borrows the line and copies nothing.
#[derive(Clone, Copy)]
pub struct Fields<'a> {
    /// The place of the next field, and the line from there on; none once the last field was handed out.
    pub(super) rest: Option<(usize, &'a [u8])>,
    ghost fits: { ForSome rest (λ r. r.0 + length r.1.now + 1 < 2 ^ 64) },
}
