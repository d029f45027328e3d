ghost use Rattle.std.specs.Prelude.{ℕ, ◌≤◌};
ghost use Rattle.order.specs.Marks.{marks};
ghost use Rattle.order.specs.Puts.{Order};

// An array with a row for each number: the form that the project wants for the table of 64.
/// A strict order between the numbers below `N`: row `x` has a bit for each number that `x` is before.
#[derive(Clone, Copy)]
pub struct Table<const N: usize> {
    pub(super) rows: [u64; N],
    ghost few: { N ≤ 64 },
    ghost ok: { ∥ Order N (marks N rows) ∥₁ },
}
