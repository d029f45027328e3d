//! What can be asked of a table, and how its order changes.
ghost use Rattle.std.specs.Prelude.{◌≡◌, ℕ, ◌^◌, ◌<◌, ◌≤◌, true, false, length, is_ok, if◌then◌else◌, bit_or, slice_index};
ghost use Rattle.order.specs.Marks.{grown, pruned};
ghost use Rattle.order.specs.Puts.{can_put, nothing};
ghost use Rattle.order.specs.Tables.{relation};
ghost use Rattle.semantics.specs.Orders.{dropped, put, Smallest};

use crate::{Refused, Table};
use masks::{marked, only};

// `a` is a number of the caller's, below 64 in each of these; a type for such numbers would be one more conversion at each call.

/// Row `x` after a put: joined with `after` where `x` is `a` or before `a`.
fn grown_row(row: u64, x: usize, a: u8, after: u64) -> u64
    requires { a < 64 }
    ensures { result ≡ grown a after x row }
{
    if x == a as usize || marked(row, a) {
        row | after
    } else {
        row
    }
}

/// Row `x` after a drop: without the bit `a`, and empty where `x` is `a`.
fn pruned_row(row: u64, x: usize, a: u8) -> u64
    requires { a < 64 }
    ensures { result ≡ pruned a x row }
{
    if x == a as usize { 0 } else { row & !only(a) }
}

/// Joins `after` to the row `a`, and to the row of each step before `a`.
fn join(rows: &mut [u64], a: u8, after: u64)
    requires { a < 64 }
    ensures { (x : ℕ) → x < length rows.old → slice_index rows.new x ≡ grown a after x (slice_index rows.old x) }
{
    for (x, row) in rows.iter_mut().enumerate() {
        *row = grown_row(*row, x, a, after);
    }
}

// Two loops, and not one that takes a closure: each closure would state again what its row function states.

/// Takes the bit `a` from each row, and every bit from the row `a`.
fn prune(rows: &mut [u64], a: u8)
    requires { a < 64 }
    ensures { (x : ℕ) → x < length rows.old → slice_index rows.new x ≡ pruned a x (slice_index rows.old x) }
{
    for (x, row) in rows.iter_mut().enumerate() {
        *row = pruned_row(*row, x, a);
    }
}

impl<const N: usize> Table<N> {
    /// An order in which no number is before another.
    pub fn new() -> Table<N>
        requires { N ≤ 64 }
        ensures { relation result ≡ nothing }
    {
        Table { rows: [0; N] }
    }

    /// Whether `a` is before `b`. No number from `N` on is before another, or after one.
    pub fn before(&self, a: u8, b: u8) -> bool
        ensures { result ≡ relation self.now a b }
    {
        if a as usize >= N || b as usize >= N {
            return false;
        }
        marked(self.rows[a as usize], b)
    }

    /// Whether the pair is not refused.
    fn can_put(&self, a: u8, b: u8) -> bool
        ensures { result ≡ can_put N (relation self.now) a b }
    {
        (a as usize) < N && (b as usize) < N && a != b && !self.before(b, a)
    }

    /// `b` and the numbers after it, as a mask.
    fn from_on(&self, b: u8) -> u64
        requires { b < N }
        ensures { result ≡ bit_or (slice_index self.now.rows b) (2 ^ b) }
    {
        self.rows[b as usize] | only(b)
    }

    /// Puts `a` before `b`, with all that follows. Refused, with nothing changed, exactly when a number is `N` or above, `a`
    /// equals `b`, or `b` is before `a`.
    pub fn put(&mut self, a: u8, b: u8) -> Result<(), Refused>
        ensures test { is_ok result ≡ can_put N (relation self.old) a b }
        ensures after { relation self.new ≡ (if is_ok result then put (relation self.old) a b else relation self.old) }
        ensures least { is_ok result ≡ true → Smallest (relation self.old) a b (relation self.new) }
        ensures same { is_ok result ≡ false → self.new ≡ self.old }
    {
        if !self.can_put(a, b) {
            return Err(Refused);
        }
        let after = self.from_on(b);
        join(&mut self.rows, a, after);
        Ok(())
    }

    /// Takes `a` out of the order. Every pair of other numbers stays, also one that ran through `a`.
    pub fn drop_step(&mut self, a: u8)
        ensures { relation self.new ≡ dropped (relation self.old) a }
    {
        if (a as usize) < N {
            prune(&mut self.rows, a);
        }
    }
}
