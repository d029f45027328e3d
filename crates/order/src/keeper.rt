//! What a keeper of an order promises.
ghost use Rattle.std.specs.Prelude.{◌≡◌, ℕ, ◌<◌, ◌≤◌, true, false, is_ok, if◌then◌else◌};
ghost use Rattle.order.specs.Copies.{RowCopied, Within};
ghost use Rattle.order.specs.Puts.{can_put, nothing};
ghost use Rattle.page.specs.declared.answer.Refusal.TheVariants as refused_as;
ghost use Rattle.semantics.specs.Orders.{dropped, Holds, put, Relation, Smallest};

use page::Refusal;

/// A pair that was not put: a number is at or above the capacity, the two are equal, or the second is before the first.
#[derive(Clone, Copy, PartialEq, Eq, Debug)]
pub struct Refused;

/// A pair of known steps that is not put would put a step before itself.
impl From<Refused> for Refusal {
    ghost from_gives = { λ pair refusal. refusal ≡ refused_as.Circle };

    fn from(_pair: Refused) -> Refusal {
        Refusal::Circle
    }
}

/// A keeper of a strict order between the step numbers below its capacity.
pub trait Keeper: Sized + Drop {
    /// How many step numbers there are.
    const CAPACITY: u8;

    ghost CAPACITY: { ℕ };

    // Which steps are before which.
    ghost before: { Self → Relation };

    /// A keeper in which no step is before another.
    fn new() -> Self
        ensures { before result ≡ nothing };

    /// Whether `a` is before `b`. No number at or above the capacity is before another, or after one.
    fn before(&self, a: u8, b: u8) -> bool
        ensures { result ≡ before self.now a b };

    /// Puts `a` before `b`, with all that follows. Refused, with nothing changed, exactly when a number is at or above the
    /// capacity, `a` equals `b`, or `b` is before `a`.
    fn put(&mut self, a: u8, b: u8) -> Result<(), Refused>
        ensures test { is_ok result ≡ can_put CAPACITY (before self.old) a b }
        ensures after { before self.new ≡ (if is_ok result then put (before self.old) a b else before self.old) }
        ensures least { is_ok result ≡ true → Smallest (before self.old) a b (before self.new) }
        ensures same { is_ok result ≡ false → self.new ≡ self.old };

    /// Takes the step `a` out of the order. Every pair of other steps stays, also one that ran through `a`.
    fn drop_step(&mut self, a: u8)
        ensures { before self.new ≡ dropped (before self.old) a };

    // These two loops go over step numbers and no places: a keeper lends no list of its pairs.

    /// Puts the pairs of `from` that begin with `a`. If `from` has all that is kept before, it has all that is kept then.
    fn put_row(&mut self, from: &Self, a: u8)
        ensures { Within (before self.old) (before from.now) → RowCopied (before from.now) (before self.old) a CAPACITY (before self.new) }
    {
        for b in 0..Self::CAPACITY {
            if from.before(a, b) {
                let _ = self.put(a, b);
            }
        }
    }

    /// A keeper of the same order.
    // No bound `Copy` or `Clone`: a keeper of another making need have neither, and `clone` may fail for want of memory.
    fn copied(&self) -> Self
        ensures { before result ≡ before self.now }
    {
        let mut copy = Self::new();
        for a in 0..Self::CAPACITY {
            copy.put_row(self, a);
        }
        copy
    }

    ghost few: { (2 ≤ CAPACITY) × (CAPACITY ≤ 64) };

    ghost never_itself: { (k : Self) (x : ℕ) → Holds (before k) x x → ⊥ };

    ghost passes_on: { (k : Self) (x y z : ℕ) → Holds (before k) x y → Holds (before k) y z → Holds (before k) x z };

    ghost within: { (k : Self) (x y : ℕ) → Holds (before k) x y → (x < CAPACITY) × (y < CAPACITY) };
}
