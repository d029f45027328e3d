//! A keeper of 32 steps: a list of pairs, from which the others follow.
ghost use Rattle.std.specs.Prelude.{◌≡◌, ℕ, ◌^◌, ◌<◌, false, not, ◌&&◌, ◌||◌, is_ok, if◌then◌else◌, ◌==◌, bit_or, nat_eq};
ghost use Rattle.fixed.specs.Items.{items};
ghost use Rattle.masks.specs.Bits.{bit};
ghost use Rattle.order.specs.PairLists.{follows_from, list_order};
ghost use Rattle.order.specs.Puts.{can_put, nothing};
ghost use Rattle.order.specs.Stored.{leads, onward, others, put_or_not, put_some, through};
ghost use Rattle.std.proofs.Common.{lit≤};

use crate::{Keeper, PairList, Refused};
use fixed::Fixed;
use masks::{lowest, marked, only};

/// The mask with the later step of a pair, if its earlier step is `a`.
fn with_target(found: u64, earlier: u8, later: u8, a: u8) -> u64
    requires { later < 64 }
    ensures { result ≡ (if nat_eq earlier a then bit_or found (2 ^ later) else found) }
{
    if earlier == a {
        found | only(later)
    } else {
        found
    }
}

/// Whether neither `x` nor `y` is `a`.
fn neither(x: u8, y: u8, a: u8) -> bool
    ensures { result ≡ (not (x == a) && not (y == a)) }
{
    x != a && y != a
}

impl PairList {
    /// The steps that a stored pair leads to from `a`, as a mask.
    fn targets(&self, a: u8) -> u64
        ensures { (y : ℕ) → bit result y ≡ leads (items self.now.pairs) a y }
    {
        let mut found = 0;
        for pair in self.pairs.as_slice() {
            let (earlier, later) = *pair;
            found = with_target(found, earlier, later, a);
        }
        found
    }

    /// `a` and the steps after it, as a mask. Each step is followed once.
    fn reach(&self, a: u8) -> u64
        requires { a < 32 }
        ensures { (y : ℕ) → bit result y ≡ (a == y || follows_from self.now a y) }
    {
        let mut seen = only(a);
        let mut followed = 0;
        loop {
            let to_follow = seen & !followed;
            if to_follow == 0 {
                return seen;
            }
            let step = lowest(to_follow);
            followed |= only(step);
            seen |= self.targets(step);
        }
    }

    /// Whether `b` follows from the pairs after `a`.
    fn follows(&self, a: u8, b: u8) -> bool
        ensures { result ≡ follows_from self.now a b }
    {
        if a >= 32 || b >= 32 || a == b {
            return false;
        }
        marked(self.reach(a), b)
    }

    /// Whether the pair is not refused.
    fn can_put(&self, a: u8, b: u8) -> bool
        ensures { result ≡ can_put 32 (follows_from self.now) a b }
    {
        a < 32 && b < 32 && a != b && !self.follows(b, a)
    }

    /// Puts the pair, unless it is refused. It is stored only if it does not follow already.
    fn store(&mut self, a: u8, b: u8) -> Result<(), Refused>
        ensures test { is_ok result ≡ can_put 32 (follows_from self.old) a b }
        ensures after { follows_from self.new ≡ put_or_not 32 (follows_from self.old) a b }
        ensures same { is_ok result ≡ false → self.new ≡ self.old }
    {
        if !self.can_put(a, b) {
            return Err(Refused);
        }
        if !self.follows(a, b) {
            let _ = self.pairs.push((a, b));
        }
        Ok(())
    }

    /// Puts the pair if it is wanted.
    fn store_if(&mut self, wanted: bool, a: u8, b: u8)
        ensures { follows_from self.new ≡ (if wanted then put_or_not 32 (follows_from self.old) a b else follows_from self.old) }
    {
        if wanted {
            let _ = self.store(a, b);
        }
    }

    // Three loops over the pairs, and no function that takes a closure: what each puts is its contract, and a closure would say it again.

    /// Puts each stored pair that does not contain `a` into `rest`.
    fn keep_others(&self, rest: &mut PairList, a: u8)
        ensures { follows_from rest.new ≡ put_some 32 (follows_from rest.old) (others a (items self.now.pairs)) }
    {
        for pair in self.pairs.as_slice() {
            let (x, y) = *pair;
            rest.store_if(neither(x, y, a), x, y);
        }
    }

    /// Puts `x` before each step that a stored pair leads to from `a`, in `rest`.
    fn keep_onward(&self, rest: &mut PairList, x: u8, a: u8)
        ensures { follows_from rest.new ≡ put_some 32 (follows_from rest.old) (onward a x (items self.now.pairs)) }
    {
        for pair in self.pairs.as_slice() {
            let (from, y) = *pair;
            rest.store_if(from == a, x, y);
        }
    }

    /// Puts each step that a stored pair leads from to `a` before each that one leads to from `a`, in `rest`.
    fn keep_through(&self, rest: &mut PairList, a: u8)
        ensures { follows_from rest.new ≡ put_some 32 (follows_from rest.old) (through a (items self.now.pairs) (items self.now.pairs)) }
    {
        for pair in self.pairs.as_slice() {
            let (x, to) = *pair;
            if to == a {
                self.keep_onward(rest, x, a);
            }
        }
    }
}

impl Keeper for PairList {
    const CAPACITY: u8 = 32;

    ghost CAPACITY = { 32 };

    ghost before = { λ k. follows_from k };

    ghost few = { (lit≤ tt, lit≤ tt) };

    ghost never_itself = { λ k. (list_order k).strict.never_itself };

    ghost passes_on = { λ k. (list_order k).strict.passes_on };

    ghost within = { λ k. (list_order k).within };

    fn new() -> PairList {
        PairList {
            pairs: Fixed::new((0, 0)),
        }
    }

    fn before(&self, a: u8, b: u8) -> bool {
        self.follows(a, b)
    }

    fn put(&mut self, a: u8, b: u8) -> Result<(), Refused> {
        self.store(a, b)
    }

    fn drop_step(&mut self, a: u8) {
        let mut rest = PairList::new();
        self.keep_others(&mut rest, a);
        self.keep_through(&mut rest, a);
        *self = rest;
    }

    fn copied(&self) -> PairList {
        *self
    }
}
