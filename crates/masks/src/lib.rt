//! Masks: a number of 64 bits as a set of the numbers below 64.
#![tactic(auto)]

ghost use Rattle.std.specs.Prelude.{◌≡◌, ◌^◌, ◌<◌, true};
ghost use Rattle.std.specs.Int.Count.{count_trailing_zeros};
ghost use Rattle.masks.specs.Bits.{bit};

/// Whether the mask has `b`.
pub fn marked(mask: u64, b: u8) -> bool
    requires { b < 64 }
    ensures { result ≡ bit mask b }
{
    mask >> b & 1 == 1
}

/// The mask of `b` alone.
pub fn only(b: u8) -> u64
    requires { b < 64 }
    ensures { result ≡ 2 ^ b }
{
    1u64 << b
}

/// The lowest number of the mask.
pub fn lowest(mask: u64) -> u8
    requires { 0 < mask }
    ensures is { result ≡ count_trailing_zeros 64 mask }
    ensures low { result < 64 }
    ensures has { bit mask result ≡ true }
{
    mask.trailing_zeros() as u8
}
