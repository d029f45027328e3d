ghost use Rattle.std.specs.Prelude.{◌≡◌, if◌then◌else◌, Some, None};
ghost use Rattle.line.specs.Numbers.{is_number, value};

/// The number that a field of any length writes, if it is a decimal number from 0 to 255 without leading zeros.
// Not inlined: hardly a field comes here, and the others stay short.
#[inline(never)]
fn number_by_parse(text: &[u8]) -> Option<u8>
    ensures { result ≡ (if is_number text.now then Some (value text.now) else None) }
{
    match text {
        // `parse` would take a plus sign and leading zeros
        [b'+', ..] | [b'0', _, ..] => None,
        _ => str::from_utf8(text).ok()?.parse().ok(),
    }
}

/// The number that a field writes, if it is a decimal number from 0 to 255 without leading zeros.
pub(super) fn number(text: &[u8]) -> Option<u8>
    ensures { result ≡ (if is_number text.now then Some (value text.now) else None) }
{
    match text {
        // A number that names something has one digit or two, and `parse` reads these at more than twice the cost.
        [ones @ b'0'..=b'9'] => Some(ones - b'0'),
        [tens @ b'1'..=b'9', ones @ b'0'..=b'9'] => Some((tens - b'0') * 10 + (ones - b'0')),
        _ => number_by_parse(text),
    }
}
