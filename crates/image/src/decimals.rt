// Decimals and pairs. A reader is lent a part of a line: what stands behind its equals sign, or a part of that.
ghost use Rattle.std.specs.Prelude.{◌≡◌};
ghost use Rattle.image.specs.Decimal.{is_plain, digits_on, decimal_of, pair_of};

use crate::scan;

// Whether there is a byte, and the first is no leading zero.
fn is_plain(part: &[u8]) -> bool
    ensures { result ≡ is_plain part.now }
{
    match part {
        [] => false,
        [_] => true,
        [first, ..] => *first != b'0',
    }
}

// The number of these digits, where all are digits and it is below 2 ^ 32. (It is converted at its end, since a conversion at each
// digit was seen to take time.)
fn digits(part: &[u8]) -> Option<u32>
    ensures { result ≡ digits_on 0 part.now }
{
    let mut n = 0u64;
    for byte in part {
        if !byte.is_ascii_digit() {
            return None;
        }
        n = 10 * n + u64::from(*byte - b'0');
        if 4294967295 < n {
            return None;
        }
    }
    u32::try_from(n).ok()
}

// A decimal: digits alone, without a leading zero, below 2 ^ 32.
pub(crate) fn decimal_of(part: &[u8]) -> Option<u32>
    ensures { result ≡ decimal_of part.now }
{
    if is_plain(part) { digits(part) } else { None }
}

// A pair: a decimal before the first comma, and a decimal behind it.
pub(crate) fn pair_of(part: &[u8]) -> Option<(u32, u32)>
    ensures { result ≡ pair_of part.now }
{
    let comma = scan::find(part, b',')?;
    decimal_of(&part[..comma]).zip(decimal_of(&part[comma + 1..]))
}
