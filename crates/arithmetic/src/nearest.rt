// Doubles and whole numbers: a double taken apart into a whole number and a power of two, and the
// double nearest to a whole number times a power of two.
ghost use Rattle.std.specs.Prelude.{◌≡◌, ◌+◌, ◌*◌, ◌^◌, ◌<◌, ◌≤◌, false, pos};
ghost use Prim.Native.Nat.{compare};
ghost use Rattle.std.specs.Float.{binary64};
ghost use Rattle.std.specs.Float.Ieee.{round, nearest};
ghost use Rattle.std.specs.Float.Ieee.Nearest.{closest};
ghost use Rattle.arithmetic.specs.Nearest.{nearest_scaled, nearest_ratio};
ghost use Rattle.arithmetic.specs.Normalised.{IsNormalised};
ghost use Rattle.arithmetic.specs.Parts.{parts_of, TakenApart};
ghost use Rattle.arithmetic.specs.Places.{places};

use crate::double::Parts;
use crate::word::{PLACES, WHOLE};

const DIGITS: u64 = PLACES as u64;

// The kind of x and its parts. The sign, the exponent's field and the digits' field of x's bit pattern
// say which kind it is. A field of 0 has no leading digit, and counts as a field of 1.
pub fn take_apart(x: f64) -> Parts
    ensures value { result ≡ parts_of x }
    ensures apart { TakenApart x result }
{
    if x.is_nan() {
        return Parts::NotANumber;
    }
    let b = x.to_bits();
    let negative = b >= 0x8000_0000_0000_0000;
    let field = b % 0x8000_0000_0000_0000 / 0x10_0000_0000_0000;
    let fraction = b % 0x10_0000_0000_0000;
    if field == 0x7FF {
        return Parts::Infinite(negative);
    }
    if field == 0 {
        if fraction == 0 {
            return Parts::Zero(negative);
        }
        return Parts::Finite(negative, fraction, 0);
    }
    Parts::Finite(negative, 0x10_0000_0000_0000 + fraction, (field - 1) as u32)
}

// The whole number nearest to quotient + above / unit, a tie to the even one.
fn nearer(quotient: u64, above: u64, unit: u64) -> u64
    requires { (above < unit) × (quotient + above < 2 ^ 64) }
    ensures { result ≡ nearest quotient (compare (above * 2) unit) }
{
    // how far it is to the next whole number
    let below = unit - above;
    if above < below {
        return quotient;
    }
    if above > below {
        return quotient + 1;
    }
    quotient + quotient % 2
}

// y / 2^d to the nearest whole number, a tie to the even one.
fn rounded(y: u64, d: u64) -> u64
    ensures { result ≡ closest y (2 ^ d) }
{
    if d > 64 {
        return 0;
    }
    if d == 64 {
        if y > 0x8000_0000_0000_0000 {
            return 1;
        }
        return 0;
    }
    let unit = 1u64 << d;
    nearer(y / unit, y % unit, unit)
}

// m * 2^1085 as `digits` * 2^`places`, with 64 digits.
#[derive(Clone, Copy)]
struct Normalised {
    digits: u64,
    places: u64,
}

fn normalise(m: u64) -> Normalised
    requires { 0 < m }
    ensures { IsNormalised m result }
{
    let z = m.leading_zeros() as u64;
    Normalised {
        digits: m << z,
        places: 1085 - z,
    }
}

// The double nearest to y * 2^d / 2^1085, for a y of 64 digits. It is 2^-1022 or more, so 53 digits
// are kept and 11 dropped. The exponent's field is d, and one more by the leading digit, or two by
// a carry of the rounding, which can reach the infinity's.
fn normal(y: u64, d: u64) -> f64
    requires bound { 2 ^ 63 ≤ y }
    requires d_bound { d ≤ 2045 }
    ensures { result ≡ round binary64 false (y * 2 ^ d) (2 ^ 1085) }
{
    f64::from_bits(d * 0x10_0000_0000_0000 + rounded(y, 11))
}

// The double nearest to m * 2^k.
pub fn nearest_product(m: u64, k: u64) -> f64
    ensures { result ≡ nearest_scaled m (pos k) }
{
    if m == 0 {
        return 0.0;
    }
    let n = normalise(m);
    if k > 2045 - n.places {
        return f64::from_bits(0x7FF0_0000_0000_0000);
    }
    normal(n.digits, k + n.places)
}

// The double nearest to m / 2^k. Below 2^-1022 it is a whole number of the smallest doubles, 2^-1074.
pub fn nearest_quotient(m: u64, k: u64) -> f64
    ensures { result ≡ nearest_ratio (pos m) (2 ^ k) }
{
    if m == 0 {
        return 0.0;
    }
    let n = normalise(m);
    if k <= n.places {
        return normal(n.digits, n.places - k);
    }
    f64::from_bits(rounded(n.digits, 11 + (k - n.places)))
}

// The double nearest to n / 2^k. Where n has more than 64 digits, 53 are kept and the other `dropped`
// ones lie in the low word.
fn nearest_wide_quotient(n: u128, k: u64) -> f64
    requires { (n < 2 ^ 116) × (k ≤ 1085) }
    ensures { result ≡ nearest_ratio (pos n) (2 ^ k) }
{
    let low = (n % 0x1_0000_0000_0000_0000) as u64;
    if n < 0x1_0000_0000_0000_0000 {
        return nearest_quotient(low, k);
    }
    let dropped = 75 - n.leading_zeros();
    let unit = 1u64 << dropped;
    let kept = nearer((n >> dropped) as u64, low % unit, unit);
    f64::from_bits((1074 + dropped as u64 - k) * 0x10_0000_0000_0000 + kept)
}

// The double nearest to whole + part / 2^60. The two together can pass 64 bits.
pub fn nearest_to_digits(whole: u32, part: u64) -> f64
    ensures { result ≡ nearest_ratio (pos (whole * 2 ^ places + part)) (2 ^ places) }
{
    let digits = u128::from(whole) * u128::from(WHOLE) + u128::from(part);
    nearest_wide_quotient(digits, DIGITS)
}

// The double nearest to m * 2^e.
pub fn nearest_scaled(m: u64, e: i64) -> f64
    ensures { result ≡ nearest_scaled m e }
{
    if e >= 0 {
        return nearest_product(m, e as u64);
    }
    nearest_quotient(m, (-(e + 1)) as u64 + 1)
}
