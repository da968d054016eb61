// A double to the power of one of the source's exponents, which are picked by their numbers.
ghost use Rattle.std.specs.Prelude.{◌≡◌, ◌*◌, ◌^◌, ◌<◌, false, [], ◌∷◌, pos, IfSome};
ghost use Rattle.std.specs.Float.{inf, fin};
ghost use Rattle.std.specs.Float.Ieee.{odd};
ghost use Rattle.antilog.specs.Log.{mantissa_of};
ghost use Rattle.antilog.specs.Among.{WithinTwo};
ghost use Rattle.elementary.specs.Base.{Neared, IsBase};
ghost use Rattle.elementary.specs.Exponents.{exponent_at};
ghost use Rattle.elementary.specs.Power.{infinity_or_zero, positive_power, power, power_at};
ghost use Rattle.arithmetic.specs.Places.{places};

use super::guess::near_bits;
use super::log::Units;
use super::multiples::{opposite, times};
use antilog::antilog::{antilog, antilog_among};
use arithmetic::double::Parts;
use arithmetic::nearest::take_apart;

// The exponents' magnitudes times 2^58, and which exponents are negative, by their numbers in
// specs/Exponents.
const MAGNITUDES: [u64; 27] = [
    0x1506_0440_f093_5100,
    0x88a7_1ba6_1bbd_8800,
    0x30cd_f796_c0c3_b400,
    0x30cd_f796_c0c3_b400,
    0x4453_8dd3_0dde_c400,
    0x00c2_d45e_e80a_e9d0,
    0x00c2_d45e_e80a_e9c8,
    0x001d_f949_ad8b_866f,
    0x0053_ed34_b2b9_decc,
    0x0053_ed34_b2b9_decc,
    0x003b_f293_5b17_0cde,
    0x00c2_d9cf_13ce_e9e0,
    0x1505_6e0b_7be5_8b00,
    0x1106_0440_f093_5100,
    0x00f0_9bc9_0c53_0160,
    0x8ca7_1ba6_1bbd_8800,
    0x34cd_f796_c0c3_b400,
    0x2ccd_f796_c0c3_b400,
    0x001d_1f11_8807_84a7,
    0x004d_91ad_e4fb_8114,
    0x005b_6b55_255e_3b68,
    0x003f_acde_b457_bdea,
    0x0600_0000_0000_0000,
    0x0c00_0000_0000_0000,
    0x0e00_0000_0000_0000,
    0x1000_0000_0000_0000,
    0x1e00_0000_0000_0000,
];

const NEGATIVE: [bool; 27] = [
    false, true, true, false, false, false, false, true, true, false, false, false, false, false,
    false, true, true, false, true, true, false, false, false, false, false, false, false,
];

// the numbers of the exponents 3 and 4
const THREE: usize = 23;

const FOUR: usize = 25;

// Infinity, or +0 where zero is true.
pub(crate) fn infinity_or_zero(zero: bool) -> f64
    ensures { result ≡ infinity_or_zero zero }
{
    if zero {
        0.0
    } else {
        f64::from_bits(0x7FF0_0000_0000_0000)
    }
}

fn magnitude(number: usize) -> u64
    requires { number < 27 }
    ensures { result ≡ (exponent_at number).magnitude }
{
    MAGNITUDES[number]
}

fn is_negative(number: usize) -> bool
    requires { number < 27 }
    ensures { result ≡ (exponent_at number).negative }
{
    NEGATIVE[number]
}

// A positive finite base, by its units: the antilog of floor(L * exponent), L being its log word.
fn squared_power(units: Units, number: usize) -> f64
    requires { number < 27 }
    ensures { result ≡ positive_power places (exponent_at number) (odd 53 false units.q units.k 1074) }
{
    let log = units.log();
    let word = if is_negative(number) {
        opposite(log)
    } else {
        log
    };
    antilog(times(word, magnitude(number), 58))
}

// The same, where the bits near those of its logarithm decide it.
fn near_power(units: Units, bits: u64, number: usize) -> Option<f64>
    requires bits { WithinTwo (mantissa_of (units.q * 2 ^ units.k)) bits }
    requires number_bound { number < 27 }
    ensures { IfSome result (λ value. value ≡ positive_power places (exponent_at number) (odd 53 false units.q units.k 1074)) }
{
    let least = if is_negative(number) {
        opposite(units.word_with(bits + 2))
    } else {
        units.word_with(bits)
    };
    let factor = magnitude(number);
    antilog_among(times(least, factor, 58), (factor >> 57) + 1)
}

// The same: sixty squarings are taken only where the bits, guessed and checked, leave the power open.
fn positive_power(units: Units, near: Option<u64>, number: usize) -> f64
    requires near { Neared units.q units.k near }
    requires number_bound { number < 27 }
    ensures { result ≡ positive_power places (exponent_at number) (odd 53 false units.q units.k 1074) }
{
    if let Some(bits) = near
        && let Some(value) = near_power(units, bits, number)
    {
        return value;
    }
    squared_power(units, number)
}

// An infinite base.
fn infinite_power(negative: bool, number: usize) -> f64
    requires { number < 27 }
    ensures { result ≡ power places (exponent_at number) (inf negative) }
{
    if negative && number == THREE {
        return -infinity_or_zero(false);
    }
    infinity_or_zero(is_negative(number))
}

// A base of zero.
fn zero_power(negative: bool, number: usize) -> f64
    requires { number < 27 }
    ensures { result ≡ power places (exponent_at number) (fin negative 0 (pos 0)) }
{
    if negative && number == THREE {
        return -infinity_or_zero(true);
    }
    infinity_or_zero(!is_negative(number))
}

// A finite base that is not zero.
fn finite_power(negative: bool, units: Units, near: Option<u64>, number: usize) -> f64
    requires near { Neared units.q units.k near }
    requires number_bound { number < 27 }
    ensures { result ≡ power places (exponent_at number) (odd 53 negative units.q units.k 1074) }
{
    if !negative {
        return positive_power(units, near, number);
    }
    match number {
        THREE => -positive_power(units, near, number),
        FOUR => positive_power(units, near, number),
        _ => 0.0 / 0.0,
    }
}

// A double taken apart, with the bits near those of its size's logarithm where it is finite and not zero.
#[derive(Clone, Copy)]
struct Base {
    parts: Parts,
    near: Option<u64>,
}

fn base_of(x: f64) -> Base
    ensures { IsBase x result }
{
    let parts = take_apart(x);
    let near = match parts {
        Parts::Finite(_, q, k) => near_bits(Units { q, k }),
        _ => None,
    };
    Base { parts, near }
}

// x to the power of the exponent of that number, x being taken apart.
fn base_power(x: f64, base: Base, number: usize) -> f64
    requires { IsBase x base }
    ensures { result ≡ power_at places number x }
{
    if number >= 27 {
        return 0.0 / 0.0;
    }
    match base.parts {
        Parts::NotANumber => x,
        Parts::Infinite(negative) => infinite_power(negative, number),
        Parts::Zero(negative) => zero_power(negative, number),
        Parts::Finite(negative, q, k) => {
            finite_power(negative, Units { q, k }, base.near, number)
        }
    }
}

// x to the power of the exponent of that number; NaN where there is none.
pub fn power(x: f64, number: usize) -> f64
    ensures { result ≡ power_at places number x }
{
    base_power(x, base_of(x), number)
}

// Five powers of x, by the numbers of their exponents, with one guess.
pub fn five_powers(x: f64, a: usize, b: usize, c: usize, d: usize, e: usize) -> [f64; 5]
    ensures { result ≡ power_at places a x ∷ power_at places b x ∷ power_at places c x ∷ power_at places d x ∷ power_at places e x ∷ [] }
{
    let base = base_of(x);
    // written out, so that each is compiled for its number: `map` made a loop, which took a tenth longer
    [
        base_power(x, base, a),
        base_power(x, base, b),
        base_power(x, base, c),
        base_power(x, base, d),
        base_power(x, base, e),
    ]
}
