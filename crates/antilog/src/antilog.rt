// The antilog: 2 to the power of a word, by repeated square roots, as the nearest double.
ghost use Rattle.std.specs.Prelude.{◌≡◌, ℕ, ◌-◌, ◌^◌, ◌≤◌, ◌<◌, pos, ◌-ℤ◌, IfSome};
ghost use Rattle.arithmetic.specs.Whole.{floor_div, floor_mod, word_value};
ghost use Rattle.arithmetic.specs.Nearest.{nearest_scaled};
ghost use Rattle.antilog.specs.Antilog.{antilog_root, later_roots, antilog};
ghost use Rattle.antilog.specs.Among.{AntilogAmong, ScaledAmong};
ghost use Rattle.arithmetic.specs.Places.{places};

use crate::estimate::{estimate, moved};
use arithmetic::nearest::nearest_scaled;
use arithmetic::word::{ONES, PLACES, WHOLE, Word};
use roots::quick::{Tables, quick_root};
use roots::reciprocal_table::reciprocal_table;
use roots::root_table::root_table;

// What the roots from a place on make of y, one for each bit that is left, lowest first. The radicand,
// y * 2^62 or y * 2^63, has from 125 to 126 bits.
fn later_roots(start: u64, first: u32, bits: u64, tables: Tables) -> u64
    requires { (first ≤ places) × (bits < 2 ^ (places - first)) }
    ensures { result ≡ later_roots (places - first) start bits }
{
    let mut y = start;
    let mut rest = bits;
    for _ in first..PLACES {
        let bit = rest % 2;
        y = quick_root(u128::from(y) << (62 + bit), tables);
        rest /= 2;
    }
    y
}

// The double that every y * 2^scale from the least y to the most is nearest to, where both ends round
// alike.
fn alike(least: u64, most: u64, scale: i64) -> Option<f64>
    ensures { IfSome result (λ double. (y : ℕ) → least ≤ y → y ≤ most → double ≡ nearest_scaled y scale) }
{
    let low = nearest_scaled(least, scale);
    let high = nearest_scaled(most, scale);
    (high <= low).then_some(low)
}

// The root for a fraction of 60 bits, times 2 to the power `scale`.
#[derive(Clone, Copy)]
struct ScaledRoot {
    fraction: u64,
    scale: i64,
    ghost below_one: { fraction < 2 ^ places },
}

impl ScaledRoot {
    // 2 to the power w: the digits below the point give the root, and those above it the scale, the root
    // being in units of 2^-62.
    fn of(w: Word) -> Self
        ensures fraction { result.fraction ≡ floor_mod (word_value places w) (2 ^ places) }
        ensures scale { result.scale ≡ floor_div (word_value places w) (2 ^ places) -ℤ pos 62 }
    {
        let whole = (w.whole as u64 + w.part / WHOLE) as i64;
        let part = w.part % WHOLE;
        if w.negative {
            ScaledRoot {
                fraction: ONES - part,
                scale: -whole - 63,
            }
        } else {
            ScaledRoot {
                fraction: part,
                scale: whole - 62,
            }
        }
    }

    // The nearest double, by the roots. The first 54 are estimated, and the last six are taken of both
    // ends of what they can be: each root halves the distance, so that the ends mostly round alike. All
    // sixty are taken only where they do not.
    fn nearest_by_roots(self) -> f64
        ensures { result ≡ nearest_scaled (antilog_root places self.fraction) self.scale }
    {
        let roots = root_table();
        let reciprocals = reciprocal_table();
        let tables = Tables {
            roots: &roots,
            reciprocals: &reciprocals,
        };
        let early = estimate(self.fraction % 0x40_0000_0000_0000 * 64) / 2;
        let last = self.fraction / 0x40_0000_0000_0000;
        let least = later_roots(early - 3, 54, last, tables);
        let most = later_roots(early + 2, 54, last, tables);
        if let Some(double) = alike(least, most, self.scale) {
            return double;
        }
        let y = later_roots(0x4000_0000_0000_0000, 0, self.fraction, tables);
        nearest_scaled(y, self.scale)
    }

    // The nearest double. Half the estimate of the root is at most 3 above it and at most 2 below it, and
    // of these bits the double keeps all but ten: where both ends round alike, as they mostly do, so does
    // the root, and only else are roots taken.
    fn nearest(self) -> f64
        ensures { result ≡ nearest_scaled (antilog_root places self.fraction) self.scale }
    {
        let half = estimate(self.fraction) / 2;
        let least = half - 3;
        let most = half + 2;
        alike(least, most, self.scale).unwrap_or_else(|| self.nearest_by_roots())
    }

    // The nearest double of the fractions to n more, where it is known to be one: the estimate for the
    // fraction and, moved by n, that for n more enclose all their roots.
    fn nearest_among(self, n: u64) -> Option<f64>
        ensures { ScaledAmong self.fraction n self.scale result }
    {
        if n >= 0x1000_0000 || self.fraction + n >= WHOLE {
            return None;
        }
        let a = estimate(self.fraction);
        let from = a / 2 - 3;
        let to = moved(a, n) / 2 + 3;
        alike(from, to, self.scale)
    }
}

// 2 to the power w, w being in units of 2^-60.
pub fn antilog(w: Word) -> f64
    ensures { result ≡ antilog places (word_value places w) }
{
    ScaledRoot::of(w).nearest()
}

// 2 to the power w, and of each word to n more, where they are known to be one double.
pub fn antilog_among(w: Word, n: u64) -> Option<f64>
    ensures { AntilogAmong (word_value places w) n result }
{
    ScaledRoot::of(w).nearest_among(n)
}
