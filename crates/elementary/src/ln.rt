// The natural logarithm of a double.
ghost use Rattle.std.specs.Prelude.{◌≡◌, ◌+◌, ◌^◌, ◌<◌, false};
ghost use Rattle.std.specs.Float.Ieee.{odd};
ghost use Rattle.arithmetic.specs.Whole.{word_value};
ghost use Rattle.arithmetic.specs.Nearest.{nearest_ratio};
ghost use Rattle.elementary.specs.Ln.{ln_positive, ln};
ghost use Rattle.arithmetic.specs.Places.{places};

use super::log::Units;
use super::multiples::times;
use arithmetic::double::Parts;
use arithmetic::nearest::{nearest_to_digits, take_apart};
use arithmetic::word::Word;

// ln 2, times 2^62
const LN_2: u64 = 0x2c5c_85fd_f473_de6a;

// The double nearest to w / 2^60.
fn nearest_to_word(w: Word) -> f64
    requires { (w.whole < 2 ^ 11) × (w.part < 2 ^ places) }
    ensures { result ≡ nearest_ratio (word_value places w) (2 ^ places) }
{
    if w.negative {
        -nearest_to_digits(w.whole, w.part + 1)
    } else {
        nearest_to_digits(w.whole, w.part)
    }
}

// The logarithm of a positive double, by its units.
fn positive_ln(units: Units) -> f64
    ensures { result ≡ ln_positive places (odd 53 false units.q units.k 1074) }
{
    nearest_to_word(times(units.log(), LN_2, 62))
}

// The natural logarithm, by the whole-number rule.
pub fn ln(x: f64) -> f64
    ensures { result ≡ ln places x }
{
    match take_apart(x) {
        Parts::NotANumber => x,
        Parts::Infinite(false) => x,
        Parts::Infinite(true) => 0.0 / 0.0,
        Parts::Zero(_) => f64::from_bits(0xFFF0_0000_0000_0000),
        Parts::Finite(false, q, k) => positive_ln(Units { q, k }),
        Parts::Finite(true, _, _) => 0.0 / 0.0,
    }
}
