// The exponential of a double.
ghost use Rattle.std.specs.Prelude.{◌≡◌, ◌*◌, ◌^◌, ◌<◌, false};
ghost use Rattle.arithmetic.specs.Whole.{signed, floor_div, as_word};
ghost use Rattle.elementary.specs.Exp.{exp};
ghost use Rattle.arithmetic.specs.Places.{places};

use super::log::Units;
use super::multiples::times;
use super::power::infinity_or_zero;
use antilog::antilog::antilog;
use arithmetic::double::Parts;
use arithmetic::nearest::take_apart;
use arithmetic::wide::{Wide, shifted_right};
use arithmetic::word::{PLACES, WHOLE, Word};

// 1 / ln 2, times 2^62
const LOG2_E: u64 = 0x5c55_1d94_ae0b_f85d;

// q * 2^64 / 2^(MOVED - k) is q * 2^k units of 2^-1074, counted in units of the last place
const MOVED: u32 = 1138 - PLACES;

// floor(x * 2^60), for an x of these units with its sign, below 2^11 in size: the floor of
// q * 2^64 / 2^(MOVED - k). Where x is negative, its digits are those of the number one below.
fn floor_word(negative: bool, units: Units) -> Word
    requires { units.q * 2 ^ units.k < 2 ^ 1085 }
    ensures { (result ≡ as_word places (floor_div (signed negative (units.q * 2 ^ units.k * 2 ^ places)) (2 ^ 1074))) × (result.whole < 2 ^ 11) }
{
    let digits = if negative {
        Wide {
            hi: units.q - 1,
            lo: 0xffff_ffff_ffff_ffff,
        }
    } else {
        Wide { hi: units.q, lo: 0 }
    };
    let moved = shifted_right(digits, MOVED - units.k);
    Word {
        negative,
        whole: shifted_right(moved, PLACES).lo as u32,
        part: moved.lo % WHOLE,
    }
}

// e to the power x, by the whole-number rule.
pub fn exp(x: f64) -> f64
    ensures { result ≡ exp places x }
{
    match take_apart(x) {
        Parts::NotANumber => x,
        Parts::Infinite(negative) => infinity_or_zero(negative),
        Parts::Zero(_) => 1.0,
        Parts::Finite(..) if x >= 1024.0 => infinity_or_zero(false),
        Parts::Finite(..) if x <= -1100.0 => infinity_or_zero(true),
        Parts::Finite(negative, q, k) => {
            antilog(times(floor_word(negative, Units { q, k }), LOG2_E, 62))
        }
    }
}
