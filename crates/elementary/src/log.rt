// The log word: the logarithm to the base 2 of a positive finite double, in units of 2^-60, by
// repeated squaring.
ghost use Rattle.std.specs.Prelude.{◌≡◌, ◌+◌, ◌*◌, ◌/◌, ◌^◌, ◌<◌, ◌≤◌};
ghost use Rattle.arithmetic.specs.Whole.{as_word};
ghost use Rattle.antilog.specs.Log.{log_bits, mantissa_of, word_with, word_of_units, logarithm};
ghost use Rattle.arithmetic.specs.Places.{places};

use arithmetic::double::Parts;
use arithmetic::nearest::take_apart;
use arithmetic::wide::product;
use arithmetic::word::{ONES, PLACES, Word};

// floor(m * m / 2^62): the upper word of the square of 2 m, with nothing to shift.
fn squared(m: u64) -> u64
    requires { m < 2 ^ 63 }
    ensures { result ≡ m * m / 2 ^ 62 }
{
    let twice = 2 * m;
    let square = product(twice, twice);
    square.hi
}

// The 60 bits of the logarithm of m / 2^62, which lies from 1 up to 2. A square of 2 or more gives
// the bit 1 and is halved; it has its highest digit set, so that digit is the bit.
fn log_bits(m: u64) -> u64
    requires { (2 ^ 62 ≤ m) × (m < 2 ^ 63) }
    ensures { result ≡ log_bits places m }
{
    let mut mantissa = m;
    let mut bits = 0u64;
    for _ in 0..PLACES {
        let square = squared(mantissa);
        let bit = square / 0x8000_0000_0000_0000;
        mantissa = square >> bit;
        bits = bits * 2 + bit;
    }
    bits
}

// The size of a finite double that is not zero: q * 2^k units of 2^-1074.
#[derive(Clone, Copy)]
pub(crate) struct Units {
    pub q: u64,
    pub k: u32,
    ghost positive: { 0 < q },
    ghost short: { q < 2 ^ 53 },
    ghost exponent: { k ≤ 2045 },
    ghost full: { 0 < k → 2 ^ 52 ≤ q },
}

impl Units {
    // The mantissa, from 1 to 2, times 2^62.
    pub(crate) fn mantissa(self) -> u64
        ensures value { result ≡ mantissa_of (self.q * 2 ^ self.k) }
        ensures at_least { 2 ^ 62 ≤ result }
        ensures below { result < 2 ^ 63 }
    {
        self.q << (u64::leading_zeros(self.q) - 1)
    }

    // The word with these bits for those of the logarithm.
    pub(crate) fn word_with(self, bits: u64) -> Word
        requires { bits < 2 ^ places }
        ensures { (result ≡ as_word places (word_with places (self.q * 2 ^ self.k) bits)) × (result.whole < 2 ^ 11) }
    {
        let highest = 63 - u64::leading_zeros(self.q) + self.k;
        if 1074 <= highest {
            Word {
                negative: false,
                whole: highest - 1074,
                part: bits,
            }
        } else {
            Word {
                negative: true,
                whole: 1073 - highest,
                part: ONES - bits,
            }
        }
    }

    // The log word.
    pub(crate) fn log(self) -> Word
        ensures { (result ≡ as_word places (word_of_units places (self.q * 2 ^ self.k))) × (result.whole < 2 ^ 11) }
    {
        self.word_with(log_bits(self.mantissa()))
    }
}

// The log word of x, or that it has none: x is not positive and finite.
pub fn log_word(x: f64) -> Option<Word>
    ensures { result ≡ logarithm places x }
{
    match take_apart(x) {
        Parts::Finite(false, q, k) => Some(Units { q, k }.log()),
        Parts::Finite(true, _, _) => None,
        Parts::NotANumber => None,
        Parts::Infinite(_) => None,
        Parts::Zero(_) => None,
    }
}
