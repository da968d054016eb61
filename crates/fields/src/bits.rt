// Doubles and their bit patterns, and what bytes spell: a number, a double.
ghost use Rattle.std.specs.Prelude.{◌≡◌, ◌+◌, ◌^◌, ◌≤◌, ◌<◌, length};
ghost use Rattle.std.specs.Float.{binary64};
ghost use Rattle.std.specs.Float.Ieee.{of_bits, to_bits, is_nan};
ghost use Rattle.fields.specs.Bytes.{number_at, double_at};

// Whether a pattern is a NaN's: it lies above that of an infinity of its sign.
fn is_nan_pattern(bits: u64) -> bool
    ensures { result ≡ is_nan (of_bits binary64 bits) }
{
    bits % 0x8000_0000_0000_0000 > 0x7FF0_0000_0000_0000
}

// The double of a pattern, and the one NaN for each of a NaN's.
pub fn double(bits: u64) -> f64
    ensures { result ≡ of_bits binary64 bits }
{
    if is_nan_pattern(bits) {
        0.0 / 0.0
    } else {
        f64::from_bits(bits)
    }
}

// The pattern of a double, and one pattern for the NaN.
pub fn pattern(x: f64) -> u64
    ensures { result ≡ to_bits binary64 x }
{
    // only a NaN differs from itself
    if x != x {
        0x7FF8_0000_0000_0000
    } else {
        f64::to_bits(x)
    }
}

// The number that `width` bytes spell, the highest first.
pub(crate) fn word_at(bytes: &[u8], at: usize, width: usize) -> u64
    requires { (width ≤ 8) × (at + width ≤ length bytes.now) }
    ensures value { result ≡ number_at bytes.now at width }
    ensures below { result < 256 ^ width }
{
    let mut value = 0;
    for i in 0..width {
        value = value * 256 + u64::from(bytes[at + i]);
    }
    value
}

// The double that eight bytes spell.
pub(crate) fn double_at(bytes: &[u8], at: usize) -> f64
    requires { at + 8 ≤ length bytes.now }
    ensures { result ≡ double_at bytes.now at }
{
    double(word_at(bytes, at, 8))
}
