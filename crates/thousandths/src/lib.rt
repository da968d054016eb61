// Signed counts of thousandths: the count of a four-byte word and back, the double of a count, and the
// count of a double, if it has one.
#![tactic(auto)]

ghost use Rattle.std.specs.Prelude.{◌≡◌, ◌*◌, ◌^◌, ◌<◌};
ghost use Rattle.arithmetic.specs.Whole.{signed};
ghost use Rattle.thousandths.specs.Thousandths.{count_of, twos_complement, thousandths, nearest_whole, counted, if_exact, count_for};

// The count that a word stands for by two's complement.
fn count_from(word: u32) -> i32
    ensures { result ≡ count_of word }
{
    word.cast_signed()
}

// The word of a count by two's complement.
pub fn word_from(count: i32) -> u32
    ensures { result ≡ twos_complement count }
{
    count.cast_unsigned()
}

// The double nearest to count / 1000.
fn double_of(count: i32) -> f64
    ensures { result ≡ thousandths count }
{
    f64::from(count) / 1000.0
}

// The double that the count of a word means.
pub fn double_of_word(word: u32) -> f64
    ensures { result ≡ thousandths (count_of word) }
{
    double_of(count_from(word))
}

// The whole number nearest to 1000 * digits / 2^places, a half up.
fn nearest_count(digits: u64, places: u64) -> u64
    requires { (digits < 2 ^ 53) × ((0 < places) × (places < 64)) }
    ensures { result ≡ nearest_whole (digits * 1000) (2 ^ places) }
{
    let unit = 1u64 << places;
    (digits * 1000 + unit / 2) / unit
}

// The count of a size with a sign, if it is in range.
pub fn signed_count(negative: bool, size: u64) -> Option<i32>
    ensures { result ≡ counted (signed negative size) }
{
    let size = i128::from(size);
    i32::try_from(if negative { -size } else { size }).ok()
}

// A count, if its double has the pattern.
fn tried(pattern: u64, count: Option<i32>) -> Option<i32>
    ensures { result ≡ if_exact pattern count }
{
    let n = count?;
    (double_of(n).to_bits() == pattern).then_some(n)
}

// The count whose double is x, bit for bit. The exponent's field of x's pattern says how many binary
// places its digits have: from 1012 to 1044 they are 63 to 31. Below that 1000 * x is less than a half
// in size, and above it more than any count.
pub fn count_of(x: f64) -> Option<i32>
    ensures { result ≡ count_for x }
{
    if x.is_nan() {
        return None;
    }
    let pattern = x.to_bits();
    let field = pattern % 0x8000_0000_0000_0000 / 0x10_0000_0000_0000;
    if field >= 1045 {
        return None;
    }
    let negative = pattern >= 0x8000_0000_0000_0000;
    if field < 1012 {
        return tried(pattern, signed_count(negative, 0));
    }
    let digits = 0x10_0000_0000_0000 + pattern % 0x10_0000_0000_0000;
    tried(
        pattern,
        signed_count(negative, nearest_count(digits, 1075 - field)),
    )
}
