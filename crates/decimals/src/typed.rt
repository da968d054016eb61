// Decimals as they are typed, read as counts of their last decimal.
ghost use Rattle.std.specs.Prelude.{◌≡◌, ◌-◌, ◌≤◌, min, length};
ghost use Rattle.decimals.specs.Typed.{digits_in, number_from, scaled_to, in_counts, with_decimals, after_sign, typed};

use crate::count::power_of_ten;
use thousandths::signed_count;

// Why a text has no count.
#[derive(Clone, Copy, Debug, PartialEq, Eq)]
pub enum NotACount {
    NotANumber,
    TooManyDecimals,
    OutOfRange,
}

// more than any count
const TOO_MANY: u64 = 4294967296;

// The number that a digit stands for.
fn digit(byte: u8) -> u64
    ensures { result ≡ byte - 48 }
{
    u64::from(byte.saturating_sub(b'0'))
}

// How many digits the text begins with.
fn digits_in(text: &[u8]) -> usize
    ensures { result ≡ digits_in text.now }
{
    text.iter()
        .position(|byte| !byte.is_ascii_digit())
        .unwrap_or(text.len())
}

// The number that the digits of `number` with these after them spell, and TOO_MANY where it is no less.
fn number_from(number: u64, digits: &[u8]) -> u64
    requires { number ≤ 4294967296 }
    ensures { result ≡ min (number_from number digits.now) 4294967296 }
{
    let mut value = number;
    for &byte in digits {
        value = (value * 10 + digit(byte)).min(TOO_MANY);
    }
    value
}

fn in_counts(negative: bool, size: u64) -> Result<i32, NotACount>
    ensures { result ≡ in_counts negative size }
{
    signed_count(negative, size).ok_or(NotACount::OutOfRange)
}

// How many decimals a text may have.
#[derive(Clone, Copy)]
struct Precision {
    places: usize,
    ghost few: { places ≤ 4 },
}

impl Precision {
    // A count of units of the last decimal.
    fn from_digits(self, negative: bool, whole: &[u8], decimals: &[u8]) -> Result<i32, NotACount>
        requires { length decimals.now ≤ self.places }
        ensures { result ≡ in_counts negative (scaled_to self.places whole.now decimals.now) }
    {
        let size = number_from(number_from(0, whole), decimals);
        in_counts(
            negative,
            size * power_of_ten((self.places - decimals.len()) as u32),
        )
    }

    // The digits before the point, and what follows it.
    fn with_decimals(self, negative: bool, whole: &[u8], decimals: &[u8]) -> Result<i32, NotACount>
        ensures { result ≡ with_decimals self.places negative whole.now decimals.now }
    {
        let n = decimals.len();
        if n == 0 || digits_in(decimals) != n {
            return Err(NotACount::NotANumber);
        }
        if n > self.places {
            return Err(NotACount::TooManyDecimals);
        }
        self.from_digits(negative, whole, decimals)
    }

    // What follows the sign.
    fn after_sign(self, negative: bool, text: &[u8]) -> Result<i32, NotACount>
        ensures { result ≡ after_sign self.places negative text.now }
    {
        let n = digits_in(text);
        if n == 0 {
            return Err(NotACount::NotANumber);
        }
        let (whole, rest) = text.split_at(n);
        match rest {
            [] => self.from_digits(negative, whole, rest),
            [b'.', decimals @ ..] => self.with_decimals(negative, whole, decimals),
            _ => Err(NotACount::NotANumber),
        }
    }

    // A sign or none, and what follows it.
    fn read(self, text: &[u8]) -> Result<i32, NotACount>
        ensures { result ≡ typed self.places text.now }
    {
        match text {
            [] => Err(NotACount::NotANumber),
            [b'-', rest @ ..] => self.after_sign(true, rest),
            [b'+', rest @ ..] => self.after_sign(false, rest),
            _ => self.after_sign(false, text),
        }
    }
}

// The count of a decimal in units of the last of `places` decimals, four at most, or why there is none:
// the text is no decimal, has more decimals than these, or its count is out of the signed 32-bit range.
pub fn read_decimal(text: &[u8], places: usize) -> Result<i32, NotACount>
    ensures value { result ≡ typed (min places 4) text.now }
    ensures kept { text.now ≡ text.now }
{
    let precision = Precision {
        places: places.min(4),
    };
    precision.read(text)
}
