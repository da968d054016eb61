// The decimal text of a double, written from its last digit to its first.
ghost use Rattle.std.specs.Prelude.{◌≡◌, [], ◌∷◌, ◌≤◌, ◌<◌, ◌-◌, drop, MatchOption};
ghost use Rattle.decimals.specs.Decimal.{last_digits, digits, pointed, count_text, decimal_text};
ghost use Rattle.decimals.specs.Places.{in_sixteen, Before};

use super::count::{nearest_count, power_of_ten};
use arithmetic::double::Parts;
use arithmetic::nearest::take_apart;

// The last `len` of the bytes are the text and the others are blanks. A text of more than sixteen bytes
// has a `len` of seventeen, and blanks only.
#[derive(Clone, Copy)]
pub struct DecimalText {
    pub bytes: [u8; 16],
    pub len: usize,
}

impl DecimalText {
    // The text without the blanks before it, or nothing where it is too long.
    pub fn as_bytes(&self) -> Option<&[u8]>
        ensures { MatchOption result (16 < self.now.len) (λ text. (self.now.len ≤ 16) × (text.now ≡ drop (16 - self.now.len) self.now.bytes)) }
    {
        let start = 16_usize.checked_sub(self.len)?;
        Some(&self.bytes[start..])
    }

    #[tactic(auto, unfolding(crate::specs::Places::in_sixteen))]
    fn empty() -> DecimalText
        ensures { result ≡ in_sixteen [] }
    {
        DecimalText {
            bytes: [b' '; 16],
            len: 0,
        }
    }

    fn with_byte(self, b: u8) -> DecimalText
        ensures { Before self (b ∷ []) result }
    {
        let len = self.len;
        if len < 16 {
            let mut longer = self;
            longer.bytes[15 - len] = b;
            longer.len = len + 1;
            return longer;
        }
        DecimalText {
            bytes: [b' '; 16],
            len: 17,
        }
    }

    // The last `count` digits of n before the text.
    fn with_last_digits(self, n: u64, count: u32) -> DecimalText
        ensures { Before self (last_digits count n) result }
    {
        let mut longer = self;
        let mut rest = n;
        for _ in 0..count {
            longer = longer.with_byte(b'0' + (rest % 10) as u8);
            rest /= 10;
        }
        longer
    }

    // All digits of n before the text.
    fn with_digits(self, n: u64) -> DecimalText
        ensures { Before self (digits n) result }
    {
        let mut longer = self;
        let mut rest = n;
        while rest >= 10 {
            longer = longer.with_byte(b'0' + (rest % 10) as u8);
            rest /= 10;
        }
        longer.with_byte(b'0' + rest as u8)
    }
}

fn decimals_text(n: u64, decimals: u32) -> DecimalText
    ensures { result ≡ in_sixteen (pointed decimals n) }
{
    if decimals == 0 {
        return DecimalText::empty();
    }
    DecimalText::empty()
        .with_last_digits(n, decimals)
        .with_byte(b'.')
}

// n / 10^decimals, with its sign where it is not zero.
fn count_text(negative: bool, n: u64, decimals: u32) -> DecimalText
    requires { decimals ≤ 15 }
    ensures { result ≡ in_sixteen (count_text decimals negative n) }
{
    let size = decimals_text(n, decimals).with_digits(n / power_of_ten(decimals));
    if negative && n > 0 {
        return size.with_byte(b'-');
    }
    size
}

fn text_of(x: f64, decimals: u32) -> DecimalText
    requires { decimals ≤ 15 }
    ensures { result ≡ in_sixteen (decimal_text decimals x) }
{
    match take_apart(x) {
        Parts::NotANumber | Parts::Infinite(_) => DecimalText::empty(),
        Parts::Zero(negative) => count_text(negative, 0, decimals),
        Parts::Finite(negative, q, k) => {
            count_text(
                negative,
                nearest_count(q, k, power_of_ten(decimals)),
                decimals,
            )
        }
    }
}

// The text of x with so many decimals, in sixteen places. With fifteen decimals or more no number's
// text fits them; what is not finite has no text.
pub fn decimal_text(x: f64, decimals: u32) -> DecimalText
    ensures { result ≡ in_sixteen (decimal_text decimals x) }
{
    text_of(x, decimals.min(15))
}
