// A number of two 64-bit words, `hi` * 2^64 + `lo`, and its arithmetic.
ghost use Rattle.std.specs.Prelude.{◌≡◌, ◌+◌, ◌*◌, ◌/◌, ◌%◌, ◌^◌, nat_le};
ghost use Rattle.arithmetic.specs.Value.{value};

// In order by value, since `hi` comes first.
#[derive(Clone, Copy, Debug, PartialEq, Eq, PartialOrd, Ord)]
pub struct Wide {
    pub hi: u64,
    pub lo: u64,
}

// 2^64, the base of the two words
const WORD: u128 = 1 << 64;

impl From<u128> for Wide {
    ghost from_gives = { λ n w. value w ≡ n };

    fn from(n: u128) -> Self {
        Wide {
            hi: (n / WORD) as u64,
            lo: (n % WORD) as u64,
        }
    }
}

impl From<Wide> for u128 {
    ghost from_gives = { λ w n. n ≡ value w };

    fn from(w: Wide) -> Self {
        u128::from(w.hi) * WORD + u128::from(w.lo)
    }
}

// The product of two words.
pub fn product(a: u64, b: u64) -> Wide
    ensures { value result ≡ a * b }
{
    Wide::from(u128::from(a) * u128::from(b))
}

// A number modulo 2^128, and how often 2^128 was carried out of it.
#[derive(Clone, Copy, Debug, PartialEq, Eq)]
pub struct Carried {
    pub carry: u64,
    pub word: Wide,
}

// The sum of two numbers.
pub fn sum(a: Wide, b: Wide) -> Carried
    ensures { value result.word + result.carry * 2 ^ 128 ≡ value a + value b }
{
    let (lo, low_carry) = a.lo.carrying_add(b.lo, false);
    let (hi, carry) = a.hi.carrying_add(b.hi, low_carry);
    Carried {
        carry: u64::from(carry),
        word: Wide { hi, lo },
    }
}

// A number shifted left by any count of places, without what leaves the 128 bits.
pub fn shifted_left(a: Wide, k: u32) -> Wide
    ensures { value result ≡ (value a * 2 ^ k) % 2 ^ 128 }
{
    if k < 128 {
        Wide::from(u128::from(a) << k)
    } else {
        Wide { hi: 0, lo: 0 }
    }
}

// A number shifted right by any count of places.
pub fn shifted_right(a: Wide, k: u32) -> Wide
    ensures { value result ≡ value a / 2 ^ k }
{
    if k < 128 {
        Wide::from(u128::from(a) >> k)
    } else {
        Wide { hi: 0, lo: 0 }
    }
}

// Whether a is at most b.
pub fn at_most(a: Wide, b: Wide) -> bool
    ensures { result ≡ nat_le (value a) (value b) }
{
    a <= b
}
