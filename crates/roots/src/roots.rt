// The floor of the square root.
ghost use Rattle.std.specs.Prelude.{◌≡◌, suc, ◌+◌, ◌*◌, ◌%◌, ◌^◌, ◌<◌, ◌≤◌};
ghost use Rattle.roots.specs.Root.{root};

// A guess that is no less than the root of n: a step of Newton's iteration from a parabola in n's top
// 16 bits, which for an n of 63 or 64 bits is within 1/190 of the root. Half a word holds every root.
fn guess(n: u64) -> u64
    ensures { (n < suc result * suc result) × (result < 2 ^ 32) }
{
    let x = n >> 48;
    let near = 1_113_600_000 + x * (17_650_000 - 81 * x) / 256;
    ((near + n / near) / 2).min(0xffff_ffff)
}

// The floor of the root of a word. A word of 63 or 64 bits takes at most two steps from the guess, and a
// shorter one about a step more for each bit that its root lacks of 32.
fn word_root(n: u64) -> u64
    ensures { result ≡ root n }
{
    let mut r = guess(n);
    while n < r * r {
        r = (r + n / r) / 2;
    }
    r
}

// a number is taken as a top word and two digits to this base
const BASE: u64 = 0x8000_0000;

// The floor of the root of top * 2^62 and lo's lower 62 bits, from the root s of top, by Zimmermann's Karatsuba square root: s is
// the upper half of the answer, and one division gives the lower half or one more.
pub(crate) fn with_lower_half(top: u64, s: u64, lo: u64) -> u64
    requires { (2 ^ 62 ≤ top) × (s ≡ root top) }
    ensures { result ≡ root (top * 2 ^ 62 + lo % 2 ^ 62) }
{
    let t = (top - s * s) * BASE + lo / BASE % BASE;
    let q = t / (2 * s);
    let u = t % (2 * s);
    let r = s * BASE + q;
    // the number is r * r + u * BASE + lo % BASE - q * q
    if q * q <= u * BASE + lo % BASE {
        r
    } else {
        r - 1
    }
}

// The floor of the root of a number of 125 or 126 bits.
fn normal_root(n: u128) -> u64
    requires { (2 ^ 124 ≤ n) × (n < 2 ^ 126) }
    ensures { result ≡ root n }
{
    let top = (n >> 62) as u64;
    let lo = (n % 0x1_0000_0000_0000_0000) as u64;
    with_lower_half(top, word_root(top), lo)
}

// The floor of the root of a number of 65 to 126 bits: the number times a power of 4 has 125 or 126 bits.
fn lifted_root(n: u128) -> u64
    requires { (2 ^ 64 ≤ n) × (n < 2 ^ 126) }
    ensures { result ≡ root n }
{
    let j = (n.leading_zeros() - 2) / 2;
    normal_root(n << (2 * j)) >> j
}

// r * r.
pub(crate) fn square(r: u64) -> u128
    ensures { result ≡ r * r }
{
    u128::from(r) * u128::from(r)
}

// The floor of the root of a number of 127 or 128 bits: twice the root of a quarter of it, or one more.
fn doubled_root(n: u128) -> u64
    requires { 2 ^ 126 ≤ n }
    ensures { result ≡ root n }
{
    let even = 2 * normal_root(n / 4);
    let odd = even + 1;
    if square(odd) <= n { odd } else { even }
}

// The floor of the square root. A number of 65 bits or more takes at most four divisions of words.
pub fn floor_root(n: u128) -> u64
    ensures { result ≡ root n }
{
    if n < 1 << 64 {
        word_root(n as u64)
    } else if n < 1 << 124 {
        lifted_root(n)
    } else if n < 1 << 126 {
        normal_root(n)
    } else {
        doubled_root(n)
    }
}
