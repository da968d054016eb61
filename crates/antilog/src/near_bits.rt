// Whether bits are those of a logarithm, nearly: the estimate of their power of 2 is compared with the
// mantissa from both sides.
ghost use Rattle.std.specs.Prelude.{◌≡◌, true};
ghost use Rattle.antilog.specs.Among.{WithinTwo};

use crate::estimate::{estimate, moved};
use arithmetic::word::ONES;

// Whether the 60 log bits of m / 2^62, from 1 to 2, are known to lie from `bits` to two more: 2 m is at
// least the power of bits + 1, and below that of bits + 3.
pub fn within_two(m: u64, bits: u64) -> bool
    ensures { result ≡ true → WithinTwo m bits }
{
    if !(0x4000_0000_0000_0000..0x8000_0000_0000_0000).contains(&m) || ONES - 2 <= bits {
        return false;
    }
    let twice = 2 * m;
    let least = estimate(bits + 1);
    least <= twice - 3 && twice < moved(least, 2)
}
