// A double's size as a whole number of decimals.
ghost use Rattle.std.specs.Prelude.{◌≡◌, ◌*◌, ◌^◌, ◌≤◌, ◌<◌, min};
ghost use Rattle.arithmetic.specs.Parts.{Digits};
ghost use Rattle.decimals.specs.Decimal.{nearest_count};

use arithmetic::wide::{product, shifted_right};

pub(crate) fn power_of_ten(k: u32) -> u64
    requires { k ≤ 15 }
    ensures { result ≡ 10 ^ k }
{
    10u64.pow(k)
}

// q * 2^k units of 2^-1074, times s, to the nearest whole number, a half up; 2^63 stands for every
// number from there on. `halves` is the floor of twice the number.
pub(crate) fn nearest_count(q: u64, k: u32, s: u64) -> u64
    requires { Digits q k × (0 < s) }
    ensures { result ≡ min (nearest_count (q * 2 ^ k) s) (2 ^ 63) }
{
    if k > 1084 {
        return 0x8000_0000_0000_0000;
    }
    let halves = shifted_right(product(q << 11, s), 1084 - k);
    if halves.hi > 0 {
        return 0x8000_0000_0000_0000;
    }
    halves.lo / 2 + halves.lo % 2
}
