// 2 to the power of a binary fraction, nearly: a digit of the fraction at a time, each by one
// multiplication.
mod table;

ghost use Rattle.std.specs.Prelude.{◌≡◌, ◌%◌, ◌^◌, ◌<◌};
ghost use Rattle.antilog.specs.Estimate.{joined, estimate, moved};

use crate::estimate::table::excess;
use arithmetic::wide::product;

// What 2^(1 / 2^60) exceeds 1 by, in units of 2^-96, likewise.
const LAST_EXCESS: u64 = 0xB17217F7D;

// Two excesses, x in units of 2^-(64 + k) and y in units a sixteenth of these, joined to that of the
// product: x + y + x * y, nearly.
fn joined(x: u64, y: u64, k: u64) -> u64
    requires { (k < 60) × (joined x y k < 2 ^ 64) }
    ensures { result ≡ joined x y k }
{
    let both = product(x, y);
    x + y / 16 + (both.hi >> (k + 4))
}

// 2^63 times 2^(f / 2^60), for the lowest 60 bits of f: never too great, and at most 3 too small. Each of
// the last 28 bits has the same excess, nearly: together they come to less than 2^-32, and its square to
// less than a unit. To these the digits of four bits are joined, lowest first, so that what a join cuts
// off counts a sixteenth in the next.
pub fn estimate(f: u64) -> u64
    ensures { result ≡ estimate (f % 2 ^ 60) }
{
    let part = f % 0x1000_0000_0000_0000;
    let mut more = part % 0x1000_0000 * LAST_EXCESS;
    for j in (0..8).rev() {
        let digit = (part >> (56 - 4 * j)) % 16;
        more = joined(excess(16 * j + digit), more, 4 * j);
    }
    0x8000_0000_0000_0000 + more / 2
}

// a times 2^(n / 2^60), by the same excess: for an estimate of f, one of f + n.
pub(crate) fn moved(a: u64, n: u64) -> u64
    requires { (n < 2 ^ 28) × (moved a n < 2 ^ 64) }
    ensures { result ≡ moved a n }
{
    let more = product(a, n * LAST_EXCESS);
    a + (more.hi >> 32)
}
