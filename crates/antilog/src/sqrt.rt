// The square root of a double, correctly rounded.
ghost use Rattle.std.specs.Prelude.{◌≡◌, ◌*◌, ◌^◌};
ghost use Rattle.arithmetic.specs.Parts.{Digits};
ghost use Rattle.antilog.specs.Sqrt.{sqrt, sqrt_of_units};

use arithmetic::double::Parts;
use arithmetic::nearest::{nearest_scaled, take_apart};
use roots::roots::floor_root;

// The root of q * 2^k units of 2^-1074, a number of `d` digits to the base 4. `n` has the same digits
// in 53 places, so that its root has the 53 binary digits of a double, in steps of 2^(d - 590).
fn root_of_units(q: u64, k: u32) -> f64
    requires { Digits q k }
    ensures { result ≡ sqrt_of_units (q * 2 ^ k) }
{
    let d = (65 - u64::leading_zeros(q) + k) / 2;
    let n = u128::from(q << (k + 54 - 2 * d)) * 0x10_0000_0000_0000;
    let r = floor_root(n);
    // n is above (r + 1/2)^2 if it is above r * r + r
    let nearest = if n <= u128::from(r) * u128::from(r + 1) {
        r
    } else {
        r + 1
    };
    nearest_scaled(nearest, d as i64 - 590)
}

// The double nearest to the square root of x. A zero is its own root, with its sign. A negative number
// has none, and NaN is the answer.
pub fn sqrt(x: f64) -> f64
    ensures { result ≡ sqrt x }
{
    match take_apart(x) {
        Parts::NotANumber => x,
        Parts::Infinite(false) => x,
        Parts::Infinite(true) => 0.0 / 0.0,
        Parts::Zero(_) => x,
        Parts::Finite(false, q, k) => root_of_units(q, k),
        Parts::Finite(true, _, _) => 0.0 / 0.0,
    }
}
