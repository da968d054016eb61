// The middle of three doubles, minus zero before plus zero.
ghost use Rattle.std.specs.Prelude.{◌≡◌};
ghost use Rattle.arithmetic.specs.Middle.{is_minus_zero, is_plus_zero, precedes, earlier, later, middle};

fn is_minus_zero(x: f64) -> bool
    ensures { result ≡ is_minus_zero x }
{
    x == 0.0 && x.is_sign_negative()
}

fn is_plus_zero(x: f64) -> bool
    ensures { result ≡ is_plus_zero x }
{
    x == 0.0 && x.is_sign_positive()
}

#[tactic(auto, unfolding(crate::specs::Middle::precedes))]
fn precedes(x: f64, y: f64) -> bool
    ensures { result ≡ precedes x y }
{
    x < y || (is_minus_zero(x) && is_plus_zero(y))
}

fn earlier(x: f64, y: f64) -> f64
    ensures { result ≡ earlier x y }
{
    if precedes(y, x) { y } else { x }
}

fn later(x: f64, y: f64) -> f64
    ensures { result ≡ later x y }
{
    if precedes(y, x) { x } else { y }
}

// The value that lies between the other two, in whatever order the three are given.
pub fn middle(x: f64, y: f64, z: f64) -> f64
    ensures { result ≡ middle x y z }
{
    later(earlier(x, y), earlier(later(x, y), z))
}
