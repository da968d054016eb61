// Rust's helpers on doubles, with their behaviour at NaN and at the two zeros.
ghost use Rattle.std.specs.Prelude.{◌≡◌};
ghost use Rattle.arithmetic.specs.Doubles.{clamp_double, max_double, abs_double, is_finite};

// x, or the bound that it lies beyond. A NaN stays, and so does a zero at a zero bound.
pub fn clamp(x: f64, low: f64, high: f64) -> f64
    ensures { result ≡ clamp_double x low high }
{
    let raised = if x < low { low } else { x };
    if raised > high { high } else { raised }
}

// The greater one, or the other one where one is NaN.
pub fn max(x: f64, y: f64) -> f64
    ensures { result ≡ max_double x y }
{
    if x.is_nan() {
        return y;
    }
    if x < y { y } else { x }
}

// The size of x, with no sign.
pub fn abs(x: f64) -> f64
    ensures { result ≡ abs_double x }
{
    x.abs()
}

// Whether x is neither NaN nor an infinity.
pub fn is_finite(x: f64) -> bool
    ensures { result ≡ is_finite x }
{
    x.is_finite()
}
