// The saturation pressure of water vapour.
ghost use Rattle.std.specs.Prelude.{◌≡◌};
ghost use Rattle.humid_air.specs.Saturation.{saturation_pressure};
ghost use Rattle.arithmetic.specs.Places.{places};

use arithmetic::doubles::max;
use elementary::exp::exp;
use elementary::power::five_powers;

// the Wagner-Pruss coefficients a1..a6
const A: [f64; 6] = [
    -7.85951783,
    1.84408259,
    -11.7866497,
    22.6807411,
    -15.9618719,
    1.80122502,
];

// the numbers of the exponents 1.5, 3, 3.5, 4 and 7.5 in elementary's table
const TO_1_5: usize = 22;

const TO_3: usize = 23;

const TO_3_5: usize = 24;

const TO_4: usize = 25;

const TO_7_5: usize = 26;

// The saturation pressure of water vapour, hPa, at a temperature in K: over liquid water at every
// temperature, and NaN above the critical one.
#[tactic(auto, unfolding(crate::specs::Saturation::saturation_pressure, elementary::specs::Power::power_at, elementary::specs::Exponents::exponents))]
pub fn enhanced_saturation_vapor_pressure(t_k: f64) -> f64
    ensures { result ≡ saturation_pressure places t_k }
{
    let t_k_safe = max(t_k, 173.15);
    let tau = 1.0 - t_k_safe / 647.096;
    let [a1, a2, a3, a4, a5, a6] = A;
    let [to_1_5, to_3, to_3_5, to_4, to_7_5] = five_powers(tau, TO_1_5, TO_3, TO_3_5, TO_4, TO_7_5);
    let ln_p_ratio = (647.096 / t_k_safe)
        * (a1 * tau + a2 * to_1_5 + a3 * to_3 + a4 * to_3_5 + a5 * to_4 + a6 * to_7_5);
    220640.0 * exp(ln_p_ratio)
}
