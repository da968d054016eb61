// Moist air: the mole fraction of water vapour and the CIPM-2007 density, of a saturation pressure and of
// a mole fraction that are given.
ghost use Rattle.std.specs.Prelude.{◌≡◌};
ghost use Rattle.humid_air.specs.MoistAir.{enhancement_factor, mole_fraction, capped, mole_fraction_of, compressibility_factor, molar_mass_ratio, air_density_at};

use arithmetic::doubles::{clamp, max};

// the specific gas constant of the US Standard Atmosphere 1976's dry air, J/(kg K)
pub const R_AIR: f64 = 287.0531;

// CIPM-2007: the molar gas constant, J/(mol K), and the molar masses of dry air and of water, kg/mol
const R: f64 = 8.314472;

const M_A: f64 = 28.96546e-3;

const M_V: f64 = 18.01528e-3;

// the smallest normal double
const MIN_POSITIVE: f64 = 2.2250738585072014e-308;

// the enhancement factor's constants
const F_ALPHA: f64 = 1.00062;

const F_BETA: f64 = 3.14e-8;

const F_GAMMA: f64 = 5.6e-7;

// the compressibility factor's virial coefficients
const A0: f64 = 1.58123e-6;

const A1: f64 = -2.9331e-8;

const A2: f64 = 1.1043e-10;

const B0: f64 = 5.707e-6;

const B1: f64 = -2.051e-8;

const C0: f64 = 1.9898e-4;

const C1: f64 = -2.376e-6;

const D: f64 = 1.83e-11;

const E: f64 = -0.765e-8;

// The enhancement factor of moist air, of a pressure in Pa and a temperature in degrees Celsius.
pub fn enhanced_enhancement_factor(p: f64, t: f64) -> f64
    ensures { result ≡ enhancement_factor p t }
{
    F_ALPHA + F_BETA * p + F_GAMMA * t * t
}

// The compressibility factor of moist air, of a pressure in Pa, a temperature in K and the mole fraction
// of vapour.
#[tactic(auto, unfolding(crate::specs::MoistAir::compressibility_factor))]
pub fn enhanced_compressibility_factor(p: f64, t_k: f64, x_v: f64) -> f64
    ensures { result ≡ compressibility_factor p t_k x_v }
{
    let t_k_safe = max(t_k, 173.15);
    let t = t_k_safe - 273.15;
    let p_t = p / t_k_safe;
    let z_second_order = 1.0
        - p_t * (A0 + A1 * t + A2 * t * t + (B0 + B1 * t) * x_v + (C0 + C1 * t) * x_v * x_v);
    let z_third_order = p_t * p_t * (D + E * x_v * x_v);
    z_second_order + z_third_order
}

// The mole fraction of vapour, uncapped, of a saturation pressure in hPa, an enhancement factor, a
// humidity in percent and a pressure in Pa. At 0 percent the saturation pressure is left out, so that dry
// air is dry air above the critical temperature too.
#[tactic(auto, unfolding(crate::specs::MoistAir::mole_fraction))]
pub fn vapor_mole_fraction(p_sv_hpa: f64, f: f64, humidity_percent: f64, p_pa: f64) -> f64
    ensures { result ≡ mole_fraction p_sv_hpa f humidity_percent p_pa }
{
    let humidity_percent = clamp(humidity_percent, 0.0, 100.0);
    if humidity_percent == 0.0 {
        return humidity_percent * f / p_pa;
    }
    let p_v = humidity_percent / 100.0 * f * p_sv_hpa;
    let p_v_pa = p_v * 100.0;
    p_v_pa / p_pa
}

// The mole fraction, or 1 where it is above 1. A NaN is not above 1, and stays.
pub fn capped_vapor_mole_fraction(mole_fraction_vapor: f64) -> f64
    ensures { result ≡ capped mole_fraction_vapor }
{
    if mole_fraction_vapor > 1.0 {
        1.0
    } else {
        mole_fraction_vapor
    }
}

// The mole fraction of vapour, uncapped, of a saturation pressure in hPa, degrees Celsius, Pa and percent.
pub fn vapor_mole_fraction_of(
    p_sv_hpa: f64,
    temp_c: f64,
    pressure_pa: f64,
    humidity_percent: f64,
) -> f64
    ensures { result ≡ mole_fraction_of p_sv_hpa temp_c pressure_pa humidity_percent }
{
    let f = enhanced_enhancement_factor(pressure_pa, temp_c);
    let p_pa = max(pressure_pa, MIN_POSITIVE);
    vapor_mole_fraction(p_sv_hpa, f, humidity_percent, p_pa)
}

// The molar mass of moist air over that of dry air.
pub fn moist_molar_mass_ratio(mole_fraction_vapor: f64) -> f64
    ensures { result ≡ molar_mass_ratio mole_fraction_vapor }
{
    1.0 - mole_fraction_vapor * (1.0 - M_V / M_A)
}

// The density of moist air, kg/m3, of degrees Celsius, hPa and the mole fraction of vapour.
#[tactic(auto, unfolding(crate::specs::MoistAir::air_density_at))]
pub fn air_density_at_mole_fraction(temp_c: f64, pressure_hpa: f64, x_v: f64) -> f64
    ensures { result ≡ air_density_at temp_c pressure_hpa x_v }
{
    let t_k = temp_c + 273.15;
    let p_pa = max(pressure_hpa * 100.0, MIN_POSITIVE);
    let z = enhanced_compressibility_factor(p_pa, t_k, x_v);
    ((p_pa * M_A) / (z * R * t_k)) * moist_molar_mass_ratio(x_v)
}
