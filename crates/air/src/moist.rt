// Moist air with one saturation pressure at hand: what asks for the pressure at the same temperature takes
// it from there, and what asks for another computes its own.
ghost use Rattle.std.specs.Prelude.{◌≡◌};
ghost use Rattle.arithmetic.specs.Places.{places};
ghost use Rattle.arithmetic.specs.Decimals.{nought, hundred};
ghost use Rattle.arithmetic.specs.Doubles.{clamp_double};
ghost use Rattle.humid_air.specs.Humidity.{needed_pressure, mole_fraction_at};
ghost use Rattle.humid_air.specs.Sound.{sound_speed};
ghost use Rattle.air.specs.Moist.{is_one, saturation_at, Serves, density_of};

use arithmetic::doubles::clamp;
use humid_air::humid::{moist_sound_speed_at_mole_fraction, needed_saturation_pressure};
use humid_air::mixture::{
    air_density_at_mole_fraction, capped_vapor_mole_fraction, vapor_mole_fraction_of,
};

// A temperature, K, and the saturation pressure, hPa, that air of some humidity asks for there.
#[derive(Clone, Copy)]
pub struct Saturation {
    pub temp_k: f64,
    pub pressure_hpa: f64,
}

// A density, kg/m3, and the mole fraction of vapour that it uses.
#[derive(Clone, Copy)]
pub struct MoistDensity {
    pub density_kg_m3: f64,
    pub vapor_mole_fraction: f64,
}

pub(crate) fn saturation_at(temp_k: f64, humidity_percent: f64) -> Saturation
    ensures { result ≡ saturation_at places temp_k humidity_percent }
{
    Saturation {
        temp_k,
        pressure_hpa: needed_saturation_pressure(temp_k, humidity_percent),
    }
}

// Whether two doubles are one: equal ones have one pattern, but for the two zeros.
pub(crate) fn is_one(x: f64, y: f64) -> bool
    ensures { result ≡ is_one x y }
{
    x == y && x.to_bits() == y.to_bits()
}

fn saturation_pressure(known: Saturation, temp_k: f64, humidity_percent: f64) -> f64
    requires { Serves known humidity_percent }
    ensures { result ≡ needed_pressure places temp_k humidity_percent }
{
    if is_one(temp_k, known.temp_k) {
        return known.pressure_hpa;
    }
    needed_saturation_pressure(temp_k, humidity_percent)
}

// The mole fraction of vapour, uncapped. The temperature stands in K and in degrees Celsius, as the
// callers round it.
#[tactic(auto, using(humid_air::proofs::Needed::needed_serves))]
pub(crate) fn uncapped_mole_fraction(
    known: Saturation,
    temp_k: f64,
    temp_c: f64,
    pressure_pa: f64,
    humidity_percent: f64,
) -> f64
    requires { Serves known humidity_percent }
    ensures { result ≡ mole_fraction_at places temp_k temp_c pressure_pa humidity_percent }
{
    let p_sv = saturation_pressure(known, temp_k, humidity_percent);
    vapor_mole_fraction_of(p_sv, temp_c, pressure_pa, humidity_percent)
}

// The density and its mole fraction, of K, Pa and percent.
#[tactic(auto, using(crate::proofs::Served::clamped_serves), unfolding(crate::specs::Moist::density_of))]
pub(crate) fn density_of(
    known: Saturation,
    temp_k: f64,
    pressure_pa: f64,
    humidity_percent: f64,
) -> MoistDensity
    requires { Serves known humidity_percent }
    ensures { result ≡ density_of places temp_k pressure_pa humidity_percent }
{
    let humidity_clamped = clamp(humidity_percent, 0.0, 100.0);
    let temp_c = temp_k - 273.15;
    let pressure_hpa = pressure_pa / 100.0;
    let x_v = capped_vapor_mole_fraction(uncapped_mole_fraction(
        known,
        temp_c + 273.15,
        temp_c,
        pressure_hpa * 100.0,
        humidity_clamped,
    ));
    MoistDensity {
        density_kg_m3: air_density_at_mole_fraction(temp_c, pressure_hpa, x_v),
        vapor_mole_fraction: x_v,
    }
}

// The speed of sound, m/s, of K, Pa and percent.
#[tactic(auto, using(crate::proofs::Served::clamped_serves), unfolding(humid_air::specs::Sound::sound_speed))]
pub(crate) fn sound_speed_of(
    known: Saturation,
    temp_k: f64,
    pressure_pa: f64,
    humidity_percent: f64,
) -> f64
    requires { Serves known humidity_percent }
    ensures { result ≡ sound_speed places temp_k pressure_pa (clamp_double humidity_percent nought hundred) }
{
    let humidity_clamped = clamp(humidity_percent, 0.0, 100.0);
    let x_v = capped_vapor_mole_fraction(uncapped_mole_fraction(
        known,
        temp_k,
        temp_k - 273.15,
        pressure_pa,
        humidity_clamped,
    ));
    moist_sound_speed_at_mole_fraction(temp_k, x_v)
}
