// Humid air: the mole fraction of water vapour, the CIPM-2007 density and the speed of sound.
ghost use Rattle.std.specs.Prelude.{◌≡◌};
ghost use Rattle.humid_air.specs.Humidity.{needed_pressure, mole_fraction_at, mole_fraction_celsius, mole_fraction_kelvin, air_density};
ghost use Rattle.humid_air.specs.Sound.{sound_speed_at, sound_speed};
ghost use Rattle.arithmetic.specs.Places.{places};

use crate::mixture::{
    R_AIR, air_density_at_mole_fraction, capped_vapor_mole_fraction, vapor_mole_fraction_of,
};
use crate::saturation::enhanced_saturation_vapor_pressure;
use antilog::sqrt::sqrt;
use arithmetic::doubles::clamp;

// the heat-capacity ratio of dry air
const GAMMA: f64 = 1.4;

// The saturation pressure, hPa, that air of a humidity in percent asks for at a temperature in K. Dry air
// asks for none, and 0 stands for it: the pressure is by far the longest step.
#[tactic(auto, unfolding(crate::specs::Humidity::needed_pressure))]
pub fn needed_saturation_pressure(t_k: f64, humidity_percent: f64) -> f64
    ensures { result ≡ needed_pressure places t_k humidity_percent }
{
    if clamp(humidity_percent, 0.0, 100.0) == 0.0 {
        return 0.0;
    }
    enhanced_saturation_vapor_pressure(t_k)
}

// The mole fraction of vapour, uncapped. The temperature stands in K and in degrees Celsius, as the two
// callers round it.
#[tactic(auto, using(crate::proofs::Needed::needed_serves))]
fn vapor_mole_fraction_at(t_k: f64, temp_c: f64, pressure_pa: f64, humidity_percent: f64) -> f64
    ensures { result ≡ mole_fraction_at places t_k temp_c pressure_pa humidity_percent }
{
    let p_sv = needed_saturation_pressure(t_k, humidity_percent);
    vapor_mole_fraction_of(p_sv, temp_c, pressure_pa, humidity_percent)
}

// The mole fraction of vapour, uncapped, of degrees Celsius, hPa and percent.
pub fn water_vapor_mole_fraction_uncapped(
    temp_c: f64,
    pressure_hpa: f64,
    humidity_percent: f64,
) -> f64
    ensures { result ≡ mole_fraction_celsius places temp_c pressure_hpa humidity_percent }
{
    let t_k = temp_c + 273.15;
    let pressure_pa = pressure_hpa * 100.0;
    vapor_mole_fraction_at(t_k, temp_c, pressure_pa, humidity_percent)
}

// The mole fraction of vapour, uncapped, of K, Pa and percent.
pub fn moist_air_vapor_mole_fraction(temp_k: f64, pressure_pa: f64, humidity_percent: f64) -> f64
    ensures { result ≡ mole_fraction_kelvin places temp_k pressure_pa humidity_percent }
{
    let temp_c = temp_k - 273.15;
    vapor_mole_fraction_at(temp_k, temp_c, pressure_pa, humidity_percent)
}

// The density of moist air, kg/m3, of degrees Celsius, hPa and percent.
pub fn calculate_air_density_cimp(temp_c: f64, pressure_hpa: f64, humidity_percent: f64) -> f64
    ensures { result ≡ air_density places temp_c pressure_hpa humidity_percent }
{
    let x_v = capped_vapor_mole_fraction(water_vapor_mole_fraction_uncapped(
        temp_c,
        pressure_hpa,
        humidity_percent,
    ));
    air_density_at_mole_fraction(temp_c, pressure_hpa, x_v)
}

// The speed of sound in moist air, m/s, of K and the mole fraction of vapour.
pub fn moist_sound_speed_at_mole_fraction(temp_k: f64, mole_fraction_vapor: f64) -> f64
    ensures { result ≡ sound_speed_at temp_k mole_fraction_vapor }
{
    let gamma_moist = GAMMA * (1.0 - mole_fraction_vapor * 0.062);
    let r_moist = R_AIR * (1.0 + 0.378 * mole_fraction_vapor);
    sqrt(gamma_moist * r_moist * temp_k)
}

// The speed of sound in moist air, m/s, of K, Pa and percent.
#[tactic(auto, unfolding(crate::specs::Sound::sound_speed))]
pub fn moist_speed_of_sound(temp_k: f64, pressure_pa: f64, humidity_percent: f64) -> f64
    ensures { result ≡ sound_speed places temp_k pressure_pa humidity_percent }
{
    let mole_fraction_vapor = capped_vapor_mole_fraction(moist_air_vapor_mole_fraction(
        temp_k,
        pressure_pa,
        humidity_percent,
    ));
    moist_sound_speed_at_mole_fraction(temp_k, mole_fraction_vapor)
}
