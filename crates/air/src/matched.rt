// The density-matched altitude: the height in the standard atmosphere of a density, and of moist air's.
ghost use Rattle.std.specs.Prelude.{◌≡◌};
ghost use Rattle.arithmetic.specs.Places.{places};
ghost use Rattle.air.specs.Matched.{height_of_density, density_matched_altitude};

use super::moist::{density_of, saturation_at};
use atmosphere::altitudes::{TROPOSPHERE_TOP_M, standard_altitude_above_tropopause_m};
use elementary::power::power;

const ISA_SEA_LEVEL_TEMP_K: f64 = 288.15;

const ISA_LAPSE_K_PER_M: f64 = 0.0065;

// The density (kg/m3) of dry air at 15 degrees Celsius and 1013.25 hPa, by `calculate_atmosphere`.
const REFERENCE_DENSITY: f64 = 1.225521344728071;

// the number in elementary's table of 1 / n, n = G_ACCEL_MPS2 / (R_AIR * ISA_LAPSE_K_PER_M) - 1
const TROPOSPHERE_EXPONENT_RECIPROCAL: usize = 14;

// The geopotential height, m, at which the standard atmosphere has a density in kg/m3.
pub fn density_matched_altitude_of(density_kg_m3: f64) -> f64
    ensures { result ≡ height_of_density places density_kg_m3 }
{
    let ratio = density_kg_m3 / REFERENCE_DENSITY;
    let troposphere = (ISA_SEA_LEVEL_TEMP_K / ISA_LAPSE_K_PER_M)
        * (1.0 - power(ratio, TROPOSPHERE_EXPONENT_RECIPROCAL));
    if troposphere.is_nan() || troposphere <= TROPOSPHERE_TOP_M {
        return troposphere;
    }
    standard_altitude_above_tropopause_m(ratio)
}

// The geopotential height, m, at which the standard atmosphere has the density of this air.
#[tactic(auto, using(crate::proofs::Served::served), unfolding(crate::specs::Station::atmosphere, crate::specs::Matched::density_matched_altitude))]
pub fn density_matched_altitude_m(
    temperature_c: f64,
    station_pressure_hpa: f64,
    humidity_percent: f64,
) -> f64
    ensures { result ≡ density_matched_altitude places temperature_c station_pressure_hpa humidity_percent }
{
    let temp_k = temperature_c + 273.15;
    let known = saturation_at(temp_k, humidity_percent);
    let moist = density_of(
        known,
        temp_k,
        station_pressure_hpa * 100.0,
        humidity_percent,
    );
    density_matched_altitude_of(moist.density_kg_m3)
}
