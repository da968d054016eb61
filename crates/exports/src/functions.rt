// Functions from numbers to a number, each with the contract of the function that it calls.
ghost use Rattle.std.specs.Prelude.{◌≡◌};
ghost use Rattle.elementary.specs.Exp as Exp;
ghost use Rattle.elementary.specs.Ln as Ln;
ghost use Rattle.antilog.specs.Sqrt as Sqrt;
ghost use Rattle.humid_air.specs.Humidity.{mole_fraction_celsius, air_density};
ghost use Rattle.humid_air.specs.Sound.{sound_speed};
ghost use Rattle.atmosphere.specs.Station.{resolved_station_pressure, resolved_station_temperature, reduced_qnh};
ghost use Rattle.atmosphere.specs.Altitudes.{nws_altitude, faa_density_altitude, pressure_altitude};
ghost use Rattle.air.specs.Matched.{density_matched_altitude};
ghost use Rattle.exports.specs.Readings.{is_given};
ghost use Rattle.arithmetic.specs.Places.{places};

use air::matched::density_matched_altitude_m;
use antilog::sqrt::sqrt;
use atmosphere::altitudes::{
    faa_rule_density_altitude_ft, nws_pressure_altitude_ft, pressure_altitude_m,
};
use atmosphere::given::Reading;
use atmosphere::resolvers::{
    reduce_qnh_to_station_pressure, resolve_station_pressure, resolve_station_temperature,
};
use elementary::exp::exp;
use elementary::ln::ln;
use humid_air::humid::{
    calculate_air_density_cimp, moist_speed_of_sound, water_vapor_mole_fraction_uncapped,
};

// e to the power x.
pub fn station_air_exp(x: f64) -> f64
    ensures { result ≡ Exp.exp places x }
{
    exp(x)
}

// The natural logarithm.
pub fn station_air_ln(x: f64) -> f64
    ensures { result ≡ Ln.ln places x }
{
    ln(x)
}

// The square root, the nearest double.
pub fn station_air_sqrt(x: f64) -> f64
    ensures { result ≡ Sqrt.sqrt x }
{
    sqrt(x)
}

// The mole fraction of water vapour, above 1 where there is more vapour than air.
pub fn station_air_water_vapor_mole_fraction_uncapped(
    temperature_c: f64,
    pressure_hpa: f64,
    humidity_percent: f64,
) -> f64
    ensures { result ≡ mole_fraction_celsius places temperature_c pressure_hpa humidity_percent }
{
    water_vapor_mole_fraction_uncapped(temperature_c, pressure_hpa, humidity_percent)
}

// The density in kg/m3 of moist air by CIPM-2007.
pub fn station_air_calculate_air_density_cimp(
    temperature_c: f64,
    pressure_hpa: f64,
    humidity_percent: f64,
) -> f64
    ensures { result ≡ air_density places temperature_c pressure_hpa humidity_percent }
{
    calculate_air_density_cimp(temperature_c, pressure_hpa, humidity_percent)
}

// The speed of sound in m/s in moist air, of K and Pa.
pub fn station_air_moist_speed_of_sound(
    temperature_k: f64,
    pressure_pa: f64,
    humidity_percent: f64,
) -> f64
    ensures { result ≡ sound_speed places temperature_k pressure_pa humidity_percent }
{
    moist_speed_of_sound(temperature_k, pressure_pa, humidity_percent)
}

fn is_given(reading: Reading) -> bool
    ensures { result ≡ is_given reading }
{
    matches!(reading, Reading::Given(_))
}

// Whether a station pressure is kept; a default is not, and comes from the layer.
pub fn station_air_keeps_pressure(pressure_hpa: f64, altitude_m: f64) -> bool
    ensures { result ≡ is_given (resolved_station_pressure pressure_hpa altitude_m) }
{
    is_given(resolve_station_pressure(pressure_hpa, altitude_m))
}

// Whether a temperature is kept; a default is not, and comes from the layer.
pub fn station_air_keeps_temperature(temperature_c: f64, altitude_m: f64) -> bool
    ensures { result ≡ is_given (resolved_station_temperature temperature_c altitude_m) }
{
    is_given(resolve_station_temperature(temperature_c, altitude_m))
}

// The station pressure in hPa at an altitude under a QNH.
pub fn station_air_reduced_qnh(qnh_hpa: f64, altitude_m: f64) -> f64
    ensures { result ≡ reduced_qnh places qnh_hpa altitude_m }
{
    reduce_qnh_to_station_pressure(qnh_hpa, altitude_m)
}

// The National Weather Service's pressure altitude in feet.
pub fn station_air_nws_pressure_altitude_ft(pressure_hpa: f64) -> f64
    ensures { result ≡ nws_altitude places pressure_hpa }
{
    nws_pressure_altitude_ft(pressure_hpa)
}

// The pressure altitude in metres.
pub fn station_air_pressure_altitude_m(pressure_hpa: f64) -> f64
    ensures { result ≡ pressure_altitude places pressure_hpa }
{
    pressure_altitude_m(pressure_hpa)
}

// The density altitude in feet by the FAA's rule.
pub fn station_air_faa_density_altitude_ft(pressure_hpa: f64, temperature_f: f64) -> f64
    ensures { result ≡ faa_density_altitude places pressure_hpa temperature_f }
{
    faa_rule_density_altitude_ft(pressure_hpa, temperature_f)
}

// The height in metres at which the standard atmosphere has the density of the readings.
pub fn station_air_density_matched_altitude_m(
    temperature_c: f64,
    pressure_hpa: f64,
    humidity_percent: f64,
) -> f64
    ensures { result ≡ density_matched_altitude places temperature_c pressure_hpa humidity_percent }
{
    density_matched_altitude_m(temperature_c, pressure_hpa, humidity_percent)
}

// The header's STATION_AIR_VERSION.
pub fn station_air_version() -> u32
    ensures { result ≡ 7 }
{
    7
}
