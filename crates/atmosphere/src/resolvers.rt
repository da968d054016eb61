// What a station's readings mean: which are defaults, and the altimeter setting reduced to its altitude.
// The definitions stand with the standard atmosphere's, in `atmosphere`.
ghost use Rattle.std.specs.Prelude.{◌≡◌};
ghost use Rattle.atmosphere.specs.Station.{in_pressure_band, in_temperature_band, unless_default, resolved_station_pressure, resolved_station_temperature, reduced_qnh};
ghost use Rattle.arithmetic.specs.Places.{places};

use crate::given::Reading;
use crate::layers::{ICAO_LAYERS, standard_geopotential_height_m};
use arithmetic::doubles::abs;
use elementary::power::power;

// The numbers in elementary's table of the lowest layer's exponent, -G_ACCEL_MPS2 / (lapse rate *
// R_AIR), and of its reciprocal.
const QNH_EXPONENT: usize = 0;

const QNH_EXPONENT_RECIPROCAL: usize = 5;

// Whether a pressure lies less than 0.5 hPa from the default, 1013.25 hPa.
pub fn in_legacy_default_pressure_band(pressure_hpa: f64) -> bool
    ensures { result ≡ in_pressure_band pressure_hpa }
{
    abs(pressure_hpa - 1013.25) < 0.5
}

// Whether a temperature lies less than 0.1 degrees Celsius from the default, 15 degrees.
pub fn in_legacy_default_temperature_band(temperature_c: f64) -> bool
    ensures { result ≡ in_temperature_band temperature_c }
{
    abs(temperature_c - 15.0) < 0.1
}

// A reading in its default band, more than 1 m from sea level, counts as absent.
fn resolved(in_band: bool, reading: f64, altitude_m: f64) -> Reading
    ensures { result ≡ unless_default in_band reading altitude_m }
{
    if in_band && abs(altitude_m) > 1.0 {
        return Reading::FromLayer;
    }
    Reading::Given(reading)
}

// The station pressure, hPa, as given, or that the layer has it, where it is a default.
pub fn resolve_station_pressure(pressure_hpa: f64, altitude_m: f64) -> Reading
    ensures { result ≡ resolved_station_pressure pressure_hpa altitude_m }
{
    resolved(
        in_legacy_default_pressure_band(pressure_hpa),
        pressure_hpa,
        altitude_m,
    )
}

// The station temperature, degrees Celsius, as given, or that the layer has it, where it is a default.
pub fn resolve_station_temperature(temperature_c: f64, altitude_m: f64) -> Reading
    ensures { result ≡ resolved_station_temperature temperature_c altitude_m }
{
    resolved(
        in_legacy_default_temperature_band(temperature_c),
        temperature_c,
        altitude_m,
    )
}

// The station pressure, hPa, at an altitude under an altimeter setting.
pub fn reduce_qnh_to_station_pressure(qnh_hpa: f64, altitude_m: f64) -> f64
    ensures { result ≡ reduced_qnh places qnh_hpa altitude_m }
{
    let layer = ICAO_LAYERS[0];
    let height_term = layer[3] * standard_geopotential_height_m(altitude_m) / layer[1];
    let sea_level_hpa = layer[2] / 100.0;
    let setting_term = power(sea_level_hpa / qnh_hpa, QNH_EXPONENT_RECIPROCAL);
    qnh_hpa * power(1.0 + height_term * setting_term, QNH_EXPONENT)
}
