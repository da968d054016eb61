// Pressure altitude and density altitude: the National Weather Service's formula, the FAA's rule, and the
// heights of a pressure and of a ratio of densities in the standard atmosphere's layers.
ghost use Rattle.std.specs.Prelude.{◌≡◌, ◌<◌, ◌-◌, get_or};
ghost use Rattle.std.specs.Float.{nan};
ghost use Rattle.elementary.specs.Power.{power_at};
ghost use Rattle.atmosphere.specs.Altitudes.{nws_altitude, faa_density_altitude, layer_from, height_in, height_of_pressure, pressure_altitude, height_of_ratio};
ghost use Rattle.arithmetic.specs.Places.{places};

use crate::layers::{G_ACCEL_MPS2, ICAO_LAYERS};
use arithmetic::doubles::abs;
use elementary::ln::ln;
use elementary::power::power;
use humid_air::mixture::R_AIR;

pub const DA_NWS_SEA_LEVEL_HPA: f64 = 1013.25;

pub const DA_NWS_PRESSURE_ALT_FT: f64 = 145_366.45;

// the number of the exponent 0.190284 in elementary's table
const DA_NWS_EXPONENT: usize = 11;

pub const DA_NWS_SEA_LEVEL_TEMP_F: f64 = 59.0;

pub const DA_NWS_LAPSE_F_PER_1000FT: f64 = 3.57;

pub const DA_FAA_RULE_FT_PER_DEG_F: f64 = 120.0 * 5.0 / 9.0;

pub const DA_FT_TO_M: f64 = 0.3048;

const LOWEST_PRESSURE_ALTITUDE_M: f64 = -5000.0;

pub const TROPOSPHERE_TOP_M: f64 = 11000.0;

// The pressure (Pa) at each layer's base, chained from the layer below by that layer's formula.
const CHAINED_PRESSURES: [f64; 7] = [
    101325.0,
    22632.067277013903,
    5474.890225463624,
    868.0190870921797,
    110.90637918254323,
    66.93892084872294,
    3.9564243388434446,
];

// The number in elementary's table of each layer's exponent, -lapse rate * R_AIR / G_ACCEL_MPS2. A lapse
// rate of zero has none: 27 is the table's length.
const TEMPERATURE_EXPONENTS: [usize; 7] = [6, 27, 7, 8, 27, 9, 10];

// The density at each layer's base, over that at sea level: at the tropopause by the temperatures to
// the troposphere's power n, and above it chained from the layer below by that layer's formula.
const CHAINED_RATIOS: [f64; 7] = [
    1.0,
    0.29707598350799796,
    0.07186521577637019,
    0.01079593052002415,
    0.0011653342395396547,
    0.000703351935189044,
    5.241721994832112e-5,
];

// The number in elementary's table of the reciprocal of each layer's exponent, -G_ACCEL_MPS2 / (R_AIR *
// lapse rate) - 1. The troposphere is not searched, and a lapse rate of zero has none: 27 is the
// table's length.
const DENSITY_EXPONENT_RECIPROCALS: [usize; 7] = [27, 27, 18, 19, 27, 20, 21];

// The pressure altitude, ft, of a station pressure.
#[tactic(auto, unfolding(elementary::specs::Power::power_at))]
pub fn nws_pressure_altitude_ft(station_pressure_hpa: f64) -> f64
    ensures { result ≡ nws_altitude places station_pressure_hpa }
{
    DA_NWS_PRESSURE_ALT_FT
        * (1.0 - power(station_pressure_hpa / DA_NWS_SEA_LEVEL_HPA, DA_NWS_EXPONENT))
}

// The density altitude, ft, by the rule of 120 ft for each degree Celsius from the standard temperature.
pub fn faa_rule_density_altitude_ft(station_pressure_hpa: f64, temperature_f: f64) -> f64
    ensures { result ≡ faa_density_altitude places station_pressure_hpa temperature_f }
{
    let pressure_alt = nws_pressure_altitude_ft(station_pressure_hpa);
    let isa_temp_f = DA_NWS_SEA_LEVEL_TEMP_F - (pressure_alt / 1000.0) * DA_NWS_LAPSE_F_PER_1000FT;
    pressure_alt + DA_FAA_RULE_FT_PER_DEG_F * (temperature_f - isa_temp_f)
}

// The first layer from `first` on at whose top, the next base, the value is at most `value`. The last
// layer has what is left, NaN too.
fn layer_from(at_bases: [f64; 7], first: usize, value: f64) -> usize
    requires { first < 7 }
    ensures { result ≡ layer_from (λ i. get_or at_bases i nan) (6 - first) first value }
{
    for number in first..6 {
        if value >= at_bases[number + 1] {
            return number;
        }
    }
    6
}

// The height in a layer of a value that is `base` at the layer's base.
fn height_in(number: usize, exponent: usize, base: f64, value: f64) -> f64
    requires { number < 7 }
    ensures { result ≡ height_in places (power_at places exponent) number base value }
{
    let layer = ICAO_LAYERS[number];
    if abs(layer[3]) < 1e-10 {
        let scale_height = R_AIR * layer[1] / G_ACCEL_MPS2;
        return layer[0] + scale_height * ln(base / value);
    }
    let temperature = layer[1] * power(value / base, exponent);
    layer[0] + (temperature - layer[1]) / layer[3]
}

// The standard atmosphere's geopotential height, m, of a pressure.
pub fn standard_pressure_altitude_m(pressure_pa: f64) -> f64
    ensures { result ≡ height_of_pressure places pressure_pa }
{
    let number = layer_from(CHAINED_PRESSURES, 0, pressure_pa);
    height_in(
        number,
        TEMPERATURE_EXPONENTS[number],
        CHAINED_PRESSURES[number],
        pressure_pa,
    )
}

// The pressure altitude, m, of a station pressure: the National Weather Service's in the troposphere,
// which holds where it is NaN, and the standard atmosphere's outside it.
pub fn pressure_altitude_m(station_pressure_hpa: f64) -> f64
    ensures { result ≡ pressure_altitude places station_pressure_hpa }
{
    let nws_m = nws_pressure_altitude_ft(station_pressure_hpa) * DA_FT_TO_M;
    if nws_m.is_nan() || nws_m >= LOWEST_PRESSURE_ALTITUDE_M && nws_m <= TROPOSPHERE_TOP_M {
        return nws_m;
    }
    standard_pressure_altitude_m(station_pressure_hpa * 100.0)
}

// The standard atmosphere's geopotential height, m, of a density thinner than the tropopause's, given as
// its ratio to that at sea level. The source also takes the troposphere's exponent, always the same one:
// it is in the table of ratios.
pub fn standard_altitude_above_tropopause_m(ratio: f64) -> f64
    ensures { result ≡ height_of_ratio places ratio }
{
    let number = layer_from(CHAINED_RATIOS, 1, ratio);
    height_in(
        number,
        DENSITY_EXPONENT_RECIPROCALS[number],
        CHAINED_RATIOS[number],
        ratio,
    )
}
