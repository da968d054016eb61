// The ICAO standard atmosphere: geopotential height, the layers, and the temperature and pressure at
// an altitude.
ghost use Rattle.std.specs.Prelude.{◌≡◌, ◌<◌};
ghost use Rattle.atmosphere.specs.Layers.{geopotential_height, standard_height, layer_at, layer_pressure, standard_air};
ghost use Rattle.arithmetic.specs.Places.{places};

use arithmetic::doubles::{abs, clamp};
use elementary::exp::exp;
use elementary::power::power;
use humid_air::mixture::R_AIR;

pub const G_ACCEL_MPS2: f64 = 9.80665;

const GEOPOTENTIAL_EARTH_RADIUS_M: f64 = 6_356_766.0;

const MIN_GEOMETRIC_ALTITUDE_M: f64 = -5000.0;

const MAX_GEOMETRIC_ALTITUDE_M: f64 = 84000.0;

const MIN_STANDARD_GEOPOTENTIAL_HEIGHT_M: f64 = -5000.0;

const MAX_STANDARD_GEOPOTENTIAL_HEIGHT_M: f64 = 84000.0;

// A row for each layer: the geopotential height (m), temperature (K) and pressure (Pa) of its base,
// and its lapse rate (K/m).
pub const ICAO_LAYERS: [[f64; 4]; 7] = [
    [0.0, 288.15, 101325.0, -0.0065],
    [11000.0, 216.65, 22632.1, 0.0],
    [20000.0, 216.65, 5474.89, 0.001],
    [32000.0, 228.65, 868.02, 0.0028],
    [47000.0, 270.65, 110.91, 0.0],
    [51000.0, 270.65, 66.94, -0.0028],
    [71000.0, 214.65, 3.96, -0.002],
];

// The number in elementary's table of each layer's exponent, -G_ACCEL_MPS2 / (lapse rate * R_AIR). A
// lapse rate of zero has none: 27 is the table's length.
const PRESSURE_EXPONENTS: [usize; 7] = [0, 27, 1, 2, 27, 3, 4];

#[derive(Clone, Copy)]
pub struct StandardAir {
    pub temperature_k: f64,
    pub pressure_pa: f64,
}

// The geopotential height, m, of a geometric altitude: that of the layers' bases.
pub fn geometric_to_geopotential_height_m(geometric_altitude_m: f64) -> f64
    ensures { result ≡ geopotential_height geometric_altitude_m }
{
    GEOPOTENTIAL_EARTH_RADIUS_M * geometric_altitude_m
        / (GEOPOTENTIAL_EARTH_RADIUS_M + geometric_altitude_m)
}

// The geopotential height, m, of an altitude, each clamped to the range of the layers.
#[tactic(auto, unfolding(crate::specs::Layers::standard_height))]
pub fn standard_geopotential_height_m(altitude_m: f64) -> f64
    ensures { result ≡ standard_height altitude_m }
{
    let geometric_altitude = clamp(
        altitude_m,
        MIN_GEOMETRIC_ALTITUDE_M,
        MAX_GEOMETRIC_ALTITUDE_M,
    );
    clamp(
        geometric_to_geopotential_height_m(geometric_altitude),
        MIN_STANDARD_GEOPOTENTIAL_HEIGHT_M,
        MAX_STANDARD_GEOPOTENTIAL_HEIGHT_M,
    )
}

// The layer in whose range a height lies, in the order of the printed table. NaN takes layer 0.
fn layer_number(geopotential_height: f64) -> usize
    ensures { result ≡ layer_at geopotential_height }
{
    if geopotential_height < 11000.0 {
        return 0;
    }
    if (11000.0 <= geopotential_height) & (geopotential_height < 20000.0) {
        return 1;
    }
    if (20000.0 <= geopotential_height) & (geopotential_height < 32000.0) {
        return 2;
    }
    if (32000.0 <= geopotential_height) & (geopotential_height < 47000.0) {
        return 3;
    }
    if (47000.0 <= geopotential_height) & (geopotential_height < 51000.0) {
        return 4;
    }
    if (51000.0 <= geopotential_height) & (geopotential_height < 71000.0) {
        return 5;
    }
    if 71000.0 <= geopotential_height {
        return 6;
    }
    // NaN lies in none
    0
}

// The pressure in a layer, at so many metres above its base and at the temperature there.
fn layer_pressure(number: usize, height_diff: f64, temperature: f64) -> f64
    requires { number < 7 }
    ensures { result ≡ layer_pressure places number height_diff temperature }
{
    let layer = ICAO_LAYERS[number];
    if abs(layer[3]) < 1e-10 {
        return layer[2] * exp(-G_ACCEL_MPS2 * height_diff / (R_AIR * layer[1]));
    }
    let temp_ratio = temperature / layer[1];
    layer[2] * power(temp_ratio, PRESSURE_EXPONENTS[number])
}

// The temperature, K, and the pressure, Pa, of the standard atmosphere at a geometric altitude.
pub fn calculate_icao_standard_atmosphere(altitude_m: f64) -> StandardAir
    ensures { result ≡ standard_air places altitude_m }
{
    let geopotential_height = standard_geopotential_height_m(altitude_m);
    let number = layer_number(geopotential_height);
    let layer = ICAO_LAYERS[number];
    let height_diff = geopotential_height - layer[0];
    let temperature = layer[1] + layer[3] * height_diff;
    StandardAir {
        temperature_k: temperature,
        pressure_pa: layer_pressure(number, height_diff, temperature),
    }
}

// The temperature alone, for what takes its pressure from elsewhere: the layer's pressure is a power.
pub fn standard_temperature_k(altitude_m: f64) -> f64
    ensures { result ≡ (standard_air places altitude_m).temperature_k }
{
    let height = standard_geopotential_height_m(altitude_m);
    let number = layer_number(height);
    let layer = ICAO_LAYERS[number];
    layer[1] + layer[3] * (height - layer[0])
}
