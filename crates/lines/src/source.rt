// The functions that answer one double, by their places among the names of `asked`.
ghost use Rattle.std.specs.Prelude.{◌≡◌};
ghost use Rattle.lines.specs.Source.{air_value, height_value};

use air::matched::density_matched_altitude_m;
use antilog::sqrt::sqrt;
use atmosphere::altitudes::{
    faa_rule_density_altitude_ft, nws_pressure_altitude_ft, pressure_altitude_m,
    standard_altitude_above_tropopause_m, standard_pressure_altitude_m,
};
use atmosphere::layers::geometric_to_geopotential_height_m;
use atmosphere::resolvers::reduce_qnh_to_station_pressure;
use elementary::exp::exp;
use elementary::ln::ln;
use humid_air::humid::{
    calculate_air_density_cimp, moist_air_vapor_mole_fraction, moist_sound_speed_at_mole_fraction,
    moist_speed_of_sound, water_vapor_mole_fraction_uncapped,
};
use humid_air::mixture::{
    capped_vapor_mole_fraction, enhanced_compressibility_factor, enhanced_enhancement_factor,
    moist_molar_mass_ratio, vapor_mole_fraction,
};
use humid_air::saturation::enhanced_saturation_vapor_pressure;

// Humid air.
pub(crate) fn air_value(number: usize, x: f64, y: f64, z: f64, v: f64) -> f64
    ensures { result ≡ air_value number x y z v }
{
    match number {
        0 => enhanced_saturation_vapor_pressure(x),
        1 => enhanced_enhancement_factor(x, y),
        2 => enhanced_compressibility_factor(x, y, z),
        3 => vapor_mole_fraction(x, y, z, v),
        4 => capped_vapor_mole_fraction(x),
        5 => water_vapor_mole_fraction_uncapped(x, y, z),
        6 => moist_air_vapor_mole_fraction(x, y, z),
        7 => moist_molar_mass_ratio(x),
        8 => calculate_air_density_cimp(x, y, z),
        9 => moist_sound_speed_at_mole_fraction(x, y),
        _ => moist_speed_of_sound(x, y, z),
    }
}

// Heights, pressures, and the functions of a number.
pub(crate) fn height_value(number: usize, x: f64, y: f64, z: f64) -> f64
    ensures { result ≡ height_value number x y z }
{
    match number {
        11 => geometric_to_geopotential_height_m(x),
        12 => reduce_qnh_to_station_pressure(x, y),
        13 => nws_pressure_altitude_ft(x),
        14 => pressure_altitude_m(x),
        15 => standard_pressure_altitude_m(x),
        16 => faa_rule_density_altitude_ft(x, y),
        17 => density_matched_altitude_m(x, y, z),
        18 => standard_altitude_above_tropopause_m(x),
        19 => exp(x),
        20 => ln(x),
        _ => sqrt(x),
    }
}
