// A function by its name.
#![tactic(auto, using(pages::proofs::Putting::puts), unfolding(crate::specs::Asked::value_answer, crate::specs::Asked::reading_answer, crate::specs::Asked::power_answer, crate::specs::Asked::other_answer, crate::specs::Asked::function_numbered, crate::specs::Asked::function_answer))]

ghost use Rattle.std.specs.Prelude.{◌≡◌};
ghost use Rattle.pages.specs.Pages.{put};
ghost use Rattle.questions.specs.Words.{line_parts};
ghost use Rattle.lines.specs.Asked.{value_answer, reading_answer, power_answer, other_answer, function_numbered, function_answer};

use crate::decimal::put_decimal;
use crate::rules::{put_antilog, put_log_word, put_root};
use crate::source::{air_value, height_value};
use crate::stations::{put_atmosphere, put_plausibility, put_resolved, put_standard, put_station};
use crate::texts::{put_reading, put_truth, put_value_line};
use atmosphere::resolvers::{
    in_legacy_default_pressure_band, in_legacy_default_temperature_band, resolve_station_pressure,
    resolve_station_temperature,
};
use elementary::power::power;
use pages::Page;
use questions::arguments::{double_at, number_at};
use questions::forms::{fits, put_wrong};
use questions::words::{nth_word, place};

// The functions that answer one double.
fn put_double(page: &mut Page<'_>, number: usize, line: &[u8])
    ensures { page.new ≡ put page.old (value_answer number (line_parts line.now)) }
{
    let x = double_at(line, 1);
    let y = double_at(line, 2);
    let z = double_at(line, 3);
    if number < 11 {
        let v = double_at(line, 4);
        put_value_line(page, air_value(number, x, y, z, v));
    } else {
        put_value_line(page, height_value(number, x, y, z));
    }
}

// The functions of one or two readings.
fn put_of_readings(page: &mut Page<'_>, number: usize, line: &[u8])
    ensures { page.new ≡ put page.old (reading_answer number (line_parts line.now)) }
{
    let x = double_at(line, 1);
    let y = double_at(line, 2);
    match number {
        22 => put_truth(page, in_legacy_default_pressure_band(x)),
        23 => put_truth(page, in_legacy_default_temperature_band(x)),
        24 => put_reading(page, resolve_station_pressure(x, y)),
        _ => put_reading(page, resolve_station_temperature(x, y)),
    }
}

fn put_power(page: &mut Page<'_>, line: &[u8])
    ensures { page.new ≡ put page.old (power_answer (line_parts line.now)) }
{
    let number = number_at(line, 1);
    let x = double_at(line, 2);
    put_value_line(page, power(x, number as usize));
}

fn put_other(page: &mut Page<'_>, number: usize, line: &[u8])
    ensures { page.new ≡ put page.old (other_answer number (line_parts line.now)) }
{
    match number {
        26 => put_standard(page, line),
        27 => put_atmosphere(page, line),
        28 => put_resolved(page, line),
        29 => put_station(page, line),
        30 => put_power(page, line),
        31 => put_log_word(page, line),
        32 => put_antilog(page, line),
        33 => put_root(page, line),
        34 => put_decimal(page, line),
        _ => put_plausibility(page, line),
    }
}

// The answer of the function with a number, whose arguments fit its shape.
fn put_numbered(page: &mut Page<'_>, number: usize, line: &[u8])
    ensures { page.new ≡ put page.old (function_numbered number (line_parts line.now)) }
{
    match number {
        0..=21 => put_double(page, number, line),
        22..=25 => put_of_readings(page, number, line),
        _ => put_other(page, number, line),
    }
}

// The answer to a line whose first word is a function's name, or what is said of a question that is not
// known. The line is left as it was.
pub(crate) fn put_function_answer(page: &mut Page<'_>, line: &[u8])
    ensures put { page.new ≡ put page.old (function_answer line.now) }
    ensures kept { line.now ≡ line.now }
{
    let names =
        b"enhanced_saturation_vapor_pressure enhanced_enhancement_factor enhanced_compressibility_factor vapor_mole_fraction capped_vapor_mole_fraction water_vapor_mole_fraction_uncapped moist_air_vapor_mole_fraction moist_molar_mass_ratio calculate_air_density_cimp moist_sound_speed_at_mole_fraction moist_speed_of_sound geometric_to_geopotential_height_m reduce_qnh_to_station_pressure nws_pressure_altitude_ft pressure_altitude_m standard_pressure_altitude_m faa_rule_density_altitude_ft density_matched_altitude_m standard_altitude_above_tropopause_m exp ln sqrt in_legacy_default_pressure_band in_legacy_default_temperature_band resolve_station_pressure resolve_station_temperature calculate_icao_standard_atmosphere calculate_atmosphere resolve_atmosphere_for_density_altitude station_for_density_altitude power log_word antilog root decimal station_pressure_plausibility";
    let number = place(nth_word(line, 0), names);
    if number >= 36 {
        page.put(
            b"unknown question: expected judge, strict, judge-values, strict-values, vote, class, counts, doubles, report, write, sheet, load, park, power, log_word, antilog, exp, ln, sqrt, root, decimal or a function of the source\n",
        );
        return;
    }
    let shapes =
        b"x xx xxx xxxx x xxx xxx x xxx xx xxx x xx x x x xx xxx x x x x x x xx xx x xoox xo xo nx x ww ww nx xx";
    let shape = nth_word(shapes, number);
    if fits(line, shape) {
        put_numbered(page, number, line);
    } else {
        put_wrong(page, nth_word(names, number), shape);
    }
}
