// Functions that hand out several numbers: they are written to the first places of a lent array, and
// a status comes back, 0 for figures or the number of a refusal. Where the array has fewer places than
// the function may need, the status is 255, and nothing is written.
#![tactic(auto, unfolding(crate::specs::Lent::with_room))]

ghost use Rattle.std.specs.Prelude.{◌≡◌};
ghost use Rattle.arithmetic.specs.Places.{places};
ghost use Rattle.atmosphere.specs.Layers.{standard_air};
ghost use Rattle.atmosphere.specs.Plausibility.{plausibility};
ghost use Rattle.air.specs.Station.{atmosphere};
ghost use Rattle.refusal.specs.Outcomes.{accepted};
ghost use Rattle.density_altitude.specs.Inverse.{resolve, station};
ghost use Rattle.mast.specs.Judge.{judge, judge_strictly};
ghost use Rattle.exports.specs.Lent.{with_room, status_of, left_in, station_values, figure_values, mark_or};
ghost use Rattle.exports.specs.Readings.{reading, standard_values, air_values, plausibility_values, implausible_or};

use crate::lent::{FIGURES, TOO_SHORT, hand_out, put_answer, put_refusal, put_station};
use air::conditions::calculate_atmosphere;
use atmosphere::given::Reading;
use atmosphere::layers::calculate_icao_standard_atmosphere;
use atmosphere::plausibility::station_pressure_plausibility;
use density_altitude::inverse::{
    resolve_atmosphere_for_density_altitude, station_for_density_altitude,
};
use mast::judge;

fn reading(given: bool, x: f64) -> Reading
    ensures { result ≡ reading given x }
{
    if given {
        Reading::Given(x)
    } else {
        Reading::FromLayer
    }
}

// The standard atmosphere at an altitude: K, Pa.
pub fn station_air_standard_atmosphere(altitude_m: f64, lent: &mut [f64]) -> u32
    ensures value { result ≡ status_of (with_room 2 lent.old (accepted (standard_air places altitude_m))) }
    ensures lent_after { lent.new ≡ left_in standard_values lent.old (with_room 2 lent.old (accepted (standard_air places altitude_m))) }
{
    if lent.len() < 2 {
        return TOO_SHORT;
    }
    let air = calculate_icao_standard_atmosphere(altitude_m);
    hand_out(lent, &[air.temperature_k, air.pressure_pa]);
    FIGURES
}

// Density and speed of sound: kg/m3, m/s. A reading that is not given comes from the layer.
pub fn station_air_calculate_atmosphere(
    altitude_m: f64,
    temperature_given: bool,
    temperature_c: f64,
    pressure_given: bool,
    pressure_hpa: f64,
    humidity_percent: f64,
    lent: &mut [f64],
) -> u32
    ensures value { result ≡ status_of (with_room 2 lent.old
        (accepted (atmosphere places altitude_m (reading temperature_given temperature_c) (reading pressure_given pressure_hpa) humidity_percent))) }
    ensures lent_after { lent.new ≡ left_in air_values lent.old (with_room 2 lent.old
        (accepted (atmosphere places altitude_m (reading temperature_given temperature_c) (reading pressure_given pressure_hpa) humidity_percent))) }
{
    if lent.len() < 2 {
        return TOO_SHORT;
    }
    let air = calculate_atmosphere(
        altitude_m,
        reading(temperature_given, temperature_c),
        reading(pressure_given, pressure_hpa),
        humidity_percent,
    );
    hand_out(lent, &[air.density_kg_m3, air.speed_of_sound_mps]);
    FIGURES
}

// A station pressure, Pa, beside the standard atmosphere's at its altitude: that one, Pa, and their ratio,
// with whether the two are implausible together in `implausible`, which 255 leaves as it was.
pub fn station_air_station_pressure_plausibility(
    station_pressure_pa: f64,
    altitude_m: f64,
    lent: &mut [f64],
    implausible: &mut bool,
) -> u32
    ensures value { result ≡ status_of (with_room 2 lent.old (accepted (plausibility places station_pressure_pa altitude_m))) }
    ensures lent_after { lent.new
        ≡ left_in plausibility_values lent.old (with_room 2 lent.old (accepted (plausibility places station_pressure_pa altitude_m))) }
    ensures implausible_after { implausible.new
        ≡ implausible_or implausible.old (with_room 2 lent.old (accepted (plausibility places station_pressure_pa altitude_m))) }
{
    if lent.len() < 2 {
        return TOO_SHORT;
    }
    let judged = station_pressure_plausibility(station_pressure_pa, altitude_m);
    hand_out(lent, &[judged.icao_standard_pa, judged.ratio]);
    *implausible = judged.implausible;
    FIGURES
}

// The station that a density altitude resolves to, air or not. A temperature that is not given is the
// standard one.
pub fn station_air_resolve_atmosphere_for_density_altitude(
    density_altitude_m: f64,
    temperature_given: bool,
    temperature_c: f64,
    lent: &mut [f64],
) -> u32
    ensures value { result ≡ status_of (with_room 3 lent.old (accepted (resolve places density_altitude_m (reading temperature_given temperature_c)))) }
    ensures lent_after { lent.new ≡ left_in station_values lent.old (with_room 3 lent.old
        (accepted (resolve places density_altitude_m (reading temperature_given temperature_c)))) }
{
    if lent.len() < 3 {
        return TOO_SHORT;
    }
    let temperature = reading(temperature_given, temperature_c);
    let resolved = resolve_atmosphere_for_density_altitude(density_altitude_m, temperature);
    put_station(lent, resolved);
    FIGURES
}

// The station with a density altitude, or the refusal. A temperature that is not given is the
// standard one.
pub fn station_air_for_density_altitude(
    density_altitude_m: f64,
    temperature_given: bool,
    temperature_c: f64,
    lent: &mut [f64],
) -> u32
    ensures value { result ≡ status_of (with_room 3 lent.old (station places density_altitude_m (reading temperature_given temperature_c))) }
    ensures lent_after { lent.new
        ≡ left_in station_values lent.old (with_room 3 lent.old (station places density_altitude_m (reading temperature_given temperature_c))) }
{
    if lent.len() < 3 {
        return TOO_SHORT;
    }
    match station_for_density_altitude(
        density_altitude_m,
        reading(temperature_given, temperature_c),
    ) {
        Ok(station) => {
            put_station(lent, station);
            FIGURES
        }
        Err(refusal) => put_refusal(lent, refusal),
    }
}

// The eight figures of a record, with their mark in `in_range`, or the refusal. The record is left as it
// was, and so is the mark by a refusal.
pub fn station_air_judge(record: &[u8], lent: &mut [f64], in_range: &mut bool) -> u32
    ensures value { result ≡ status_of (with_room 8 lent.old (judge «record».now)) }
    ensures lent_after { lent.new ≡ left_in figure_values lent.old (with_room 8 lent.old (judge «record».now)) }
    ensures in_range_after { in_range.new ≡ mark_or in_range.old (with_room 8 lent.old (judge «record».now)) }
    ensures record_value { «record».now ≡ «record».now }
{
    if lent.len() < 8 {
        return TOO_SHORT;
    }
    put_answer(lent, in_range, judge::judge(record))
}

// What `station_air_judge` says of a record whose tags rise, and 19 where a tag is below the one before
// it. The record is left as it was, and so is the mark by a refusal.
pub fn station_air_judge_strictly(record: &[u8], lent: &mut [f64], in_range: &mut bool) -> u32
    ensures value { result ≡ status_of (with_room 8 lent.old (judge_strictly «record».now)) }
    ensures lent_after { lent.new ≡ left_in figure_values lent.old (with_room 8 lent.old (judge_strictly «record».now)) }
    ensures in_range_after { in_range.new ≡ mark_or in_range.old (with_room 8 lent.old (judge_strictly «record».now)) }
    ensures record_value { «record».now ≡ «record».now }
{
    if lent.len() < 8 {
        return TOO_SHORT;
    }
    put_answer(lent, in_range, judge::judge_strictly(record))
}
