// The functions of the station that answer more than one double.
#![tactic(auto, using(pages::proofs::Putting::puts), unfolding(crate::specs::Stations::standard_answer, crate::specs::Stations::atmosphere_answer, crate::specs::Stations::resolved_answer, crate::specs::Stations::accepted_line, crate::specs::Stations::station_answer, crate::specs::Stations::plausibility_answer))]

ghost use Rattle.std.specs.Prelude.{◌≡◌, [], get_or};
ghost use Rattle.pages.specs.Pages.{put};
ghost use Rattle.questions.specs.Words.{line_parts};
ghost use Rattle.refusal.specs.Outcomes.{outcome};
ghost use Rattle.lines.specs.Stations.{option_of, reading_in, accepted_line, inverse_line, standard_answer, atmosphere_answer, resolved_answer, station_answer, plausibility_answer};

use crate::texts::{put_pair, put_pair_truth, put_three};
use crate::value_lines::{put_next_value, put_refusal_values};
use air::conditions::calculate_atmosphere;
use atmosphere::given::Reading;
use atmosphere::layers::calculate_icao_standard_atmosphere;
use atmosphere::plausibility::station_pressure_plausibility;
use density_altitude::inverse::{
    resolve_atmosphere_for_density_altitude, station_for_density_altitude,
};
use fields::bits::double;
use pages::Page;
use questions::arguments::double_at;
use questions::forms::given_in;
use questions::words::nth_word;
use refusal::Refusal;
use refusal::inverse::Station;

fn reading_of(given: Option<u64>) -> Reading
    ensures { result ≡ option_of given }
{
    match given {
        Some(bits) => Reading::Given(double(bits)),
        None => Reading::FromLayer,
    }
}

// A reading, or none.
fn reading_at(line: &[u8], i: usize) -> Reading
    ensures { result ≡ reading_in (get_or (line_parts line.now) i []) }
{
    reading_of(given_in(nth_word(line, i)))
}

pub(crate) fn put_standard(page: &mut Page<'_>, line: &[u8])
    ensures { page.new ≡ put page.old (standard_answer (line_parts line.now)) }
{
    let air = calculate_icao_standard_atmosphere(double_at(line, 1));
    put_pair(page, air.temperature_k, air.pressure_pa);
}

pub(crate) fn put_atmosphere(page: &mut Page<'_>, line: &[u8])
    ensures { page.new ≡ put page.old (atmosphere_answer (line_parts line.now)) }
{
    let altitude_m = double_at(line, 1);
    let temperature = reading_at(line, 2);
    let pressure = reading_at(line, 3);
    let humidity_percent = double_at(line, 4);
    let air = calculate_atmosphere(altitude_m, temperature, pressure, humidity_percent);
    put_pair(page, air.density_kg_m3, air.speed_of_sound_mps);
}

pub(crate) fn put_resolved(page: &mut Page<'_>, line: &[u8])
    ensures { page.new ≡ put page.old (resolved_answer (line_parts line.now)) }
{
    let density_altitude_m = double_at(line, 1);
    let temperature = reading_at(line, 2);
    let station = resolve_atmosphere_for_density_altitude(density_altitude_m, temperature);
    put_three(
        page,
        station.altitude_m,
        station.temperature_c,
        station.pressure_hpa,
    )
}

fn put_accepted(page: &mut Page<'_>, station: Station)
    ensures { page.new ≡ put page.old (accepted_line station) }
{
    page.put(b"accepted");
    put_next_value(page, station.altitude_m);
    put_next_value(page, station.temperature_c);
    put_next_value(page, station.pressure_hpa);
    page.put(b"\n");
}

fn put_found(page: &mut Page<'_>, answer: Result<Station, Refusal>)
    ensures { page.new ≡ put page.old (inverse_line (outcome answer)) }
{
    match answer {
        Ok(station) => put_accepted(page, station),
        Err(refusal) => put_refusal_values(page, refusal),
    }
}

pub(crate) fn put_station(page: &mut Page<'_>, line: &[u8])
    ensures { page.new ≡ put page.old (station_answer (line_parts line.now)) }
{
    let density_altitude_m = double_at(line, 1);
    let temperature = reading_at(line, 2);
    let answer = station_for_density_altitude(density_altitude_m, temperature);
    put_found(page, answer);
}

pub(crate) fn put_plausibility(page: &mut Page<'_>, line: &[u8])
    ensures { page.new ≡ put page.old (plausibility_answer (line_parts line.now)) }
{
    let station_pressure_pa = double_at(line, 1);
    let altitude_m = double_at(line, 2);
    let judged = station_pressure_plausibility(station_pressure_pa, altitude_m);
    put_pair_truth(
        page,
        judged.icao_standard_pa,
        judged.ratio,
        judged.implausible,
    )
}
