// The judge: eight figures and their mark, or one refusal, by a fixed order of checks.
ghost use Rattle.std.specs.Prelude.{None, Some, ◌≡◌};
ghost use Rattle.fields.specs.Fields.{humidity};
ghost use Rattle.refusal.specs.Outcomes.{◌then◌, outcome};
ghost use Rattle.record.specs.Entries.{entry_of};
ghost use Rattle.mast.specs.Judge.{air_outcome, way_rows, resolved_by, judged, judge, judge_strictly};
ghost use Rattle.mast.specs.Checks.{humidity_rows, present};
ghost use Rattle.station.specs.Resolved.{at_station};

use crate::checks::{check_humidity, check_ordinary, is_clash};
use density_altitude::inverse::station_for_density_altitude;
use fields::fields::{DENSITY_ALTITUDE, HUMIDITY, TEMPERATURE};
use record::entries::{Readings, entry_of};
use record::readings::{read_record, read_record_strictly};
use refusal::Refusal;
use refusal::inverse::Station;
use refusal::judge::Figures;
use station::figures::{figures_of, is_air};
use station::resolved::{Resolved, at_station, given_temperature, ordinary};

// The figures of a station and their mark, or the refusal 14 or 15: there is more vapour than air, or the
// figures are not air's.
#[tactic(auto, unfolding(crate::specs::Judge::air_outcome))]
pub fn answer_of(resolved: Resolved) -> Result<Figures, Refusal>
    ensures { outcome result ≡ air_outcome resolved }
{
    let found = figures_of(resolved);
    if found.uncapped_vapor_mole_fraction > 1.0 {
        return Err(Refusal::TooMuchVapor);
    }
    let figures = found.figures;
    if !is_air(figures) {
        return Err(Refusal::NotAir);
    }
    Ok(figures)
}

// Readings without 06.
fn ordinary_answer(readings: Readings) -> Result<Figures, Refusal>
    ensures { outcome result ≡ (way_rows readings None then air_outcome (resolved_by readings None)) }
{
    check_ordinary(readings)?;
    answer_of(ordinary(readings))
}

// Readings with 06.
fn inverse_answer(density_altitude_m: f64, readings: Readings) -> Result<Figures, Refusal>
    ensures { outcome result ≡ (way_rows readings (Some density_altitude_m) then air_outcome (resolved_by readings (Some density_altitude_m))) }
{
    let temperature = given_temperature(entry_of(readings, TEMPERATURE));
    let station = station_for_density_altitude(density_altitude_m, temperature)?;
    check_humidity(entry_of(readings, HUMIDITY))?;
    answer_of(at_station(station, readings))
}

// What readings give: their figures and mark, or one refusal, a cause 1 to 4 or 9 to 15.
#[tactic(auto, using(refusal::proofs::Rows::then_append), unfolding(crate::specs::Judge::judged, crate::specs::Judge::air_outcome))]
pub fn judge_readings(readings: Readings) -> Result<Figures, Refusal>
    ensures { outcome result ≡ judged readings }
{
    if is_clash(readings) {
        return Err(Refusal::Clash);
    }
    match entry_of(readings, DENSITY_ALTITUDE) {
        Some(density_altitude_m) => inverse_answer(density_altitude_m, readings),
        None => ordinary_answer(readings),
    }
}

// What the bytes of a record give, with its tags in any order: its figures and mark, or one refusal. The
// record is left as it was.
#[tactic(auto, unfolding(crate::specs::Judge::judge))]
pub fn judge(bytes: &[u8]) -> Result<Figures, Refusal>
    ensures { outcome result ≡ judge bytes.now }
{
    judge_readings(read_record(bytes)?)
}

// What the bytes of a record give whose tags rise: its figures and mark, or one refusal, 19 where a tag is
// below the one before it. The record is left as it was.
#[tactic(auto, unfolding(crate::specs::Judge::judge_strictly))]
pub fn judge_strictly(bytes: &[u8]) -> Result<Figures, Refusal>
    ensures { outcome result ≡ judge_strictly bytes.now }
{
    judge_readings(read_record_strictly(bytes)?)
}
