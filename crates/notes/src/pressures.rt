// The notes on a pressure that does not belong to the altitude, and what else it may have been.
#![tactic(auto, using(pages::proofs::Putting::puts, crate::proofs::Printed::printing), unfolding(crate::specs::Pressures::meant_notes, crate::specs::Pressures::unit_notes))]

ghost use Rattle.std.specs.Prelude.{◌≡◌};
ghost use Rattle.pages.specs.Pages.{put};
ghost use Rattle.notes.specs.Words.{when, printed};
ghost use Rattle.notes.specs.Pressures.{beside, is_plausible, is_doubtful, reduced_given, beside_line, meant_notes, resolved_as, unit_notes, pressure_notes};

use crate::given::{Given, Noted, pressure_given};
use crate::words::{put_figured, put_figured_if};
use atmosphere::plausibility::{StationPressurePlausibility, station_pressure_plausibility};
use atmosphere::resolvers::reduce_qnh_to_station_pressure;
use pages::Page;
use refusal::judge::Figures;

fn beside(pressure_hpa: f64, altitude_m: f64) -> StationPressurePlausibility
    ensures { result ≡ beside pressure_hpa altitude_m }
{
    station_pressure_plausibility(100.0 * pressure_hpa, altitude_m)
}

#[tactic(auto, unfolding(crate::specs::Pressures::is_plausible))]
fn is_plausible(pressure_hpa: f64, altitude_m: f64) -> bool
    ensures { result ≡ is_plausible pressure_hpa altitude_m }
{
    !beside(pressure_hpa, altitude_m).implausible
}

// Whether a pressure that is given resolves to an implausible one, with no density altitude.
#[tactic(auto, using(crate::proofs::Absent::absent))]
fn is_doubtful(given: Given, implausible: bool) -> bool
    ensures { result ≡ is_doubtful given implausible }
{
    let is_given = given.station_pressure_hpa.is_some()
        | given.qnh_hpa.is_some()
        | given.measured_pressure_hpa.is_some();
    given.density_altitude_m.is_none() & is_given & implausible
}

// The pressure that is given, taken for a QNH.
#[tactic(auto, unfolding(crate::specs::Pressures::reduced_given))]
fn reduced(given: Given, altitude_m: f64) -> f64
    ensures { result ≡ reduced_given given altitude_m }
{
    reduce_qnh_to_station_pressure(pressure_given(given), altitude_m)
}

// A pressure, resolved as the one that is given is: a QNH is reduced.
#[tactic(auto, unfolding(crate::specs::Pressures::resolved_as))]
fn resolved_as(given: Given, pressure_hpa: f64, altitude_m: f64) -> f64
    ensures { result ≡ resolved_as given pressure_hpa altitude_m }
{
    if given.qnh_hpa.is_some() {
        reduce_qnh_to_station_pressure(pressure_hpa, altitude_m)
    } else {
        pressure_hpa
    }
}

// Each puts a note or tries on the page, where they hold.
fn put_beside(
    page: &mut Page<'_>,
    holds: bool,
    figures: Figures,
    found: StationPressurePlausibility,
)
    ensures { page.new ≡ put page.old (when holds (beside_line figures found)) }
{
    if holds {
        put_figured(page, b"note: ", figures.pressure_hpa, 3, b" hPa is");
        put_figured(page, b" ", found.ratio, 3, b" times the standard pressure");
        put_figured(page, b" at ", figures.altitude_m, 1, b" m");
        put_figured(
            page,
            b", ",
            found.icao_standard_pa / 100.0,
            3,
            b" hPa: weather stays within 0.85 and 1.08\n",
        );
    }
}

// What to try where the pressure is in doubt and would be plausible otherwise: of another kind, a QNH for a
// pressure at the station, or the reverse.
fn put_meant(page: &mut Page<'_>, doubtful: bool, noted: Noted)
    ensures { page.new ≡ put page.old (printed (meant_notes doubtful noted.given noted.figures)) }
{
    let given = noted.given;
    let altitude_m = noted.figures.altitude_m;
    put_figured_if(
        page,
        doubtful
            & (given.station_pressure_hpa.is_some() | given.measured_pressure_hpa.is_some())
            & is_plausible(reduced(given, altitude_m), altitude_m),
        b"try: qnh=",
        pressure_given(given),
        3,
        b" if it is a QNH\n",
    );
    if let Some(qnh_hpa) = given.qnh_hpa {
        put_figured_if(
            page,
            doubtful & is_plausible(qnh_hpa, altitude_m),
            b"try: pressure=",
            qnh_hpa,
            3,
            b" if it was measured at the station\n",
        );
    }
}

// In another unit.
fn put_units(page: &mut Page<'_>, doubtful: bool, noted: Noted)
    ensures { page.new ≡ put page.old (printed (unit_notes doubtful noted.given noted.figures)) }
{
    let given = noted.given;
    let altitude_m = noted.figures.altitude_m;
    let pressure_hpa = pressure_given(given);
    let from_kilopascals = resolved_as(given, 10.0 * pressure_hpa, altitude_m);
    let from_inches = resolved_as(given, 33.8639 * pressure_hpa, altitude_m);
    put_figured_if(
        page,
        doubtful & is_plausible(noted.figures.pressure_hpa, 0.3048 * altitude_m),
        b"try: altitude=",
        given.altitude_m.unwrap_or(0.0),
        3,
        b"ft if the altitude is in feet\n",
    );
    put_figured_if(
        page,
        doubtful & is_plausible(from_kilopascals, altitude_m),
        b"try: ",
        pressure_hpa,
        3,
        b"kPa if the pressure is in kPa\n",
    );
    put_figured_if(
        page,
        doubtful & is_plausible(from_inches, altitude_m),
        b"try: ",
        pressure_hpa,
        3,
        b"inHg if the pressure is in inches of mercury\n",
    );
}

#[tactic(auto, using(pages::proofs::Putting::puts, crate::proofs::Printed::printing), unfolding(crate::specs::Pressures::notes_beside))]
pub(crate) fn put_pressures(page: &mut Page<'_>, noted: Noted)
    ensures { page.new ≡ put page.old (printed (pressure_notes noted.given noted.figures)) }
{
    let given = noted.given;
    let figures = noted.figures;
    let found = beside(figures.pressure_hpa, figures.altitude_m);
    let doubtful = is_doubtful(given, found.implausible);
    put_beside(page, doubtful, figures, found);
    put_meant(page, doubtful, noted);
    put_units(page, doubtful, noted);
}
