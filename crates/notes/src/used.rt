// The notes on what was used in place of readings: the standard atmosphere's temperature and pressure for
// those of a mast that is not set up and for those that are absent, and dry air.
#![tactic(auto, using(pages::proofs::Putting::puts, crate::proofs::Printed::printing), unfolding(crate::specs::Used::temperature_default, crate::specs::Used::pressure_default))]

ghost use Rattle.std.specs.Prelude.{◌≡◌};
ghost use Rattle.pages.specs.Pages.{put};
ghost use Rattle.refusal.specs.Outcomes.{outcome};
ghost use Rattle.notes.specs.Words.{when, printed};
ghost use Rattle.notes.specs.Used.{is_far, as_given, pressure_as_given, air_text, is_temperature_default, is_pressure_default, default_line, temperature_default, pressure_default, absent_notes, used_notes};

use crate::given::{Given, Noted};
use crate::words::{put_figured, put_figured_if, put_if};
use arithmetic::doubles::abs;
use atmosphere::given::Reading;
use atmosphere::resolvers::{in_legacy_default_pressure_band, in_legacy_default_temperature_band};
use fields::fields::{STATION_PRESSURE, TEMPERATURE};
use pages::Page;
use record::entries::{Readings, entry_of};
use refusal::judge::Figures;
use refusal::{Refusal, number};
use station::resolved::{Resolved, given_temperature, ordinary};
use trim::classes::trim_class;

fn pressure_as_given(station_pressure: Option<f64>, otherwise: Reading) -> Reading
    ensures { result ≡ pressure_as_given station_pressure otherwise }
{
    station_pressure.map_or(otherwise, Reading::Given)
}

// The station of the readings without a default band.
pub(crate) fn as_given(readings: Readings) -> Resolved
    ensures { result ≡ as_given readings }
{
    let station = ordinary(readings);
    Resolved {
        altitude_m: station.altitude_m,
        temperature: given_temperature(entry_of(readings, TEMPERATURE)),
        pressure: pressure_as_given(entry_of(readings, STATION_PRESSURE), station.pressure),
        humidity_percent: station.humidity_percent,
    }
}

fn is_far(altitude_m: f64) -> bool
    ensures { result ≡ is_far altitude_m }
{
    abs(altitude_m) > 1.0
}

#[tactic(auto, using(crate::proofs::Absent::absent), unfolding(crate::specs::Used::is_temperature_default))]
fn is_temperature_default(given: Given, altitude_m: f64) -> bool
    ensures { result ≡ is_temperature_default given altitude_m }
{
    given.density_altitude_m.is_none()
        & given
            .temperature_c
            .is_some_and(in_legacy_default_temperature_band)
        & is_far(altitude_m)
}

#[tactic(auto, using(crate::proofs::Absent::absent), unfolding(crate::specs::Used::is_pressure_default))]
fn is_pressure_default(given: Given, altitude_m: f64) -> bool
    ensures { result ≡ is_pressure_default given altitude_m }
{
    given.density_altitude_m.is_none()
        & given
            .station_pressure_hpa
            .is_some_and(in_legacy_default_pressure_band)
        & is_far(altitude_m)
}

// Each puts a note or a piece of it on the page, where it holds.
fn put_air(page: &mut Page<'_>, air: Result<Figures, Refusal>)
    ensures { page.new ≡ put page.old (air_text (outcome air)) }
{
    match air {
        Ok(figures) => {
            let density = figures.density_kg_m3;
            put_figured(page, b"density ", density, 4, b" kg/m3, trim class ");
            page.put_number(trim_class(density));
        }
        Err(refusal) => {
            page.put(b"refused ");
            page.put_number(number(refusal));
        }
    }
}

// A reading that counts as that of a mast that is not set up, what is used in its place, and the air as
// given.
#[tactic(auto, using(pages::proofs::Putting::puts, crate::proofs::Printed::printing), unfolding(crate::specs::Used::default_line))]
fn put_default(
    page: &mut Page<'_>,
    name: &[u8],
    typed: f64,
    band: &[u8],
    used: f64,
    unit: &[u8],
    air: Result<Figures, Refusal>,
)
    ensures { page.new ≡ put page.old (default_line name.now typed band.now used unit.now (outcome air)) }
{
    put_figured(page, name, typed, 3, band);
    put_figured(page, b" the standard atmosphere's ", used, 3, unit);
    put_air(page, air);
    page.put(b"\n");
}

fn put_temperature_default(page: &mut Page<'_>, noted: Noted, air: Result<Figures, Refusal>)
    ensures { page.new ≡ put page.old (when (temperature_default noted.given noted.figures (outcome air)).holds (temperature_default noted.given noted.figures (outcome air)).line) }
{
    if is_temperature_default(noted.given, noted.figures.altitude_m) {
        put_default(
            page,
            b"note: temperature ",
            noted.given.temperature_c.unwrap_or(0.0),
            b" C counts as that of a mast that is not set up, 14.9 to 15.1 C:",
            noted.figures.temperature_c,
            b" C is used; as given: ",
            air,
        );
    }
}

fn put_pressure_default(page: &mut Page<'_>, noted: Noted, air: Result<Figures, Refusal>)
    ensures { page.new ≡ put page.old (when (pressure_default noted.given noted.figures (outcome air)).holds (pressure_default noted.given noted.figures (outcome air)).line) }
{
    if is_pressure_default(noted.given, noted.figures.altitude_m) {
        put_default(
            page,
            b"note: station pressure ",
            noted.given.station_pressure_hpa.unwrap_or(0.0),
            b" hPa counts as that of a mast that is not set up, 1012.75 to 1013.75 hPa:",
            noted.figures.pressure_hpa,
            b" hPa is used; as given: ",
            air,
        );
    }
}

#[tactic(auto, using(pages::proofs::Putting::puts, crate::proofs::Printed::printing, crate::proofs::Absent::absent), unfolding(crate::specs::Used::absent_notes))]
fn put_absent(page: &mut Page<'_>, noted: Noted)
    ensures { page.new ≡ put page.old (printed (absent_notes noted.given noted.figures)) }
{
    let given = noted.given;
    put_figured_if(
        page,
        given.temperature_c.is_none(),
        b"note: no temperature is given: the standard atmosphere's ",
        noted.figures.temperature_c,
        3,
        b" C is used\n",
    );
    put_figured_if(
        page,
        given.density_altitude_m.is_none()
            & given.station_pressure_hpa.is_none()
            & given.qnh_hpa.is_none()
            & given.measured_pressure_hpa.is_none(),
        b"note: no pressure is given: the standard atmosphere's ",
        noted.figures.pressure_hpa,
        3,
        b" hPa is used\n",
    );
    put_if(
        page,
        given.humidity_percent.is_none(),
        b"note: no humidity is given: dry air is used\n",
    );
}

#[tactic(auto, using(pages::proofs::Putting::puts, crate::proofs::Printed::printing), unfolding(crate::specs::Used::used_notes))]
pub(crate) fn put_used(page: &mut Page<'_>, noted: Noted, air: Result<Figures, Refusal>)
    ensures { page.new ≡ put page.old (printed (used_notes noted.given noted.figures (outcome air))) }
{
    put_temperature_default(page, noted, air);
    put_pressure_default(page, noted, air);
    put_absent(page, noted);
}
