// The sheet to pin up: the setting sheet under a heading, each row with its trim class, and the limits; or
// why it is refused, or what readings a sheet takes.
#![tactic(auto, using(pages::proofs::Putting::puts), unfolding(crate::specs::SheetText::row_of, crate::specs::SheetText::refused_sheet, crate::specs::SheetText::sheet_of))]

mod rows;
mod sheet_lines;

ghost use Rattle.std.specs.Prelude.{◌≡◌};
ghost use Rattle.refusal.specs.Refusals.{number_of};
ghost use Rattle.mast.specs.Checks.{has};
ghost use Rattle.pages.specs.Pages.{put};
ghost use Rattle.sheet_text.specs.SheetText.{row_of, refused_sheet, sheet_page, pressure_for, sheet_at, takes_other, is_wanting, sheet_of};

use crate::rows::Site;
use crate::sheet_lines::{put_heading, put_limits, put_rows};
use atmosphere::given::Reading;
use decimals::figures::put_shown;
use fields::fields::{
    ALTITUDE, DENSITY_ALTITUDE, MEASURED_PRESSURE, QNH, STATION_PRESSURE, TEMPERATURE,
};
use pages::Page;
use record::entries::{Readings, entry_of};
use refusal::{Refusal, number};
use report::Origin;
use report::advice::put_cause;
use sheet::page::{celsius, setting_sheet};
use station::figures::figures_of;
use station::resolved::{Resolved, ordinary};

// Whether a reading is there.
fn has(readings: Readings, meaning: usize) -> bool
    ensures { result ≡ has readings meaning }
{
    entry_of(readings, meaning).is_some()
}

// The row that is refused: the numbers up to 13 are of inputs, which all rows share.
fn put_row_of(page: &mut Page<'_>, site: Site, number: u8)
    ensures { page.new ≡ put page.old (row_of site number) }
{
    if number > 13 {
        page.put(b"row: ");
        put_shown(page, celsius(site.refused_row().unwrap_or(51)), 1);
        page.put(b" C\n");
    }
}

fn put_refused_sheet(page: &mut Page<'_>, site: Site, refusal: Refusal)
    ensures { page.new ≡ put page.old (refused_sheet site (number_of refusal)) }
{
    let number = number(refusal);
    page.put_refusal(number);
    put_row_of(page, site, number);
    put_cause(page, Origin::Words(false), number);
}

fn put_sheet_page(page: &mut Page<'_>, site: Site, readings: Readings, resolved: Reading)
    ensures { page.new ≡ put page.old (sheet_page site readings resolved) }
{
    let mut rows = [0u8; 1530];
    match setting_sheet(
        site.altitude_m,
        site.pressure_hpa,
        site.humidity_percent,
        &mut rows,
    ) {
        Ok(()) => {
            put_heading(page, site, readings, resolved);
            put_rows(page, &rows, site);
            put_limits(page, site);
        }
        Err(refusal) => put_refused_sheet(page, site, refusal),
    }
}

// The pressure that a sheet is for: what is resolved, or a QNH that is not above 0, to be refused.
fn pressure_for(qnh: Option<f64>, resolved_hpa: f64) -> f64
    ensures { result ≡ pressure_for qnh resolved_hpa }
{
    match qnh {
        Some(q) if q <= 0.0 => q,
        _ => resolved_hpa,
    }
}

#[tactic(auto, using(pages::proofs::Putting::puts), unfolding(station::specs::Figures::figures_with))]
fn put_sheet_at(page: &mut Page<'_>, readings: Readings, resolved: Resolved)
    ensures { page.new ≡ put page.old (sheet_at readings resolved) }
{
    let figures = figures_of(resolved).figures;
    let site = Site {
        altitude_m: resolved.altitude_m,
        pressure_hpa: pressure_for(entry_of(readings, QNH), figures.pressure_hpa),
        humidity_percent: resolved.humidity_percent,
    };
    put_sheet_page(page, site, readings, resolved.pressure);
}

// Whether there is a reading that a sheet does not take.
fn takes_other(readings: Readings) -> bool
    ensures { result ≡ takes_other readings }
{
    has(readings, TEMPERATURE) | has(readings, DENSITY_ALTITUDE)
}

// Whether a reading that a sheet needs is absent, or one pressure too many is there.
fn is_wanting(readings: Readings) -> bool
    ensures { result ≡ is_wanting readings }
{
    let station_pressure = has(readings, STATION_PRESSURE);
    let qnh = has(readings, QNH);
    let measured = has(readings, MEASURED_PRESSURE);
    !has(readings, ALTITUDE)
        | !(station_pressure | qnh | measured)
        | (station_pressure & qnh)
        | (measured & (station_pressure | qnh))
}

// The sheet of any readings.
pub fn put_sheet_of(page: &mut Page<'_>, readings: Readings)
    ensures { page.new ≡ put page.old (sheet_of readings) }
{
    if takes_other(readings) {
        page.put(
            b"a sheet takes altitude=, one pressure and humidity=, and no temperature= or density-altitude=: its rows have the temperatures\n",
        );
    } else if is_wanting(readings) {
        page.put(
            b"a sheet needs altitude= and one of pressure=, station-pressure= and qnh=, as park sheet altitude=1586 pressure=841.9 humidity=32\n",
        );
    } else {
        put_sheet_at(page, readings, ordinary(readings));
    }
}
