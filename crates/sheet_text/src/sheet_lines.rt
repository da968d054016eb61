// The lines of a sheet to pin up: the heading, the rows with their trim class, and the limits.
#![tactic(auto, using(pages::proofs::Putting::puts), unfolding(crate::specs::Lines::reading_places, crate::specs::Lines::heading_line, crate::specs::Lines::source_line, crate::specs::Lines::doubt_line, crate::specs::Lines::row_line, crate::specs::Lines::degree_places, crate::specs::Lines::limit_part))]

ghost use Rattle.std.specs.Prelude.{◌≡◌, length};
ghost use Rattle.pages.specs.Pages.{put};
ghost use Rattle.sheet_text.specs.Lines.{heading_line, mast_line, source_line, doubt_line, heading, row_line, row_lines, degree_places, limit_part, limit_lines};

use crate::has;
use crate::rows::Site;
use atmosphere::given::Reading;
use atmosphere::plausibility::station_pressure_plausibility;
use decimals::figures::{put_last, put_shown};
use decimals::shown::decimal_text;
use fields::fields::{MEASURED_PRESSURE, QNH, STATION_PRESSURE};
use pages::Page;
use record::entries::{Readings, entry_of, value_or_zero};
use sheet::page::celsius;
use trim::classes::trim_class;

// A reading of the heading, in sixteen places.
fn put_reading(page: &mut Page<'_>, name: &[u8], x: f64, unit: &[u8])
    ensures { page.new ≡ put page.old (heading_line name.now x unit.now) }
{
    page.put(name);
    page.put(&decimal_text(x, 3).bytes);
    page.put(unit);
}

fn mast_line(resolved: Reading) -> &'static [u8]
    ensures { result.now ≡ mast_line resolved }
{
    match resolved {
        Reading::Given(_) => b", a mast's",
        Reading::FromLayer => b", the standard atmosphere's, for a mast that is not set up",
    }
}

// Where the pressure comes from.
fn put_source(page: &mut Page<'_>, readings: Readings, resolved: Reading)
    ensures { page.new ≡ put page.old (source_line readings resolved) }
{
    if has(readings, MEASURED_PRESSURE) {
        page.put(b", measured");
    } else if has(readings, STATION_PRESSURE) {
        page.put(mast_line(resolved));
    } else {
        page.put(b", from the QNH ");
        put_shown(page, value_or_zero(entry_of(readings, QNH)), 3);
        page.put(b" hPa");
    }
}

// Whether the pressure belongs to the altitude.
fn put_doubt(page: &mut Page<'_>, altitude_m: f64, pressure_hpa: f64)
    ensures { page.new ≡ put page.old (doubt_line altitude_m pressure_hpa) }
{
    if station_pressure_plausibility(100.0 * pressure_hpa, altitude_m).implausible {
        page.put(b", implausible at this altitude\n");
    } else {
        page.put(b"\n");
    }
}

// The heading, with the readings and what their pressure resolves to.
#[tactic(auto, using(pages::proofs::Putting::puts, arithmetic::proofs::Kit::append_assoc), unfolding(crate::specs::Lines::heading, crate::specs::Lines::pressure_words))]
pub(crate) fn put_heading(page: &mut Page<'_>, site: Site, readings: Readings, resolved: Reading)
    ensures { page.new ≡ put page.old (heading site readings resolved) }
{
    page.put(
        b"setting sheet for the trim brakes\npark ______________________________ date ____________\n",
    );
    put_reading(page, b"altitude ", site.altitude_m, b" m\n");
    put_reading(page, b"pressure ", site.pressure_hpa, b" hPa");
    put_source(page, readings, resolved);
    put_doubt(page, site.altitude_m, site.pressure_hpa);
    put_reading(page, b"humidity ", site.humidity_percent, b" percent\n");
    page.put(b"  temp density  sound matched class\n     C   kg/m3    m/s       m\n");
}

fn put_row(page: &mut Page<'_>, figures: &[u8], class: u8)
    ensures { page.new ≡ put page.old (row_line figures.now class) }
{
    page.put(figures);
    page.put(b"     ");
    page.put_number(class);
    page.put(b"\n");
}

// The rows of a sheet's text, each with its class.
pub(crate) fn put_rows(page: &mut Page<'_>, rows: &[u8], site: Site)
    requires { length rows.now ≡ 1530 }
    ensures { page.new ≡ put page.old (row_lines site rows.now 51) }
{
    for n in 0..51u32 {
        let class = trim_class(site.density(n));
        let start = 30 * n as usize;
        put_row(page, &rows[start..start + 29], class);
    }
}

// The temperature of a row, if there is one, in five places.
fn put_degrees(page: &mut Page<'_>, row: Option<u32>)
    ensures { page.new ≡ put page.old (degree_places row) }
{
    match row {
        Some(n) => put_last(page, &decimal_text(celsius(n), 0).bytes, 5),
        None => page.put(b"    -"),
    }
}

// A limit, with the first row whose density is below it.
fn put_limit(page: &mut Page<'_>, site: Site, words: &[u8], limit_kg_m3: f64)
    ensures { page.new ≡ put page.old (limit_part site words.now limit_kg_m3) }
{
    page.put(words);
    put_degrees(page, site.first_below(limit_kg_m3));
    page.put(b" C");
}

// The limits from the greatest to the least, three on a line.
pub(crate) fn put_limits(page: &mut Page<'_>, site: Site)
    ensures { page.new ≡ put page.old (limit_lines site) }
{
    put_limit(page, site, b"below 1.25 from", 1.25);
    put_limit(page, site, b"   below 1.20 from", 1.2);
    put_limit(page, site, b"   below 1.15 from", 1.15);
    page.put(b"\n");
    put_limit(page, site, b"below 1.10 from", 1.1);
    put_limit(page, site, b"   below 1.05 from", 1.05);
    put_limit(page, site, b"   below 1.00 from", 1.0);
    page.put(b"\n");
}
