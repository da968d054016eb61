// The lines of a report with the figures of the station and of its air, and the mark in words.
#![tactic(auto, using(pages::proofs::Putting::puts), unfolding(crate::specs::AirLines::station_lines, crate::specs::AirLines::air_lines))]

ghost use Rattle.std.specs.Prelude.{◌≡◌};
ghost use Rattle.pages.specs.Pages.{put};
ghost use Rattle.report.specs.AirLines.{station_lines, air_lines, mark_line};

use crate::columns::put_figure;
use pages::Page;
use refusal::judge::Figures;

// The lines of the station: its altitude, temperature and pressure.
pub fn put_station(page: &mut Page<'_>, figures: Figures)
    ensures { page.new ≡ put page.old (station_lines figures) }
{
    put_figure(
        page,
        b"altitude                ",
        figures.altitude_m,
        1,
        b" m\n",
    );
    put_figure(
        page,
        b"temperature             ",
        figures.temperature_c,
        2,
        b" C\n",
    );
    put_figure(
        page,
        b"station pressure        ",
        figures.pressure_hpa,
        3,
        b" hPa\n",
    );
}

// The lines of the figures from density to vapour.
pub fn put_air(page: &mut Page<'_>, figures: Figures)
    ensures { page.new ≡ put page.old (air_lines figures) }
{
    put_figure(
        page,
        b"density                 ",
        figures.density_kg_m3,
        4,
        b" kg/m3, the reference for the trim table\n",
    );
    put_figure(
        page,
        b"speed of sound          ",
        figures.speed_of_sound_mps,
        1,
        b" m/s\n",
    );
    put_figure(
        page,
        b"pressure altitude       ",
        figures.pressure_altitude_m,
        1,
        b" m\n",
    );
    put_figure(
        page,
        b"density-matched altitude",
        figures.density_matched_altitude_m,
        1,
        b" m\n",
    );
    put_figure(
        page,
        b"vapour mole fraction    ",
        figures.vapor_mole_fraction,
        6,
        b" mol/mol\n",
    );
}

// Whether the figures lie in CIPM-2007's range.
pub fn put_mark(page: &mut Page<'_>, in_cipm_range: bool)
    ensures { page.new ≡ put page.old (mark_line in_cipm_range) }
{
    if in_cipm_range {
        page.put(b"in the range for which CIPM-2007 states its formula\n");
    } else {
        page.put(b"outside the range for which CIPM-2007 states its formula\n");
    }
}
