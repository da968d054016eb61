// The notes on a temperature and an altitude outside the range over which the figures were compared with
// the source, and the unit that may have been meant.
#![tactic(auto, using(pages::proofs::Putting::puts, crate::proofs::Printed::printing), unfolding(crate::specs::Ranges::temperature_notes, crate::specs::Ranges::altitude_notes))]

ghost use Rattle.std.specs.Prelude.{◌≡◌, ◌&&◌};
ghost use Rattle.pages.specs.Pages.{put};
ghost use Rattle.notes.specs.Words.{when, printed};
ghost use Rattle.notes.specs.Ranges.{is_compared_temperature, is_compared_altitude, is_outside_temperatures, is_outside_altitudes, is_in_feet, feet_line, temperature_notes, altitude_notes, range_notes};

use crate::given::{Given, Noted};
use crate::words::put_figured_if;
use pages::Page;

fn is_compared_temperature(temperature_c: f64) -> bool
    ensures { result ≡ is_compared_temperature temperature_c }
{
    (-40.0 <= temperature_c) & (temperature_c <= 50.0)
}

fn is_compared_altitude(altitude_m: f64) -> bool
    ensures { result ≡ is_compared_altitude altitude_m }
{
    (-500.0 <= altitude_m) & (altitude_m <= 5000.0)
}

// Neither holds of what is not a number.
fn is_outside_temperatures(temperature_c: f64) -> bool
    ensures { result ≡ is_outside_temperatures temperature_c }
{
    (temperature_c < -40.0) | (temperature_c > 50.0)
}

fn is_outside_altitudes(altitude_m: f64) -> bool
    ensures { result ≡ is_outside_altitudes altitude_m }
{
    (altitude_m < -500.0) | (altitude_m > 5000.0)
}

// Each puts notes on the page, where they hold.
fn put_temperature_range(page: &mut Page<'_>, given: Given, temperature_c: f64)
    ensures { page.new ≡ put page.old (printed (temperature_notes given temperature_c)) }
{
    let outside = is_outside_temperatures(temperature_c);
    put_figured_if(
        page,
        outside,
        b"note: ",
        temperature_c,
        3,
        b" C is outside -40 to 50 C, over which the figures were compared with the source\n",
    );
    if let Some(typed) = given.temperature_c {
        put_figured_if(
            page,
            outside & is_compared_temperature((typed - 32.0) * 5.0 / 9.0),
            b"try: temperature=",
            typed,
            3,
            b"F if it is in degrees Fahrenheit\n",
        );
        put_figured_if(
            page,
            outside & is_compared_temperature(typed - 273.15),
            b"try: temperature=",
            typed,
            3,
            b"K if it is in kelvins\n",
        );
    }
}

// An altitude that was given, as feet, where it would lie in the range so.
#[tactic(auto, using(pages::proofs::Putting::puts, crate::proofs::Printed::printing), unfolding(crate::specs::Ranges::is_in_feet, crate::specs::Ranges::feet_line))]
fn put_feet(page: &mut Page<'_>, outside: bool, before: &[u8], typed_m: Option<f64>)
    ensures { page.new ≡ put page.old (when (outside && is_in_feet typed_m) (feet_line before.now typed_m)) }
{
    if let Some(typed) = typed_m {
        put_figured_if(
            page,
            outside & is_compared_altitude(0.3048 * typed),
            before,
            typed,
            3,
            b"ft if it is in feet\n",
        );
    }
}

fn put_altitude_range(page: &mut Page<'_>, given: Given, altitude_m: f64)
    ensures { page.new ≡ put page.old (printed (altitude_notes given altitude_m)) }
{
    let outside = is_outside_altitudes(altitude_m);
    put_figured_if(
        page,
        outside,
        b"note: ",
        altitude_m,
        1,
        b" m is outside -500 to 5000 m, over which the figures were compared with the source\n",
    );
    put_feet(page, outside, b"try: altitude=", given.altitude_m);
    put_feet(
        page,
        outside,
        b"try: density-altitude=",
        given.density_altitude_m,
    );
}

#[tactic(auto, using(pages::proofs::Putting::puts, crate::proofs::Printed::printing), unfolding(crate::specs::Ranges::range_notes))]
pub(crate) fn put_ranges(page: &mut Page<'_>, noted: Noted)
    ensures { page.new ≡ put page.old (printed (range_notes noted.given noted.figures)) }
{
    put_temperature_range(page, noted.given, noted.figures.temperature_c);
    put_altitude_range(page, noted.given, noted.figures.altitude_m);
}
