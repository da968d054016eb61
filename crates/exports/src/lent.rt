// What is written to lent arrays, marks and lengths, and the statuses that are no number of a refusal.
// An array has the places that are needed: an exported function tests that before it computes anything.
ghost use Rattle.std.specs.Prelude.{◌≡◌, ◌≤◌, length};
ghost use Rattle.refusal.specs.Refusals.{number_of, values_of, listed};
ghost use Rattle.refusal.specs.Outcomes.{outcome};
ghost use Rattle.exports.specs.Lent.{handed_out, left_in, status_of, station_values, figure_values, mark_or, length_or};

use refusal::inverse::Station;
use refusal::judge::Figures;
use refusal::{Refusal, Values, handed_out, number};

// The status of figures.
pub(crate) const FIGURES: u32 = 0;

// The status of a lent array that is too short.
pub(crate) const TOO_SHORT: u32 = 255;

// The values in the first places of a lent array.
pub(crate) fn hand_out<T: Copy>(lent: &mut [T], values: &[T])
    requires { length values.now ≤ length lent.old }
    ensures { lent.new ≡ handed_out values.now lent.old }
{
    lent[..values.len()].copy_from_slice(values);
}

pub(crate) fn put_station(lent: &mut [f64], station: Station)
    requires { 3 ≤ length lent.old }
    ensures { lent.new ≡ handed_out (station_values station) lent.old }
{
    hand_out(
        lent,
        &[
            station.altitude_m,
            station.temperature_c,
            station.pressure_hpa,
        ],
    );
}

fn put_figures(lent: &mut [f64], figures: Figures)
    requires { 8 ≤ length lent.old }
    ensures { lent.new ≡ handed_out (figure_values figures) lent.old }
{
    hand_out(
        lent,
        &[
            figures.altitude_m,
            figures.temperature_c,
            figures.pressure_hpa,
            figures.density_kg_m3,
            figures.speed_of_sound_mps,
            figures.pressure_altitude_m,
            figures.density_matched_altitude_m,
            figures.vapor_mole_fraction,
        ],
    );
}

fn put_values(lent: &mut [f64], values: Values)
    requires { 2 ≤ length lent.old }
    ensures { lent.new ≡ handed_out (listed values) lent.old }
{
    match values {
        Values::None => {}
        Values::One(a) => hand_out(lent, &[a]),
        Values::Two(a, b) => hand_out(lent, &[a, b]),
    }
}

// The refusal's number, with its values in the first places.
pub(crate) fn put_refusal(lent: &mut [f64], refusal: Refusal) -> u32
    requires { 2 ≤ length lent.old }
    ensures value { result ≡ number_of refusal }
    ensures lent_after { lent.new ≡ handed_out (values_of refusal) lent.old }
{
    put_values(lent, handed_out(refusal));
    u32::from(number(refusal))
}

// The status of what the judge answers, with its figures and their mark or its refusal's values.
pub(crate) fn put_answer(
    lent: &mut [f64],
    in_range: &mut bool,
    answer: Result<Figures, Refusal>,
) -> u32
    requires { 8 ≤ length lent.old }
    ensures value { result ≡ status_of (outcome answer) }
    ensures lent_after { lent.new ≡ left_in figure_values lent.old (outcome answer) }
    ensures in_range_after { in_range.new ≡ mark_or in_range.old (outcome answer) }
{
    match answer {
        Ok(figures) => {
            put_figures(lent, figures);
            *in_range = figures.in_cipm_range;
            FIGURES
        }
        Err(refusal) => put_refusal(lent, refusal),
    }
}

// The status of what a writer answers, with the length that it wrote.
pub(crate) fn put_length(length: &mut usize, answer: Result<usize, Refusal>) -> u32
    ensures value { result ≡ status_of (outcome answer) }
    ensures length_after { length.new ≡ length_or length.old (outcome answer) }
{
    match answer {
        Ok(n) => {
            *length = n;
            FIGURES
        }
        Err(refusal) => u32::from(number(refusal)),
    }
}
