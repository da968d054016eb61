// The setting sheet.
#![tactic(auto, unfolding(crate::specs::Lent::with_room))]

ghost use Rattle.std.specs.Prelude.{◌≡◌, ◌≤◌, length, take};
ghost use Rattle.refusal.specs.Refusals.{listed};
ghost use Rattle.sheet.specs.Over.{over_or_left};
ghost use Rattle.exports.specs.Lent.{handed_out, status_of, values_after};
ghost use Rattle.exports.specs.Sheets.{sheet_in};

use crate::lent::{FIGURES, TOO_SHORT, hand_out};
use refusal::{Values, handed_out, number};
use sheet::page::setting_sheet;

// The first of the values, if there is one.
fn put_first(lent: &mut [f64], values: Values)
    requires { 1 ≤ length lent.old }
    ensures { lent.new ≡ handed_out (take 1 (listed values)) lent.old }
{
    match values {
        Values::None => {}
        Values::One(a) | Values::Two(a, _) => hand_out(lent, &[a]),
    }
}

// Writes the setting sheet on the first 1,530 bytes of the page, or answers the refusal, 11 to 17, with
// the value of 11, 12 or 13 in `lent`. A refusal leaves the page as it was, and so does 255, where `lent`
// has no place.
pub fn station_air_setting_sheet(
    altitude_m: f64,
    pressure_hpa: f64,
    humidity_percent: f64,
    page: &mut [u8],
    lent: &mut [f64],
) -> u32
    ensures value { result ≡ status_of (sheet_in lent.old altitude_m pressure_hpa humidity_percent page.old) }
    ensures page_after { page.new
        ≡ over_or_left page.old 0 (sheet_in lent.old altitude_m pressure_hpa humidity_percent page.old) }
    ensures lent_after { lent.new
        ≡ values_after lent.old (sheet_in lent.old altitude_m pressure_hpa humidity_percent page.old) }
{
    if lent.len() < 1 {
        return TOO_SHORT;
    }
    match setting_sheet(altitude_m, pressure_hpa, humidity_percent, page) {
        Ok(()) => FIGURES,
        Err(refusal) => {
            put_first(lent, handed_out(refusal));
            u32::from(number(refusal))
        }
    }
}
