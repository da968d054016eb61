// The page: all rows are judged on a page of its own before the first byte of the lent one is written.
ghost use Rattle.std.specs.Prelude.{ℕ, List, ◌≡◌, length};
ghost use Rattle.refusal.specs.Outcomes.{passed, accepted, outcome};
ghost use Rattle.pages.specs.Pages.{put};
ghost use Rattle.sheet.specs.Over.{over_or_left};
ghost use Rattle.sheet.specs.Sheet.{celsius_of_row, rows, sheet_input_rows, setting_sheet, bare};

use super::row::write_row;
use mast::checks::{check_altitude, check_humidity, check_pressure};
use pages::Page;
use refusal::Refusal;

fn check_inputs(altitude_m: f64, pressure_hpa: f64, humidity_percent: f64) -> Result<(), Refusal>
    ensures { outcome result ≡ passed (sheet_input_rows altitude_m pressure_hpa humidity_percent) }
{
    check_altitude(Some(altitude_m))?;
    check_pressure(Some(pressure_hpa))?;
    check_humidity(Some(humidity_percent))
}

// The temperature of row n.
#[tactic(auto, unfolding(crate::specs::Sheet::celsius_of_row))]
pub fn celsius(n: u32) -> f64
    ensures { result ≡ celsius_of_row n }
{
    (i64::from(n) - 10) as f64
}

// All rows, or the refusal of the first that is refused.
fn write_rows(
    page: &mut Page<'_>,
    altitude_m: f64,
    pressure_hpa: f64,
    humidity_percent: f64,
) -> Result<(), Refusal>
    ensures outcome { outcome result ≡ bare (rows altitude_m pressure_hpa humidity_percent 51) }
    ensures written { (text : List ℕ) → rows altitude_m pressure_hpa humidity_percent 51 ≡ accepted text → page.new ≡ put page.old text }
{
    for n in 0..51 {
        write_row(page, altitude_m, pressure_hpa, humidity_percent, celsius(n))?;
    }
    Ok(())
}

// The sheet of a station on the first 1,530 bytes of the page, or a refusal, 11 to 17, which leaves the
// page as it was.
pub fn setting_sheet(
    altitude_m: f64,
    pressure_hpa: f64,
    humidity_percent: f64,
    page: &mut [u8],
) -> Result<(), Refusal>
    ensures answered { outcome result ≡ bare (setting_sheet altitude_m pressure_hpa humidity_percent (length page.old)) }
    ensures written { page.new ≡ over_or_left page.old 0
        (setting_sheet altitude_m pressure_hpa humidity_percent (length page.old)) }
{
    if page.len() < 1530 {
        return Err(Refusal::PageTooShort);
    }
    check_inputs(altitude_m, pressure_hpa, humidity_percent)?;
    let mut own = [0u8; 1530];
    let mut rows = Page::new(&mut own);
    write_rows(&mut rows, altitude_m, pressure_hpa, humidity_percent)?;
    Page::new(page).put(&own);
    Ok(())
}
