// A row of the setting sheet: four figures, each at the right of its column.
#![tactic(auto, using(pages::proofs::Putting::puts))]

ghost use Rattle.std.specs.Prelude.{None, Some, ◌≡◌, [], ◌∷◌, ◌++◌, ◌-◌, cond, drop};
ghost use Rattle.refusal.specs.Outcomes.{outcome};
ghost use Rattle.pages.specs.Pages.{put};
ghost use Rattle.sheet.specs.Over.{put_or_left};
ghost use Rattle.sheet.specs.Row.{is_too_wide, row_texts, figures_outcome, row_outcome};
ghost use Rattle.sheet.specs.Sheet.{bare};

use atmosphere::given::Reading;
use decimals::figures::put_last;
use decimals::shown::{DecimalText, decimal_text};
use mast::judge::answer_of;
use pages::Page;
use refusal::Refusal;
use refusal::judge::Figures;
use station::resolved::Resolved;

// A figure's text at the right of its column, and the byte after the column.
fn put_cell(page: &mut Page<'_>, text: DecimalText, width: usize, end: u8)
    ensures { page.new ≡ put page.old (drop (16 - width) text.bytes ++ end ∷ []) }
{
    put_last(page, &text.bytes, width);
    page.put(&[end]);
}

// The texts of a row's figures.
#[derive(Clone, Copy)]
struct RowTexts {
    temperature: DecimalText,
    density: DecimalText,
    sound: DecimalText,
    altitude: DecimalText,
}

// None where a text is wider than its column.
fn row_texts(temperature_c: f64, figures: Figures) -> Option<RowTexts>
    ensures { result ≡ cond (is_too_wide temperature_c figures) None (Some (row_texts temperature_c figures)) }
{
    let temperature = decimal_text(temperature_c, 1);
    let density = decimal_text(figures.density_kg_m3, 4);
    let sound = decimal_text(figures.speed_of_sound_mps, 1);
    let altitude = decimal_text(figures.density_matched_altitude_m, 0);
    if (temperature.len > 6) | (density.len > 7) | (sound.len > 6) | (altitude.len > 7) {
        return None;
    }
    Some(RowTexts {
        temperature,
        density,
        sound,
        altitude,
    })
}

// Whether a figure of a row is wider than its column.
pub fn is_too_wide(temperature_c: f64, figures: Figures) -> bool
    ensures { result ≡ is_too_wide temperature_c figures }
{
    row_texts(temperature_c, figures).is_none()
}

fn write_figures(page: &mut Page<'_>, temperature_c: f64, figures: Figures) -> Result<(), Refusal>
    ensures outcome { outcome result ≡ bare (figures_outcome temperature_c figures) }
    ensures written { page.new ≡ put_or_left page.old (figures_outcome temperature_c figures) }
{
    let Some(texts) = row_texts(temperature_c, figures) else {
        return Err(Refusal::TooWide);
    };
    put_cell(page, texts.temperature, 6, b' ');
    put_cell(page, texts.density, 7, b' ');
    put_cell(page, texts.sound, 6, b' ');
    put_cell(page, texts.altitude, 7, b'\n');
    Ok(())
}

// The row of a temperature, or its refusal.
#[tactic(auto, unfolding(crate::specs::Row::row_outcome))]
pub(crate) fn write_row(
    page: &mut Page<'_>,
    altitude_m: f64,
    pressure_hpa: f64,
    humidity_percent: f64,
    temperature_c: f64,
) -> Result<(), Refusal>
    ensures outcome { outcome result ≡ bare (row_outcome altitude_m pressure_hpa humidity_percent temperature_c) }
    ensures written { page.new ≡ put_or_left page.old (row_outcome altitude_m pressure_hpa humidity_percent temperature_c) }
{
    let station = Resolved {
        altitude_m,
        temperature: Reading::Given(temperature_c),
        pressure: Reading::Given(pressure_hpa),
        humidity_percent,
    };
    let figures = answer_of(station)?;
    write_figures(page, temperature_c, figures)
}
