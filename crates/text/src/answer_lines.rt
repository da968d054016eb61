// The lines of an answer's text: the figures' two, with their mark, or a refusal's one. Each function puts
// its text on the page, as far as the page reaches.
#![tactic(auto, using(pages::proofs::Putting::puts), unfolding(crate::specs::Lines::station_line, crate::specs::Lines::air_line))]

ghost use Rattle.std.specs.Prelude.{◌≡◌, ◌++◌};
ghost use Rattle.refusal.specs.Refusals.{number_of};
ghost use Rattle.refusal.specs.Outcomes.{outcome};
ghost use Rattle.pages.specs.Characters.{refusal_line};
ghost use Rattle.pages.specs.Pages.{put};
ghost use Rattle.text.specs.Lines.{double_cell, mark_cell, station_line, air_line};
ghost use Rattle.text.specs.Text.{answer_text};

use fields::bits::pattern;
use pages::Page;
use refusal::judge::Figures;
use refusal::{Refusal, number};

// A blank and a double's digits.
fn put_cell(page: &mut Page<'_>, x: f64)
    ensures { page.new ≡ put page.old (double_cell x) }
{
    page.put(b" ");
    page.put_digits(pattern(x));
}

fn put_mark(page: &mut Page<'_>, mark: bool)
    ensures { page.new ≡ put page.old (mark_cell mark) }
{
    page.put(if mark { b" 1" } else { b" 0" });
}

fn put_station(page: &mut Page<'_>, figures: Figures)
    ensures { page.new ≡ put page.old (station_line figures) }
{
    page.put(b"station");
    put_cell(page, figures.altitude_m);
    put_cell(page, figures.temperature_c);
    put_cell(page, figures.pressure_hpa);
    page.put(b"\n");
}

fn put_air(page: &mut Page<'_>, figures: Figures)
    ensures { page.new ≡ put page.old (air_line figures) }
{
    page.put(b"air");
    put_cell(page, figures.density_kg_m3);
    put_cell(page, figures.speed_of_sound_mps);
    put_cell(page, figures.pressure_altitude_m);
    put_cell(page, figures.density_matched_altitude_m);
    put_cell(page, figures.vapor_mole_fraction);
    put_mark(page, figures.in_cipm_range);
    page.put(b"\n");
}

// The two lines of the figures.
pub fn put_figures(page: &mut Page<'_>, figures: Figures)
    ensures { page.new ≡ put page.old (station_line figures ++ air_line figures) }
{
    put_station(page, figures);
    put_air(page, figures);
}

// The line of a refusal.
pub fn put_refusal(page: &mut Page<'_>, refusal: Refusal)
    ensures { page.new ≡ put page.old (refusal_line (number_of refusal)) }
{
    page.put_refusal(number(refusal));
}

// The two lines of the figures, or the one of a refusal.
pub fn put_answer(page: &mut Page<'_>, answer: Result<Figures, Refusal>)
    ensures { page.new ≡ put page.old (answer_text (outcome answer)) }
{
    match answer {
        Ok(figures) => put_figures(page, figures),
        Err(refusal) => put_refusal(page, refusal),
    }
}
