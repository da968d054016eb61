// The notes on a point in the altitude, a humidity that may be a fraction, a density that its decimals show
// as a limit of the trim table, and what the next class is searched from.
#![tactic(auto, using(pages::proofs::Putting::puts, crate::proofs::Printed::printing), unfolding(crate::specs::Doubts::fraction))]

ghost use Rattle.std.specs.Prelude.{◌≡◌, ltb, true, false, MatchOption};
ghost use Rattle.pages.specs.Pages.{put};
ghost use Rattle.notes.specs.Words.{when, printed};
ghost use Rattle.notes.specs.Doubts.{limit_of, are_alike, fraction, at_limit_of, at_limit, doubt_notes};

use crate::given::{Given, Noted};
use crate::words::{put_figured, put_figured_if, put_if};
use decimals::shown::decimal_text;
use pages::Page;
use trim::classes::{CLASS_DENSITIES, trim_class};

// The least density above those of a class, which the last class has not.
#[tactic(auto, unfolding(crate::specs::Doubts::limit_of, trim::specs::Classes::class_densities))]
fn limit_of(class: u8) -> Option<f64>
    ensures { MatchOption result (ltb class 6 ≡ false) (λ limit. (ltb class 6 ≡ true) × (limit ≡ limit_of class)) }
{
    CLASS_DENSITIES.get(usize::from(class)).copied()
}

// Whether two densities have the same text with four decimals.
#[tactic(auto, using(pages::proofs::Same::same_is), unfolding(crate::specs::Doubts::are_alike))]
fn are_alike(x: f64, y: f64) -> bool
    ensures { result ≡ are_alike x y }
{
    decimal_text(x, 4).bytes == decimal_text(y, 4).bytes
}

// Each puts notes on the page, where they hold.
fn put_fraction(page: &mut Page<'_>, given: Given)
    ensures { page.new ≡ put page.old (when (fraction given).holds (fraction given).line) }
{
    if let Some(percent) = given.humidity_percent {
        if (percent > 0.0) & (percent <= 1.0) {
            put_figured(
                page,
                b"note: humidity ",
                percent,
                3,
                b" percent is nearly dry air:",
            );
            put_figured(
                page,
                b" type humidity=",
                100.0 * percent,
                3,
                b" if it was a fraction\n",
            );
        }
    }
}

fn put_limit(page: &mut Page<'_>, density_kg_m3: f64, class: u8)
    ensures { page.new ≡ put page.old (when (at_limit_of density_kg_m3 class).holds (at_limit_of density_kg_m3 class).line) }
{
    if let Some(limit) = limit_of(class) {
        if are_alike(density_kg_m3, limit) {
            put_figured(
                page,
                b"note: the density is below ",
                limit,
                4,
                b" kg/m3 by less than four decimals show: its class is ",
            );
            page.put_number(class);
            page.put(b"\n");
        }
    }
}

#[tactic(auto, unfolding(crate::specs::Doubts::at_limit))]
fn put_at_limit(page: &mut Page<'_>, density_kg_m3: f64)
    ensures { page.new ≡ put page.old (when (at_limit density_kg_m3).holds (at_limit density_kg_m3).line) }
{
    put_limit(page, density_kg_m3, trim_class(density_kg_m3));
}

#[tactic(auto, using(pages::proofs::Putting::puts, crate::proofs::Printed::printing, crate::proofs::Absent::absent), unfolding(crate::specs::Doubts::doubt_notes))]
pub(crate) fn put_doubts(page: &mut Page<'_>, noted: Noted, point: bool)
    ensures { page.new ≡ put page.old (printed (doubt_notes noted.given noted.figures point)) }
{
    let given = noted.given;
    put_figured_if(
        page,
        point,
        b"note: the altitude was read as ",
        noted.figures.altitude_m,
        3,
        b" m: the point marks decimals, leave it out if it was meant for thousands\n",
    );
    put_fraction(page, given);
    put_at_limit(page, noted.figures.density_kg_m3);
    put_if(
        page,
        given.temperature_c.is_none() | given.measured_pressure_hpa.is_none(),
        b"note: the next class is searched from the temperature and the station pressure above\n",
    );
}
