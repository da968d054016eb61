// The lines of a report with the trim class and the change that turns it.
#![tactic(auto, using(pages::proofs::Putting::puts), unfolding(crate::specs::TrimLines::trim_line, crate::specs::TrimLines::tenths_text, crate::specs::TrimLines::turn_line))]

ghost use Rattle.std.specs.Prelude.{◌≡◌};
ghost use Rattle.refusal.specs.Outcomes.{outcome};
ghost use Rattle.trim.specs.Search.{next_of};
ghost use Rattle.pages.specs.Pages.{put};
ghost use Rattle.report.specs.TrimLines.{trim_line, tenths_text, change_words, turn_line, shown_station, or_from_shown, next_class_line};

use fields::fields::{ALTITUDE, HUMIDITY, MEASURED_PRESSURE, TEMPERATURE};
use pages::Page;
use record::entries::{Readings, entry_of, no_readings, with_entry};
use refusal::Refusal;
use refusal::judge::Figures;
use trim::changes::{Direction, Quantity, Turn};
use trim::search::{Next, next_trim_class_of_readings};

// The line of the trim class.
pub fn put_trim(page: &mut Page<'_>, class: u8)
    ensures { page.new ≡ put page.old (trim_line class) }
{
    page.put(b"trim class ");
    page.put_number(class);
    page.put(b"\n");
}

fn put_tenths(page: &mut Page<'_>, tenths: u8)
    ensures { page.new ≡ put page.old (tenths_text tenths) }
{
    page.put_number(tenths / 10);
    page.put(&[b'.', b'0' + tenths % 10]);
}

fn change_words(quantity: Quantity, direction: Direction) -> &'static [u8]
    ensures { result.now ≡ change_words quantity direction }
{
    match (quantity, direction) {
        (Quantity::Temperature, Direction::Up) => b" C warmer\n",
        (Quantity::Temperature, Direction::Down) => b" C colder\n",
        (Quantity::MeasuredPressure, Direction::Up) => b" hPa higher\n",
        (Quantity::MeasuredPressure, Direction::Down) => b" hPa lower\n",
    }
}

fn put_turn(page: &mut Page<'_>, turn: Turn)
    ensures { page.new ≡ put page.old (turn_line turn) }
{
    let change = turn.change;
    page.put(b"next class ");
    page.put_number(turn.class);
    page.put(b" at ");
    put_tenths(page, change.tenths);
    page.put(change_words(change.quantity, change.direction));
}

// What the figures show, as if measured at sea level, where no default band acts.
fn shown_station(readings: Readings, figures: Figures) -> Readings
    ensures { result ≡ shown_station readings figures }
{
    let high = with_entry(no_readings(), ALTITUDE, 0.0);
    let warm = with_entry(high, TEMPERATURE, figures.temperature_c);
    let humid = with_entry(warm, HUMIDITY, entry_of(readings, HUMIDITY).unwrap_or(0.0));
    with_entry(humid, MEASURED_PRESSURE, figures.pressure_hpa)
}

// What gives the next class, searched from the readings, or where one is wanting from what is shown.
pub fn next_class(readings: Readings, figures: Figures) -> Result<Next, Refusal>
    ensures { outcome result ≡ or_from_shown readings figures (next_of readings) }
{
    next_trim_class_of_readings(readings).or_else(|_| next_trim_class_of_readings(shown_station(
        readings, figures,
    )))
}

// What gives the next class.
pub fn put_next(page: &mut Page<'_>, next: Result<Next, Refusal>)
    ensures { page.new ≡ put page.old (next_class_line (outcome next)) }
{
    if let Ok(next) = next {
        match next.turn {
            Some(turn) => put_turn(page, turn),
            None => page.put(b"no other class within 20 C or 20 hPa\n"),
        }
    }
}
