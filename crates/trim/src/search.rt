// The smallest change of a record's temperature or measured pressure that gives another trim class.
ghost use Rattle.std.specs.Prelude.{◌≡◌};
ghost use Rattle.refusal.specs.Outcomes.{accepted, outcome};
ghost use Rattle.trim.specs.InOrder.{changes_of, first_of};
ghost use Rattle.trim.specs.Search.{next_from, next_with, next_of, next_trim_class};

use crate::changes::{Direction, Quantity, Start, Turn, tried};
use crate::classes::class_of;
use fields::fields::{MEASURED_PRESSURE, TEMPERATURE};
use record::entries::{Readings, entry_of};
use record::readings::read_record;
use refusal::Refusal;

// the largest number of tenths that is tried
const MOST_TENTHS: u8 = 200;

// The class, and the smallest change that gives another, if one of the changes does.
#[derive(Clone, Copy)]
pub struct Next {
    pub class: u8,
    pub turn: Option<Turn>,
}

// The first change by so many tenths that gives another class: temperature before pressure, up before
// down.
#[tactic(auto, unfolding(crate::specs::InOrder::first_of))]
fn first_by(start: Start, tenths: u8) -> Option<Turn>
    ensures { result ≡ first_of start (changes_of tenths) }
{
    tried(start, Quantity::Temperature, Direction::Up, tenths)
        .or_else(|| tried(start, Quantity::Temperature, Direction::Down, tenths))
        .or_else(|| tried(start, Quantity::MeasuredPressure, Direction::Up, tenths))
        .or_else(|| tried(start, Quantity::MeasuredPressure, Direction::Down, tenths))
}

// The first change of all that gives another class.
fn next_from(start: Start) -> Next
    ensures { accepted result ≡ next_from start }
{
    for tenths in 1..=MOST_TENTHS {
        let turn = first_by(start, tenths);
        if turn.is_some() {
            return Next {
                class: start.class,
                turn,
            };
        }
    }
    Next {
        class: start.class,
        turn: None,
    }
}

#[tactic(auto, unfolding(crate::specs::Search::next_with))]
fn next_with(readings: Readings, class: u8) -> Result<Next, Refusal>
    ensures { outcome result ≡ next_with readings class }
{
    let temperature_c = entry_of(readings, TEMPERATURE).ok_or(Refusal::NoReadingToChange)?;
    let pressure_hpa = entry_of(readings, MEASURED_PRESSURE).ok_or(Refusal::NoReadingToChange)?;
    Ok(next_from(Start {
        readings,
        temperature_c,
        pressure_hpa,
        class,
    }))
}

// What `next_trim_class` says of readings.
#[tactic(auto, unfolding(crate::specs::Search::next_of))]
pub fn next_trim_class_of_readings(readings: Readings) -> Result<Next, Refusal>
    ensures { outcome result ≡ next_of readings }
{
    next_with(readings, class_of(readings)?)
}

// The trim class of a record, and the smallest change of its temperature or measured pressure that gives
// another class; the record's own refusal, or 22 where one of the two is absent. The record is left as it
// was.
#[tactic(auto, unfolding(crate::specs::Search::next_trim_class))]
pub fn next_trim_class(record: &[u8]) -> Result<Next, Refusal>
    ensures { outcome result ≡ next_trim_class «record».now }
{
    next_trim_class_of_readings(read_record(record)?)
}
