// A change of one reading by tenths, and the class that it gives.
ghost use Rattle.std.specs.Prelude.{◌≡◌};
ghost use Rattle.trim.specs.Changes.{by, changed, change, tried};

use crate::classes::class_of;
use fields::fields::{MEASURED_PRESSURE, TEMPERATURE};
use record::entries::{Readings, with_entry};

#[derive(Clone, Copy)]
pub enum Quantity {
    Temperature,
    MeasuredPressure,
}

#[derive(Clone, Copy)]
pub enum Direction {
    Up,
    Down,
}

// A number of tenths of a degree Celsius or of a hectopascal.
#[derive(Clone, Copy)]
pub struct Change {
    pub quantity: Quantity,
    pub direction: Direction,
    pub tenths: u8,
}

// A change, and the class that it gives.
#[derive(Clone, Copy)]
pub struct Turn {
    pub change: Change,
    pub class: u8,
}

// Readings with their temperature, their measured pressure and their class.
#[derive(Clone, Copy)]
pub struct Start {
    pub readings: Readings,
    pub temperature_c: f64,
    pub pressure_hpa: f64,
    pub class: u8,
}

// What is added to a reading: the count of tenths, with its sign, over 10.
fn by(change: Change) -> f64
    ensures { result ≡ by change }
{
    let count = f64::from(change.tenths);
    match change.direction {
        Direction::Up => count / 10.0,
        Direction::Down => -count / 10.0,
    }
}

// The readings with the change made.
fn changed(start: Start, change: Change) -> Readings
    ensures { result ≡ changed start change }
{
    let by = by(change);
    match change.quantity {
        Quantity::Temperature => {
            with_entry(start.readings, TEMPERATURE, start.temperature_c + by)
        }
        Quantity::MeasuredPressure => {
            with_entry(start.readings, MEASURED_PRESSURE, start.pressure_hpa + by)
        }
    }
}

// A change with the class that it gives, where the changed readings are accepted with another class.
#[tactic(auto, unfolding(crate::specs::Changes::tried))]
pub(crate) fn tried(
    start: Start,
    quantity: Quantity,
    direction: Direction,
    tenths: u8,
) -> Option<Turn>
    ensures { result ≡ tried start (change quantity direction tenths) }
{
    let change = Change {
        quantity,
        direction,
        tenths,
    };
    let class = class_of(changed(start, change)).ok()?;
    (class != start.class).then_some(Turn { change, class })
}
