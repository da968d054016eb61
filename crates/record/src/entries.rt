// Readings: what is stored for each meaning, in the form of its field, and its entry, whatever the form.
ghost use Rattle.std.specs.Prelude.{◌≡◌};
ghost use Rattle.record.specs.Entries.{no_readings, stored_of, entry_of, with_value, with_entry, value_or_zero};

use fields::fields::{MEANINGS, Value};

// What is stored for each meaning, in the form of its field.
#[derive(Clone, Copy)]
pub struct Readings {
    pub slots: [Option<Value>; MEANINGS],
}

// No entry for any meaning.
pub fn no_readings() -> Readings
    ensures { result ≡ no_readings }
{
    Readings {
        slots: [None; MEANINGS],
    }
}

// What is stored for a meaning, and nothing where there is no such meaning.
pub fn stored_of(readings: Readings, meaning: usize) -> Option<Value>
    ensures { result ≡ stored_of readings meaning }
{
    if MEANINGS <= meaning {
        return None;
    }
    let slots = readings.slots;
    slots[meaning]
}

// The entry of a meaning, whatever the form of its field, and none where there is no such meaning.
pub fn entry_of(readings: Readings, meaning: usize) -> Option<f64>
    ensures { result ≡ entry_of readings meaning }
{
    stored_of(readings, meaning).map(f64::from)
}

// The readings with a value in its form for a meaning, and the same where there is no such meaning.
pub fn with_value(readings: Readings, meaning: usize, value: Value) -> Readings
    ensures { result ≡ with_value readings meaning value }
{
    if MEANINGS <= meaning {
        return readings;
    }
    let mut slots = readings.slots;
    slots[meaning] = Some(value);
    Readings { slots }
}

// The readings with a double for a meaning, and the same where there is no such meaning.
pub fn with_entry(readings: Readings, meaning: usize, value: f64) -> Readings
    ensures { result ≡ with_entry readings meaning value }
{
    with_value(readings, meaning, Value::Double(value))
}

// The value, or 0 where there is none.
pub fn value_or_zero(entry: Option<f64>) -> f64
    ensures { result ≡ value_or_zero entry }
{
    entry.unwrap_or(0.0)
}
