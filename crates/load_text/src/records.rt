// The records of the load: readings of counts, and their bytes by the writer.
#![tactic(auto, unfolding(crate::specs::Records::readings_of_counts, crate::specs::Records::load_readings, crate::specs::Records::load_record))]

ghost use Rattle.std.specs.Prelude.{◌≡◌};
ghost use Rattle.writer.specs.Written.{length_written, overwritten};
ghost use Rattle.refusal.specs.Outcomes.{outcome};
ghost use Rattle.load_text.specs.Records.{with_count, readings_of_counts, load_readings, load_record};

use crate::counts::{LoadCounts, load_counts};
use fields::fields::{ALTITUDE, HUMIDITY, MEASURED_PRESSURE, TEMPERATURE, Value};
use record::entries::{Readings, no_readings, with_value};
use refusal::Refusal;
use thousandths::word_from;
use writer::write;

fn with_count(readings: Readings, meaning: usize, count: i32) -> Readings
    ensures { result ≡ with_count readings meaning count }
{
    with_value(readings, meaning, Value::Count(word_from(count)))
}

fn readings_of(counts: LoadCounts) -> Readings
    ensures { result ≡ readings_of_counts counts }
{
    let altitude = with_count(no_readings(), ALTITUDE, counts.altitude);
    let temperature = with_count(altitude, TEMPERATURE, counts.temperature);
    let pressure = with_count(temperature, MEASURED_PRESSURE, counts.pressure);
    if counts.humid {
        return with_count(pressure, HUMIDITY, counts.humidity);
    }
    pressure
}

// The readings of the load's record with this number, 0 for the first.
fn load_readings(number: u64) -> Readings
    ensures { result ≡ load_readings number }
{
    readings_of(load_counts(number))
}

// The load's record with this number at the start of the buffer, and its length. What is past it is left,
// and so is the whole of a buffer that is shorter (cause 18).
pub fn write_load_record(number: u64, out: &mut [u8]) -> Result<usize, Refusal>
    ensures answered { outcome result ≡ length_written (load_record number) out.old }
    ensures lent { out.new ≡ overwritten (load_record number) out.old }
{
    write(load_readings(number), out)
}
