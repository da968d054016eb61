// Records read: their readings as arrays with a place for each meaning, as `records` takes them.
#![tactic(auto, unfolding(crate::specs::Lent::with_room))]

ghost use Rattle.std.specs.Prelude.{◌≡◌, true, false, ◌≤◌, length};
ghost use Rattle.fields.specs.Fields.{meanings};
ghost use Rattle.refusal.specs.Outcomes.{outcome};
ghost use Rattle.exports.specs.Lent.{handed_out, status_of};
ghost use Rattle.exports.specs.Reads.{form_of, double_for, count_for, each, read_in, array_after};

use crate::lent::{FIGURES, TOO_SHORT};
use fields::fields::{MEANINGS, Value};
use record::entries::{Readings, entry_of, stored_of, value_or_zero};
use record::readings::{read_record, read_record_strictly};
use refusal::{Refusal, number};

fn form_of(stored: Option<Value>) -> u8
    ensures { result ≡ form_of stored }
{
    match stored {
        None => 0,
        Some(Value::Double(_)) => 1,
        Some(Value::Count(_)) => 2,
    }
}

fn count_for(stored: Option<Value>) -> u32
    ensures { result ≡ count_for stored }
{
    match stored {
        None => 0,
        Some(Value::Double(_)) => 0,
        Some(Value::Count(word)) => word,
    }
}

fn put_readings(forms: &mut [u8], values: &mut [f64], counts: &mut [u32], readings: Readings)
    requires meanings_in_bounds { meanings ≤ length forms.old }
    requires meanings_in_bounds_2 { meanings ≤ length values.old }
    requires meanings_in_bounds_3 { meanings ≤ length counts.old }
    ensures forms_after { forms.new ≡ handed_out (each form_of meanings readings) forms.old }
    ensures values_after { values.new ≡ handed_out (each double_for meanings readings) values.old }
    ensures counts_after { counts.new ≡ handed_out (each count_for meanings readings) counts.old }
{
    for meaning in 0..MEANINGS {
        forms[meaning] = form_of(stored_of(readings, meaning));
        values[meaning] = value_or_zero(entry_of(readings, meaning));
        counts[meaning] = count_for(stored_of(readings, meaning));
    }
}

fn put_read(
    forms: &mut [u8],
    values: &mut [f64],
    counts: &mut [u32],
    read: Result<Readings, Refusal>,
) -> u32
    requires meanings_in_bounds { meanings ≤ length forms.old }
    requires meanings_in_bounds_2 { meanings ≤ length values.old }
    requires meanings_in_bounds_3 { meanings ≤ length counts.old }
    ensures value { result ≡ status_of (outcome read) }
    ensures forms_after { forms.new ≡ array_after form_of forms.old (outcome read) }
    ensures values_after { values.new ≡ array_after double_for values.old (outcome read) }
    ensures counts_after { counts.new ≡ array_after count_for counts.old (outcome read) }
{
    match read {
        Ok(readings) => {
            put_readings(forms, values, counts, readings);
            FIGURES
        }
        Err(refusal) => u32::from(number(refusal)),
    }
}

// The readings of a record by one of the two readers, the room of the arrays first.
fn read_by(
    strict: bool,
    record: &[u8],
    forms: &mut [u8],
    values: &mut [f64],
    counts: &mut [u32],
) -> u32
    ensures value { result ≡ status_of (read_in strict forms.old values.old counts.old «record».now) }
    ensures forms_after { forms.new
        ≡ array_after form_of forms.old (read_in strict forms.old values.old counts.old «record».now) }
    ensures values_after { values.new
        ≡ array_after double_for values.old (read_in strict forms.old values.old counts.old «record».now) }
    ensures counts_after { counts.new
        ≡ array_after count_for counts.old (read_in strict forms.old values.old counts.old «record».now) }
{
    if forms.len() < MEANINGS || values.len() < MEANINGS || counts.len() < MEANINGS {
        return TOO_SHORT;
    }
    let read = if strict {
        read_record_strictly(record)
    } else {
        read_record(record)
    };
    put_read(forms, values, counts, read)
}

// The readings of a record, its tags in any order: each meaning's form, 0 absent, 1 a double or 2 a count;
// its double, whatever the form, 0 where it is absent; and its count's word by two's complement, 0 where
// it is none. Answers 0; or 255 where one of the three arrays has fewer than 7 places, else the cause, 5
// to 8, for which the record is not read; these leave the arrays as they were. The record is left.
pub fn station_air_read(
    record: &[u8],
    forms: &mut [u8],
    values: &mut [f64],
    counts: &mut [u32],
) -> u32
    ensures value { result ≡ status_of (read_in false forms.old values.old counts.old «record».now) }
    ensures forms_after { forms.new
        ≡ array_after form_of forms.old (read_in false forms.old values.old counts.old «record».now) }
    ensures values_after { values.new
        ≡ array_after double_for values.old (read_in false forms.old values.old counts.old «record».now) }
    ensures counts_after { counts.new
        ≡ array_after count_for counts.old (read_in false forms.old values.old counts.old «record».now) }
    ensures record_value { «record».now ≡ «record».now }
{
    read_by(false, record, forms, values, counts)
}

// The same by the strict reader, which refuses a tag below the one before it by 19.
pub fn station_air_read_strictly(
    record: &[u8],
    forms: &mut [u8],
    values: &mut [f64],
    counts: &mut [u32],
) -> u32
    ensures value { result ≡ status_of (read_in true forms.old values.old counts.old «record».now) }
    ensures forms_after { forms.new
        ≡ array_after form_of forms.old (read_in true forms.old values.old counts.old «record».now) }
    ensures values_after { values.new
        ≡ array_after double_for values.old (read_in true forms.old values.old counts.old «record».now) }
    ensures counts_after { counts.new
        ≡ array_after count_for counts.old (read_in true forms.old values.old counts.old «record».now) }
    ensures record_value { «record».now ≡ «record».now }
{
    read_by(true, record, forms, values, counts)
}
