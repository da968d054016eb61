// Records written: of readings as arrays with a place for each meaning, and of records in the other form.
#![tactic(auto, unfolding(crate::specs::Lent::with_room, crate::specs::Records::with_form))]

ghost use Rattle.std.specs.Prelude.{◌≡◌, true, false, ◌≤◌, length};
ghost use Rattle.writer.specs.Conversion.{length_converted, converted, written_in};
ghost use Rattle.fields.specs.Fields.{meanings};
ghost use Rattle.exports.specs.Lent.{status_of, length_or};
ghost use Rattle.exports.specs.Records.{are_forms, with_form, array_readings, array_record, length_in, out_after};

use crate::lent::{TOO_SHORT, put_length};
use fields::fields::{MEANINGS, Value};
use record::entries::{Readings, no_readings, with_entry, with_value};
use writer::conversion::{to_counts, to_doubles};
use writer::write;

// The status of a form that is unknown.
const UNKNOWN_FORM: u32 = 254;

fn are_forms(forms: &[u8]) -> bool
    requires { meanings ≤ length forms.now }
    ensures { result ≡ are_forms meanings forms.now }
{
    let mut all = true;
    for meaning in 0..MEANINGS {
        all = all & (forms[meaning] <= 2);
    }
    all
}

fn with_form(readings: Readings, meaning: usize, form: u8, value: f64, count: u32) -> Readings
    ensures { result ≡ with_form readings meaning form value count }
{
    match form {
        1 => with_entry(readings, meaning, value),
        2 => with_value(readings, meaning, Value::Count(count)),
        _ => readings,
    }
}

fn readings_of(forms: &[u8], values: &[f64], counts: &[u32]) -> Readings
    requires meanings_in_bounds { meanings ≤ length forms.now }
    requires meanings_in_bounds_2 { meanings ≤ length values.now }
    requires meanings_in_bounds_3 { meanings ≤ length counts.now }
    ensures { result ≡ array_readings meanings forms.now values.now counts.now }
{
    let mut readings = no_readings();
    for meaning in 0..MEANINGS {
        readings = with_form(
            readings,
            meaning,
            forms[meaning],
            values[meaning],
            counts[meaning],
        );
    }
    readings
}

// Writes the record of readings, fields rising by tag, and its length: each meaning has a form, 0 absent,
// 1 a double or 2 a count, a value and a count's word by two's complement, of which the form's counts.
// Answers 0; or 255 where one of the three arrays has fewer than 7 places, else 254 where one of the
// first 7 forms is unknown, else 18 where `out` is shorter than the record; these leave `out` and
// `length` as they were. The arrays are left.
pub fn station_air_write(
    forms: &[u8],
    values: &[f64],
    counts: &[u32],
    out: &mut [u8],
    length: &mut usize,
) -> u32
    ensures value { result ≡ status_of (length_in out.old (array_record forms.now values.now counts.now)) }
    ensures out_after { out.new ≡ out_after out.old (array_record forms.now values.now counts.now) }
    ensures length_after { length.new
        ≡ length_or length.old (length_in out.old (array_record forms.now values.now counts.now)) }
    ensures forms_value { forms.now ≡ forms.now }
    ensures values_value { values.now ≡ values.now }
    ensures counts_value { counts.now ≡ counts.now }
{
    if forms.len() < MEANINGS || values.len() < MEANINGS || counts.len() < MEANINGS {
        return TOO_SHORT;
    }
    if !are_forms(forms) {
        return UNKNOWN_FORM;
    }
    put_length(length, write(readings_of(forms, values, counts), out))
}

// Writes the record converted to counts, fields in their old order, and its length. Answers 0; or a cause
// 5 to 8, then 20, then 18, which leave `out` and `length` as they were. The record is left.
pub fn station_air_to_counts(record: &[u8], out: &mut [u8], length: &mut usize) -> u32
    ensures value { result ≡ status_of (length_converted true «record».now out.old) }
    ensures out_after { out.new ≡ written_in (converted true «record».now) out.old }
    ensures length_after { length.new ≡ length_or length.old (length_converted true «record».now out.old) }
    ensures record_value { «record».now ≡ «record».now }
{
    put_length(length, to_counts(record, out))
}

// Writes the record converted to doubles, likewise; no double is refused by 20.
pub fn station_air_to_doubles(record: &[u8], out: &mut [u8], length: &mut usize) -> u32
    ensures value { result ≡ status_of (length_converted false «record».now out.old) }
    ensures out_after { out.new ≡ written_in (converted false «record».now) out.old }
    ensures length_after { length.new ≡ length_or length.old (length_converted false «record».now out.old) }
    ensures record_value { «record».now ≡ «record».now }
{
    put_length(length, to_doubles(record, out))
}
