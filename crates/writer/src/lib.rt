// The writer of mast records: the fields of readings, each in its form and by rising tags, into a lent
// buffer; and a field by itself.
#![tactic(auto)]

pub mod conversion;

ghost use Rattle.std.specs.Prelude.{◌≡◌, ◌+◌, ◌≤◌, ◌<◌, length};
ghost use Rattle.std.proofs.lemmas.List.Edits.{sets};
ghost use Rattle.fields.specs.Fields.{meanings, tag_in, is_count};
ghost use Rattle.writer.specs.Records.{bytes, data_of, field_with, field_for, has_form, stored_field, fields_from, record_of};
ghost use Rattle.writer.specs.Written.{length_written, overwritten};
ghost use Rattle.refusal.specs.Outcomes.{outcome};

use fields::bits::pattern;
use fields::fields::{
    FIRST_COUNT, FIRST_DOUBLE, HEADER, MEANINGS, Value, data_size, is_count_tag, meaning_of,
};
use record::entries::{Readings, stored_of};
use refusal::Refusal;

// The last `width` bytes of a number, the highest first.
fn put_number(out: &mut [u8], at: usize, width: usize, n: u64)
    requires { (width ≤ 8) × (at + width ≤ length out.old) }
    ensures { out.new ≡ sets out.old at (bytes width n) }
{
    let bytes = n.to_be_bytes();
    out[at..at + width].copy_from_slice(&bytes[8 - width..]);
}

fn data_of(value: Value) -> u64
    ensures { result ≡ data_of value }
{
    match value {
        Value::Double(x) => pattern(x),
        Value::Count(word) => u64::from(word),
    }
}

// Each answers the position after what it puts.
fn put_field(out: &mut [u8], at: usize, tag: u8, value: Value) -> usize
    requires { at + length (field_with tag value) ≤ length out.old }
    ensures value { result ≡ at + length (field_with tag value) }
    ensures out_after { out.new ≡ sets out.old at (field_with tag value) }
{
    let data = data_size(tag);
    put_number(out, at, 1, u64::from(tag));
    put_number(out, at + 1, 2, data as u64);
    put_number(out, at + HEADER, data, data_of(value));
    at + HEADER + data
}

fn has_form(tag: u8, value: Value) -> bool
    ensures { result ≡ has_form tag value }
{
    match value {
        Value::Double(_) => !is_count_tag(tag),
        Value::Count(_) => is_count_tag(tag),
    }
}

fn put_stored(out: &mut [u8], at: usize, tag: u8, stored: Option<Value>) -> usize
    requires { at + length (stored_field tag stored) ≤ length out.old }
    ensures value { result ≡ at + length (stored_field tag stored) }
    ensures out_after { out.new ≡ sets out.old at (stored_field tag stored) }
{
    match stored {
        Some(value) if has_form(tag, value) => put_field(out, at, tag, value),
        _ => at,
    }
}

fn stored_size(tag: u8, stored: Option<Value>) -> usize
    ensures { result ≡ length (stored_field tag stored) }
{
    match stored {
        Some(value) if has_form(tag, value) => HEADER + data_size(tag),
        _ => 0,
    }
}

// The length of the fields of one form, whose tags begin with `first`.
fn fields_length(first: u8, readings: Readings) -> usize
    requires { first ≤ 17 }
    ensures { result ≡ length (fields_from meanings first readings) }
{
    let mut size = 0;
    for tag in first..first + MEANINGS as u8 {
        size += stored_size(tag, stored_of(readings, meaning_of(tag)));
    }
    size
}

fn put_fields(out: &mut [u8], start: usize, first: u8, readings: Readings) -> usize
    requires { (first ≤ 17) × (start + length (fields_from meanings first readings) ≤ length out.old) }
    ensures value { result ≡ start + length (fields_from meanings first readings) }
    ensures out_after { out.new ≡ sets out.old start (fields_from meanings first readings) }
{
    let mut at = start;
    for tag in first..first + MEANINGS as u8 {
        at = put_stored(out, at, tag, stored_of(readings, meaning_of(tag)));
    }
    at
}

// The record of any readings, clashing or none, at the start of the buffer, and its length. What is past
// it is left, and so is the whole of a buffer that is shorter (cause 18).
pub fn write(readings: Readings, out: &mut [u8]) -> Result<usize, Refusal>
    ensures answered { outcome result ≡ length_written (record_of readings) out.old }
    ensures lent { out.new ≡ overwritten (record_of readings) out.old }
{
    let length = fields_length(FIRST_DOUBLE, readings) + fields_length(FIRST_COUNT, readings);
    if out.len() < length {
        return Err(Refusal::BufferTooShort);
    }
    let at = put_fields(out, 0, FIRST_DOUBLE, readings);
    put_fields(out, at, FIRST_COUNT, readings);
    Ok(length)
}

fn tag_for(meaning: usize, value: Value) -> u8
    requires { meaning < meanings }
    ensures { result ≡ tag_in (is_count value) meaning }
{
    match value {
        Value::Double(_) => FIRST_DOUBLE + meaning as u8,
        Value::Count(_) => FIRST_COUNT + meaning as u8,
    }
}

// The length of the field of a meaning with a value, and 0 where there is no such meaning.
pub(crate) fn field_size(meaning: usize, value: Value) -> usize
    ensures { result ≡ length (field_for meaning value) }
{
    if MEANINGS <= meaning {
        return 0;
    }
    HEADER + data_size(tag_for(meaning, value))
}

// The field of a meaning with a value, in the value's form, at the start of the buffer, and its length;
// nothing where there is no such meaning. What is past it is left, and so is the whole of a buffer that is
// shorter (cause 18).
pub(crate) fn write_field(meaning: usize, value: Value, out: &mut [u8]) -> Result<usize, Refusal>
    ensures answered { outcome result ≡ length_written (field_for meaning value) out.old }
    ensures lent { out.new ≡ overwritten (field_for meaning value) out.old }
{
    if MEANINGS <= meaning {
        return Ok(0);
    }
    if out.len() < field_size(meaning, value) {
        return Err(Refusal::BufferTooShort);
    }
    Ok(put_field(out, 0, tag_for(meaning, value), value))
}
