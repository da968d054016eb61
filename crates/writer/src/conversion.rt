// Stored mast records in counts of thousandths, and in doubles: the fields in their old order, and those
// that are in the form already as they are.
ghost use Rattle.std.specs.Prelude.{◌≡◌, true, false, ◌+◌, ◌≤◌, Ok, length};
ghost use Rattle.std.proofs.lemmas.List.Edits.{sets};
ghost use Rattle.refusal.specs.Causes.{NoneHolds};
ghost use Rattle.refusal.specs.Outcomes.{accepted, ◌then◌, outcome};
ghost use Rattle.fields.specs.Fields.{meaning_of, tag_of};
ghost use Rattle.record.specs.Readings.{read_rows};
ghost use Rattle.writer.specs.Conversion.{turned, field_as, size_as, fields_of, record_in, count_rows, converted, length_converted, written_in};

use crate::{field_size, write_field};
use fields::fields::Value;
use fields::reader::step_from;
use record::readings::read_record;
use refusal::Refusal;
use thousandths::{count_of, double_of_word, word_from};

// The other value of a field that is not in the form already, or cause 20, where a double has no count.
fn turn(value: Value, counts: bool) -> Result<Option<Value>, Refusal>
    ensures { result ≡ turned counts value }
{
    match value {
        Value::Double(x) if counts => {
            let count = count_of(x).ok_or(Refusal::NoCount)?;
            Ok(Some(Value::Count(word_from(count))))
        }
        Value::Count(word) if !counts => Ok(Some(Value::Double(double_of_word(word)))),
        _ => Ok(None),
    }
}

// The length of a field of this many bytes, or of that of the other value.
fn turned_size(size: usize, meaning: usize, other: Option<Value>) -> usize
    ensures { result ≡ size_as size meaning (Ok other) }
{
    other.map_or(size, |value| field_size(meaning, value))
}

// The length of a record that was read, in a form, or cause 20. None of its fields is refused.
fn converted_length(bytes: &[u8], counts: bool) -> Result<usize, Refusal>
    requires { NoneHolds (read_rows false bytes.now) }
    ensures { outcome result ≡ (count_rows counts (fields_of bytes.now) then accepted (length (record_in counts bytes.now))) }
{
    let mut size = 0;
    let mut at = 0;
    while at < bytes.len() {
        let (field, next) = step_from(bytes, at)?;
        let other = turn(field.value, counts)?;
        size += turned_size(next - at, field.meaning, other);
        at = next;
    }
    Ok(size)
}

// Puts a field, or that of the other value, and answers the position after it.
fn put_turned(
    field: &[u8],
    meaning: usize,
    other: Option<Value>,
    out: &mut [u8],
    at: usize,
) -> Result<usize, Refusal>
    requires meant { meaning ≡ meaning_of (tag_of field.now) }
    requires room { at + length (field_as field.now (Ok other)) ≤ length out.old }
    ensures value { outcome result ≡ accepted (at + length (field_as field.now (Ok other))) }
    ensures out_after { out.new ≡ sets out.old at (field_as field.now (Ok other)) }
{
    let Some(value) = other else {
        let end = at + field.len();
        out[at..end].copy_from_slice(field);
        return Ok(end);
    };
    let size = write_field(meaning, value, &mut out[at..])?;
    Ok(at + size)
}

// Puts a record that was read, in a form, and answers its length. Each of its doubles has a count, and
// there is room.
fn put_converted(bytes: &[u8], counts: bool, out: &mut [u8]) -> Result<usize, Refusal>
    requires read { NoneHolds (read_rows false bytes.now) }
    requires counted { NoneHolds (count_rows counts (fields_of bytes.now)) }
    requires room { length (record_in counts bytes.now) ≤ length out.old }
    ensures value { outcome result ≡ accepted (length (record_in counts bytes.now)) }
    ensures out_after { out.new ≡ sets out.old 0 (record_in counts bytes.now) }
{
    let mut place = 0;
    let mut at = 0;
    while at < bytes.len() {
        let (field, next) = step_from(bytes, at)?;
        let other = turn(field.value, counts)?;
        place = put_turned(&bytes[at..next], field.meaning, other, out, place)?;
        at = next;
    }
    Ok(place)
}

fn convert(bytes: &[u8], counts: bool, out: &mut [u8]) -> Result<usize, Refusal>
    ensures answered { outcome result ≡ length_converted counts bytes.now out.old }
    ensures lent { out.new ≡ written_in (converted counts bytes.now) out.old }
{
    read_record(bytes)?;
    let length = converted_length(bytes, counts)?;
    if out.len() < length {
        return Err(Refusal::BufferTooShort);
    }
    put_converted(bytes, counts, out)
}

// The record in counts at the start of the buffer, and its length; or a cause 5 to 8, 20 or 18, and then
// the buffer is left as it was, as are the bytes past the record. The record is left.
pub fn to_counts(bytes: &[u8], out: &mut [u8]) -> Result<usize, Refusal>
    ensures answered { outcome result ≡ length_converted true bytes.now out.old }
    ensures lent { out.new ≡ written_in (converted true bytes.now) out.old }
{
    convert(bytes, true, out)
}

// The record in doubles at the start of the buffer, and its length; or a cause 5 to 8 or 18, and then the
// buffer is left as it was, as are the bytes past the record. The record is left.
pub fn to_doubles(bytes: &[u8], out: &mut [u8]) -> Result<usize, Refusal>
    ensures answered { outcome result ≡ length_converted false bytes.now out.old }
    ensures lent { out.new ≡ written_in (converted false bytes.now) out.old }
{
    convert(bytes, false, out)
}
