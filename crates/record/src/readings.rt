// The readings of a record: its fields, each meaning at most once, with their tags in any order or rising.
ghost use Rattle.std.specs.Prelude.{◌≡◌, true, false, ◌&&◌, [], ◌∷◌, ltb, is_some};
ghost use Rattle.refusal.specs.Outcomes.{outcome, passed, row};
ghost use Rattle.record.specs.Entries.{entry_for};
ghost use Rattle.record.specs.Readings.{read_record};

use crate::entries::Readings;
use fields::fields::{MEANINGS, Value};
use fields::reader::step_from;
use refusal::Refusal;

// The check of a whole field after those before it: whether its meaning has a value already, and, to the
// strict reader, whether its tag is below the last.
fn order_check(stored: Option<Value>, tag: u8, last: u8, strict: bool) -> Result<(), Refusal>
    ensures { outcome result ≡ passed (row (is_some (entry_for stored)) 8 [] ∷ row (strict && ltb tag last) 19 [] ∷ []) }
{
    if stored.is_some() {
        return Err(Refusal::RepeatedTag);
    }
    if strict & (tag < last) {
        return Err(Refusal::TagFalls);
    }
    Ok(())
}

// The values are put in their places as they are read: handed on as a whole from field to field they
// took longer than all else that a refused record costs.
fn read_fields(bytes: &[u8], strict: bool) -> Result<Readings, Refusal>
    ensures { outcome result ≡ read_record strict bytes.now }
{
    let mut slots = [None; MEANINGS];
    let mut last = 0;
    let mut at = 0;
    while at < bytes.len() {
        let (field, next) = step_from(bytes, at)?;
        let meaning = field.meaning;
        order_check(slots[meaning], field.tag, last, strict)?;
        slots[meaning] = Some(field.value);
        last = field.tag;
        at = next;
    }
    Ok(Readings { slots })
}

// The readings of a record with its tags in any order, or the first cause 5 to 8 in the order of its
// fields. The record is left as it was.
pub fn read_record(bytes: &[u8]) -> Result<Readings, Refusal>
    ensures { outcome result ≡ read_record false bytes.now }
{
    read_fields(bytes, false)
}

// The readings of a record whose tags rise, or the first cause 5 to 8 or 19 in the order of its fields.
// The record is left as it was.
pub fn read_record_strictly(bytes: &[u8]) -> Result<Readings, Refusal>
    ensures { outcome result ≡ read_record true bytes.now }
{
    read_fields(bytes, true)
}
