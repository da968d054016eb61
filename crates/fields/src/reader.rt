// The field reader: a struct over the lent record, with the position of a field. It moves on field by
// field. Its functions are few and thin: the work is done in `fields`, and a record is walked by
// `step_from`.
ghost use Rattle.std.specs.Prelude.{◌≡◌, drop};
ghost use Rattle.fields.specs.Fields.{field_of, next_at, step_at};
ghost use Rattle.refusal.specs.Outcomes.{outcome};

use crate::fields::{Field, field_at, next_at};
use refusal::Refusal;

#[derive(Clone, Copy)]
pub struct Reader<'a> {
    pub bytes: &'a [u8],
    pub at: usize,
}

impl<'a> Reader<'a> {
    // A reader at a position of the record.
    pub fn new(bytes: &'a [u8], at: usize) -> Reader<'a>
        ensures { (result.bytes ≡ bytes.entry) × (result.at ≡ at) }
    {
        Reader { bytes, at }
    }

    // The field at the reader's position, or what is wrong with it.
    pub fn field(self) -> Result<Field, Refusal>
        ensures { outcome result ≡ field_of (drop self.entry.at self.entry.bytes.now) }
    {
        field_at(self.bytes, self.at)
    }

    // The reader at the position after its field.
    pub fn next(self) -> Reader<'a>
        ensures { (result.bytes ≡ self.entry.bytes) × (result.at ≡ next_at self.entry.bytes.now self.entry.at) }
    {
        Reader {
            bytes: self.bytes,
            at: next_at(self.bytes, self.at),
        }
    }
}

// A reader's step from a position of the record: the field there and the position after it, or what is
// wrong with the field.
pub fn step_from(bytes: &[u8], at: usize) -> Result<(Field, usize), Refusal>
    ensures { outcome result ≡ step_at bytes.now at }
{
    let reader = Reader::new(bytes, at);
    let field = reader.field()?;
    Ok((field, reader.next().at))
}
