// A field of the record: one byte for the tag, two for the length, and the data. A tag has a meaning,
// and readings are kept by meaning.
ghost use Rattle.std.specs.Prelude.{◌≡◌, ◌≤◌, length, drop};
ghost use Rattle.fields.specs.Fields.{is_count_tag, is_tag, meaning_of, data_size, double_of, value_of, size_of, field_of, next_at};
ghost use Rattle.refusal.specs.Outcomes.{outcome};

use super::bits::{double_at, word_at};
use refusal::Refusal;
use thousandths::double_of_word;

pub const ALTITUDE: usize = 0;

pub const TEMPERATURE: usize = 1;

pub const STATION_PRESSURE: usize = 2;

pub const QNH: usize = 3;

pub const HUMIDITY: usize = 4;

pub const DENSITY_ALTITUDE: usize = 5;

pub const MEASURED_PRESSURE: usize = 6;

pub const MEANINGS: usize = 7;

// A value in the form of its field.
#[derive(Clone, Copy)]
pub enum Value {
    Double(f64),
    // the word of a count of thousandths, by two's complement
    Count(u32),
}

// A tag, its meaning, and the value.
#[derive(Clone, Copy)]
pub struct Field {
    pub tag: u8,
    pub meaning: usize,
    pub value: Value,
}

// The bytes of a tag and a length.
pub const HEADER: usize = 3;

// The first tag of a double, and the first of a count. Each meaning has one in either form.
pub const FIRST_DOUBLE: u8 = 1;

pub const FIRST_COUNT: u8 = 17;

const LAST_COUNT: u8 = 16 + MEANINGS as u8;

// Whether a tag is that of a count.
pub fn is_count_tag(tag: u8) -> bool
    ensures { result ≡ is_count_tag tag }
{
    (FIRST_COUNT <= tag) & (tag <= LAST_COUNT)
}

// Whether a tag is one of a double or of a count.
pub fn is_tag(tag: u8) -> bool
    ensures { result ≡ is_tag tag }
{
    ((FIRST_DOUBLE <= tag) & (tag <= MEANINGS as u8)) | is_count_tag(tag)
}

// The meaning of a tag; of one that is none, some number.
pub fn meaning_of(tag: u8) -> usize
    ensures { result ≡ meaning_of tag }
{
    if is_count_tag(tag) {
        return (tag - FIRST_COUNT) as usize;
    }
    if tag == 0 {
        return 0;
    }
    (tag - 1) as usize
}

// How many bytes of data a tag has.
pub fn data_size(tag: u8) -> usize
    ensures { result ≡ data_size tag }
{
    if is_count_tag(tag) { 4 } else { 8 }
}

// The double that a value means.
impl From<Value> for f64 {
    ghost from_gives = { λ value x. x ≡ double_of value };

    fn from(value: Value) -> f64 {
        match value {
            Value::Double(x) => x,
            Value::Count(word) => double_of_word(word),
        }
    }
}

// The value of the field at the head of the bytes.
fn value_of(bytes: &[u8]) -> Value
    requires { size_of bytes.now ≤ length bytes.now }
    ensures { result ≡ value_of bytes.now }
{
    if is_count_tag(bytes[0]) {
        return Value::Count(word_at(bytes, HEADER, 4) as u32);
    }
    Value::Double(double_at(bytes, HEADER))
}

// The field at the head of the bytes. The order of the checks: cut header, unknown tag, length, cut data.
fn head_field(bytes: &[u8]) -> Result<Field, Refusal>
    ensures { outcome result ≡ field_of bytes.now }
{
    if bytes.len() < HEADER {
        return Err(Refusal::Cut);
    }
    let tag = bytes[0];
    if !is_tag(tag) {
        return Err(Refusal::UnknownTag);
    }
    let data = data_size(tag);
    if word_at(bytes, 1, 2) != data as u64 {
        return Err(Refusal::WrongLength);
    }
    if bytes.len() < HEADER + data {
        return Err(Refusal::Cut);
    }
    Ok(Field {
        tag,
        meaning: meaning_of(tag),
        value: value_of(bytes),
    })
}

// The field at a position, or what is wrong with it.
pub(crate) fn field_at(bytes: &[u8], at: usize) -> Result<Field, Refusal>
    ensures result_value { outcome result ≡ field_of (drop at bytes.now) }
    ensures kept { bytes.now ≡ bytes.now }
{
    if bytes.len() < at {
        return Err(Refusal::Cut);
    }
    head_field(&bytes[at..])
}

// The position after the field at a position; after a field that is cut, the record's end.
pub(crate) fn next_at(bytes: &[u8], at: usize) -> usize
    ensures value { result ≡ next_at bytes.now at }
    ensures kept { bytes.now ≡ bytes.now }
{
    if bytes.len() <= at {
        return bytes.len();
    }
    let size = HEADER + data_size(bytes[at]);
    if bytes.len() - at < size {
        return bytes.len();
    }
    at + size
}
