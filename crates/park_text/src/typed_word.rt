// One word of a command line, as `altitude=1586` or `altitude=5203ft`: a meaning and its reading, or what
// is wrong.
#![tactic(auto, using(pages::proofs::Same::same_is))]

ghost use Rattle.std.specs.Prelude.{◌≡◌};
ghost use Rattle.park_text.specs.Word.{meaning_named, is_number_byte, number_length, three_decimals, is_small, is_point, value_for, no_unit, read_number, is_minus_sign, read_value, alone, read_named, is_record, read_word};

use crate::units::{Unit, unit_named};
use decimals::typed::{NotACount, read_decimal};
use fields::fields::{ALTITUDE, MEANINGS};

// What is wrong with a word, in the order of the checks of one word.
#[derive(Clone, Copy, Debug, PartialEq, Eq)]
pub enum Problem {
    // `record=` among other words
    RecordBeside,
    // `record=` without an even number of hex digits behind it
    NotARecord,
    RecordTooLong,
    // a name without `=`, with its meaning, or MEANINGS for `record`
    NameAlone(usize),
    // a name before the `=` that is none, or no `=`
    UnknownWord,
    Blank,
    Comma,
    // U+2212
    MinusSign,
    NotANumber,
    // with the meaning
    UnknownUnit(usize),
    // with how many decimals there may be
    TooManyDecimals(usize),
    OutOfRange(usize),
    // a reading that an earlier word has given
    RepeatedWord,
}

// What a word says: the reading of a meaning, whether its unit was written, and whether its point may have
// been meant for thousands.
#[derive(Clone, Copy, Debug, PartialEq)]
pub struct TypedReading {
    pub meaning: usize,
    pub reading: f64,
    pub unit_written: bool,
    pub point: bool,
}

// The names of readings, each at the place of its meaning.
const NAMES: [&[u8]; MEANINGS] = [
    b"altitude",
    b"temperature",
    b"station-pressure",
    b"qnh",
    b"humidity",
    b"density-altitude",
    b"pressure",
];

// The meaning that a name has.
fn meaning_named(name: &[u8]) -> Option<usize>
    ensures { result ≡ meaning_named name.now }
{
    NAMES.iter().position(|known| name == *known)
}

fn is_number_byte(byte: u8) -> bool
    ensures { result ≡ is_number_byte byte }
{
    matches!(byte, b'0'..=b'9' | b'+' | b'-' | b'.')
}

// How many digits, signs and points the text begins with.
fn number_length(text: &[u8]) -> usize
    ensures { result ≡ number_length text.now }
{
    text.iter()
        .position(|&byte| !is_number_byte(byte))
        .unwrap_or(text.len())
}

// Whether a number has three decimals.
fn three_decimals(number: &[u8]) -> bool
    ensures { result ≡ three_decimals number.now }
{
    match number.iter().position(|&byte| byte == b'.') {
        Some(point) => number.len() - point == 4,
        None => false,
    }
}

fn is_small(count: i32) -> bool
    ensures { result ≡ is_small count }
{
    count.unsigned_abs() < 10000
}

// Whether the point of an altitude may have been meant for thousands.
fn is_point(meaning: usize, three: bool, count: i32) -> bool
    ensures { result ≡ is_point meaning three count }
{
    meaning == ALTITUDE && three && is_small(count)
}

fn value_for(
    meaning: usize,
    unit: Unit,
    unit_written: bool,
    three: bool,
    decimal: Result<i32, NotACount>,
) -> Result<TypedReading, Problem>
    ensures { result ≡ value_for meaning unit unit_written three decimal }
{
    match decimal {
        Ok(count) => Ok(TypedReading {
            meaning,
            reading: unit.reading(count),
            unit_written,
            point: is_point(meaning, three, count),
        }),
        Err(NotACount::NotANumber) => Err(Problem::NotANumber),
        Err(NotACount::TooManyDecimals) => Err(Problem::TooManyDecimals(unit.places())),
        Err(NotACount::OutOfRange) => Err(Problem::OutOfRange(unit.places())),
    }
}

// What is wrong with a number behind which an unknown unit stands.
fn no_unit(meaning: usize, decimal: Result<i32, NotACount>) -> Problem
    ensures { result ≡ no_unit meaning decimal }
{
    match decimal {
        Err(NotACount::NotANumber) => Problem::NotANumber,
        _ => Problem::UnknownUnit(meaning),
    }
}

#[tactic(auto, using(pages::proofs::Same::same_is, crate::proofs::Numbers::places_few), unfolding(crate::specs::Word::read_number))]
fn read_number(meaning: usize, number: &[u8], name: &[u8]) -> Result<TypedReading, Problem>
    ensures { result ≡ read_number meaning number.now name.now }
{
    match unit_named(meaning, name) {
        Some(unit) => value_for(
            meaning,
            unit,
            !name.is_empty(),
            three_decimals(number),
            read_decimal(number, unit.places()),
        ),
        None => Err(no_unit(meaning, read_decimal(number, 3))),
    }
}

// Whether a text begins with the minus sign U+2212.
fn is_minus_sign(text: &[u8]) -> bool
    ensures { result ≡ is_minus_sign text.now }
{
    text.starts_with(b"\xE2\x88\x92")
}

// What stands behind the `=`.
#[tactic(auto, using(pages::proofs::Same::same_is, crate::proofs::Numbers::has_is, crate::proofs::Numbers::number_within), unfolding(crate::specs::Word::read_value))]
fn read_value(meaning: usize, text: &[u8]) -> Result<TypedReading, Problem>
    ensures { result ≡ read_value meaning text.now }
{
    if text.contains(&b' ') {
        return Err(Problem::Blank);
    }
    if text.contains(&b',') {
        return Err(Problem::Comma);
    }
    if is_minus_sign(text) {
        return Err(Problem::MinusSign);
    }
    let (number, name) = text.split_at(number_length(text));
    read_number(meaning, number, name)
}

// A word without `=`.
fn alone(meaning: Option<usize>) -> Problem
    ensures { result ≡ alone meaning }
{
    meaning.map_or(Problem::UnknownWord, |known| Problem::NameAlone(known))
}

// A name, `=`, a number and, where it is not the reading's own, its unit. The word is left as it was.
#[tactic(auto, using(pages::proofs::Same::same_is), unfolding(crate::specs::Word::read_named))]
fn read_named(word: &[u8]) -> Result<TypedReading, Problem>
    ensures { result ≡ read_named word.now }
{
    let Some(at) = word.iter().position(|&byte| byte == b'=') else {
        return Err(alone(meaning_named(word)));
    };
    let meaning = meaning_named(&word[..at]).ok_or(Problem::UnknownWord)?;
    read_value(meaning, &word[at + 1..])
}

// Whether a word begins with `record=`. It is left as it was.
pub(crate) fn is_record(word: &[u8]) -> bool
    ensures { result ≡ is_record word.now }
{
    word.starts_with(b"record=")
}

// One word among others, or the only one that is no record. It is left as it was.
#[tactic(auto, using(pages::proofs::Same::same_is), unfolding(crate::specs::Word::read_word))]
pub fn read_word(word: &[u8]) -> Result<TypedReading, Problem>
    ensures { result ≡ read_word word.now }
{
    if is_record(word) {
        return Err(Problem::RecordBeside);
    }
    if word == b"record".as_slice() {
        return Err(Problem::NameAlone(MEANINGS));
    }
    read_named(word)
}
