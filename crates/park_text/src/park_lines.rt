// Lines that the program `park` prints: what is wrong with a word, and a reading in its unit.
#![tactic(auto, using(pages::proofs::Putting::puts), unfolding(crate::specs::ParkLines::quoted, crate::specs::ParkLines::alone_message, crate::specs::ParkLines::unit_message, crate::specs::ParkLines::blank_message, crate::specs::ParkLines::comma_message, crate::specs::ParkLines::minus_message, crate::specs::ParkLines::message_of, crate::specs::ParkLines::problem_line, crate::specs::ParkLines::reading_line))]

ghost use Rattle.std.specs.Prelude.{◌≡◌, take, drop};
ghost use Rattle.pages.specs.Pages.{put};
ghost use Rattle.park_text.specs.Units.{by_quantity};
ghost use Rattle.park_text.specs.ParkLines.{byte_with, typed_with, as_typed, quoted, example_of, alone_message, unit_message, decimals_message, range_message, blank_message, comma_message, minus_message, message_of, problem_line, reading_line, unit_line};

use crate::typed_word::{Problem, TypedReading};
use decimals::figures::put_shown;
use fields::fields::{ALTITUDE, DENSITY_ALTITUDE, HUMIDITY, TEMPERATURE};
use pages::Page;
use pages::scan::find;

// The first bytes of a word.
pub(crate) fn first_bytes(word: &[u8], n: usize) -> &[u8]
    ensures { result.now ≡ take n word.now }
{
    &word[..n.min(word.len())]
}

// And those after them.
pub(crate) fn later_bytes(word: &[u8], n: usize) -> &[u8]
    ensures { result.now ≡ drop n word.now }
{
    &word[n.min(word.len())..]
}

// A byte of a word, or `new` where it is `old`.
fn put_byte(page: &mut Page<'_>, byte: u8, old: u8, new: &[u8])
    ensures { page.new ≡ put page.old (byte_with old new.now byte) }
{
    if byte == old {
        page.put(new);
    } else if (32..=126).contains(&byte) {
        page.put(&[byte]);
    } else {
        page.put(b"\\x");
        page.put_hex(&[byte]);
    }
}

// A word with `new` in the place of each byte `old`. The word is left as it was.
#[tactic(auto, using(pages::proofs::Putting::puts, crate::proofs::Typed::typed_bytes))]
fn put_with(page: &mut Page<'_>, word: &[u8], old: u8, new: &[u8])
    ensures { page.new ≡ put page.old (typed_with old new.now word.now) }
{
    for &byte in word {
        put_byte(page, byte, old, new);
    }
}

// A word as it was typed. It is left as it was.
fn put_typed(page: &mut Page<'_>, word: &[u8])
    ensures { page.new ≡ put page.old (as_typed word.now) }
{
    put_with(page, word, b'"', b"\"");
}

// One of four texts: for a length, a temperature, a humidity and a pressure.
fn put_for(
    page: &mut Page<'_>,
    meaning: usize,
    length: &[u8],
    temperature: &[u8],
    humidity: &[u8],
    pressure: &[u8],
)
    ensures { page.new ≡ put page.old (by_quantity meaning length.now temperature.now humidity.now pressure.now) }
{
    match meaning {
        ALTITUDE | DENSITY_ALTITUDE => page.put(length),
        TEMPERATURE => page.put(temperature),
        HUMIDITY => page.put(humidity),
        _ => page.put(pressure),
    }
}

// A word with a number, for each meaning, and one with a record.
const EXAMPLES: [&[u8]; 8] = [
    b"altitude=1586\n",
    b"temperature=24\n",
    b"station-pressure=841.9\n",
    b"qnh=1019.3\n",
    b"humidity=32\n",
    b"density-altitude=2100\n",
    b"pressure=841.9\n",
    b"record=11000400183350\n",
];

#[tactic(auto, using(pages::proofs::Putting::puts), unfolding(crate::specs::ParkLines::example_of))]
fn put_example(page: &mut Page<'_>, meaning: usize)
    ensures { page.new ≡ put page.old (example_of meaning) }
{
    if let Some(example) = EXAMPLES.get(meaning) {
        page.put(example);
    }
}

fn put_alone(page: &mut Page<'_>, meaning: usize)
    ensures { page.new ≡ put page.old (alone_message meaning) }
{
    page.put(b": a name without =, type ");
    put_example(page, meaning);
}

fn put_units(page: &mut Page<'_>, meaning: usize)
    ensures { page.new ≡ put page.old (unit_message meaning) }
{
    page.put(b": unknown unit, expected ");
    put_for(
        page,
        meaning,
        b"m or ft\n",
        b"C, F or K\n",
        b"percent or %\n",
        b"hPa, kPa or inHg\n",
    );
}

fn put_decimals(page: &mut Page<'_>, places: usize)
    ensures { page.new ≡ put page.old (decimals_message places) }
{
    if places == 4 {
        page.put(b": more than four decimals, as 30.1025inHg\n");
    } else {
        page.put(b": more than three decimals, expected thousandths at most, as 841.897\n");
    }
}

fn put_range(page: &mut Page<'_>, places: usize)
    ensures { page.new ≡ put page.old (range_message places) }
{
    if places == 4 {
        page.put(b": out of range, expected a number from -214748.3648 to 214748.3647\n");
    } else {
        page.put(b": out of range, expected a number from -2147483.648 to 2147483.647\n");
    }
}

fn put_blank(page: &mut Page<'_>, word: &[u8])
    ensures { page.new ≡ put page.old (blank_message word.now) }
{
    page.put(b": a blank, type ");
    put_with(page, word, b' ', b"");
    page.put(b"\n");
}

fn put_comma(page: &mut Page<'_>, word: &[u8])
    ensures { page.new ≡ put page.old (comma_message word.now) }
{
    page.put(b": a comma, type ");
    put_with(page, word, b',', b".");
    page.put(b" for decimals, ");
    put_with(page, word, b',', b"");
    page.put(b" for thousands\n");
}

fn put_hyphened(page: &mut Page<'_>, word: &[u8])
    ensures { page.new ≡ put page.old (minus_message word.now) }
{
    let mark = find(word, 0, word.len(), b'=');
    page.put(b": a minus sign that is no hyphen, type ");
    put_typed(page, first_bytes(word, mark));
    page.put(b"=-");
    put_typed(page, later_bytes(later_bytes(word, mark), 4));
    page.put(b"\n");
}

// What is wrong with a word and what is expected.
fn put_message(page: &mut Page<'_>, word: &[u8], problem: Problem)
    ensures { page.new ≡ put page.old (message_of word.now problem) }
{
    match problem {
        Problem::RecordBeside => page.put(
            b": record= stands alone, as park record=11000400183350\n",
        ),
        Problem::NotARecord => page.put(
            b": not a record, expected an even number of hex digits, as record=11000400183350\n",
        ),
        Problem::RecordTooLong => page.put(b": more than 256 bytes, and no record is as long\n"),
        Problem::NameAlone(meaning) => put_alone(page, meaning),
        Problem::UnknownWord => page.put(
            b": unknown word, expected altitude=, temperature=, pressure=, station-pressure=, qnh=, humidity= or density-altitude= and a number\n",
        ),
        Problem::Blank => put_blank(page, word),
        Problem::Comma => put_comma(page, word),
        Problem::MinusSign => put_hyphened(page, word),
        Problem::NotANumber => page.put(
            b": not a number, expected digits with up to three decimals, as 1586 or -12.5\n",
        ),
        Problem::UnknownUnit(meaning) => put_units(page, meaning),
        Problem::TooManyDecimals(places) => put_decimals(page, places),
        Problem::OutOfRange(places) => put_range(page, places),
        Problem::RepeatedWord => page.put(b": repeated, expected each reading once\n"),
    }
}

// The first 64 bytes of a word in quotes. The word is left as it was.
pub(crate) fn put_quoted(page: &mut Page<'_>, word: &[u8])
    ensures { page.new ≡ put page.old (quoted word.now) }
{
    page.put(b"\"");
    put_typed(page, first_bytes(word, 64));
    page.put(b"\"");
}

// The line on a word that is not understood.
pub(crate) fn put_problem(page: &mut Page<'_>, word: &[u8], problem: Problem)
    ensures { page.new ≡ put page.old (problem_line word.now problem) }
{
    put_quoted(page, word);
    put_message(page, first_bytes(word, 64), problem);
}

// The reading of a word whose unit was written.
fn put_reading_of(page: &mut Page<'_>, word: &[u8], meaning: usize, x: f64)
    ensures { page.new ≡ put page.old (reading_line word.now meaning x) }
{
    page.put(first_bytes(word, 64));
    page.put(b" is ");
    put_shown(page, x, 3);
    put_for(page, meaning, b" m\n", b" C\n", b" percent\n", b" hPa\n");
}

// The reading of a word whose unit was written, and nothing for any other word.
pub(crate) fn put_unit_line(page: &mut Page<'_>, word: &[u8], read: Result<TypedReading, Problem>)
    ensures { page.new ≡ put page.old (unit_line word.now read) }
{
    if let Ok(typed) = read
        && typed.unit_written
    {
        put_reading_of(page, word, typed.meaning, typed.reading);
    }
}
