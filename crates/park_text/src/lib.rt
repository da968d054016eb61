// What the program `park` prints for its words.
#![tactic(auto, using(pages::proofs::Putting::puts, pages::proofs::Same::same_is))]

mod park_lines;
mod typed_readings;
mod typed_word;
mod units;
mod words;

ghost use Rattle.std.specs.Prelude.{◌<◌, ◌≡◌, [], length, get_or, drop};
ghost use Rattle.pages.specs.Pages.{put};
ghost use Rattle.questions.specs.Digits.{bytes_in};
ghost use Rattle.report.specs.Report.{record_text};
ghost use Rattle.park_text.specs.Words.{arguments, words_left};
ghost use Rattle.park_text.specs.ParkText.{usage_text, too_long_text, is_help, unit_lines, point_typed, any_point, sheet_words, report_of, readings_words, words_text, are_bytes, record_word, is_record_alone, typed_text, park_text};

use crate::park_lines::{later_bytes, put_problem, put_unit_line};
use crate::typed_readings::read_words;
use crate::typed_word::{Problem, TypedReading, is_record, read_word};
use crate::words::Words;
use pages::Page;
use questions::digits::{are_hex, read_bytes};
use record::entries::Readings;
use report::{Origin, put_record_report, put_report};
use sheet_text::put_sheet_of;

// The word of a number, and nothing where there is no such word.
fn nth_word<'a>(mut words: Words<'a>, number: usize) -> &'a [u8]
    ensures { result.now ≡ get_or (words_left words.entry) number [] }
{
    words.nth(number).unwrap_or(&[])
}

// The sheet of the words after `sheet`.
#[tactic(auto, using(pages::proofs::Putting::puts), unfolding(crate::specs::ParkText::sheet_words))]
fn put_sheet_words(page: &mut Page<'_>, words: Words<'_>)
    ensures { page.new ≡ put page.old (sheet_words (words_left words.entry)) }
{
    match read_words(words) {
        Ok(readings) => put_sheet_of(page, readings),
        Err(wrong) => put_problem(page, nth_word(words, wrong.number), wrong.problem),
    }
}

// The readings in written units, one line each, in the order of the words.
#[tactic(auto, using(pages::proofs::Putting::puts), unfolding(crate::specs::ParkText::unit_lines))]
fn put_unit_lines(page: &mut Page<'_>, words: Words<'_>)
    ensures { page.new ≡ put page.old (unit_lines (words_left words.entry)) }
{
    for word in words {
        put_unit_line(page, word, read_word(word));
    }
}

fn point_typed(read: Result<TypedReading, Problem>) -> bool
    ensures { result ≡ point_typed read }
{
    read.is_ok_and(|typed| typed.point)
}

// Whether the altitude was typed with a point that may mean thousands.
fn any_point(mut words: Words<'_>) -> bool
    ensures { result ≡ any_point (words_left words.entry) }
{
    words.any(|word| point_typed(read_word(word)))
}

// The report of the words' readings.
fn put_said(page: &mut Page<'_>, words: Words<'_>, readings: Readings)
    ensures { page.new ≡ put page.old (report_of (words_left words.entry) readings) }
{
    put_unit_lines(page, words);
    put_report(page, readings, Origin::Words(any_point(words)));
}

#[tactic(auto, using(pages::proofs::Putting::puts), unfolding(crate::specs::ParkText::readings_words))]
fn put_readings_words(page: &mut Page<'_>, words: Words<'_>)
    ensures { page.new ≡ put page.old (readings_words (words_left words.entry)) }
{
    match read_words(words) {
        Ok(readings) => put_said(page, words, readings),
        Err(wrong) => put_problem(page, nth_word(words, wrong.number), wrong.problem),
    }
}

#[tactic(auto, using(pages::proofs::Putting::puts), unfolding(crate::specs::ParkText::usage_text))]
fn put_usage(page: &mut Page<'_>)
    ensures { page.new ≡ put page.old (usage_text) }
{
    page.put(
        b"usage: park altitude=1586 temperature=24 qnh=1019.3 humidity=32\n       park sheet altitude=1586 pressure=841.9 humidity=32\n       park record=11000400183350\nwords in any order, each a number with up to three decimals and, if you like,\nits unit, the first of these where none is written:\n  altitude=          m, ft\n  temperature=       C, F, K\n  pressure=          hPa, kPa, inHg; measured at the station\n  station-pressure=  hPa, kPa, inHg; of a mast that sends 1013.25 until it is set\n                     up: 1012.75 to 1013.75 counts as the standard pressure\n  qnh=               hPa, kPa, inHg\n  humidity=          percent, %; dry air where it is absent\n  density-altitude=  m, ft; in place of altitude and pressure\na temperature from 14.9 to 15.1 C counts as the standard one; a note says so\nsheet prints a page of densities to pin up, for one of the three pressures\nrecord= prints the report of a record that was kept, in hex digits\n",
    );
}

// What is printed for a command line that is too long.
pub fn put_too_long(page: &mut Page<'_>)
    ensures { page.new ≡ put page.old (too_long_text) }
{
    page.put(
        b"the command line is too long: at most 4,096 bytes, a newline counted for each word\n",
    );
}

// Whether a word asks for help.
fn is_help(word: &[u8]) -> bool
    ensures { result ≡ is_help word.now }
{
    word == b"help".as_slice() || word == b"--help".as_slice() || word == b"-h".as_slice()
}

// The sheet where the first word is `sheet`, or else the report.
#[tactic(auto, using(pages::proofs::Putting::puts, pages::proofs::Same::same_is), unfolding(crate::specs::ParkText::words_text))]
fn put_words(page: &mut Page<'_>, words: Words<'_>)
    requires { 0 < length (words_left words) }
    ensures { page.new ≡ put page.old (words_text (get_or (words_left words.entry) 0 []) (drop 1 (words_left words.entry))) }
{
    let mut after = words;
    if after.next().is_some_and(|word| word == b"sheet".as_slice()) {
        put_sheet_words(page, after);
    } else {
        put_readings_words(page, words);
    }
}

// Whether there are bytes in hex digits, two digits each.
fn are_bytes(digits: &[u8]) -> bool
    ensures { result ≡ are_bytes digits.now }
{
    !digits.is_empty() && digits.len() % 2 == 0 && are_hex(digits)
}

// The report of the record that hex digits spell, its first 256 bytes.
fn put_record(page: &mut Page<'_>, digits: &[u8])
    ensures { page.new ≡ put page.old (record_text (bytes_in 256 digits.now)) }
{
    let mut record = [0u8; 256];
    let n = read_bytes(digits, &mut record);
    put_record_report(page, &record[..n]);
}

// The report of a word that begins with `record=`, or why it is no record.
#[tactic(auto, using(pages::proofs::Putting::puts), unfolding(crate::specs::ParkText::record_word))]
fn put_record_word(page: &mut Page<'_>, word: &[u8])
    ensures { page.new ≡ put page.old (record_word word.now) }
{
    let digits = later_bytes(word, 7);
    if !are_bytes(digits) {
        put_problem(page, word, Problem::NotARecord);
    } else if digits.len() > 512 {
        put_problem(page, word, Problem::RecordTooLong);
    } else {
        put_record(page, digits);
    }
}

// Whether the first word begins with `record=` and no other follows it.
fn is_record_alone(mut words: Words<'_>) -> bool
    ensures { result ≡ is_record_alone (get_or (words_left words.entry) 0 []) (drop 1 (words_left words.entry)) }
{
    words.next().is_some_and(is_record) && words.next().is_none()
}

// The report of a record that stands alone, or what the words ask for.
#[tactic(auto, using(pages::proofs::Putting::puts), unfolding(crate::specs::ParkText::typed_text))]
fn put_typed_text(page: &mut Page<'_>, words: Words<'_>)
    requires { 0 < length (words_left words) }
    ensures { page.new ≡ put page.old (typed_text (get_or (words_left words.entry) 0 []) (drop 1 (words_left words.entry))) }
{
    if is_record_alone(words) {
        put_record_word(page, nth_word(words, 0));
    } else {
        put_words(page, words);
    }
}

// What is printed for the words of a text, each ended by a newline: the report of the readings, or of the
// record that is the only word, or the sheet where the first word is `sheet`, or what is wrong with the
// first word that is not understood, or how to use the program where there is no word or the first asks
// for help. The text is left as it was.
#[tactic(auto, using(pages::proofs::Putting::puts), unfolding(crate::specs::ParkText::park_text))]
pub fn put_park_text(page: &mut Page<'_>, text: &[u8])
    ensures { page.new ≡ put page.old (park_text (arguments text.now)) }
{
    let words = Words::new(text);
    let mut after = words;
    match after.next() {
        Some(word) if !is_help(word) => put_typed_text(page, words),
        _ => put_usage(page),
    }
}
