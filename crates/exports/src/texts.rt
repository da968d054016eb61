// Texts for people: the report of a record, and what is said of a refusal by its number. The page has room
// for the longest of them, so that none is cut.
ghost use Rattle.std.specs.Prelude.{◌≡◌, ◌+◌, ◌*◌, leb};
ghost use Rattle.sheet.specs.Over.{over_or_left};
ghost use Rattle.exports.specs.Lent.{status_of};
ghost use Rattle.exports.specs.Texts.{report_on, has_words, words_on, text_length_or};

use crate::lent::FIGURES;
use pages::Page;
use report::advice::put_cause;
use report::{Origin, put_record_report};

// The status of a page that is too short for the longest text.
const PAGE_TOO_SHORT: u32 = 16;

// The status of a number that has no words.
const NO_WORDS: u32 = 253;

// The bytes of the longest text on a number, and on a record beside two for each of its bytes.
const WORDS: usize = 236;

const REPORT: usize = 2842;

fn has_room(page: usize, record: usize) -> bool
    ensures { result ≡ leb (2842 + 2 * «record») page }
{
    page >= REPORT && record <= (page - REPORT) / 2
}

// Writes the report of a record, or why it is not read, at the start of the page, and its length. 16 where
// the page has fewer than 2,842 bytes and two for each of the record's, which leaves `page` and `length` as
// they were. The record is left.
pub fn station_air_report(record: &[u8], page: &mut [u8], length: &mut usize) -> u32
    ensures value { result ≡ status_of (report_on «record».now page.old) }
    ensures page_after { page.new ≡ over_or_left page.old 0 (report_on «record».now page.old) }
    ensures length_after { length.new ≡ text_length_or length.old (report_on «record».now page.old) }
    ensures record_value { «record».now ≡ «record».now }
{
    if !has_room(page.len(), record.len()) {
        return PAGE_TOO_SHORT;
    }
    let mut page = Page::new(page);
    put_record_report(&mut page, record);
    *length = page.position();
    FIGURES
}

fn has_words(number: u32) -> bool
    ensures { result ≡ has_words number }
{
    matches!(number, 1..=15 | 17)
}

// Writes the cause of a refusal's number and what to do at the start of the page, and their length. 16 where
// the page has fewer than 236 bytes, else 253 where the number has no words; these leave `page` and `length`
// as they were.
pub fn station_air_refusal_words(number: u32, page: &mut [u8], length: &mut usize) -> u32
    ensures value { result ≡ status_of (words_on number page.old) }
    ensures page_after { page.new ≡ over_or_left page.old 0 (words_on number page.old) }
    ensures length_after { length.new ≡ text_length_or length.old (words_on number page.old) }
{
    if page.len() < WORDS {
        return PAGE_TOO_SHORT;
    }
    if !has_words(number) {
        return NO_WORDS;
    }
    let mut page = Page::new(page);
    put_cause(&mut page, Origin::Record, number as u8);
    *length = page.position();
    FIGURES
}
