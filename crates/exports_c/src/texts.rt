// Texts for people: the report of a record, and what is said of a refusal by its number. The page has room
// for the longest of them, so that none is cut.
ghost use Rattle.std.specs.Prelude.{◌≡◌};
ghost use Rattle.sheet.specs.Over.{over_or_left};
ghost use Rattle.exports.specs.Lent.{status_of};
ghost use Rattle.exports.specs.Texts.{report_on, words_on, text_length_or};

// Writes the report of a record, or why it is not read, at the start of the page, and its length. 16 where
// the page has fewer than 2,842 bytes and two for each of the record's, which leaves `page` and `length` as
// they were. The record is left.
#[unsafe(no_mangle)]
pub extern "C" fn station_air_report(record: &[u8], page: &mut [u8], length: &mut usize) -> u32
    ensures value { result ≡ status_of (report_on «record».now page.old) }
    ensures page_after { page.new ≡ over_or_left page.old 0 (report_on «record».now page.old) }
    ensures length_after { length.new ≡ text_length_or length.old (report_on «record».now page.old) }
    ensures record_value { «record».now ≡ «record».now }
{
    exports::texts::station_air_report(record, page, length)
}

// Writes the cause of a refusal's number and what to do at the start of the page, and their length. 16 where
// the page has fewer than 236 bytes, else 253 where the number has no words; these leave `page` and `length`
// as they were.
#[unsafe(no_mangle)]
pub extern "C" fn station_air_refusal_words(number: u32, page: &mut [u8], length: &mut usize) -> u32
    ensures value { result ≡ status_of (words_on number page.old) }
    ensures page_after { page.new ≡ over_or_left page.old 0 (words_on number page.old) }
    ensures length_after { length.new ≡ text_length_or length.old (words_on number page.old) }
{
    exports::texts::station_air_refusal_words(number, page, length)
}
