// The questions about one record, by number.
#![tactic(auto, using(pages::proofs::Putting::puts), unfolding(crate::specs::Records::record_answer_text))]

ghost use Rattle.std.specs.Prelude.{◌≡◌, false};
ghost use Rattle.pages.specs.Pages.{put};
ghost use Rattle.record.specs.Readings.{read_record};
ghost use Rattle.sheet.specs.Sheet.{setting_sheet};
ghost use Rattle.lines.specs.Records.{read_text, sheet_text, record_answer_text};

use crate::classes::put_next_class;
use crate::value_lines::put_answer_values;
use crate::written::{put_counts, put_doubles};
use mast::judge::{judge, judge_strictly};
use pages::Page;
use record::readings::read_record;
use report::Origin;
use sheet::page::setting_sheet;
use text::answer_lines::{put_answer, put_refusal};

// The report of a record, or why it is not read.
fn put_report(page: &mut Page<'_>, record: &[u8])
    ensures { page.new ≡ put page.old (read_text (read_record false «record».now)) }
{
    match read_record(record) {
        Ok(readings) => report::put_report(page, readings, Origin::Record),
        Err(refusal) => put_refusal(page, refusal),
    }
}

// What is answered about a record to the question with a number: 0 the judge, 1 the strict one, 2 and 3 the
// same with a refusal's values, 4 the trim class, 5 the record in counts, 6 in doubles, and else the report.
// The record is left as it was.
pub(crate) fn put_of_record(page: &mut Page<'_>, number: usize, record: &[u8])
    ensures put { page.new ≡ put page.old (record_answer_text number «record».now) }
    ensures kept { «record».now ≡ «record».now }
{
    match number {
        0 => put_answer(page, judge(record)),
        1 => put_answer(page, judge_strictly(record)),
        2 => put_answer_values(page, judge(record)),
        3 => put_answer_values(page, judge_strictly(record)),
        4 => put_next_class(page, record),
        5 => put_counts(page, record),
        6 => put_doubles(page, record),
        _ => put_report(page, record),
    }
}

// The rows of the setting sheet, or its refusal.
pub(crate) fn put_sheet(
    page: &mut Page<'_>,
    altitude_m: f64,
    pressure_hpa: f64,
    humidity_percent: f64,
)
    ensures { page.new ≡ put page.old (sheet_text (setting_sheet altitude_m pressure_hpa humidity_percent 1530)) }
{
    let mut rows = [0u8; 1530];
    match setting_sheet(altitude_m, pressure_hpa, humidity_percent, &mut rows) {
        Ok(()) => page.put(&rows),
        Err(refusal) => put_refusal(page, refusal),
    }
}
