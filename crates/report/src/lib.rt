// The readable report of readings: a line for each figure, the trim class, the mark in words, the notes; or
// what is said of a refusal; and the record in hex. And that of a record.
#![tactic(auto, using(pages::proofs::Putting::puts), unfolding(crate::specs::Report::accepted_lines, crate::specs::Report::noted_lines, crate::specs::Report::record_line, crate::specs::Report::report_text, crate::specs::Report::record_text))]

pub mod advice;
mod air_lines;
mod columns;
mod fault;
mod trim_lines;

ghost use Rattle.std.specs.Prelude.{◌≡◌};
ghost use Rattle.writer.specs.Records.{record_of};
ghost use Rattle.mast.specs.Judge.{judged};
ghost use Rattle.pages.specs.Pages.{put};
ghost use Rattle.report.specs.Report.{accepted_lines, point_in, noted_lines, answer_lines, record_line, report_text, record_text};

use crate::advice::{put_cause, put_refused};
use crate::air_lines::{put_air, put_mark, put_station};
use crate::trim_lines::{next_class, put_next, put_trim};
use mast::judge::judge_readings;
use notes::put_notes;
use pages::Page;
use record::entries::Readings;
use record::readings::read_record;
use refusal::judge::Figures;
use refusal::number;
use trim::classes::trim_class;
use writer::write;

// Where readings come from: a record, or words that were typed, which say whether the altitude was typed
// with a point that may mean thousands.
#[derive(Clone, Copy)]
pub enum Origin {
    Record,
    Words(bool),
}

fn put_accepted(page: &mut Page<'_>, readings: Readings, figures: Figures)
    ensures { page.new ≡ put page.old (accepted_lines readings figures) }
{
    put_station(page, figures);
    put_air(page, figures);
    put_trim(page, trim_class(figures.density_kg_m3));
    put_next(page, next_class(readings, figures));
    put_mark(page, figures.in_cipm_range);
}

// Whether the altitude was typed with a point that may mean thousands.
fn point_in(origin: Origin) -> bool
    ensures { result ≡ point_in origin }
{
    match origin {
        Origin::Record => false,
        Origin::Words(point) => point,
    }
}

fn put_noted(page: &mut Page<'_>, readings: Readings, figures: Figures, origin: Origin)
    ensures { page.new ≡ put page.old (noted_lines origin readings figures) }
{
    put_accepted(page, readings, figures);
    put_notes(page, readings, figures, point_in(origin));
}

fn put_answer(page: &mut Page<'_>, readings: Readings, origin: Origin)
    ensures { page.new ≡ put page.old (answer_lines origin readings (judged readings)) }
{
    match judge_readings(readings) {
        Ok(figures) => put_noted(page, readings, figures, origin),
        Err(refusal) => put_refused(page, origin, readings, refusal),
    }
}

fn put_record_line(page: &mut Page<'_>, bytes: &[u8])
    ensures { page.new ≡ put page.old (record_line bytes.now) }
{
    page.put(b"record ");
    page.put_hex(bytes);
    page.put(b"\n");
}

fn put_record(page: &mut Page<'_>, readings: Readings)
    ensures { page.new ≡ put page.old (record_line (record_of readings)) }
{
    let mut record = [0u8; 154];
    if let Ok(length) = write(readings, &mut record) {
        put_record_line(page, &record[..length]);
    }
}

// The report of any readings.
pub fn put_report(page: &mut Page<'_>, readings: Readings, origin: Origin)
    ensures { page.new ≡ put page.old (report_text origin readings) }
{
    put_answer(page, readings, origin);
    put_record(page, readings);
}

// The report of a record, with its tags in any order, or why it is not read.
pub fn put_record_report(page: &mut Page<'_>, bytes: &[u8])
    ensures { page.new ≡ put page.old (record_text bytes.now) }
{
    match read_record(bytes) {
        Ok(readings) => put_report(page, readings, Origin::Record),
        Err(refusal) => {
            page.put_refusal(number(refusal));
            put_cause(page, Origin::Record, number(refusal));
            put_record_line(page, bytes);
        }
    }
}
