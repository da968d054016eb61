// The answer to a line.
#![tactic(auto, using(pages::proofs::Putting::puts), unfolding(crate::specs::Answers::record_answer, crate::specs::Answers::vote_answer, crate::specs::Answers::sheet_answer, crate::specs::Answers::load_answer, crate::specs::Answers::known_answer, crate::specs::Answers::question_answer, crate::specs::Answers::answer_line))]

mod asked;
mod classes;
mod decimal;
mod item_answers;
mod park_answers;
mod records;
mod rules;
mod source;
mod stations;
mod texts;
mod value_lines;
mod votes;
mod written;

ghost use Rattle.std.specs.Prelude.{◌≡◌};
ghost use Rattle.pages.specs.Pages.{put};
ghost use Rattle.questions.specs.Words.{line_parts};
ghost use Rattle.lines.specs.Answers.{record_answer, vote_answer, sheet_answer, load_answer, known_answer, question_answer, answer_line};

use crate::asked::put_function_answer;
use crate::item_answers::put_write;
use crate::park_answers::put_park;
use crate::records::{put_of_record, put_sheet};
use crate::votes::put_vote;
use load_text::blocks::put_load_record;
use pages::Page;
use questions::arguments::{double_at, number_at, record_at};
use questions::forms::{fits, put_wrong};
use questions::words::{nth_word, place};

// A line has room for no longer record.
const ROOM: usize = 2048;

fn put_record_answer(page: &mut Page<'_>, number: usize, line: &[u8])
    ensures { page.new ≡ put page.old (record_answer number (line_parts line.now)) }
{
    let mut record = [0u8; ROOM];
    let n = record_at(line, 1, &mut record);
    put_of_record(page, number, &record[..n]);
}

fn put_vote_answer(page: &mut Page<'_>, line: &[u8])
    ensures { page.new ≡ put page.old (vote_answer (line_parts line.now)) }
{
    let mut first = [0u8; ROOM];
    let a = record_at(line, 1, &mut first);
    let mut second = [0u8; ROOM];
    let b = record_at(line, 2, &mut second);
    let mut third = [0u8; ROOM];
    let c = record_at(line, 3, &mut third);
    put_vote(page, &first[..a], &second[..b], &third[..c]);
}

fn put_sheet_answer(page: &mut Page<'_>, line: &[u8])
    ensures { page.new ≡ put page.old (sheet_answer (line_parts line.now)) }
{
    let altitude_m = double_at(line, 1);
    let pressure_hpa = double_at(line, 2);
    let humidity_percent = double_at(line, 3);
    put_sheet(page, altitude_m, pressure_hpa, humidity_percent);
}

fn put_load_answer(page: &mut Page<'_>, line: &[u8])
    ensures { page.new ≡ put page.old (load_answer (line_parts line.now)) }
{
    let number = number_at(line, 1);
    put_load_record(page, number);
}

// The answer to the question with a number, whose arguments fit its shape.
fn put_known(page: &mut Page<'_>, number: usize, line: &[u8])
    ensures { page.new ≡ put page.old (known_answer number (line_parts line.now)) }
{
    match number {
        8 => put_vote_answer(page, line),
        9 => put_sheet_answer(page, line),
        10 => put_load_answer(page, line),
        _ => put_record_answer(page, number, line),
    }
}

fn put_question(page: &mut Page<'_>, line: &[u8])
    ensures { page.new ≡ put page.old (question_answer line.now) }
{
    let names =
        b"judge strict judge-values strict-values class counts doubles report vote sheet load write park";
    let number = place(nth_word(line, 0), names);
    match number {
        0..=10 => {
            let shapes = b"r r r r r r r r rrr xxx n";
            let shape = nth_word(shapes, number);
            if fits(line, shape) {
                put_known(page, number, line);
            } else {
                put_wrong(page, nth_word(names, number), shape);
            }
        }
        11 => put_write(page, line),
        12 => put_park(page, line),
        _ => put_function_answer(page, line),
    }
}

// The answer to a line, its end not counted, as much of it as there is room for. The line is left as it was.
pub fn put_line_answer(page: &mut Page<'_>, line: &[u8])
    ensures put { page.new ≡ put page.old (answer_line line.now) }
    ensures kept { line.now ≡ line.now }
{
    if line.len() > 4096 {
        page.put(b"line too long: expected 4096 bytes at most\n");
    } else if line.is_empty() {
        page.put(b"\n");
    } else {
        put_question(page, line);
    }
}
