// The text of the load: of each record its bytes in hex digits on a line, then the two lines of its
// figures.
#![tactic(auto, using(pages::proofs::Putting::puts), unfolding(crate::specs::Text::bytes_line, crate::specs::Text::judged_text, crate::specs::Text::load_record_text))]

ghost use Rattle.std.specs.Prelude.{◌≡◌, length};
ghost use Rattle.pages.specs.Pages.{put, Holds};
ghost use Rattle.refusal.specs.Outcomes.{outcome};
ghost use Rattle.load_text.specs.Records.{load_record};
ghost use Rattle.load_text.specs.Text.{bytes_line, judged_text, load_record_text, records_in, length_taken, Fills};

use crate::records::write_load_record;
use mast::judge::judge;
use pages::Page;
use refusal::Refusal;
use text::answer_lines::put_answer;

// The bytes of the longest record: four fields of seven.
const LONGEST: usize = 28;

// A record's text has no more: two digits for each byte and a newline, and two lines of figures.
const ROOM: usize = 207;

// How many records there are, and how many bytes their text has.
#[derive(Clone, Copy)]
pub struct Block {
    pub records: u32,
    pub length: usize,
}

fn put_bytes(page: &mut Page<'_>, record: &[u8])
    ensures put { page.new ≡ put page.old (bytes_line «record».now) }
    ensures kept { «record».now ≡ «record».now }
{
    page.put_hex(record);
    page.put(b"\n");
}

// A record's bytes on a line, and the text of what the judge says of it.
fn put_judged(page: &mut Page<'_>, record: &[u8])
    ensures { page.new ≡ put page.old (judged_text «record».now) }
{
    put_bytes(page, record);
    put_answer(page, judge(record));
}

fn length_of(answer: Result<usize, Refusal>) -> usize
    ensures { result ≡ length_taken (outcome answer) }
{
    answer.unwrap_or(0)
}

// A record at the start of the bytes, and its length.
#[derive(Clone, Copy)]
struct RecordBytes {
    bytes: [u8; LONGEST],
    len: usize,
}

fn record_numbered(number: u64) -> RecordBytes
    ensures { Holds (load_record number) result.bytes result.len }
{
    let mut bytes = [0u8; LONGEST];
    let len = length_of(write_load_record(number, &mut bytes));
    RecordBytes { bytes, len }
}

// The bytes of the load's record with this number, on a line.
pub fn put_load_record(page: &mut Page<'_>, number: u64)
    ensures { page.new ≡ put page.old (bytes_line (load_record number)) }
{
    let RecordBytes { bytes, len } = record_numbered(number);
    put_bytes(page, &bytes[..len]);
}

fn put_record(page: &mut Page<'_>, number: u64)
    ensures { page.new ≡ put page.old (load_record_text number) }
{
    let RecordBytes { bytes, len } = record_numbered(number);
    put_judged(page, &bytes[..len]);
}

// How many of so many records have room.
fn records_in(count: u32, length: usize) -> u32
    ensures { result ≡ records_in count length }
{
    (count as usize).min(length / ROOM) as u32
}

// The text of so many records from number `first` on, or of as many of them as a page has room for with
// 207 bytes for each, at the start of the page. What is past it is left.
pub fn put_records(page: &mut [u8], first: u32, count: u32) -> Block
    ensures { Fills first (records_in count (length page.old)) page.old page.new result }
{
    let records = records_in(count, page.len());
    let mut page = Page::new(page);
    for i in 0..records {
        put_record(&mut page, first as u64 + i as u64);
    }
    Block {
        records,
        length: page.position(),
    }
}
