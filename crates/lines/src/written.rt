// The bytes of a record that is written or converted.
#![tactic(auto, using(pages::proofs::Putting::puts), unfolding(crate::specs::Written::bytes_text, crate::specs::Written::length_text, crate::specs::Written::written_text))]

ghost use Rattle.std.specs.Prelude.{◌≡◌, true, false, ◌≤◌, length};
ghost use Rattle.pages.specs.Pages.{put};
ghost use Rattle.writer.specs.Conversion.{converted};
ghost use Rattle.load_text.specs.Text.{length_taken};
ghost use Rattle.refusal.specs.Outcomes.{outcome, accepted};
ghost use Rattle.writer.specs.Records.{record_of};
ghost use Rattle.lines.specs.Written.{bytes_text, length_text, written_text, text_in};

use crate::value_lines::put_whole;
use pages::Page;
use record::entries::Readings;
use refusal::Refusal;
use text::answer_lines::put_refusal;
use writer::conversion::{to_counts, to_doubles};
use writer::write;

// A record has no more bytes.
const ROOM: usize = 154;

fn put_bytes(page: &mut Page<'_>, bytes: &[u8])
    ensures { page.new ≡ put page.old (bytes_text bytes.now) }
{
    if bytes.is_empty() {
        page.put(b"-");
    } else {
        page.put_hex(bytes);
    }
}

fn put_length(page: &mut Page<'_>, bytes: &[u8])
    requires { length bytes.now ≤ 154 }
    ensures { page.new ≡ put page.old (length_text bytes.now) }
{
    put_whole(page, bytes.len() as u8);
    page.put(b" ");
    put_bytes(page, bytes);
    page.put(b"\n");
}

// What a writer has left at the start of its buffer, the length before it, or its refusal.
fn put_written(page: &mut Page<'_>, answer: Result<usize, Refusal>, out: &[u8])
    requires { (length out.now ≡ 154) × (length_taken (outcome answer) ≤ 154) }
    ensures { page.new ≡ put page.old (text_in length_text (outcome answer) out.now) }
{
    match answer {
        Ok(n) => put_length(page, &out[..n]),
        Err(refusal) => put_refusal(page, refusal),
    }
}

// The record in counts, its length before it, or its refusal. The record is left as it was.
pub(crate) fn put_counts(page: &mut Page<'_>, record: &[u8])
    ensures put { page.new ≡ put page.old (written_text (converted true «record».now)) }
    ensures kept { «record».now ≡ «record».now }
{
    let mut out = [0u8; ROOM];
    let answer = to_counts(record, &mut out);
    put_written(page, answer, &out);
}

// The record in doubles, likewise.
pub(crate) fn put_doubles(page: &mut Page<'_>, record: &[u8])
    ensures put { page.new ≡ put page.old (written_text (converted false «record».now)) }
    ensures kept { «record».now ≡ «record».now }
{
    let mut out = [0u8; ROOM];
    let answer = to_doubles(record, &mut out);
    put_written(page, answer, &out);
}

// The record of readings, likewise.
pub(crate) fn put_record(page: &mut Page<'_>, readings: Readings)
    ensures { page.new ≡ put page.old (written_text (accepted (record_of readings))) }
{
    let mut out = [0u8; ROOM];
    let answer = write(readings, &mut out);
    put_written(page, answer, &out);
}
