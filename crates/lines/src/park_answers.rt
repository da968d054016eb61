// The question `park`: what the program `park` prints for the words of a line.
#![tactic(auto, using(pages::proofs::Putting::puts), unfolding(crate::specs::Typed::park_answer))]

ghost use Rattle.std.specs.Prelude.{◌≡◌, length};
ghost use Rattle.pages.specs.Pages.{Holds, put};
ghost use Rattle.lines.specs.Typed.{typed_byte, typed_at, typed_text, park_answer};

use pages::Page;
use pages::scan::find;
use park_text::put_park_text;

// A line has room for no more words.
const ROOM: usize = 4096;

// A blank ends a word, and a tab stands for a blank in one.
fn typed_byte(b: u8) -> u8
    ensures { result ≡ typed_byte b }
{
    match b {
        b' ' => b'\n',
        b'\t' => b' ',
        _ => b,
    }
}

// The byte of a line at a position, and the newline that ends its last word past it.
fn typed_at(line: &[u8], at: usize) -> u8
    ensures { result ≡ typed_at line.now at }
{
    match line.get(at) {
        Some(&b) => typed_byte(b),
        None => b'\n',
    }
}

// The words after the first, each ended by a newline, at the start of the buffer; how many bytes they are.
fn typed_text(line: &[u8], out: &mut [u8]) -> usize
    ensures { Holds (typed_text (length out.old) line.now) out.new result }
{
    let blank = find(line, 0, line.len(), b' ');
    let count = (line.len() - blank).min(out.len());
    for i in 0..count {
        out[i] = typed_at(line, blank + 1 + i);
    }
    count
}

// What is printed. The line is left as it was.
pub(crate) fn put_park(page: &mut Page<'_>, line: &[u8])
    ensures put { page.new ≡ put page.old (park_answer line.now) }
    ensures kept { line.now ≡ line.now }
{
    let mut typed = [0u8; ROOM];
    let n = typed_text(line, &mut typed);
    put_park_text(page, &typed[..n]);
}
