// The answers to lines of input, one after the other.
ghost use Rattle.std.specs.Prelude.{◌≡◌};
ghost use Rattle.ask_run.specs.Answered.{Answered};

use lines::put_line_answer;
use pages::Page;
use questions::line_ends::first_line;

// An answer is begun with so many bytes free; none is longer than 4,096.
const LONGEST: usize = 4096;

// How many lines were answered, how many bytes of input they are, and how many the answers are.
#[derive(Clone, Copy)]
pub struct Progress {
    pub lines: usize,
    pub taken: usize,
    pub written: usize,
}

// All the answers to the lines at the head of the input, at the start of the page, as long as there is a
// whole line and room for the longest answer. Where the input has ended, the last line may lack its
// newline. The input is left as it was.
pub fn answer_lines(input: &[u8], ended: bool, page: &mut [u8]) -> Progress
    ensures answered { Answered ended input.now page.old page.new result }
    ensures kept { input.now ≡ input.now }
{
    let room = page.len();
    let mut page = Page::new(page);
    let mut lines = 0;
    let mut taken = 0;
    while room - page.position() >= LONGEST {
        let rest = &input[taken..];
        let Some(line) = first_line(rest, ended) else {
            break;
        };
        put_line_answer(&mut page, &rest[..line.end]);
        taken += line.next;
        lines += 1;
    }
    Progress {
        lines,
        taken,
        written: page.position(),
    }
}
