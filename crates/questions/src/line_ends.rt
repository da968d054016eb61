// Input as lines.
ghost use Rattle.std.specs.Prelude.{◌≡◌, ◌≤◌, length};
ghost use Rattle.questions.specs.Lines.{before_return, found_line};

// Where the line at the head of some input ends, its end not counted, and where the next begins.
#[derive(Clone, Copy)]
pub struct Line {
    pub end: usize,
    pub next: usize,
}

// The end of a line whose newline, or the input's end, is at `newline`.
fn before_return(input: &[u8], newline: usize) -> usize
    requires { newline ≤ length input.now }
    ensures { result ≡ before_return input.now newline }
{
    match input[..newline].last() {
        Some(&b'\r') => newline - 1,
        _ => newline,
    }
}

// The line at the head of the input, where a newline ends it or where the input has ended and it is the
// last. The input is left as it was.
pub fn first_line(input: &[u8], ended: bool) -> Option<Line>
    ensures answered { result ≡ found_line ended input.now }
    ensures kept { input.now ≡ input.now }
{
    match input.iter().position(|&b| b == b'\n') {
        Some(newline) => Some(Line {
            end: before_return(input, newline),
            next: newline + 1,
        }),
        None if ended && !input.is_empty() => Some(Line {
            end: before_return(input, input.len()),
            next: input.len(),
        }),
        None => None,
    }
}
