// What is kept of the input for the next turn.
ghost use Rattle.pages.specs.Pages.{Holds};
ghost use Rattle.ask_run.specs.Kept.{kept_of};

// A line of more bytes is too long, whatever follows, and without a carriage return too.
const ENOUGH: usize = 4098;

// Moves the bytes from `taken` up to `all` to the start of the buffer; how many they are. Of a line that is
// too long already the bytes past its first 4,098 are dropped.
pub fn keep(buffer: &mut [u8], taken: usize, all: usize) -> usize
    ensures { Holds (kept_of buffer.old taken all) buffer.new result }
{
    let end = all.min(buffer.len());
    let start = taken.min(end);
    let count = (end - start).min(ENOUGH);
    buffer.copy_within(start..start + count, 0);
    count
}
