// The arguments of a question: words of its line, by number, the question itself being number 0.
ghost use Rattle.std.specs.Prelude.{◌≡◌, [], length, get_or};
ghost use Rattle.questions.specs.Words.{line_parts};
ghost use Rattle.questions.specs.Digits.{hex_number, bytes_in};
ghost use Rattle.pages.specs.Pages.{Holds};
ghost use Rattle.questions.specs.Arguments.{double_in, number_or};

use crate::digits::{number_in, read_bytes, word_in};
use crate::words::nth_word;
use fields::bits::double;

// The word of sixteen hex digits, and 0 where there is none. The line is left as it was.
pub fn word_at(line: &[u8], i: usize) -> u64
    ensures answered { result ≡ hex_number (get_or (line_parts line.now) i []) }
    ensures kept { line.now ≡ line.now }
{
    word_in(nth_word(line, i))
}

// The double with that pattern. The line is left as it was.
pub fn double_at(line: &[u8], i: usize) -> f64
    ensures answered { result ≡ double_in (get_or (line_parts line.now) i []) }
    ensures kept { line.now ≡ line.now }
{
    double(word_at(line, i))
}

// The decimal number, and 0 where there is none. The line is left as it was.
pub fn number_at(line: &[u8], i: usize) -> u64
    ensures answered { result ≡ number_or (get_or (line_parts line.now) i []) }
    ensures kept { line.now ≡ line.now }
{
    number_in(nth_word(line, i)).unwrap_or(0)
}

// The bytes of the record, as many as the buffer has room for, at its start; how many these are. The line
// is left as it was.
pub fn record_at(line: &[u8], i: usize, out: &mut [u8]) -> usize
    ensures read { Holds (bytes_in (length out.old) (get_or (line_parts line.now) i [])) out.new result }
    ensures kept { line.now ≡ line.now }
{
    read_bytes(nth_word(line, i), out)
}
