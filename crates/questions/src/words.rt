// The words of a line, one blank between two of them.
ghost use Rattle.std.specs.Prelude.{◌≡◌, [], length, get_or};
ghost use Rattle.questions.specs.Words.{line_parts, place_in};

// How many words a line has. The line is left as it was.
pub fn word_count(line: &[u8]) -> usize
    ensures answered { result ≡ length (line_parts line.now) }
    ensures kept { line.now ≡ line.now }
{
    line.split(|&b| b == b' ').count()
}

// Word `number` of a line, counted from 0, and nothing where there is no such word. The line is left as it
// was.
pub fn nth_word(line: &[u8], number: usize) -> &[u8]
    ensures answered { result.now ≡ get_or (line_parts line.now) number [] }
    ensures kept { line.now ≡ line.now }
{
    line.split(|&b| b == b' ').nth(number).unwrap_or(&[])
}

// The place of a word among the words of a line, counted from 0, or how many there are where it is none of
// them. Both are left as they were.
pub fn place(word: &[u8], names: &[u8]) -> usize
    ensures answered { result ≡ place_in (line_parts names.now) word.now }
    ensures kept { word.now ≡ word.now }
    ensures left { names.now ≡ names.now }
{
    names
        .split(|&b| b == b' ')
        .take_while(|name| *name != word)
        .count()
}
