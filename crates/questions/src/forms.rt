// The forms of arguments. A letter stands for each: r a record, x a double, w a word, both by their sixteen
// hex digits, o a double that may be absent, n a number; a question's letters are its shape.
#![tactic(auto, using(pages::proofs::Putting::puts, pages::proofs::Same::same_is), unfolding(crate::specs::Forms::given_in, crate::specs::Forms::fits, crate::specs::Forms::wrong_line))]

ghost use Rattle.std.specs.Prelude.{◌≡◌};
ghost use Rattle.pages.specs.Pages.{put};
ghost use Rattle.questions.specs.Words.{line_parts};
ghost use Rattle.questions.specs.Forms.{is_word, is_none, given_in, is_record, is_number, is_of, are_of, fits, kind_text, kind_texts, wrong_line};

use crate::digits::{are_hex, number_in, word_in};
use crate::words::{nth_word, word_count};
use pages::Page;

// The word that sixteen hex digits spell, or `none`. The text is left as it was.
pub fn given_in(text: &[u8]) -> Option<u64>
    ensures answered { result ≡ given_in text.now }
    ensures kept { text.now ≡ text.now }
{
    if text == b"none".as_slice() {
        return None;
    }
    Some(word_in(text))
}

fn is_word(text: &[u8]) -> bool
    ensures { result ≡ is_word text.now }
{
    text.len() == 16 && are_hex(text)
}

fn is_word_or_none(text: &[u8]) -> bool
    ensures { result ≡ is_none text.now }
{
    text == b"none".as_slice() || is_word(text)
}

fn is_record(text: &[u8]) -> bool
    ensures { result ≡ is_record text.now }
{
    text == b"-".as_slice() || !text.is_empty() && text.len() % 2 == 0 && are_hex(text)
}

fn is_number(text: &[u8]) -> bool
    ensures { result ≡ is_number text.now }
{
    number_in(text).is_some()
}

fn is_of(letter: u8, text: &[u8]) -> bool
    ensures { result ≡ is_of letter text.now }
{
    match letter {
        b'r' => is_record(text),
        b'o' => is_word_or_none(text),
        b'n' => is_number(text),
        _ => is_word(text),
    }
}

// Whether each argument is of its letter's form.
fn are_of(line: &[u8], shape: &[u8]) -> bool
    ensures { result ≡ are_of (line_parts line.now) shape.now }
{
    for (i, &letter) in shape.iter().enumerate() {
        if !is_of(letter, nth_word(line, i + 1)) {
            return false;
        }
    }
    true
}

// Whether the words of a line after the first are as many as the letters of the shape, and of their forms.
// Both are left as they were.
pub fn fits(line: &[u8], shape: &[u8]) -> bool
    ensures answered { result ≡ fits (line_parts line.now) shape.now }
    ensures kept { line.now ≡ line.now }
    ensures left { shape.now ≡ shape.now }
{
    word_count(line) == shape.len() + 1 && are_of(line, shape)
}

fn put_kind(page: &mut Page<'_>, letter: u8)
    ensures { page.new ≡ put page.old (kind_text letter) }
{
    match letter {
        b'r' => page.put(b" RECORD"),
        b'x' => page.put(b" DOUBLE"),
        b'o' => page.put(b" DOUBLE|none"),
        b'n' => page.put(b" NUMBER"),
        _ => page.put(b" WORD"),
    }
}

fn put_kinds(page: &mut Page<'_>, shape: &[u8])
    ensures { page.new ≡ put page.old (kind_texts shape.now) }
{
    for &letter in shape {
        put_kind(page, letter);
    }
}

// What is said where the arguments of a question do not fit its shape: the question and what is expected.
// Both are left as they were.
pub fn put_wrong(page: &mut Page<'_>, name: &[u8], shape: &[u8])
    ensures put { page.new ≡ put page.old (wrong_line name.now shape.now) }
    ensures kept { name.now ≡ name.now }
    ensures left { shape.now ≡ shape.now }
{
    page.put(b"wrong arguments: expected ");
    page.put(name);
    put_kinds(page, shape);
    page.put(b"\n");
}
