// The words of a command line, as `altitude=1586`, understood as readings by meaning, or the first word
// that is none and why.
#![tactic(auto)]

ghost use Rattle.std.specs.Prelude.{◌≡◌};
ghost use Rattle.park_text.specs.Words.{words_left};
ghost use Rattle.park_text.specs.Word.{read_word};
ghost use Rattle.park_text.specs.Understood.{value_of, with_typed, understand};

use crate::typed_word::{Problem, read_word};
use crate::words::Words;
use fields::fields::Value;
use record::entries::{Readings, entry_of, no_readings, with_value};
use thousandths::{count_of, word_from};

// What is wrong with the first word that was not understood, and its number, counted from 0.
#[derive(Clone, Copy, Debug, PartialEq, Eq)]
pub struct WrongWord {
    pub problem: Problem,
    pub number: usize,
}

// A reading as it is kept: the count of thousandths whose double it is, where there is one.
#[tactic(auto, unfolding(crate::specs::Understood::value_of))]
fn value_of(x: f64) -> Value
    ensures { result ≡ value_of x }
{
    match count_of(x) {
        Some(n) => Value::Count(word_from(n)),
        None => Value::Double(x),
    }
}

// The readings with those of one word more.
fn with_word(readings: Readings, word: &[u8], number: usize) -> Result<Readings, WrongWord>
    ensures { result ≡ with_typed readings number (read_word word.now) }
{
    let typed = read_word(word).map_err(|problem| WrongWord { problem, number })?;
    if entry_of(readings, typed.meaning).is_some() {
        return Err(WrongWord {
            problem: Problem::RepeatedWord,
            number,
        });
    }
    Ok(with_value(readings, typed.meaning, value_of(typed.reading)))
}

// The readings that words give, or the first problem in the order of the words.
pub fn read_words(words: Words<'_>) -> Result<Readings, WrongWord>
    ensures { result ≡ understand (words_left words.entry) }
{
    let mut readings = no_readings();
    for (number, word) in words.enumerate() {
        readings = with_word(readings, word, number)?;
    }
    Ok(readings)
}
