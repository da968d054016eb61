// The functions by whole numbers alone: log word, antilog, root, and the decimal text of a double.
#![tactic(auto, using(pages::proofs::Putting::puts), unfolding(crate::specs::Rules::log_answer, crate::specs::Rules::antilog_answer, crate::specs::Rules::root_line, crate::specs::Rules::root_answer))]

ghost use Rattle.std.specs.Prelude.{◌≡◌};
ghost use Rattle.pages.specs.Pages.{put};
ghost use Rattle.questions.specs.Words.{line_parts};
ghost use Rattle.lines.specs.Rules.{whole_of, part_of, log_line, log_answer, log_word_of, word_line, antilog_answer, root_answer};

use crate::texts::{put_value_line, put_words};
use antilog::antilog::antilog;
use arithmetic::wide::Wide;
use arithmetic::word::{ONES, Word};
use elementary::log::log_word;
use pages::Page;
use questions::arguments::{double_at, word_at};
use roots::quick::both_roots;

// The whole part of a word in two's complement.
fn whole_of(w: Word) -> u64
    ensures { result ≡ whole_of w }
{
    if w.negative {
        0xffff_ffff_ffff_ffff - w.whole as u64
    } else {
        w.whole as u64
    }
}

// What is left of it.
fn part_of(w: Word) -> u64
    ensures { result ≡ part_of w }
{
    if w.negative {
        if w.part > ONES { 0 } else { ONES - w.part }
    } else {
        w.part
    }
}

fn put_logarithm(page: &mut Page<'_>, logarithm: Option<Word>)
    ensures { page.new ≡ put page.old (log_line logarithm) }
{
    match logarithm {
        Some(w) => put_words(page, whole_of(w), part_of(w)),
        None => page.put(b"none\n"),
    }
}

pub(crate) fn put_log_word(page: &mut Page<'_>, line: &[u8])
    ensures { page.new ≡ put page.old (log_answer (line_parts line.now)) }
{
    let logarithm = log_word(double_at(line, 1));
    put_logarithm(page, logarithm);
}

// A word by its whole part in two's complement and what is left of it; none where the one is past 32 bits or
// the other past 60.
fn word_of(k: u64, f: u64) -> Option<Word>
    ensures { result ≡ log_word_of k f }
{
    if f > ONES {
        None
    } else if k < 0x1_0000_0000 {
        Some(Word {
            negative: false,
            whole: k as u32,
            part: f,
        })
    } else if k >= 0xffff_ffff_0000_0000 {
        Some(Word {
            negative: true,
            whole: (0xffff_ffff_ffff_ffff - k) as u32,
            part: ONES - f,
        })
    } else {
        None
    }
}

fn put_power_of_two(page: &mut Page<'_>, word: Option<Word>)
    ensures { page.new ≡ put page.old (word_line word) }
{
    match word {
        Some(w) => put_value_line(page, antilog(w)),
        None => page.put(
            b"wrong arguments: expected antilog WORD WORD, FFFFFFFF00000000 to 00000000FFFFFFFF and below 1000000000000000\n",
        ),
    }
}

pub(crate) fn put_antilog(page: &mut Page<'_>, line: &[u8])
    ensures { page.new ≡ put page.old (antilog_answer (line_parts line.now)) }
{
    let k = word_at(line, 1);
    let f = word_at(line, 2);
    put_power_of_two(page, word_of(k, f));
}

pub(crate) fn put_root(page: &mut Page<'_>, line: &[u8])
    ensures { page.new ≡ put page.old (root_answer (line_parts line.now)) }
{
    let hi = word_at(line, 1);
    let lo = word_at(line, 2);
    let roots = both_roots(u128::from(Wide { hi, lo }));
    put_words(page, roots.first, roots.quick);
}
