// The lines that functions answer.
#![tactic(auto, using(pages::proofs::Putting::puts), unfolding(crate::specs::Texts::value_line, crate::specs::Texts::pair_line, crate::specs::Texts::three_line, crate::specs::Texts::pair_truth_line, crate::specs::Texts::some_line, crate::specs::Texts::hex_pair_line))]

ghost use Rattle.std.specs.Prelude.{◌≡◌};
ghost use Rattle.pages.specs.Pages.{put};
ghost use Rattle.lines.specs.Texts.{value_line, pair_line, three_line, truth_line, pair_truth_line, some_line, option_line, hex_pair_line};

use crate::value_lines::{put_next_value, put_value};
use atmosphere::given::Reading;
use pages::Page;

pub(crate) fn put_value_line(page: &mut Page<'_>, x: f64)
    ensures { page.new ≡ put page.old (value_line x) }
{
    put_value(page, x);
    page.put(b"\n");
}

pub(crate) fn put_pair(page: &mut Page<'_>, x: f64, y: f64)
    ensures { page.new ≡ put page.old (pair_line x y) }
{
    put_value(page, x);
    put_next_value(page, y);
    page.put(b"\n");
}

pub(crate) fn put_three(page: &mut Page<'_>, x: f64, y: f64, z: f64)
    ensures { page.new ≡ put page.old (three_line x y z) }
{
    put_value(page, x);
    put_next_value(page, y);
    put_next_value(page, z);
    page.put(b"\n");
}

pub(crate) fn put_truth(page: &mut Page<'_>, truth: bool)
    ensures { page.new ≡ put page.old (truth_line truth) }
{
    page.put(if truth {
        b"true\n".as_slice()
    } else {
        b"false\n".as_slice()
    });
}

pub(crate) fn put_pair_truth(page: &mut Page<'_>, x: f64, y: f64, truth: bool)
    ensures { page.new ≡ put page.old (pair_truth_line x y truth) }
{
    put_value(page, x);
    put_next_value(page, y);
    page.put(b" ");
    put_truth(page, truth);
}

fn put_some(page: &mut Page<'_>, x: f64)
    ensures { page.new ≡ put page.old (some_line x) }
{
    page.put(b"some ");
    put_value_line(page, x);
}

pub(crate) fn put_reading(page: &mut Page<'_>, reading: Reading)
    ensures { page.new ≡ put page.old (option_line reading) }
{
    match reading {
        Reading::Given(x) => put_some(page, x),
        Reading::FromLayer => page.put(b"none\n"),
    }
}

pub(crate) fn put_words(page: &mut Page<'_>, a: u64, b: u64)
    ensures { page.new ≡ put page.old (hex_pair_line a b) }
{
    page.put_digits(a);
    page.put(b" ");
    page.put_digits(b);
    page.put(b"\n");
}
