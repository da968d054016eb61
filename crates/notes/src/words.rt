// The pieces of a note's line: a figure without blanks before it, with the words around it.
#![tactic(auto, using(pages::proofs::Putting::puts))]

ghost use Rattle.std.specs.Prelude.{◌≡◌, ◌++◌};
ghost use Rattle.pages.specs.Pages.{put};
ghost use Rattle.decimals.specs.Shown.{shown};
ghost use Rattle.notes.specs.Words.{when};

use decimals::figures::put_shown;
use pages::Page;

// A figure with so many decimals, between words. These are left as they were.
pub(crate) fn put_figured(page: &mut Page<'_>, before: &[u8], x: f64, decimals: u32, after: &[u8])
    ensures { page.new ≡ put page.old (before.now ++ shown decimals x ++ after.now) }
{
    page.put(before);
    put_shown(page, x, decimals);
    page.put(after);
}

// The same where a test holds.
pub(crate) fn put_figured_if(
    page: &mut Page<'_>,
    holds: bool,
    before: &[u8],
    x: f64,
    decimals: u32,
    after: &[u8],
)
    ensures { page.new ≡ put page.old (when holds (before.now ++ shown decimals x ++ after.now)) }
{
    if holds {
        put_figured(page, before, x, decimals, after);
    }
}

pub(crate) fn put_if(page: &mut Page<'_>, holds: bool, words: &[u8])
    ensures { page.new ≡ put page.old (when holds words.now) }
{
    if holds {
        page.put(words);
    }
}
