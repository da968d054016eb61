// A figure on a page, without blanks before it.
#![tactic(auto, using(pages::proofs::Putting::puts))]

ghost use Rattle.std.specs.Prelude.{◌-◌, ◌≡◌, drop};
ghost use Rattle.pages.specs.Pages.{put};
ghost use Rattle.decimals.specs.Shown.{shown};

use crate::shown::decimal_text;
use pages::Page;

// The last `count` of sixteen places.
pub fn put_last(page: &mut Page<'_>, places: &[u8; 16], count: usize)
    ensures { page.new ≡ put page.old (drop (16 - count) places.now) }
{
    page.put(&places[16_usize.saturating_sub(count)..]);
}

// A figure with so many decimals.
pub fn put_shown(page: &mut Page<'_>, x: f64, decimals: u32)
    ensures { page.new ≡ put page.old (shown decimals x) }
{
    let text = decimal_text(x, decimals);
    match text.as_bytes() {
        Some(bytes) => page.put(bytes),
        None => page.put(b"too wide"),
    }
}
