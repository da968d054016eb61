// The decimal text of a double.
#![tactic(auto, using(pages::proofs::Putting::puts), unfolding(crate::specs::Decimal::shown_line, crate::specs::Decimal::decimal_answer))]

ghost use Rattle.std.specs.Prelude.{◌≡◌};
ghost use Rattle.pages.specs.Pages.{put};
ghost use Rattle.decimals.specs.Decimal.{decimal_text};
ghost use Rattle.questions.specs.Words.{line_parts};
ghost use Rattle.lines.specs.Decimal.{shown_line, decimal_answer};

use decimals::shown::decimal_text;
use pages::Page;
use questions::arguments::{double_at, number_at};

fn put_shown(page: &mut Page<'_>, x: f64, decimals: u32)
    ensures { page.new ≡ put page.old (shown_line (decimal_text decimals x)) }
{
    let text = decimal_text(x, decimals);
    let bytes = text.as_bytes().unwrap_or(&[]);
    if bytes.is_empty() {
        page.put(b"none\n");
    } else {
        page.put(bytes);
        page.put(b"\n");
    }
}

pub(crate) fn put_decimal(page: &mut Page<'_>, line: &[u8])
    ensures { page.new ≡ put page.old (decimal_answer (line_parts line.now)) }
{
    // no number has room for more decimals
    let decimals = number_at(line, 1).min(15) as u32;
    let x = double_at(line, 2);
    put_shown(page, x, decimals);
}
