// A line with a figure: its name, its decimal text at the right of sixteen places, its unit.
#![tactic(auto, using(pages::proofs::Putting::puts), unfolding(crate::specs::Columns::figure_line))]

ghost use Rattle.std.specs.Prelude.{◌≡◌};
ghost use Rattle.decimals.specs.Decimal.{decimal_text};
ghost use Rattle.pages.specs.Pages.{put};
ghost use Rattle.report.specs.Columns.{column, figure_line};

use decimals::shown::decimal_text;
use pages::Page;

fn put_decimal(page: &mut Page<'_>, x: f64, decimals: u32)
    ensures { page.new ≡ put page.old (column (decimal_text decimals x)) }
{
    let text = decimal_text(x, decimals);
    match text.as_bytes() {
        Some(_) => page.put(&text.bytes),
        None => page.put(b"        too wide"),
    }
}

// The line of a figure. The name and the unit are left as they were.
pub fn put_figure(page: &mut Page<'_>, name: &[u8], x: f64, decimals: u32, unit: &[u8])
    ensures { page.new ≡ put page.old (figure_line name.now decimals x unit.now) }
{
    page.put(name);
    put_decimal(page, x, decimals);
    page.put(unit);
}
