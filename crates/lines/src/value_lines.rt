// Values and refusals with their values as text on a page.
#![tactic(auto, using(pages::proofs::Putting::puts), unfolding(crate::specs::Values::value_text, crate::specs::Values::values_text, crate::specs::Values::refusal_values))]

ghost use Rattle.std.specs.Prelude.{◌≡◌, ◌++◌};
ghost use Rattle.refusal.specs.Refusals.{number_of, values_of, listed};
ghost use Rattle.refusal.specs.Outcomes.{outcome};
ghost use Rattle.arithmetic.specs.Ascii.{ascii};
ghost use Rattle.pages.specs.Pages.{put};
ghost use Rattle.lines.specs.Values.{whole, value_text, values_text, refusal_values, answer_values};

use fields::bits::pattern;
use pages::Page;
use refusal::judge::Figures;
use refusal::{Refusal, Values, handed_out, number};
use text::answer_lines::put_figures;

// A double's digits, or `nan`.
pub(crate) fn put_value(page: &mut Page<'_>, x: f64)
    ensures { page.new ≡ put page.old (value_text x) }
{
    if x.is_nan() {
        page.put(b"nan");
    } else {
        page.put_digits(pattern(x));
    }
}

// A number below 256.
pub(crate) fn put_whole(page: &mut Page<'_>, n: u8)
    ensures { page.new ≡ put page.old (whole n) }
{
    if n < 100 {
        page.put_number(n);
    } else {
        page.put(&[b'0' + n / 100, b'0' + n / 10 % 10, b'0' + n % 10]);
    }
}

// A blank and a value.
pub(crate) fn put_next_value(page: &mut Page<'_>, x: f64)
    ensures { page.new ≡ put page.old (ascii " " ++ value_text x) }
{
    page.put(b" ");
    put_value(page, x);
}

fn put_handed_out(page: &mut Page<'_>, values: Values)
    ensures { page.new ≡ put page.old (values_text (listed values)) }
{
    match values {
        Values::None => {}
        Values::One(x) => put_next_value(page, x),
        Values::Two(x, y) => {
            put_next_value(page, x);
            put_next_value(page, y);
        }
    }
}

// The line of a refusal, with the values that it hands out.
pub(crate) fn put_refusal_values(page: &mut Page<'_>, refusal: Refusal)
    ensures { page.new ≡ put page.old (refusal_values (number_of refusal) (values_of refusal)) }
{
    page.put(b"refused ");
    page.put_number(number(refusal));
    put_handed_out(page, handed_out(refusal));
    page.put(b"\n");
}

// The two lines of the figures, or the one of a refusal with its values.
pub(crate) fn put_answer_values(page: &mut Page<'_>, answer: Result<Figures, Refusal>)
    ensures { page.new ≡ put page.old (answer_values (outcome answer)) }
{
    match answer {
        Ok(figures) => put_figures(page, figures),
        Err(refusal) => put_refusal_values(page, refusal),
    }
}
