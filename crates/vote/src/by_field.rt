// The vote on the fields of three records, by meaning: each takes the middle of the three values.
ghost use Rattle.std.specs.Prelude.{◌≡◌};
ghost use Rattle.vote.specs.Fields.{is_not_in_all, any_not_in_all, with_middle, voted};

use arithmetic::middle::middle;
use fields::fields::MEANINGS;
use record::entries::{Readings, entry_of, no_readings, with_entry};

// Whether one or two of three entries are there.
fn is_not_in_all(a: Option<f64>, b: Option<f64>, c: Option<f64>) -> bool
    ensures { result ≡ is_not_in_all a b c }
{
    let first = a.is_some();
    let second = b.is_some();
    let third = c.is_some();
    (first | second | third) & !(first & second & third)
}

// Whether some field is in one or two of three records.
pub(crate) fn any_not_in_all(a: Readings, b: Readings, c: Readings) -> bool
    ensures { result ≡ any_not_in_all a b c }
{
    (0..MEANINGS).any(|meaning| is_not_in_all(
        entry_of(a, meaning),
        entry_of(b, meaning),
        entry_of(c, meaning),
    ))
}

// The readings with the middle of three entries.
fn with_middle(
    readings: Readings,
    meaning: usize,
    a: Option<f64>,
    b: Option<f64>,
    c: Option<f64>,
) -> Readings
    ensures { result ≡ with_middle readings meaning a b c }
{
    let (Some(x), Some(y), Some(z)) = (a, b, c) else {
        return readings;
    };
    with_entry(readings, meaning, middle(x, y, z))
}

// The middle of each field that is in all three.
#[tactic(auto, unfolding(crate::specs::Fields::voted_of))]
pub fn voted(a: Readings, b: Readings, c: Readings) -> Readings
    ensures { result ≡ voted a b c }
{
    let mut readings = no_readings();
    for meaning in 0..MEANINGS {
        readings = with_middle(
            readings,
            meaning,
            entry_of(a, meaning),
            entry_of(b, meaning),
            entry_of(c, meaning),
        );
    }
    readings
}
