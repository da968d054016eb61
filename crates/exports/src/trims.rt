// The trim class of a density, and how close the next one is.
#![tactic(auto, unfolding(crate::specs::Lent::with_room))]

ghost use Rattle.std.specs.Prelude.{◌≡◌, pos};
ghost use Rattle.trim.specs.Classes.{trim_class};
ghost use Rattle.exports.specs.Lent.{status_of, values_after};
ghost use Rattle.exports.specs.Trims.{quantity_tag, signed_tenths, trim_numbers, trim_in, answer_after};

use crate::lent::{FIGURES, TOO_SHORT, hand_out, put_refusal};
use trim::changes::{Direction, Quantity};
use trim::classes::trim_class;
use trim::search::{Next, next_trim_class};

// The trim class of a density, kg/m3.
pub fn station_air_trim_class(density_kg_m3: f64) -> u32
    ensures { result ≡ trim_class density_kg_m3 }
{
    u32::from(trim_class(density_kg_m3))
}

fn tag_of(quantity: Quantity) -> i32
    ensures { result ≡ pos (quantity_tag quantity) }
{
    match quantity {
        Quantity::Temperature => 2,
        Quantity::MeasuredPressure => 7,
    }
}

fn signed_tenths(direction: Direction, tenths: u8) -> i32
    ensures { result ≡ signed_tenths direction tenths }
{
    match direction {
        Direction::Up => i32::from(tenths),
        Direction::Down => -i32::from(tenths),
    }
}

// The class, and the tag, the tenths and the class of the change; without one 0, 0 and the class again.
fn numbers_of(next: Next) -> [i32; 4]
    ensures { result ≡ trim_numbers next }
{
    let class = i32::from(next.class);
    match next.turn {
        None => [class, 0, 0, class],
        Some(turn) => {
            let change = turn.change;
            let tenths = signed_tenths(change.direction, change.tenths);
            [
                class,
                tag_of(change.quantity),
                tenths,
                i32::from(turn.class),
            ]
        }
    }
}

// The trim class of a record and the smallest change of its temperature or measured pressure that gives
// another, as four numbers in `answer`: the class, the tag of the field changed, 2 or 7, the tenths with
// their sign, and the new class; 0, 0 and the class again where no change does. Or the record's refusal,
// or 22 where one of the two is absent, with its values in `lent`. The record is left as it was.
pub fn station_air_next_trim_class(record: &[u8], lent: &mut [f64], answer: &mut [i32]) -> u32
    ensures value { result ≡ status_of (trim_in lent.old answer.old «record».now) }
    ensures lent_after { lent.new ≡ values_after lent.old (trim_in lent.old answer.old «record».now) }
    ensures answer_after { answer.new
        ≡ answer_after answer.old (trim_in lent.old answer.old «record».now) }
    ensures record_value { «record».now ≡ «record».now }
{
    if lent.len() < 2 || answer.len() < 4 {
        return TOO_SHORT;
    }
    match next_trim_class(record) {
        Ok(next) => {
            hand_out(answer, &numbers_of(next));
            FIGURES
        }
        Err(refusal) => put_refusal(lent, refusal),
    }
}
