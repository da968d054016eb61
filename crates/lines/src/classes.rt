// The trim class and the smallest change that gives another.
#![tactic(auto, using(pages::proofs::Putting::puts), unfolding(crate::specs::Classes::turn_text))]

ghost use Rattle.std.specs.Prelude.{◌≡◌, ◌++◌};
ghost use Rattle.arithmetic.specs.Ascii.{ascii};
ghost use Rattle.pages.specs.Pages.{put};
ghost use Rattle.lines.specs.Values.{whole};
ghost use Rattle.trim.specs.Search.{next_trim_class};
ghost use Rattle.lines.specs.Classes.{direction_text, quantity_text, turn_text, class_text};

use crate::value_lines::put_whole;
use pages::Page;
use text::answer_lines::put_refusal;
use trim::changes::{Direction, Quantity, Turn};
use trim::search::next_trim_class;

fn put_direction(page: &mut Page<'_>, direction: Direction)
    ensures { page.new ≡ put page.old (direction_text direction) }
{
    match direction {
        Direction::Up => page.put(b" up "),
        Direction::Down => page.put(b" down "),
    }
}

fn put_quantity(page: &mut Page<'_>, quantity: Quantity)
    ensures { page.new ≡ put page.old (quantity_text quantity) }
{
    match quantity {
        Quantity::Temperature => page.put(b" temperature"),
        Quantity::MeasuredPressure => page.put(b" pressure"),
    }
}

fn put_turn(page: &mut Page<'_>, turn: Turn)
    ensures { page.new ≡ put page.old (turn_text turn) }
{
    let change = turn.change;
    put_quantity(page, change.quantity);
    put_direction(page, change.direction);
    put_whole(page, change.tenths);
    page.put(b" class ");
    put_whole(page, turn.class);
    page.put(b"\n");
}

fn put_class(page: &mut Page<'_>, class: u8)
    ensures { page.new ≡ put page.old (ascii "class " ++ whole class) }
{
    page.put(b"class ");
    put_whole(page, class);
}

// The class of a record and the change, or the refusal. The record is left as it was.
pub(crate) fn put_next_class(page: &mut Page<'_>, record: &[u8])
    ensures put { page.new ≡ put page.old (class_text (next_trim_class «record».now)) }
    ensures kept { «record».now ≡ «record».now }
{
    match next_trim_class(record) {
        Ok(next) => {
            put_class(page, next.class);
            match next.turn {
                Some(turn) => put_turn(page, turn),
                None => page.put(b" none\n"),
            }
        }
        Err(refusal) => put_refusal(page, refusal),
    }
}
