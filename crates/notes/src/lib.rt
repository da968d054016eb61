// The notes of a report: what was used in place of what was given, and what can hardly have been meant.
#![tactic(auto, using(pages::proofs::Putting::puts, crate::proofs::Printed::printing), unfolding(crate::specs::Notes::notes, crate::specs::Notes::note_lines))]

mod doubts;
mod given;
mod pressures;
mod ranges;
mod used;
mod words;

ghost use Rattle.std.specs.Prelude.{◌≡◌};
ghost use Rattle.pages.specs.Pages.{put};
ghost use Rattle.notes.specs.Notes.{note_lines};

use crate::doubts::put_doubts;
use crate::given::{Given, Noted};
use crate::pressures::put_pressures;
use crate::ranges::put_ranges;
use crate::used::{as_given, put_used};
use mast::judge::answer_of;
use pages::Page;
use record::entries::Readings;
use refusal::judge::Figures;

// The notes that hold for readings and their figures, on the page. `point` says that the altitude was typed
// with a point that may mean thousands.
pub fn put_notes(page: &mut Page<'_>, readings: Readings, figures: Figures, point: bool)
    ensures { page.new ≡ put page.old (note_lines point readings figures) }
{
    let noted = Noted {
        given: Given::from(readings),
        figures,
    };
    put_used(page, noted, answer_of(as_given(readings)));
    put_pressures(page, noted);
    put_ranges(page, noted);
    put_doubts(page, noted, point);
}
