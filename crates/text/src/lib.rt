// The text of an answer: two lines with the eight figures and their mark, or `refused` and the number; and
// which answer a program is asked for.
#![tactic(auto, using(pages::proofs::Putting::puts))]

pub mod answer_lines;

ghost use Rattle.std.specs.Prelude.{◌≡◌, take};
ghost use Rattle.pages.specs.Pages.{put};
ghost use Rattle.text.specs.Asked.{asked_by, asked_text};

use crate::answer_lines::put_answer;
use mast::judge::{judge, judge_strictly};
use pages::Page;

// The order in which a record's fields may stand.
#[derive(Clone, Copy, PartialEq, Eq)]
pub enum Order {
    AnyOrder,
    RisingTags,
}

// The order that is asked for by the words that the program was started with: how many there are, its own
// name among them, and the one after its name. None where they ask for nothing that there is.
#[tactic(auto, using(pages::proofs::Same::same_is))]
pub fn asked_for(count: usize, word: &[u8]) -> Option<Order>
    ensures value { result ≡ asked_by count word.now }
    ensures kept { word.now ≡ word.now }
{
    match count {
        0 | 1 => Some(Order::AnyOrder),
        2 if word == b"strict".as_slice() => Some(Order::RisingTags),
        _ => None,
    }
}

// The bytes that a record is judged by, its first 256.
fn judged_part(record: &[u8]) -> &[u8]
    ensures { result.now ≡ take 256 «record».now }
{
    &record[..256_usize.min(record.len())]
}

// The text of what is asked of a record, on the page, as far as the page reaches. The record is left as it
// was.
pub fn put_asked(page: &mut Page<'_>, asked: Option<Order>, record: &[u8])
    ensures put { page.new ≡ put page.old (asked_text asked «record».now) }
    ensures kept { «record».now ≡ «record».now }
{
    match asked {
        Some(Order::AnyOrder) => put_answer(page, judge(judged_part(record))),
        Some(Order::RisingTags) => put_answer(page, judge_strictly(judged_part(record))),
        None => page.put(b"usage: station_air [strict] <RECORD\n"),
    }
}
