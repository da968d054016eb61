// The question `write`: readings as items, `TAG=DATA`, and the record that is written of them.
#![tactic(auto, using(pages::proofs::Putting::puts), unfolding(crate::specs::Items::write_answer))]

ghost use Rattle.std.specs.Prelude.{◌≡◌, take, drop, ◌+◌, ◌*◌, ◌&&◌, eqb, length};
ghost use Rattle.questions.specs.Digits.{are_hex};
ghost use Rattle.fields.specs.Fields.{is_tag, data_size};
ghost use Rattle.pages.specs.Pages.{put};
ghost use Rattle.questions.specs.Words.{line_parts};
ghost use Rattle.lines.specs.Items.{item_tag, is_item, value_in, with_item, items_in, write_answer};

use crate::written::put_record;
use fields::bits::double;
use fields::fields::{Value, data_size, is_count_tag, is_tag, meaning_of};
use pages::Page;
use questions::digits::{are_hex, word_in};
use questions::words::{nth_word, word_count};
use record::entries::{Readings, entry_of, no_readings, with_value};

// The digits of the tag, and those of the data behind `=`.
fn tag_part(item: &[u8]) -> &[u8]
    ensures { result.now ≡ take 2 item.now }
{
    &item[..item.len().min(2)]
}

fn data_part(item: &[u8]) -> &[u8]
    ensures { result.now ≡ drop 3 item.now }
{
    &item[item.len().min(3)..]
}

#[tactic(auto, unfolding(crate::specs::Items::item_tag))]
fn tag_in(item: &[u8]) -> u8
    ensures { result ≡ item_tag item.now }
{
    (word_in(tag_part(item)) % 256) as u8
}

// The length of an item.
fn item_size(tag: u8) -> usize
    ensures { result ≡ 3 + 2 * data_size tag }
{
    3 + 2 * data_size(tag)
}

// Whether an item has as many digits of data as its tag asks for.
fn has_data(item: &[u8], tag: u8) -> bool
    ensures { result ≡ (eqb (length item.now) (3 + 2 * data_size tag) && are_hex (drop 3 item.now)) }
{
    item.len() == item_size(tag) && are_hex(data_part(item))
}

#[tactic(auto, unfolding(crate::specs::Items::is_item))]
fn is_item(item: &[u8]) -> bool
    ensures { result ≡ is_item item.now }
{
    let tag = tag_in(item);
    item.len() >= 3
        && are_hex(tag_part(item))
        && item[2] == b'='
        && is_tag(tag)
        && has_data(item, tag)
}

#[tactic(auto, unfolding(crate::specs::Items::value_in))]
fn value_in(item: &[u8]) -> Value
    ensures { result ≡ value_in item.now }
{
    let data = word_in(data_part(item));
    if is_count_tag(tag_in(item)) {
        return Value::Count((data % 0x1_0000_0000) as u32);
    }
    Value::Double(double(data))
}

// The readings with those of one item more; none where it is not understood or comes twice.
fn with_item(readings: Readings, item: &[u8]) -> Option<Readings>
    ensures { result ≡ with_item readings item.now }
{
    if !is_item(item) {
        return None;
    }
    let meaning = meaning_of(tag_in(item));
    if entry_of(readings, meaning).is_some() {
        return None;
    }
    Some(with_value(readings, meaning, value_in(item)))
}

fn read_items(line: &[u8]) -> Option<Readings>
    ensures { result ≡ items_in (line_parts line.now) }
{
    let mut readings = no_readings();
    for i in 1..word_count(line) {
        readings = with_item(readings, nth_word(line, i))?;
    }
    Some(readings)
}

// The record of the items of a line, its length before it, or what is expected. The line is left as it was.
pub(crate) fn put_write(page: &mut Page<'_>, line: &[u8])
    ensures { page.new ≡ put page.old (write_answer (line_parts line.now)) }
{
    match read_items(line) {
        Some(readings) => put_record(page, readings),
        None => page.put(
            b"wrong arguments: expected write TAG=DATA .., 01 to 07 with 16 hex digits or 11 to 17 with 8, no reading twice\n",
        ),
    }
}
