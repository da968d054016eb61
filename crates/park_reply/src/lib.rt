// What the program `park` does, for it and for the programs that try it on other words. No contract can
// say what is read or written, so this is all that stands outside of one.
#![tactic(auto)]

ghost use Rattle.std.specs.Prelude.{◌≡◌, length, IfSome};
ghost use Rattle.park_reply.specs.Counts.{IsPrefixLen};
ghost use Rattle.pages.specs.Pages.{Holds};
ghost use Rattle.park_text.specs.Words.{arguments};
ghost use Rattle.park_text.specs.ParkText.{too_long_text, park_text};

use pages::Page;
use park_text::{put_park_text, put_too_long};
use std::env::{Env, FillError};

// The bytes of all words together, each with a newline after it.
const ROOM: usize = 4096;

// No text that is printed has more bytes.
const PAGE: usize = 4096;

// The words that the program was started with, each ended by a newline, at the start of the buffer; how many
// bytes that is, if they are not too long: what would be left of them might be other readings. An argument
// with a newline in it is as many words.
fn gather<E: Env>(env: &E, words: &mut [u8]) -> Option<usize>
    ensures { IfSome result (λ n. IsPrefixLen n words.new) }
{
    let mut at = 0;
    for i in 1..usize::MAX {
        let n = match env.arg(i, &mut words[at..]) {
            Ok(n) => n,
            Err(FillError::NotPresent) => return Some(at),
            Err(_) => return None,
        };
        if n >= words.len() - at {
            return None;
        }
        words[at + n] = b'\n';
        at += n + 1;
    }
    None
}

// All that is printed for the words, at the start of the page; how many bytes it has.
fn put_text(page: &mut [u8], text: &[u8]) -> usize
    requires { length page.old ≡ 4096 }
    ensures { Holds (park_text (arguments text.now)) page.new result }
{
    let mut page = Page::new(page);
    put_park_text(&mut page, text);
    page.position()
}

fn put_cut(page: &mut [u8]) -> usize
    requires { length page.old ≡ 4096 }
    ensures { Holds too_long_text page.new result }
{
    let mut line = Page::new(page);
    put_too_long(&mut line);
    line.position()
}

// Writes what is printed for the words. Where the output fails, nothing is said.
pub fn reply<R: Env + Print>(rt: &R) {
    let mut words = [0u8; ROOM];
    let mut page = [0u8; PAGE];
    let length = match gather(rt, &mut words) {
        Some(n) => put_text(&mut page, &words[..n]),
        None => put_cut(&mut page),
    };
    let _ = rt.write_all(&page[..length]);
}
