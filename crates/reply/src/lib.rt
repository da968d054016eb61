// What the program does, for it and for the programs that try it on other inputs. No contract can say
// what is read or written, so this is all that stands outside of one.
#![tactic(auto)]

ghost use Rattle.std.specs.Prelude.{◌≡◌, length};
ghost use Rattle.reply.specs.Counts.{IsPrefixLen};
ghost use Rattle.pages.specs.Pages.{Holds};
ghost use Rattle.text.specs.Asked.{asked_text};

use pages::Page;
use std::env::{Env, FillError};
use std::io::Read;
use text::{Order, asked_for, put_asked};

// Longer words than this ask for nothing.
const WORD: usize = 16;

// No text that is asked for has more bytes.
const PAGE: usize = 150;

// How many words the program was started with, its own name among them.
fn word_count<E: Env>(env: &E) -> usize {
    for i in 0..usize::MAX {
        if let Err(FillError::NotPresent) = env.arg(i, &mut []) {
            return i;
        }
    }
    usize::MAX
}

// The order that is asked for by the words that the program was started with.
fn asked<E: Env>(env: &E) -> Option<Order> {
    let mut word = [0u8; WORD];
    let length = env.arg(1, &mut word).unwrap_or(0);
    asked_for(word_count(env), &word[..length])
}

// Reads until the record is full, the input ends or a read fails; how many bytes were read.
fn read_full<R: Read>(input: &mut R, record: &mut [u8]) -> usize
    ensures { IsPrefixLen result «record».new }
{
    let mut done = 0;
    while done < record.len() {
        match input.read(&mut record[done..]) {
            Ok(0) | Err(_) => break,
            Ok(n) => done += n,
        }
    }
    done
}

// How many bytes were read, none where nothing is asked for.
fn read_for<R: Input>(rt: &R, how: Option<Order>, record: &mut [u8]) -> usize
    ensures { IsPrefixLen result «record».new }
{
    if how.is_none() {
        return 0;
    }
    read_full(&mut rt.reader(), record)
}

// All the text that is asked for, at the start of the page; how many bytes it has.
fn put_text(page: &mut [u8], how: Option<Order>, record: &[u8]) -> usize
    requires { length page.old ≡ 150 }
    ensures { Holds (asked_text how «record».now) page.new result }
{
    let mut page = Page::new(page);
    put_asked(&mut page, how, record);
    page.position()
}

// Reads one mast record from standard input, judged by its first 256 bytes, and writes its figures or
// its refusal, by the reader that the program's argument asks for. Where the input ends early or fails,
// what came before is the record. Where the argument asks for nothing that there is, nothing is read, and
// what there is is written. Where the output fails, nothing is said.
pub fn reply<R: Env + Input + Print>(rt: &R) {
    let how = asked(rt);
    let mut record = [0u8; 256];
    let n = read_for(rt, how, &mut record);
    let mut page = [0u8; PAGE];
    let len = put_text(&mut page, how, &record[..n]);
    let _ = rt.write_all(&page[..len]);
}
