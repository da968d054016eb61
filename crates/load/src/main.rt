// Writes the load for the acceptance bench: of each record its bytes, and its figures. No contract can
// say what is read or written, so this is all that stands outside of one.
#![tactic(auto)]

use load_text::asked::asked_for;
use load_text::blocks::put_records;
use std::env::{Env, FillError};
use std::io;

// Longer words than this ask for nothing.
const WORD: usize = 64;

// The bytes of a piece.
const PAGE: usize = 65536;

// How many words the program was started with, its own name among them.
fn word_count<E: Env>(env: &E) -> usize {
    for i in 0..usize::MAX {
        if let Err(FillError::NotPresent) = env.arg(i, &mut []) {
            return i;
        }
    }
    usize::MAX
}

// How many records are asked for by the words that the program was started with.
fn asked<E: Env>(env: &E) -> Option<u32> {
    let mut word = [0u8; WORD];
    let length = env.arg(1, &mut word).unwrap_or(0);
    asked_for(word_count(env), &word[..length])
}

// The first records, in pieces of many.
fn write_records<P: Print>(rt: &P, count: u32) -> io::Result<()> {
    let mut page = [0u8; PAGE];
    let mut first = 0;
    while first < count {
        let block = put_records(&mut page, first, count - first);
        let length = block.length;
        rt.write_all(&page[..length])?;
        first += block.records;
    }
    Ok(())
}

// Ten thousand records, or as many as its argument says. Where that asks for nothing that there is, what
// there is is written. Where the output fails, nothing more is written.
fn main(rt: HostRuntime) {
    let _ = match asked(&rt) {
        Some(count) => write_records(&rt, count),
        None => rt.write_all(
            b"usage: load [COUNT], a whole number from 0 to 2147483, 10000 if there is none\n",
        ),
    };
}
